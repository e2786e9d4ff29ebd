ghost use Rattle.std.specs.Prelude.{◌≡◌, ◌&&◌, ◌==◌};
ghost use Rattle.base.specs.Texts.{fitting};
ghost use Rattle.package.specs.Words.{name_length, version_length, byte_count, bytes};
ghost use Rattle.package.specs.Checks.{head_fault, text_fault, item_fault, right_count, right_bytes};

use crate::rules::TextRule;
use crate::word::Word;
use base::{Reason, TextKind};

// Whether a head's lengths are those of a package.
pub fn package_lengths(word: Word) -> bool
    ensures { result ≡ (fitting TextKind.Name (name_length word.0) && fitting TextKind.Version (version_length word.0)) }
{
    TextKind::Name.fits(word.name_length()) && TextKind::Version.fits(word.version_length())
}

// Whether a head's lengths are those of a name alone.
pub fn name_lengths(word: Word) -> bool
    ensures { result ≡ (fitting TextKind.Name (name_length word.0) && version_length word.0 == 0) }
{
    TextKind::Name.fits(word.name_length()) && word.version_length() == 0
}

// What is wrong with the head of a package, or of a name alone; `lengths` says whether its lengths are allowed.
pub fn head_fault(lengths: bool, word: Word) -> Option<Reason>
    ensures { result ≡ head_fault lengths word.0 }
{
    if !word.is_head() {
        return Some(Reason::WrongWord);
    }
    (!lengths).then_some(Reason::OutsideLimits)
}

fn right_count(rule: TextRule, left: usize, count: usize) -> bool
    ensures { result ≡ right_count rule left count }
{
    match rule {
        TextRule::Spelled(_) => count == left.min(3),
        TextRule::Free => {
            let least = if left <= 3 { 1 } else { 3 };
            (least..=3).contains(&count)
        }
    }
}

// Whether the bytes that the word carries may stand there.
fn right_bytes(rule: TextRule, begun: bool, word: Word) -> bool
    ensures { result ≡ right_bytes rule begun (bytes word.0) }
{
    match rule {
        TextRule::Spelled(kind) => {
            let n = word.byte_count().min(3);
            let three = word.three_bytes();
            kind.spells(begun, &three[0..n])
        }
        TextRule::Free => true,
    }
}

// What is wrong with a word of a text of which `left` bytes are to come.
pub fn text_fault(rule: TextRule, left: usize, begun: bool, word: Word) -> Option<Reason>
    ensures { result ≡ text_fault rule left begun word.0 }
{
    if !word.is_text() {
        return Some(Reason::WrongWord);
    }
    let right = right_count(rule, left, word.byte_count()) && right_bytes(rule, begun, word);
    (!right).then_some(Reason::OutsideLimits)
}

// What is wrong with the first word of a file, or with the end word.
pub fn item_fault(files: usize, floor: usize, place: usize, word: Word) -> Option<Reason>
    ensures { result ≡ item_fault files floor place word.0 }
{
    if word.is_end() {
        return (word.end_count() != place).then_some(Reason::WrongEndCount);
    }
    if !word.is_file() {
        return Some(Reason::WrongWord);
    }
    if files >= 24 || word.content_length() > 32 {
        return Some(Reason::OutsideLimits);
    }
    (floor > word.path() as usize).then_some(Reason::PathNotRising)
}
