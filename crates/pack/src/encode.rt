ghost use Rattle.std.specs.Prelude.{◌≡◌, ◌<◌, ◌≤◌, [], ◌∷◌, ◌++◌, length, MatchOption, OnOk};
ghost use Rattle.package.specs.Packages.{text_word, text_words};

use crate::description::{Description, Entry};
use base::FileKind;
use std::alloc::{AllocError, Global};

// A text word with so many bytes.
fn text_word(count: u8, a: u8, b: u8, c: u8) -> u32
    requires { count ≤ 3 }
    ensures { result ≡ text_word count a b c }
{
    u32::from_be_bytes([0x20 + count, a, b, c])
}

// The first word of a text, and the bytes that stand in later ones.
fn first_text_word(text: &[u8]) -> Option<(u32, &[u8])>
    ensures { MatchOption result (text.now ≡ []) (λ p. (text_words text.now ≡ p.0 ∷ text_words p.1.now) × (length p.1.now < length text.now)) }
{
    match text {
        [] => None,
        [a] => Some((text_word(1, *a, 0, 0), &[])),
        [a, b] => Some((text_word(2, *a, *b, 0), &[])),
        [a, b, c, rest @ ..] => Some((text_word(3, *a, *b, *c), rest)),
    }
}

// The words of a text, three bytes to a word. By what is left, as its definition goes, and not by chunks: the last word may
// have fewer bytes.
fn push_text(words: &mut Vec<u32>, text: &[u8]) -> Result<(), AllocError>
    ensures { OnOk result (words.new.items ≡ words.old.items ++ text_words text.now) }
{
    let mut left = text;
    while let Some((word, rest)) = first_text_word(left) {
        words.push(word)?;
        left = rest;
    }
    Ok(())
}

// The masks below cut nothing: a name and a version have at most 16 bytes, a content 96, and more than 806 words are no
// package, as the core finds, which reads the words again before they are written.

// The words of a file: its own, and its content, of which three bytes go into a word.
fn push_file(words: &mut Vec<u32>, file: &Entry) -> Result<(), AllocError> {
    let kind = match file.kind {
        FileKind::Plain => 0x30,
        FileKind::Conffile => 0x40,
    };
    let content = file.content.as_slice();
    let count = (content.len().div_ceil(3) & 63) as u8;
    words.push(u32::from_be_bytes([kind, 0, count, file.path]))?;
    push_text(words, content)
}

// The words of the package that is described.
pub(crate) fn encode(heap: Global, description: &Description) -> Result<Vec<u32>, AllocError> {
    let name = description.head.name.as_bytes();
    let version = description.head.version.as_bytes();
    let mut words = Vec::new(heap);
    words.push(u32::from_be_bytes([
        0x10,
        0,
        (version.len() & 255) as u8,
        (name.len() & 255) as u8,
    ]))?;
    push_text(&mut words, name)?;
    push_text(&mut words, version)?;
    for file in description.files.iter() {
        push_file(&mut words, file)?;
    }
    let count = (words.len() & 0x0fff_ffff) as u32;
    words.push(0xf000_0000 | count)?;
    Ok(words)
}
