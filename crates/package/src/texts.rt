ghost use Rattle.std.specs.Prelude.{◌≡◌, ◌+◌, ◌≤◌, length, drop, IfOk};
ghost use Rattle.package.specs.Items.{text_refusal, told, words_for};

use crate::checks::text_fault;
use crate::rules::TextRule;
use crate::word::Word;
use base::{Reason, Refusal};

// The place behind a text of `left` bytes that begins, or goes on, at `place`; or the first fault in it.
// By recursion, as the definition of that fault goes: each call is one line of it.
pub fn skip_text(
    words: &[u32],
    place: usize,
    rule: TextRule,
    left: usize,
    begun: bool,
) -> Result<usize, Refusal>
    ensures fault { told result ≡ text_refusal rule left begun place (drop place words.now) }
    ensures behind { IfOk result (λ p. (p ≡ place + words_for left) × (p ≤ length words.now)) }
{
    let Some(word) = words.get(place) else {
        return Err(Refusal::in_words(Reason::EndsEarly, place));
    };
    let word = Word(*word);
    if let Some(reason) = text_fault(rule, left, begun, word) {
        return Err(Refusal::in_words(reason, place));
    }
    if left <= 3 {
        return Ok(place + 1);
    }
    skip_text(words, place + 1, rule, left - 3, true)
}
