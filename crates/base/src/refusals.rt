ghost use Rattle.std.specs.Prelude.{◌≡◌};
ghost use Rattle.base.specs.Refusals.{number, word_refusal, text_refusal, state_refusal};

use crate::reasons::{Layer, Reason, Refusal};

impl Reason {
    // The number by which manuals and programs name the reason.
    pub fn number(self) -> u8
        ensures { result ≡ number self }
    {
        self as u8
    }
}

impl Refusal {
    // A fault of the input words, at the word's index.
    pub fn in_words(reason: Reason, place: usize) -> Refusal
        ensures { result ≡ word_refusal reason place }
    {
        let layer = match reason {
            Reason::WrongWord => Layer::Words,
            _ => Layer::Items,
        };
        Refusal {
            reason,
            place,
            layer,
        }
    }

    // A fault of a text, at the first byte of the line.
    pub fn in_text(reason: Reason, place: usize) -> Refusal
        ensures { result ≡ text_refusal reason place }
    {
        Refusal {
            reason,
            place,
            layer: Layer::Text,
        }
    }

    // A call that the station's state does not allow.
    pub fn of_state(reason: Reason) -> Refusal
        ensures { result ≡ state_refusal reason }
    {
        Refusal {
            reason,
            place: 0,
            layer: Layer::Station,
        }
    }
}
