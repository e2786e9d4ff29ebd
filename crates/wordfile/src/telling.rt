use base::{Reason, Refusal};
use std::fmt;

// What a reason means, in words. A function, since `Reason` is a type of the core, which prints nothing.
fn meaning(reason: Reason) -> &'static str {
    match reason {
        Reason::EndsEarly => "the input ends too early",
        Reason::WrongWord =>
            "a word of a kind that may not stand here, or a bit set that must be zero",
        Reason::OutsideLimits => "a length, a count or a byte outside its limits",
        Reason::PathNotRising => "a path not above the one before",
        Reason::WrongEndCount => "the end word gives another count of words",
        Reason::WrongLine => "a status line that may not stand here",
        Reason::WrongValue => "a value not allowed in its line",
        Reason::NotRising => "names or paths that do not rise, or too many of them",
        Reason::BufferShort => "the output buffer is too short",
        Reason::TraceFull => "too few free trace lines",
        Reason::RecordsFull => "no room for another package",
        Reason::OwnedByOther => "a path that another package owns",
        Reason::KindDiffers => "a path that is owned as the other kind of file",
        Reason::NoRecord => "no package of that name",
        Reason::WrongState => "the state of the package does not allow it",
        Reason::OwnersFull => "no room for another owned path",
    }
}

// A refusal as one line of text.
#[derive(Clone, Copy)]
pub struct Told(pub Refusal);

impl fmt::Display for Told {
    fn fmt<W: fmt::Write>(&self, f: &mut fmt::Formatter<W>) -> fmt::Result {
        let number = self.0.reason.number();
        let place = self.0.place;
        let layer = self.0.layer.number();
        let meaning = meaning(self.0.reason);
        write!(f, "refused {number} at {place}, layer {layer}: {meaning}")
    }
}
