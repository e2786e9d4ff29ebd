ghost use Rattle.std.specs.Prelude.{◌≡◌};
ghost use Rattle.base.specs.Texts.{may_begin, may_follow, fitting};

use crate::texts::TextKind;

impl TextKind {
    // Whether a text of this kind may begin with this byte.
    pub(crate) fn may_begin(self, b: u8) -> bool
        ensures { result ≡ may_begin self b }
    {
        match self {
            TextKind::Name => b.is_ascii_lowercase() || b.is_ascii_digit(),
            TextKind::Version => b.is_ascii_digit(),
        }
    }

    // Whether this byte may stand behind the first.
    pub(crate) fn may_follow(self, b: u8) -> bool
        ensures { result ≡ may_follow self b }
    {
        match self {
            TextKind::Name => matches!(b, b'a'..=b'z' | b'0'..=b'9' | b'+' | b'-' | b'.'),
            TextKind::Version =>
                matches!(b, b'a'..=b'z' | b'A'..=b'Z' | b'0'..=b'9' | b'+' | b'-' | b'.' | b'~' | b':'),
        }
    }

    // Whether a text of this kind may have this length.
    pub fn fits(self, len: usize) -> bool
        ensures { result ≡ fitting self len }
    {
        match self {
            TextKind::Name => (2..=16).contains(&len),
            TextKind::Version => (1..=16).contains(&len),
        }
    }
}
