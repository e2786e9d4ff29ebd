ghost use Rattle.std.specs.Prelude.{◌≡◌, ◌≤◌, true, length, IfSome};
ghost use Rattle.base.specs.Named.{row_of, row_if};
ghost use Rattle.base.specs.Texts.{all, allowed, spelt, padded, before, may_follow, spells, holds};

use crate::texts::{ShortText, TextKind};

// Whether each byte may stand behind a first one.
fn all_follow(kind: TextKind, text: &[u8]) -> bool
    ensures { result ≡ all (may_follow kind) text.now }
{
    for b in text {
        if !kind.may_follow(*b) {
            return false;
        }
    }
    true
}

impl TextKind {
    // Whether these bytes may stand in a text, at its front or, where it has begun, behind that.
    pub fn spells(self, begun: bool, text: &[u8]) -> bool
        ensures { result ≡ spells self begun text.now }
    {
        if begun {
            return all_follow(self, text);
        }
        let [first, rest @ ..] = text else {
            return false;
        };
        if !self.may_begin(*first) {
            return false;
        }
        all_follow(self, rest)
    }
}

fn is_allowed(kind: TextKind, text: &[u8]) -> bool
    ensures { result ≡ allowed kind text.now }
{
    kind.fits(text.len()) && kind.spells(false, text)
}

fn zero_padded(text: &[u8]) -> ShortText
    requires { length text.now ≤ 16 }
    ensures { result.bytes ≡ padded text.now }
{
    let mut bytes = [0u8; 16];
    let n = text.len();
    let part = &mut bytes[0..n];
    part.copy_from_slice(text);
    ShortText { bytes }
}

impl ShortText {
    // The row that holds this text, if the text is one of this kind.
    pub(crate) fn holding(kind: TextKind, text: &[u8]) -> Option<ShortText>
        ensures value { result ≡ row_of kind text.now }
        ensures held { IfSome result (λ row. holds kind row.bytes ≡ true) }
    {
        if is_allowed(kind, text) {
            Some(zero_padded(text))
        } else {
            None
        }
    }

    // This row, if it holds a text of this kind.
    pub(crate) fn checked(self, kind: TextKind) -> Option<ShortText>
        ensures value { result ≡ row_if kind self }
        ensures held { IfSome result (λ row. holds kind row.bytes ≡ true) }
    {
        let text = self.as_bytes();
        if !is_allowed(kind, text) {
            return None;
        }
        if zero_padded(text) == self {
            Some(self)
        } else {
            None
        }
    }

    // How many bytes stand before the first zero byte.
    fn len(&self) -> usize
        ensures value { result ≡ length (spelt self.now.bytes) }
        ensures bound { result ≤ 16 }
    {
        for (i, b) in self.bytes.iter().enumerate() {
            if *b == 0 {
                return i;
            }
        }
        16
    }

    // The text in it.
    pub fn as_bytes(&self) -> &[u8]
        ensures { result.now ≡ spelt self.now.bytes }
    {
        let n = self.len();
        &self.bytes[0..n]
    }

    // Whether this row comes first, by bytes. Written out: the library's order of arrays takes several times as long, and a
    // table by names asks little else.
    pub fn before(&self, other: &ShortText) -> bool
        ensures { result ≡ before self.now.bytes other.now.bytes }
    {
        for i in 0..16 {
            if self.bytes[i] != other.bytes[i] {
                return self.bytes[i] < other.bytes[i];
            }
        }
        false
    }
}
