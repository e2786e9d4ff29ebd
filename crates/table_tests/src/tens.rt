ghost use Rattle.std.specs.Prelude.{◌≡◌, ◌/◌, nat_lt};
ghost use Rattle.std.proofs.Common.{rules};

use table::{Element, Key};

// A number that counts by its tens alone: 12 and 17 compare alike, and are one key.
#[derive(Clone, Copy, PartialEq, Eq, Debug)]
pub struct Tens(pub u8);

impl Key for Tens {
    ghost below = { λ a b. nat_lt (a.0 / 10) (b.0 / 10) };

    ghost same = { λ a b. a.0 / 10 ≡ b.0 / 10 };

    ghost total = { Prim.search rules };

    fn below(&self, other: &Tens) -> bool {
        self.0 / 10 < other.0 / 10
    }
}

impl Element for Tens {
    type K = Tens;

    ghost keyed = { λ t. t };

    fn key(&self) -> Tens {
        *self
    }
}
