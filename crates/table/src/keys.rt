ghost use Rattle.std.specs.Prelude.{◌≡◌, nat_lt};
ghost use Rattle.table.specs.Order.{by_bytes};
ghost use Rattle.table.specs.Orders.{numbers_total, names_total};

use crate::key::Key;
use base::ShortText;

// Paths are in the order of their numbers.
impl Key for u8 {
    ghost below = { nat_lt };

    ghost same = { λ a b. a ≡ b };

    ghost total = { numbers_total };

    fn below(&self, other: &u8) -> bool {
        *self < *other
    }
}

// Names are in the order of their bytes, a prefix first.
impl Key for ShortText {
    ghost below = { by_bytes };

    ghost same = { λ a b. a ≡ b };

    ghost total = { names_total };

    fn below(&self, other: &ShortText) -> bool {
        self.before(other)
    }
}
