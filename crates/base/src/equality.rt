ghost use Rattle.std.specs.Prelude.{◌≡◌, Decides, nat_eq};
ghost use Rattle.std.specs.Cmp.Lexicographic.{pointwise};
ghost use Rattle.std.specs.Cmp.Rules.{comparing};
ghost use Rattle.std.proofs.Common.{rules};
ghost use Rattle.std.specs.Cmp as Keys;

use crate::kinds::Kind;
use crate::text::Text;

// By hand, so that a caller of `==` is told that it decides equality: a derive says only what it compares.
impl<K: Kind> PartialEq for Text<K> {
    ghost eq = { λ x y. pointwise nat_eq x.row.bytes y.row.bytes };

    ghost laws = { Keys.partial_equiv_from_equiv (Prim.search (comparing, rules)) };

    fn eq(&self, other: &Self) -> bool
        ensures gives { result ≡ pointwise nat_eq self.now.row.bytes other.now.row.bytes }
        ensures decides { Decides result (self.now ≡ other.now) }
    {
        self.row == other.row
    }
}

impl<K: Kind> Eq for Text<K> {
    ghost laws = { Prim.search (comparing, rules) };
}
