ghost use Rattle.std.specs.Prelude.{◌≡◌, true, ⊤};
ghost use Rattle.base.specs.Texts.{holds};

use crate::kinds::Kind;
use crate::texts::ShortText;
use std::alloc::AllocError;
use std::marker::PhantomData;

// A text that keeps the rule of its kind. Only a constructor that checks the text makes one.
pub struct Text<K: Kind> {
    pub(crate) row: ShortText,
    pub(crate) kind: PhantomData<K>,
    ghost allowed: { holds K.KIND row.bytes ≡ true },
}

// By hand, since a derive of `Clone` is refused for a generic struct with a ghost field.
impl<K: Kind> Clone for Text<K> {
    ghost is_clone = { λ text copy. copy ≡ text };

    ghost is_infallible = { λ _. ⊤ };

    fn clone(&self) -> Result<Self, AllocError> {
        Ok(*self)
    }
}

impl<K: Kind> Copy for Text<K> {}
