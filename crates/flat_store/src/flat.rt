ghost use Rattle.flat_store.specs.Images.{Kept};

use crate::cells::{Entry, Slot};

// The flat image: each file lies in a slot of its own, which the entry of its key names. Of the slots, so many are free.
#[derive(Drop)]
pub struct FlatStore<'a> {
    pub(crate) dir: &'a mut [Entry],
    pub(crate) slots: &'a mut [Slot],
    pub(crate) free: usize,
    ghost sound: { Kept dir.now slots.now free },
}
