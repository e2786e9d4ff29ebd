ghost use Rattle.std.specs.Prelude.{◌≡◌, ℕ, length, replicate, None, MatchOption};
ghost use Rattle.store.specs.Files.{key_count};
ghost use Rattle.flat_store.specs.Images.{Kept, image_files};
ghost use Rattle.flat_store.specs.Stores.{files_in, units_in};
ghost use Rattle.flat_store.specs.Taking.{Whole, Damaged};

use crate::cells::{Entry, Slot};
use crate::flat::FlatStore;
use crate::taking::{list_free, look_through};
use store::keys::KEYS;

// No key has a file, and each slot is free. Answers how many they are.
fn wipe(dir: &mut [Entry; KEYS], slots: &mut [Slot]) -> usize
    ensures sound { Kept dir.new slots.new result }
    ensures files { image_files dir.new slots.new ≡ replicate key_count None }
{
    dir.fill(Entry::EMPTY);
    for (i, slot) in slots.iter_mut().enumerate() {
        slot.spare = i;
    }
    slots.len()
}

// Lists the free slots of a whole image; a damaged one is emptied first. Answers how many they are.
fn settle(dir: &mut [Entry; KEYS], slots: &mut [Slot]) -> usize
    ensures sound { Kept dir.new slots.new result }
    ensures whole { Whole dir.old (length slots.old) → image_files dir.new slots.new ≡ image_files dir.old slots.old }
    ensures damaged { (k : ℕ) → Damaged dir.old (length slots.old) k → image_files dir.new slots.new ≡ replicate key_count None }
{
    if look_through(dir, slots).is_some() {
        return wipe(dir, slots);
    }
    list_free(slots)
}

impl<'a> FlatStore<'a> {
    // An empty store over the caller's memory, whatever that holds: each slot is one unit.
    pub fn format(dir: &'a mut [Entry; KEYS], slots: &'a mut [Slot]) -> FlatStore<'a>
        ensures files { files_in result ≡ replicate key_count None }
        ensures units { units_in result ≡ length slots.old }
    {
        let free = wipe(dir, slots);
        FlatStore { dir, slots, free }
    }

    // The first key whose entry is damaged, of an image that may be taken up; `None` where it is whole. No entry and no
    // file is touched.
    pub fn damage(dir: &[Entry; KEYS], slots: &mut [Slot]) -> Option<usize>
        ensures found { MatchOption result (Whole dir.now (length slots.old)) (Damaged dir.now (length slots.old)) }
        ensures files { image_files dir.now slots.new ≡ image_files dir.now slots.old }
    {
        look_through(dir, slots)
    }

    // The store of an image that is whole. A damaged one is not trusted: its memory becomes an empty store.
    pub fn take_up<'b: 'a>(dir: &'b mut [Entry; KEYS], slots: &'a mut [Slot]) -> FlatStore<'a>
        ensures whole { Whole dir.old (length slots.old) → files_in result ≡ image_files dir.old slots.old }
        ensures damaged { (k : ℕ) → Damaged dir.old (length slots.old) k → files_in result ≡ replicate key_count None }
        ensures units { units_in result ≡ length slots.old }
    {
        let free = settle(dir, slots);
        FlatStore { dir, slots, free }
    }
}
