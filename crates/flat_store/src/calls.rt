ghost use Rattle.std.specs.Prelude.{◌≡◌, ◌<◌, length, IfSome};
ghost use Rattle.std.proofs.Common.{lit≤, ◌∙◌};
ghost use Rattle.std.proofs.lemmas.List.{length-map};
ghost use Rattle.store.specs.Files.{key_count};
ghost use Rattle.flat_store.specs.Images.{choice, extent_at, entry_file};
ghost use Rattle.flat_store.specs.Rooms.{room_all};
ghost use Rattle.flat_store.specs.Stores.{files_in, units_in};

use crate::cells::Entry;
use crate::flat::FlatStore;
use store::api::Store;
use store::keys::{KEYS, LONGEST};

impl FlatStore<'_> {
    // The slot for a key's words, and how many slots are free then: that of its file, or else the last of the free ones.
    fn choose(&self, key: usize) -> Option<(usize, usize)>
        requires { key < key_count }
        ensures is { result ≡ choice self.now.slots.now self.now.free (extent_at self.now.dir.now key) }
        ensures inside { IfSome result (λ q. q.0 < length self.now.slots.now) }
    {
        let entry = self.dir[key];
        if let Some(extent) = entry.extent() {
            return Some((extent.slot, self.free));
        }
        let left = self.free.checked_sub(1)?;
        Some((self.slots[left].spare, left))
    }
}

impl Store for FlatStore<'_> {
    // the words of a slot, all in one block
    const BLOCK: usize = 32;

    ghost block = { 32 };

    ghost units = { λ s. units_in s };

    ghost files = { λ s. files_in s };

    ghost wide = { lit≤ tt };

    ghost keys = { λ s. length-map s.dir.now (entry_file s.slots.now) ∙ s.sound.0 };

    ghost room = { λ s. room_all s.slots.now s.dir.now s.free s.sound };

    fn block_len() -> usize
        ensures { result ≡ 32 }
    {
        Self::BLOCK
    }

    fn put(&mut self, key: usize, words: &[u32]) -> bool {
        if words.len() > LONGEST || key >= KEYS {
            return false;
        }
        let Some((slot, free)) = self.choose(key) else {
            return false;
        };
        let dir = &mut *self.dir;
        let slots = &mut *self.slots;
        let len = words.len();
        let room = &mut slots[slot];
        room.words[..len].copy_from_slice(words);
        dir[key] = Entry {
            held: true,
            slot,
            len,
        };
        self.free = free;
        true
    }

    fn clear(&mut self, key: usize) {
        if key >= KEYS {
            return;
        }
        let dir = &mut *self.dir;
        let slots = &mut *self.slots;
        let Some(extent) = dir[key].extent() else {
            return;
        };
        dir[key] = Entry::EMPTY;
        // Its slot is free again.
        slots[self.free].spare = extent.slot;
        self.free += 1;
    }

    fn carry(&mut self, from: usize, to: usize) {
        if from == to || to >= KEYS || !self.held(from) {
            return;
        }
        self.clear(to);
        let dir = &mut *self.dir;
        dir[to] = dir[from];
        dir[from] = Entry::EMPTY;
    }

    fn length(&self, key: usize) -> Option<usize> {
        let extent = self.dir.get(key)?.extent()?;
        Some(extent.len)
    }

    fn part(&self, key: usize, at: usize) -> &[u32] {
        let slots = &*self.slots;
        match self.dir.get(key).and_then(Entry::extent) {
            Some(extent) if at == 0 => &slots[extent.slot].words[..extent.len],
            _ => &[],
        }
    }
}
