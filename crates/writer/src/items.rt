ghost use Rattle.std.specs.Prelude.{◌≡◌, ◌+◌, length};
ghost use Rattle.writer.specs.Items.{items_in, space, Adds, Counts};
ghost use Rattle.writer.specs.Pages.{Puts};

use crate::lent::{Full, Lent};

impl<'a, T: Copy> Lent<'a, T> {
    // The items in use, the first one first.
    pub fn items(&self) -> &[T]
        ensures { result.now ≡ items_in self.now }
    {
        &self.items[..self.count]
    }

    // How many items more there is room for.
    pub fn free(&self) -> usize
        ensures { length (items_in self.now) + result ≡ space self.now }
    {
        self.items.len() - self.count
    }

    // Adds the items where they fit; otherwise nothing changes.
    #[tactic(auto, using(std::proofs::lemmas::Slice::overwrites))]
    pub fn put(&mut self, more: &[T]) -> Result<(), Full>
        ensures { Puts result more.now self.old self.new }
    {
        let count = self.count;
        if more.len() > self.free() {
            return Err(Full);
        }
        let end = count + more.len();
        self.items[count..end].copy_from_slice(more);
        self.count = end;
        Ok(())
    }

    // One item more; where there is no room, nothing changes. It is no `put(&[item])`, which would ask for a bound on the
    // size of `T`.
    pub fn add(&mut self, item: T) -> Result<(), Full>
        ensures { Adds result item self.old self.new }
    {
        let used = self.count;
        if self.free() == 0 {
            return Err(Full);
        }
        self.items[used] = item;
        self.count = used + 1;
        Ok(())
    }

    // The first `count` items are in use from now on; where there are not so many, nothing changes.
    pub fn set_count(&mut self, count: usize) -> Result<(), Full>
        ensures { Counts result count self.old self.new }
    {
        if count > self.items.len() {
            return Err(Full);
        }
        self.count = count;
        Ok(())
    }

    // No item is in use from now on.
    pub fn clear(&mut self)
        ensures count { self.new.count ≡ 0 }
        ensures items { self.new.items.now ≡ self.old.items.now }
        ensures same_reference { self.new.items.ghost_name ≡ self.old.items.ghost_name }
    {
        self.count = 0;
    }
}
