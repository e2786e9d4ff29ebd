ghost use Rattle.std.specs.Prelude.{◌≡◌, ◌<◌, ◌≤◌, length, MatchOption};

// Lent memory whose first `count` items are in use. The items behind them are free.
#[derive(Drop)]
pub struct Lent<'a, T: Copy> {
    pub(crate) items: &'a mut [T],
    pub(crate) count: usize,
    ghost fits: { count ≤ length items.now },
}

// There is no room for what was to be added.
#[derive(Clone, Copy, Debug, PartialEq, Eq)]
pub struct Full;

impl<'a, T: Copy> Lent<'a, T> {
    // No item is in use.
    pub fn new(items: &'a mut [T]) -> Lent<'a, T>
        ensures same_reference { result.items.ghost_name ≡ items.entry.ghost_name }
        ensures items { result.items.now ≡ items.old }
        ensures count { result.count ≡ 0 }
    {
        Lent { items, count: 0 }
    }

    // The first `count` items are in use already; nothing where there are not so many.
    pub fn resume(items: &'a mut [T], count: usize) -> Option<Lent<'a, T>>
        ensures { MatchOption result (length items.old < count) (λ lent. (lent.items.now ≡ items.old) × (lent.count ≡ count) × (lent.items.ghost_name ≡ items.entry.ghost_name)) }
    {
        if items.len() < count {
            return None;
        }
        Some(Lent { items, count })
    }

    // How many items are in use.
    pub fn count(&self) -> usize
        ensures { result ≡ self.now.count }
    {
        self.count
    }
}
