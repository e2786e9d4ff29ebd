ghost use Rattle.std.specs.Prelude.{◌≡◌, ℕ, ◌<◌, true, length, IfNone, if◌then◌else◌, Some, count_by, MatchOption, slice_index_or};
ghost use Rattle.store.specs.Files.{key_count};
ghost use Rattle.flat_store.specs.Images.{blank, words_at, Fits};
ghost use Rattle.flat_store.specs.Taking.{markable, marked, unnamed, Whole, Damaged, Marks, Free};

use crate::cells::{Entry, Extent, Slot};
use store::keys::KEYS;

fn unmark(slots: &mut [Slot])
    ensures spare { (p : ℕ) → p < length slots.new → (slice_index_or slots.new p blank).spare ≡ 0 }
    ensures words { (p : ℕ) → words_at slots.new p ≡ words_at slots.old p }
{
    for slot in slots.iter_mut() {
        slot.spare = 0;
    }
}

// Marks the slot of a file; false where it is not there, is marked already, or has too few words.
fn mark(extent: Extent, slots: &mut [Slot]) -> bool
    ensures answer { result ≡ markable slots.old extent }
    ensures slots { slots.new ≡ (if result then marked slots.old extent.slot else slots.old) }
    ensures fits { result ≡ true → Fits slots.old (Some extent) }
{
    if extent.slot >= slots.len() {
        return false;
    }
    let slot = &mut slots[extent.slot];
    if slot.words.get(..extent.len).is_none() || slot.spare != 0 {
        return false;
    }
    slot.spare = 1;
    true
}

// The first key whose entry is damaged. Files and entries stay as they are, and the marks tell the slots that no file has.
pub(crate) fn look_through(dir: &[Entry; KEYS], slots: &mut [Slot]) -> Option<usize>
    ensures found { MatchOption result (Whole dir.now (length slots.old)) (Damaged dir.now (length slots.old)) }
    ensures marks { IfNone result (Marks dir.now slots.new key_count) }
    ensures words { (p : ℕ) → words_at slots.new p ≡ words_at slots.old p }
{
    unmark(slots);
    for (k, entry) in dir.iter().enumerate() {
        let Some(extent) = entry.extent() else {
            continue;
        };
        if !mark(extent, slots) {
            return Some(k);
        }
    }
    None
}

// Lists the slots without a mark, and answers how many there are.
pub(crate) fn list_free(slots: &mut [Slot]) -> usize
    ensures count { result ≡ count_by unnamed slots.old }
    ensures free { (i : ℕ) → i < result → Free slots.old (slice_index_or slots.new i blank).spare }
    ensures rising { (i j : ℕ) → i < j → j < result → (slice_index_or slots.new i blank).spare < (slice_index_or slots.new j blank).spare }
    ensures words { (p : ℕ) → words_at slots.new p ≡ words_at slots.old p }
{
    let mut free = 0;
    // By index: the slot that is written is not the one that is looked at.
    for p in 0..slots.len() {
        if slots[p].spare != 0 {
            continue;
        }
        slots[free].spare = p;
        free += 1;
    }
    free
}
