ghost use Rattle.std.specs.Prelude.{◌≡◌, ℕ, ◌<◌, ◌≤◌, true, false, length, take, Some, None, slice_index};
ghost use Rattle.store.specs.Sides.{sides_at, change, with_side, admits_side};
ghost use Rattle.store.specs.declared.side.Side.TheVariants.{Place};
ghost use Rattle.store_trial.specs.Passes.{passed, over_all, member, distinct, replaced};

use crate::pass::Pass;
use store::api::Store;
use store::paths::{carry_side, clear_side, put_side};
use store::side::Side;

fn pass_one<S: Store>(store: &mut S, pass: Pass, path: u8)
    ensures sides { sides_at (S.Store.files store.new) ≡ change path (passed pass) (sides_at (S.Store.files store.old)) }
    ensures units { S.Store.units store.new ≡ S.Store.units store.old }
{
    match pass {
        Pass::SetAside => carry_side(store, path, Side::Place, Side::Aside),
        Pass::PutBack => {
            clear_side(store, path, Side::Place);
            carry_side(store, path, Side::Aside, Side::Place);
        }
        Pass::Discard => clear_side(store, path, Side::Aside),
    }
}

// The same to each path, in order.
pub fn pass_all<S: Store>(store: &mut S, pass: Pass, paths: &[u8])
    ensures sides { sides_at (S.Store.files store.new) ≡ over_all (passed pass) paths.now (sides_at (S.Store.files store.old)) }
    ensures units { S.Store.units store.new ≡ S.Store.units store.old }
{
    for path in paths {
        pass_one(store, pass, *path);
    }
}

// Puts a file in place at each path, as far as the store admits it; answers at how many.
pub fn put_all<S: Store>(store: &mut S, paths: &[u8], words: &[u32]) -> usize
    ensures within { result ≤ length paths.now }
    ensures stopped { result < length paths.now → admits_side S.Store.block (S.Store.units store.old) (sides_at (S.Store.files store.new)) (slice_index paths.now result) Place words.now ≡ false }
    ensures sides { sides_at (S.Store.files store.new) ≡ over_all (with_side Place (Some words.now)) (take result paths.now) (sides_at (S.Store.files store.old)) }
    ensures units { S.Store.units store.new ≡ S.Store.units store.old }
{
    for (i, path) in paths.iter().enumerate() {
        if !put_side(store, *path, Side::Place, words) {
            return i;
        }
    }
    paths.len()
}

// A new file in place at each path, what was there set aside; where the store refuses one, all is put back.
pub fn replace_all<S: Store>(store: &mut S, paths: &[u8], words: &[u32]) -> bool
    ensures done { result ≡ true → distinct paths.now ≡ true → (q : ℕ) → sides_at (S.Store.files store.new) q ≡ replaced words.now paths.now (sides_at (S.Store.files store.old)) q }
    ensures found { result ≡ false → distinct paths.now ≡ true → ((p : ℕ) → member p paths.now ≡ true → (sides_at (S.Store.files store.old) p).aside ≡ None) → (q : ℕ) → sides_at (S.Store.files store.new) q ≡ sides_at (S.Store.files store.old) q }
    ensures units { S.Store.units store.new ≡ S.Store.units store.old }
{
    pass_all(store, Pass::SetAside, paths);
    if put_all(store, paths, words) == paths.len() {
        return true;
    }
    pass_all(store, Pass::PutBack, paths);
    false
}
