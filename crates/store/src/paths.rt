ghost use Rattle.std.specs.Prelude.{◌≡◌, if◌then◌else◌, Some, None};
ghost use Rattle.store.specs.Sides.{key_of, sides_at, change, with_side, carried, admits_side};

use crate::api::Store;
use crate::keys::key;
use crate::side::Side;

// The store's three calls on one side of a path. Their contracts speak of paths alone, as what is built on a store does.
// That the units stay is said at each call: it tells what the call leaves alone, and no type can say that.

pub fn put_side<S: Store>(store: &mut S, path: u8, side: Side, words: &[u32]) -> bool
    ensures answer { result ≡ admits_side S.Store.block (S.Store.units store.old) (sides_at (S.Store.files store.old)) path side words.now }
    ensures sides { sides_at (S.Store.files store.new) ≡ (if result then change path (with_side side (Some words.now)) (sides_at (S.Store.files store.old)) else sides_at (S.Store.files store.old)) }
    ensures units { S.Store.units store.new ≡ S.Store.units store.old }
{
    store.put(key(path, side), words)
}

pub fn carry_side<S: Store>(store: &mut S, path: u8, from: Side, to: Side)
    ensures sides { sides_at (S.Store.files store.new) ≡ change path (carried from to) (sides_at (S.Store.files store.old)) }
    ensures units { S.Store.units store.new ≡ S.Store.units store.old }
{
    store.carry(key(path, from), key(path, to));
}

pub fn clear_side<S: Store>(store: &mut S, path: u8, side: Side)
    ensures sides { sides_at (S.Store.files store.new) ≡ change path (with_side side None) (sides_at (S.Store.files store.old)) }
    ensures units { S.Store.units store.new ≡ S.Store.units store.old }
{
    store.clear(key(path, side));
}
