ghost use Rattle.std.specs.Prelude.{◌≡◌, is_some};
ghost use Rattle.store.specs.Sides.{sides_at, side_of, change};
ghost use Rattle.steps.specs.Steps.{home, refuge, in_way, room_for, lay_step, put_back, discarded, passed};

use crate::files::Laid;
use crate::pass::Pass;
use base::FileKind;
use store::api::Store;
use store::keys::key;
use store::paths::{carry_side, clear_side, put_side};
use store::side::Side;

// Kind and path stand apart in these calls: a carried file and an owned path both have the two, each with other things beside,
// and a type of the two alone would be made at each call.

// The side where a file of this kind is laid.
fn home_of(kind: FileKind) -> Side
    ensures { result ≡ home kind }
{
    match kind {
        FileKind::Plain => Side::Place,
        FileKind::Conffile => Side::Pending,
    }
}

// The side where what stood there is kept.
fn refuge_of(kind: FileKind) -> Side
    ensures { result ≡ refuge kind }
{
    match kind {
        FileKind::Plain => Side::Aside,
        FileKind::Conffile => Side::PendingAside,
    }
}

fn held_side<S: Store>(store: &S, path: u8, side: Side) -> bool
    ensures { result ≡ is_some (side_of side (sides_at (S.Store.files store.now) path)) }
{
    store.held(key(path, side))
}

// Lays a file: what is in its way is set aside, and the file is put there.
pub fn lay<S: Store>(store: &mut S, kind: FileKind, path: u8, words: &[u32]) -> Laid
    ensures aside { result.aside ≡ in_way kind (sides_at (S.Store.files store.old) path) }
    ensures admitted { result.admitted ≡ room_for S.Store.block (S.Store.units store.old) kind path words.now (sides_at (S.Store.files store.old)) }
    ensures sides { sides_at (S.Store.files store.new) ≡ change path (lay_step result.admitted kind words.now) (sides_at (S.Store.files store.old)) }
    ensures units { S.Store.units store.new ≡ S.Store.units store.old }
{
    let home = home_of(kind);
    let aside = held_side(store, path, home);
    carry_side(store, path, home, refuge_of(kind));
    let admitted = put_side(store, path, home, words);
    Laid { admitted, aside }
}

// Puts back one path: what was set aside returns; where nothing was, the side is emptied.
pub fn put_back<S: Store>(store: &mut S, kind: FileKind, path: u8)
    ensures sides { sides_at (S.Store.files store.new) ≡ change path (put_back kind) (sides_at (S.Store.files store.old)) }
    ensures units { S.Store.units store.new ≡ S.Store.units store.old }
{
    let home = home_of(kind);
    clear_side(store, path, home);
    carry_side(store, path, refuge_of(kind), home);
}

// Lets go what was set aside at a path.
pub fn discard<S: Store>(store: &mut S, kind: FileKind, path: u8)
    ensures sides { sides_at (S.Store.files store.new) ≡ change path (discarded kind) (sides_at (S.Store.files store.old)) }
    ensures units { S.Store.units store.new ≡ S.Store.units store.old }
{
    clear_side(store, path, refuge_of(kind));
}

// One pass at a path that is owned as this kind.
pub fn pass_over<S: Store>(store: &mut S, pass: Pass, kind: FileKind, path: u8)
    ensures sides { sides_at (S.Store.files store.new) ≡ change path (passed pass kind) (sides_at (S.Store.files store.old)) }
    ensures units { S.Store.units store.new ≡ S.Store.units store.old }
{
    match (pass, kind) {
        (Pass::Settle, FileKind::Conffile) => carry_side(store, path, Side::Pending, Side::Place),
        (Pass::Clear, _) => clear_side(store, path, home_of(kind)),
        (Pass::Wipe, FileKind::Conffile) => clear_side(store, path, Side::Place),
        (Pass::Settle | Pass::Wipe, FileKind::Plain) => {}
    }
}
