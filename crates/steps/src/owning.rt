ghost use Rattle.std.specs.Prelude.{◌≡◌, ℕ, true, not, ◌&&◌, Some};
ghost use Rattle.status.specs.Tables.{owner_of};
ghost use Rattle.store.specs.Sides.{sides_at, change};
ghost use Rattle.steps.specs.Owners.{member, same_name, own_sides, paths_rise};

use crate::pass::Pass;
use crate::path_set::PathSet;
use crate::sides::pass_over;
use base::ShortText;
use status::Owned;
use store::api::Store;

// Whether two rows hold the same name: `==`, under the name that the clauses here and in the books have for it.
pub fn same_name(a: ShortText, b: ShortText) -> bool
    ensures { result ≡ same_name a b }
{
    a == b
}

fn is_passed(owned: Owned, name: ShortText, except: &PathSet) -> bool
    ensures { result ≡ (not (member except.now owned.path) && same_name owned.owner name) }
{
    !except.has(owned.path) && same_name(owned.owner, name)
}

fn pass_one<S: Store>(store: &mut S, owned: Owned, pass: Pass, name: ShortText, except: &PathSet)
    ensures sides { sides_at (S.Store.files store.new) ≡ change owned.path (own_sides name (member except.now owned.path) pass (Some owned)) (sides_at (S.Store.files store.old)) }
    ensures units { S.Store.units store.new ≡ S.Store.units store.old }
{
    if is_passed(owned, name, except) {
        pass_over(store, pass, owned.kind, owned.path);
    }
}

// The pass at each path that belongs to the package of this name, but for the excepted ones.
pub fn pass_owned<S: Store>(
    store: &mut S,
    owners: &[Owned],
    pass: Pass,
    name: ShortText,
    except: &PathSet,
)
    ensures sides { paths_rise owners.now ≡ true → (q : ℕ) → sides_at (S.Store.files store.new) q ≡ own_sides name (member except.now q) pass (owner_of q owners.now) (sides_at (S.Store.files store.old) q) }
    ensures units { S.Store.units store.new ≡ S.Store.units store.old }
{
    for owned in owners {
        pass_one(store, *owned, pass, name, except);
    }
}
