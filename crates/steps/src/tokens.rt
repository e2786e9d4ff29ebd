ghost use Rattle.std.specs.Prelude.{◌≡◌, ℕ, take};
ghost use Rattle.package.specs.Files.{files_of};
ghost use Rattle.store.specs.Sides.{Sides, sides_at, change};
ghost use Rattle.steps.specs.Goods.{goods_in};
ghost use Rattle.steps.specs.Wares.{Lays, LaidOver, unwound, unwind_all, Distinct, Clean};

use crate::pass::Unwind;
use crate::sides::{discard, lay, put_back};
use crate::token::{Before, Past};
use base::FileKind;
use package::Package;
use store::api::Store;

// Each promise stands twice: over the files that the package yields, and over those that its words hold, of which a caller
// knows that no path stands twice.

// Lays the files of a package, one by one. `Err` where the store refuses one; what was done until then is in the token.
pub fn lay_all<S: Store>(store: &mut S, new: &Package<'_>) -> Result<Before, Before>
    ensures laid { Lays S.Store.block (S.Store.units store.old) (files_of new.now) (sides_at (S.Store.files store.old)) result (sides_at (S.Store.files store.new)) }
    ensures laid_goods { Lays S.Store.block (S.Store.units store.old) (goods_in new.now.words.now).files (sides_at (S.Store.files store.old)) result (sides_at (S.Store.files store.new)) }
    ensures units { S.Store.units store.new ≡ S.Store.units store.old }
{
    let mut touched = 0;
    let mut aside = 0;
    for file in new.files() {
        let one = lay(store, file.kind, file.path, file.content);
        touched += 1;
        aside += one.aside as usize;
        if !one.admitted {
            return Err(Before { touched, aside });
        }
    }
    Ok(Before { touched, aside })
}

fn unwind_one<S: Store>(store: &mut S, how: Unwind, kind: FileKind, path: u8)
    ensures sides { sides_at (S.Store.files store.new) ≡ change path (unwound how kind) (sides_at (S.Store.files store.old)) }
    ensures units { S.Store.units store.new ≡ S.Store.units store.old }
{
    match how {
        Unwind::PutBack => put_back(store, kind, path),
        Unwind::Discard => discard(store, kind, path),
    }
}

// Deals with the first files of a package, so many of them.
fn unwind<S: Store>(store: &mut S, how: Unwind, new: &Package<'_>, touched: usize)
    ensures sides { sides_at (S.Store.files store.new) ≡ unwind_all how (take touched (files_of new.now)) (sides_at (S.Store.files store.old)) }
    ensures units { S.Store.units store.new ≡ S.Store.units store.old }
{
    for file in new.files().take(touched) {
        unwind_one(store, how, file.kind, file.path);
    }
}

impl Before {
    // Puts all back, and answers how many files returned. Whatever the files were laid over is there again.
    pub fn put_back<S: Store>(self, store: &mut S, new: &Package<'_>) -> usize
        ensures count { result ≡ self.aside }
        ensures sides { sides_at (S.Store.files store.new) ≡ unwind_all Unwind.PutBack (take self.touched (files_of new.now)) (sides_at (S.Store.files store.old)) }
        ensures sides_goods { sides_at (S.Store.files store.new) ≡ unwind_all Unwind.PutBack (take self.touched (goods_in new.now.words.now).files) (sides_at (S.Store.files store.old)) }
        ensures found { (block units : ℕ) (found : ℕ → Sides) → LaidOver block units (files_of new.now) found self.touched (sides_at (S.Store.files store.old)) → Distinct (files_of new.now) → Clean (files_of new.now) found → sides_at (S.Store.files store.new) ≡ found }
        ensures found_goods { (block units : ℕ) (found : ℕ → Sides) → LaidOver block units (goods_in new.now.words.now).files found self.touched (sides_at (S.Store.files store.old)) → Clean (goods_in new.now.words.now).files found → sides_at (S.Store.files store.new) ≡ found }
        ensures units { S.Store.units store.new ≡ S.Store.units store.old }
    {
        let Before { touched, aside } = self;
        unwind(store, Unwind::PutBack, new, touched);
        aside
    }

    // The install is past its point.
    pub fn pass(self) -> Past
        ensures { (result.touched ≡ self.touched) × (result.aside ≡ self.aside) }
    {
        let Before { touched, aside } = self;
        Past { aside, touched }
    }
}

impl Past {
    // Lets go all that was set aside, and answers how many files went.
    pub fn discard<S: Store>(self, store: &mut S, new: &Package<'_>) -> usize
        ensures count { result ≡ self.aside }
        ensures sides { sides_at (S.Store.files store.new) ≡ unwind_all Unwind.Discard (take self.touched (files_of new.now)) (sides_at (S.Store.files store.old)) }
        ensures sides_goods { sides_at (S.Store.files store.new) ≡ unwind_all Unwind.Discard (take self.touched (goods_in new.now.words.now).files) (sides_at (S.Store.files store.old)) }
        ensures units { S.Store.units store.new ≡ S.Store.units store.old }
    {
        let Past { touched, aside } = self;
        unwind(store, Unwind::Discard, new, touched);
        aside
    }
}
