ghost use Rattle.std.specs.Prelude.{◌≡◌, ℕ, is_some, take, Err};
ghost use Rattle.package.specs.Labels.{Bears, Labelling, files_by};
ghost use Rattle.store.specs.Sides.{Sides, sides_at};
ghost use Rattle.steps.specs.Goods.{goods_in, carried_at};
ghost use Rattle.steps.specs.Owners.{member, no_path};
ghost use Rattle.steps.specs.Wares.{Lays, LaidOver, unwind_all, Distinct, Clean};

use crate::carrying::carried_paths;
use crate::pass::Unwind;
use crate::path_set::PathSet;
use crate::token::{Before, Past};
use crate::tokens::lay_all;
use package::Label;
use store::api::Store;

// What is done with the files of a package, by its label and any words beside it: for who let the words go in between. It
// is done with the files that stand there, if the words bear the label's name and version. Other words have no files here.

// Lays the files, one by one. `Err` where the store refuses one, or where the words do not hold the package; what was done
// until then is in the token.
#[tactic(auto, using(crate::proofs::Goods::labelled_files))]
pub fn lay_labelled<S: Store>(store: &mut S, new: &Label, words: &[u32]) -> Result<Before, Before>
    ensures laid { Labelling words.now new.now → Lays S.Store.block (S.Store.units store.old) (files_by new.now words.now) (sides_at (S.Store.files store.old)) result (sides_at (S.Store.files store.new)) }
    ensures laid_goods { Bears words.now new.now → Lays S.Store.block (S.Store.units store.old) (goods_in words.now).files (sides_at (S.Store.files store.old)) result (sides_at (S.Store.files store.new)) }
    ensures other { (Bears words.now new.now → ⊥) → (result ≡ Err (record { touched = 0; aside = 0 })) × (sides_at (S.Store.files store.new) ≡ sides_at (S.Store.files store.old)) }
    ensures units { S.Store.units store.new ≡ S.Store.units store.old }
{
    match new.package(words) {
        Some(package) => lay_all(store, &package),
        None => Err(Before {
            touched: 0,
            aside: 0,
        }),
    }
}

// The paths that the package carries a file for.
#[tactic(auto, using(crate::proofs::Goods::labelled_files))]
pub fn labelled_paths(new: &Label, words: &[u32]) -> PathSet
    ensures paths { Bears words.now new.now → (q : ℕ) → member result q ≡ is_some (carried_at q (goods_in words.now).files) }
    ensures other { (Bears words.now new.now → ⊥) → member result ≡ no_path }
{
    match new.package(words) {
        Some(package) => carried_paths(&package),
        None => PathSet::none(),
    }
}

impl Before {
    // Puts all back. Whatever the files were laid over is there again. Answers how many files were set aside, whatever the
    // words are; in words of another package they still are.
    #[tactic(auto, using(crate::proofs::Goods::labelled_files))]
    pub fn put_back_labelled<S: Store>(self, store: &mut S, new: &Label, words: &[u32]) -> usize
        ensures count { result ≡ self.aside }
        ensures sides { Labelling words.now new.now → sides_at (S.Store.files store.new) ≡ unwind_all Unwind.PutBack (take self.touched (files_by new.now words.now)) (sides_at (S.Store.files store.old)) }
        ensures sides_goods { Bears words.now new.now → sides_at (S.Store.files store.new) ≡ unwind_all Unwind.PutBack (take self.touched (goods_in words.now).files) (sides_at (S.Store.files store.old)) }
        ensures found { Labelling words.now new.now → (block units : ℕ) (found : ℕ → Sides) → LaidOver block units (files_by new.now words.now) found self.touched (sides_at (S.Store.files store.old)) → Distinct (files_by new.now words.now) → Clean (files_by new.now words.now) found → sides_at (S.Store.files store.new) ≡ found }
        ensures found_goods { Bears words.now new.now → (block units : ℕ) (found : ℕ → Sides) → LaidOver block units (goods_in words.now).files found self.touched (sides_at (S.Store.files store.old)) → Clean (goods_in words.now).files found → sides_at (S.Store.files store.new) ≡ found }
        ensures other { (Bears words.now new.now → ⊥) → sides_at (S.Store.files store.new) ≡ sides_at (S.Store.files store.old) }
        ensures units { S.Store.units store.new ≡ S.Store.units store.old }
    {
        if let Some(package) = new.package(words) {
            return self.put_back(store, &package);
        }
        let Before { touched: _, aside } = self;
        aside
    }
}

impl Past {
    // Lets go all that was set aside. Answers how many files that was, whatever the words are.
    #[tactic(auto, using(crate::proofs::Goods::labelled_files))]
    pub fn discard_labelled<S: Store>(self, store: &mut S, new: &Label, words: &[u32]) -> usize
        ensures count { result ≡ self.aside }
        ensures sides { Labelling words.now new.now → sides_at (S.Store.files store.new) ≡ unwind_all Unwind.Discard (take self.touched (files_by new.now words.now)) (sides_at (S.Store.files store.old)) }
        ensures sides_goods { Bears words.now new.now → sides_at (S.Store.files store.new) ≡ unwind_all Unwind.Discard (take self.touched (goods_in words.now).files) (sides_at (S.Store.files store.old)) }
        ensures other { (Bears words.now new.now → ⊥) → sides_at (S.Store.files store.new) ≡ sides_at (S.Store.files store.old) }
        ensures units { S.Store.units store.new ≡ S.Store.units store.old }
    {
        if let Some(package) = new.package(words) {
            return self.discard(store, &package);
        }
        let Past { touched: _, aside } = self;
        aside
    }
}
