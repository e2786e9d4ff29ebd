ghost use Rattle.std.specs.Prelude.{◌≡◌, ◌+◌, ◌≤◌, [], length};
ghost use Rattle.package.specs.Labels.{Bears};
ghost use Rattle.steps.specs.Goods.{goods_in};
ghost use Rattle.books.specs.Limits.{owners_most};
ghost use Rattle.books.specs.Ledger.{ledger};
ghost use Rattle.books.specs.Changes.{owners_in};
ghost use Rattle.books.specs.Owners.{fresh_count, FilesOwned, Surveyed};

use crate::books::Books;
use crate::survey::Survey;
use base::ShortText;
use package::Label;

// What the books do with the files of a package, by its label and any words beside it: for who let the words go in between.
// Words that do not hold the label's package have no files here.
impl<'a> Books<'a> {
    // The paths of the package's files are owned by it from now on, if there is room for those that have no owner.
    pub fn own_labelled(&mut self, name: ShortText, new: &Label, words: &[u32])
        ensures owned { Bears words.now new.now → length (ledger self.old).owners + fresh_count (owners_in (ledger self.old).owners) (goods_in words.now).files ≤ owners_most → FilesOwned name (goods_in words.now).files (ledger self.old).owners (ledger self.new).owners }
        ensures other { (Bears words.now new.now → ⊥) → (ledger self.new).owners ≡ (ledger self.old).owners }
        ensures records { (ledger self.new).records ≡ (ledger self.old).records }
        ensures lines { (ledger self.new).lines ≡ (ledger self.old).lines }
        ensures space { (ledger self.new).space ≡ (ledger self.old).space }
    {
        if let Some(package) = new.package(words) {
            self.own_files(name, &package);
        }
    }

    // What the owners say of the package's files.
    pub fn survey_labelled(&self, name: ShortText, new: &Label, words: &[u32]) -> Survey
        ensures surveyed { Bears words.now new.now → Surveyed name (owners_in (ledger self.now).owners) (goods_in words.now).files result }
        ensures other { (Bears words.now new.now → ⊥) → Surveyed name (owners_in (ledger self.now).owners) [] result }
    {
        match new.package(words) {
            Some(package) => self.survey(name, &package),
            None => Survey {
                foreign: false,
                differing: false,
                fresh: 0,
            },
        }
    }
}
