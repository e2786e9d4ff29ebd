ghost use Rattle.std.specs.Prelude.{◌≡◌, ◌+◌, ◌≤◌, length};
ghost use Rattle.package.specs.Files.{files_of};
ghost use Rattle.table.specs.Answers.{live, room};
ghost use Rattle.steps.specs.Goods.{goods_in};
ghost use Rattle.books.specs.Limits.{owners_most};
ghost use Rattle.books.specs.Ledger.{ledger};
ghost use Rattle.books.specs.Changes.{owners_in};
ghost use Rattle.books.specs.Owners.{fresh_count, FilesOwned};

use crate::books::Books;
use crate::rows::put;
use base::ShortText;
use package::Package;
use status::Owned;
use table::Table;

// The files of the package are owned by it from now on.
fn own_all(owners: &mut Table<'_, Owned>, name: ShortText, new: &Package<'_>)
    ensures room { room owners.new ≡ room owners.old }
    ensures owned { length (live owners.old) + fresh_count (owners_in (live owners.old)) (files_of new.now) ≤ room owners.old → FilesOwned name (files_of new.now) (live owners.old) (live owners.new) }
{
    for file in new.files() {
        let row = Owned {
            path: file.path,
            owner: name,
            kind: file.kind,
        };
        let _ = put(owners, row);
    }
}

impl<'a> Books<'a> {
    // The paths of the package's files are owned by it from now on, if there is room for those that have no owner.
    pub fn own_files(&mut self, name: ShortText, new: &Package<'_>)
        ensures owned { length (ledger self.old).owners + fresh_count (owners_in (ledger self.old).owners) (goods_in new.now.words.now).files ≤ owners_most → FilesOwned name (goods_in new.now.words.now).files (ledger self.old).owners (ledger self.new).owners }
        ensures records { (ledger self.new).records ≡ (ledger self.old).records }
        ensures lines { (ledger self.new).lines ≡ (ledger self.old).lines }
        ensures space { (ledger self.new).space ≡ (ledger self.old).space }
    {
        own_all(&mut self.owners, name, new);
    }
}
