ghost use Rattle.std.specs.Prelude.{◌≡◌, ℕ, ◌≤◌, length};
ghost use Rattle.status.specs.Tables.{owner_of};
ghost use Rattle.table.specs.Answers.{live, room};
ghost use Rattle.steps.specs.Owners.{member};
ghost use Rattle.books.specs.Ledger.{ledger};
ghost use Rattle.books.specs.Owners.{leaves, unowned, Disowned};

use crate::books::Books;
use base::{FileKind, ShortText};
use status::Owned;
use steps::{PathSet, same_name};
use table::Table;

// Whether the package owns the path as this kind, and the path is not excepted.
fn is_let_go(row: Owned, name: ShortText, kind: FileKind, except: &PathSet) -> bool
    ensures { result ≡ leaves name kind (member except.now row.path) row }
{
    !except.has(row.path) && row.kind == kind && same_name(row.owner, name)
}

// Takes out the rows that are let go, the last one first, so that none still to be looked at moves. The table has no `retain`:
// a call that takes a closure has to require that it may be called, and no public call requires anything.
fn disown_rows(owners: &mut Table<'_, Owned>, name: ShortText, kind: FileKind, except: &PathSet)
    ensures room { room owners.new ≡ room owners.old }
    ensures count { length (live owners.new) ≤ length (live owners.old) }
    ensures law { (q : ℕ) → owner_of q (live owners.new) ≡ unowned name kind (member except.now q) (owner_of q (live owners.old)) }
{
    for i in (0..owners.rows().len()).rev() {
        if is_let_go(owners.rows()[i], name, kind, except) {
            let _ = owners.remove_at(i);
        }
    }
}

impl<'a> Books<'a> {
    // The paths that the package owns as this kind have no owner from now on, but for the excepted ones.
    pub fn disown(&mut self, name: ShortText, kind: FileKind, except: &PathSet)
        ensures { Disowned name kind except.now (ledger self.old) (ledger self.new) }
    {
        disown_rows(&mut self.owners, name, kind, except);
    }
}
