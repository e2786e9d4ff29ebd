ghost use Rattle.std.specs.Prelude.{◌≡◌, []};
ghost use Rattle.books.specs.Ledger.{ledger};
ghost use Rattle.books.specs.Changes.{NotedLine, Wrote, Struck, Owns};

use crate::books::Books;
use crate::rows::{put, take_out};
use base::ShortText;
use host::Line;
use status::{Owned, Record};

impl<'a> Books<'a> {
    // No records, no owned paths and no lines from now on.
    pub fn clear(&mut self)
        ensures records { (ledger self.new).records ≡ [] }
        ensures owners { (ledger self.new).owners ≡ [] }
        ensures lines { (ledger self.new).lines ≡ [] }
        ensures space { (ledger self.new).space ≡ (ledger self.old).space }
    {
        self.records.clear();
        self.owners.clear();
        self.trace.clear();
    }

    // One line more; false where the trace is full. The answer is a `bool`, here and of `write` and `own`, for a caller may let it
    // lie: a `Result` must be looked at.
    pub fn note(&mut self, line: Line) -> bool
        ensures { NotedLine line (ledger self.old) result (ledger self.new) }
    {
        self.trace.add(line).is_ok()
    }

    // The record of its name is this one from now on; false where no record has the name and none can come in.
    pub fn write(&mut self, row: Record) -> bool
        ensures { Wrote row (ledger self.old) result (ledger self.new) }
    {
        put(&mut self.records, row).is_ok()
    }

    // No record has this name from now on.
    pub fn strike(&mut self, name: ShortText)
        ensures { Struck name (ledger self.old) (ledger self.new) }
    {
        take_out(&mut self.records, name);
    }

    // The path is owned so from now on; false where it has no owner and the table is full.
    pub fn own(&mut self, row: Owned) -> bool
        ensures { Owns row (ledger self.old) result (ledger self.new) }
    {
        put(&mut self.owners, row).is_ok()
    }
}
