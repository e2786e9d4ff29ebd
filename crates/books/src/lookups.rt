ghost use Rattle.std.specs.Prelude.{◌≡◌, ◌+◌, true, [], length, nat_lt};
ghost use Rattle.status.specs.Tables.{record_of, owner_of};
ghost use Rattle.table.specs.Order.{by_bytes};
ghost use Rattle.table.specs.Rows.{rising};
ghost use Rattle.books.specs.Limits.{records_most, owners_most};
ghost use Rattle.books.specs.Ledger.{ledger};

use crate::books::Books;
use base::ShortText;
use host::{Line, Trace};
use status::{Owned, Record};
use table::Table;

impl<'a> Books<'a> {
    // Books that hold nothing.
    pub fn new(
        records: &'a mut [Record; 64],
        owners: &'a mut [Owned; 256],
        trace: &'a mut [Line],
    ) -> Self
        ensures records { (ledger result).records ≡ [] }
        ensures owners { (ledger result).owners ≡ [] }
        ensures lines { (ledger result).lines ≡ [] }
        ensures space { (ledger result).space ≡ length trace.old }
    {
        Books {
            records: Table::empty(records),
            owners: Table::empty(owners),
            trace: Trace::new(trace),
        }
    }

    // The records, in the order of their names.
    pub fn records(&self) -> &[Record]
        ensures rows { result.now ≡ (ledger self.now).records }
        ensures order { rising by_bytes (λ r. r.name) result.now ≡ true }
    {
        self.records.rows()
    }

    // The owned paths, in their order.
    pub fn owners(&self) -> &[Owned]
        ensures rows { result.now ≡ (ledger self.now).owners }
        ensures order { rising nat_lt (λ o. o.path) result.now ≡ true }
    {
        self.owners.rows()
    }

    // The lines of the trace, the first one first.
    pub fn lines(&self) -> &[Line]
        ensures { result.now ≡ (ledger self.now).lines }
    {
        self.trace.items()
    }

    // The record of a package.
    pub fn find(&self, name: ShortText) -> Option<Record>
        ensures { result ≡ record_of name (ledger self.now).records }
    {
        self.records.find(name)
    }

    // The owner of a path.
    pub fn owner(&self, path: u8) -> Option<Owned>
        ensures { result ≡ owner_of path (ledger self.now).owners }
    {
        self.owners.find(path)
    }

    // How many lines more the trace has room for.
    pub fn free_lines(&self) -> usize
        ensures { length (ledger self.now).lines + result ≡ (ledger self.now).space }
    {
        self.trace.free()
    }

    // How many packages more can have a record.
    pub fn free_records(&self) -> usize
        ensures { length (ledger self.now).records + result ≡ records_most }
    {
        self.records.free()
    }

    // How many paths more can have an owner.
    pub fn free_owners(&self) -> usize
        ensures { length (ledger self.now).owners + result ≡ owners_most }
    {
        self.owners.free()
    }
}
