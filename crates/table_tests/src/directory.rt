ghost use Rattle.std.specs.Prelude.{◌≡◌, []};
ghost use Rattle.table.specs.Order.{by_bytes};
ghost use Rattle.table.specs.Answers.{live, Inserts};

use crate::rows::Record;
use table::{Refused, Table};

// A table of packages by name.
#[derive(Drop)]
pub struct Directory<'a> {
    records: Table<'a, Record>,
}

impl<'a> Directory<'a> {
    pub fn new(rows: &'a mut [Record]) -> Self
        ensures { live result.records ≡ [] }
    {
        Directory {
            records: Table::empty(rows),
        }
    }

    pub fn records(&self) -> &[Record]
        ensures { result.now ≡ live self.now.records }
    {
        self.records.rows()
    }

    pub fn note(&mut self, entry: Record) -> Result<usize, Refused>
        ensures { Inserts by_bytes (λ r. r.name) entry self.old.records result self.new.records }
    {
        self.records.insert(entry)
    }
}
