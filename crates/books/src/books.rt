ghost use Rattle.std.specs.Prelude.{◌≡◌};
ghost use Rattle.table.specs.Answers.{room};
ghost use Rattle.books.specs.Limits.{records_most, owners_most};

use host::Trace;
use status::{Owned, Record};
use table::Table;

// The records of packages by name, the owners of paths by path, and the trace of script calls, over lent memory.
// Their rooms are part of the type, so that no call on them asks anything of its caller.
#[derive(Drop)]
pub struct Books<'a> {
    pub(crate) records: Table<'a, Record>,
    pub(crate) owners: Table<'a, Owned>,
    pub(crate) trace: Trace<'a>,
    ghost places: { room records ≡ records_most },
    ghost paths: { room owners ≡ owners_most },
}
