ghost use Rattle.std.specs.Prelude.{◌≡◌, is_ok};
ghost use Rattle.table.specs.Answers.{live, room};
ghost use Rattle.books.specs.Changes.{Put, Out};

use host::Full;
use table::{Element, Key, Table};

// Puts a row into a table: over the row of its key, or in beside the others.
pub(crate) fn put<E: Element>(table: &mut Table<'_, E>, row: E) -> Result<(), Full>
    ensures room { room table.new ≡ room table.old }
    ensures put { Put E.K.Key.below E.Element.keyed row (room table.old) (live table.old) (is_ok result) (live table.new) }
{
    if table.replace(row).is_some() {
        return Ok(());
    }
    table.insert(row).map_err(|_| Full)?;
    Ok(())
}

// Takes the row of a key out of a table, if there is one.
pub(crate) fn take_out<E: Element>(table: &mut Table<'_, E>, key: E::K)
    ensures room { room table.new ≡ room table.old }
    ensures out { Out E.K.Key.below E.Element.keyed key (live table.old) (live table.new) }
{
    let _ = table.remove(key);
}
