ghost use Rattle.std.specs.Prelude.{◌≡◌, ◌≤◌, true, length, take};
ghost use Rattle.table.specs.Rows.{rising};

use crate::key::{Element, Key};
use crate::shifts::{close_at, open_at, write_at};

// An ordered table over lent memory: the first `len` rows are in use, and their keys rise. The rows behind them are free.
// Both facts are part of the type, so that no call asks for them. That the room stays is said at each call: it tells what the
// call leaves alone, which no type can say. It is no `Lent` of the writer, which grows at its end alone: a table opens and
// closes places between its rows.
#[derive(Drop)]
pub struct Table<'a, E: Element> {
    rows: &'a mut [E],
    len: usize,
    pub ghost within: { len ≤ length rows.now },
    pub ghost order: { rising E.K.Key.below E.Element.keyed (take len rows.now) ≡ true },
}

// Why a row was not inserted.
#[derive(Clone, Copy, PartialEq, Eq, Debug)]
pub enum Refused {
    // The row at this place has its key already.
    Present(usize),
    // No row has its key, and no row is free.
    Full,
}

impl<'a, E: Element> Table<'a, E> {
    ghost use Rattle.std.specs.Prelude.{◌+◌, ◌<◌, [], IfSome};
    ghost use Rattle.table.specs.Rows.{lookup};
    ghost use Rattle.table.specs.Spots.{rank, Spots};
    ghost use Rattle.table.specs.Answers.{live, room, Found, Absent, Finds, Entered, Inserts, Replaced, Replaces, Removed, Removes, Takes};

    // An empty table over any memory.
    pub fn empty(rows: &'a mut [E]) -> Self
        ensures rows { live result ≡ [] }
        ensures room { room result ≡ length rows.old }
    {
        Table { rows, len: 0 }
    }

    // No row is in use any more.
    pub fn clear(&mut self)
        ensures rows { live self.new ≡ [] }
        ensures room { room self.new ≡ room self.old }
    {
        self.len = 0;
    }

    // The rows in use, in order.
    pub fn rows(&self) -> &[E]
        ensures { result.now ≡ live self.now }
    {
        &self.rows[..self.len]
    }

    // How many rows are free.
    pub fn free(&self) -> usize
        ensures { length (live self.now) + result ≡ room self.now }
    {
        self.rows.len() - self.len
    }

    // How many rows at the front have keys below this one.
    fn front(&self, key: E::K) -> usize
        ensures { result ≡ rank E.K.Key.below E.Element.keyed key (live self.now) }
    {
        self.rows().partition_point(|row| row.key().below(&key))
    }

    // The place of the row with this key, or else the place where a row with it would come in.
    fn locate(&self, key: E::K) -> Result<usize, usize>
        ensures { Spots E.K.Key.below E.Element.keyed key (live self.now) result }
    {
        let i = self.front(key);
        let Some(row) = self.rows().get(i) else {
            return Err(i);
        };
        if key.below(&row.key()) { Err(i) } else { Ok(i) }
    }

    // Puts a row in at its place.
    fn put_in(&mut self, i: usize, row: E)
        requires place { i ≡ rank E.K.Key.below E.Element.keyed (E.Element.keyed row) (live self.old) }
        requires new { Absent E.K.Key.below E.Element.keyed (E.Element.keyed row) (live self.old) }
        requires fits { length (live self.old) < room self.old }
        ensures room { room self.new ≡ room self.old }
        ensures entered { Entered E.K.Key.below E.Element.keyed row self.old i self.new }
    {
        open_at(self.rows, i, self.len, row);
        self.len += 1;
    }

    // Puts a row over the one at a place, which has its key, and answers that one.
    fn put_over(&mut self, i: usize, row: E) -> E
        requires { Found E.K.Key.below E.Element.keyed (E.Element.keyed row) (live self.old) i }
        ensures room { room self.new ≡ room self.old }
        ensures replaced { Replaced E.K.Key.below E.Element.keyed row self.old result self.new i }
    {
        write_at(self.rows, i, row)
    }

    // Takes the row at a place out, and answers it.
    fn take_out(&mut self, i: usize) -> E
        requires { i < length (live self.old) }
        ensures room { room self.new ≡ room self.old }
        ensures removed { (k : E.K) → Found E.K.Key.below E.Element.keyed k (live self.old) i → Removed E.K.Key.below E.Element.keyed k self.old result self.new i }
        ensures found { Found E.K.Key.below E.Element.keyed (E.Element.keyed result) (live self.old) i }
    {
        let old = close_at(self.rows, i, self.len);
        self.len -= 1;
        old
    }

    // The place of the row with this key, or nothing where no row has it.
    pub fn search(&self, key: E::K) -> Option<usize>
        ensures within { IfSome result (λ i. i < length (live self.now)) }
        ensures finds { Finds E.K.Key.below E.Element.keyed key self.now result }
    {
        self.locate(key).ok()
    }

    // The row with this key, or nothing where no row has it.
    pub fn find(&self, key: E::K) -> Option<E>
        ensures { result ≡ lookup E.K.Key.below E.Element.keyed key (live self.now) }
    {
        let i = self.search(key)?;
        Some(self.rows()[i])
    }

    // Puts a row in at its place, and answers that place.
    // A row whose key is there already is refused, and so is any other where no row is free.
    pub fn insert(&mut self, row: E) -> Result<usize, Refused>
        ensures room { room self.new ≡ room self.old }
        ensures inserts { Inserts E.K.Key.below E.Element.keyed row self.old result self.new }
    {
        match self.locate(row.key()) {
            Ok(i) => Err(Refused::Present(i)),
            Err(_) if self.free() == 0 => Err(Refused::Full),
            Err(i) => {
                self.put_in(i, row);
                Ok(i)
            }
        }
    }

    // Puts a row in the place of the one with its key, and answers that one; nothing where no row has its key.
    pub fn replace(&mut self, row: E) -> Option<E>
        ensures room { room self.new ≡ room self.old }
        ensures replaces { Replaces E.K.Key.below E.Element.keyed row self.old result self.new }
    {
        let i = self.search(row.key())?;
        Some(self.put_over(i, row))
    }

    // Takes the row at a place out, and answers it; nothing where the place is not in use.
    pub fn remove_at(&mut self, i: usize) -> Option<E>
        ensures room { room self.new ≡ room self.old }
        ensures takes { Takes E.K.Key.below E.Element.keyed i self.old result self.new }
    {
        if i >= self.len {
            return None;
        }
        Some(self.take_out(i))
    }

    // Takes the row with this key out, and answers it; nothing where no row has it.
    pub fn remove(&mut self, key: E::K) -> Option<E>
        ensures room { room self.new ≡ room self.old }
        ensures removes { Removes E.K.Key.below E.Element.keyed key self.old result self.new }
    {
        let place = self.search(key)?;
        Some(self.take_out(place))
    }
}
