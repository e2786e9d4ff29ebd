ghost use Rattle.std.specs.Prelude.{◌≡◌, ◌+◌, ◌-◌, ◌<◌, ◌≤◌, length, take, slice_index_or, slice_set};
ghost use Rattle.std.specs.List.{insert, remove};

use std::mem;

// Puts a row in at `i` among the first `n`.
pub(crate) fn open_at<E: Copy>(rows: &mut [E], i: usize, n: usize, row: E)
    requires { (i ≤ n) × (n < length rows.old) }
    ensures { take (n + 1) rows.new ≡ insert (take n rows.old) i row }
{
    rows[n] = row;
    let part = &mut rows[i..n + 1];
    part.rotate_right(1);
}

// Takes the row at `i` out of the first `n`, and answers it.
pub(crate) fn close_at<E: Copy>(rows: &mut [E], i: usize, n: usize) -> E
    requires { (i < n) × (n ≤ length rows.old) }
    ensures was { result ≡ slice_index_or (take n rows.old) i result }
    ensures rows { take (n - 1) rows.new ≡ remove (take n rows.old) i }
{
    let old = rows[i];
    let part = &mut rows[i..n];
    part.rotate_left(1);
    old
}

// Writes a row over that at `i`, and answers that one.
pub(crate) fn write_at<E: Copy>(rows: &mut [E], i: usize, row: E) -> E
    requires { i < length rows.old }
    ensures was { result ≡ slice_index_or rows.old i result }
    ensures rows { rows.new ≡ slice_set rows.old i row }
{
    mem::replace(&mut rows[i], row)
}
