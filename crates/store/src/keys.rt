ghost use Rattle.std.specs.Prelude.{◌≡◌, ◌<◌};
ghost use Rattle.store.specs.Files.{key_count};
ghost use Rattle.store.specs.Sides.{key_of};

use crate::side::Side;

// How many sides a path has, how many paths there are, and so how many keys.
pub const SIDES: usize = 4;

pub const PATHS: usize = 256;

pub const KEYS: usize = SIDES * PATHS;

// The longest file, in words.
pub const LONGEST: usize = 32;

// The key of a path's side.
pub fn key(path: u8, side: Side) -> usize
    ensures is { result ≡ key_of path side }
    ensures small { result < key_count }
{
    SIDES * path as usize + side as usize
}
