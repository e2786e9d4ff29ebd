ghost use Rattle.std.specs.Prelude.{◌≡◌, ℕ, ◌*◌, ◌≤◌, length, take, drop, is_some, if◌then◌else◌, Some, None, slice_set};
ghost use Rattle.store.specs.Files.{Files, key_count, file_at, used, admits, moved, length_of, words_of};

// A store of files under keys. What it holds, and how many units it has, is all that its calls speak of.
pub trait Store {
    // The length of a block, in words.
    const BLOCK: usize;

    // the same, for clauses
    ghost block: { ℕ };

    ghost units: { Self → ℕ };

    ghost files: { Self → Files };

    // What each store proves: a block has a word at least, each key has its place, and the files held fit.
    ghost wide: { 1 ≤ block };

    ghost keys: { (s : Self) → length (files s) ≡ key_count };

    ghost room: { (s : Self) → used block (files s) ≤ units s };

    // `BLOCK`, tied to the name that clauses have for it: no impl with a lifetime may yet tie the constant itself.
    fn block_len() -> usize
        ensures { result ≡ block };

    // Holds the words under the key, in the place of what was there; false where that is refused, and then nothing changes.
    // A `bool`: it answers the test `admits`, by which the clauses above the stores tell one way from the other.
    fn put(&mut self, key: usize, words: &[u32]) -> bool
        ensures answer { result ≡ admits block (units self.old) (files self.old) key words.now }
        ensures files { files self.new ≡ (if result then slice_set (files self.old) key (Some words.now) else files self.old) }
        ensures units { units self.new ≡ units self.old };

    // Carries a file to another key, in the place of what was there, and empties the first.
    fn carry(&mut self, from: usize, to: usize)
        ensures files { files self.new ≡ moved (files self.old) from to }
        ensures units { units self.new ≡ units self.old };

    // Empties a key.
    fn clear(&mut self, key: usize)
        ensures files { files self.new ≡ slice_set (files self.old) key None }
        ensures units { units self.new ≡ units self.old };

    // Whether the key holds a file.
    fn held(&self, key: usize) -> bool
        ensures { result ≡ is_some (file_at (files self.now) key) }
    {
        self.length(key).is_some()
    }

    // How many words the key holds; `None` where it is empty.
    fn length(&self, key: usize) -> Option<usize>
        ensures { result ≡ length_of (file_at (files self.now) key) };

    // The words of the key's file from block `at` on, as far as they stand together: one block's. They are lent, not copied.
    fn part(&self, key: usize, at: usize) -> &[u32]
        ensures { result.now ≡ take block (drop (at * block) (words_of (file_at (files self.now) key))) };
}
