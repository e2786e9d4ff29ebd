ghost use Rattle.std.specs.Prelude.{◌≡◌, false, replicate};
ghost use Rattle.steps.specs.Owners.{member, no_path, with_path};

use crate::path_set::PathSet;

fn unmarked() -> [bool; 256]
    ensures { result ≡ replicate 256 false }
{
    [false; 256]
}

impl PathSet {
    // No path.
    pub fn none() -> PathSet
        ensures { member result ≡ no_path }
    {
        PathSet { marked: unmarked() }
    }

    // This path is in the set too.
    pub fn add(&mut self, path: u8)
        ensures { member self.new ≡ with_path path (member self.old) }
    {
        self.marked[path as usize] = true;
    }

    // Whether the path is in the set.
    pub fn has(&self, path: u8) -> bool
        ensures { result ≡ member self.now path }
    {
        self.marked[path as usize]
    }
}
