// The calls of a station.
#[derive(Clone, Copy, PartialEq, Eq, Debug)]
pub enum Operation {
    Install,
    Configure,
    Remove,
    Purge,
}

// A call with its words: a package for an install, a name for the others.
#[derive(Clone, Copy)]
pub struct Request<'a> {
    pub operation: Operation,
    pub words: &'a [u32],
}

// How a call that was not refused ended.
#[derive(Clone, Copy, PartialEq, Eq, Debug)]
pub enum Outcome {
    // past its point, and its last script worked
    Done,
    // short of its point: every file is as it was found
    Stopped,
    // past its point, but its last script failed
    Late,
}

// What a call came to, and its counts.
#[derive(Clone, Copy, PartialEq, Eq, Debug)]
pub struct Report {
    pub outcome: Outcome,
    // script calls
    pub scripts: usize,
    // files that were set aside, that were put back, and that were discarded in the end
    pub aside: usize,
    pub back: usize,
    pub discarded: usize,
}
