// What configure, remove and purge do with an owned path. An enum and no closure: what takes a closure has to require that
// it may be called, and no public call of the core requires anything.
#[derive(Clone, Copy, PartialEq, Eq)]
pub enum Pass {
    // a pending conffile takes its place
    Settle,
    // a plain file goes, and of a conffile what is pending
    Clear,
    // a conffile goes
    Wipe,
}

// How files that were laid are dealt with in the end. An enum, since the definitions of what is left then are over it.
#[derive(Clone, Copy, PartialEq, Eq)]
pub enum Unwind {
    // what was set aside returns
    PutBack,
    // what was set aside goes
    Discard,
}
