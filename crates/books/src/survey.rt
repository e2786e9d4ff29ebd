// What the owners of paths say of a package's files.
#[derive(Clone, Copy)]
pub struct Survey {
    // another package owns one of the paths
    pub foreign: bool,
    // one of the paths is owned as the other kind
    pub differing: bool,
    // how many of the paths have no owner
    pub fresh: usize,
}
