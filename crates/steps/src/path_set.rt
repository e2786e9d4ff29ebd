// A set of paths, in memory of its own: the core allocates nothing, so it is no set of the library.
#[derive(Clone, Copy)]
pub struct PathSet {
    // for each path whether it is in the set
    pub(crate) marked: [bool; 256],
}
