// How a package carries a file, and how a path is owned.
#[derive(Clone, Copy, PartialEq, Eq, Debug)]
pub enum FileKind {
    // replaced and dropped with its package
    Plain,
    // configuration: it waits for a configure, and outlives a remove
    Conffile,
}
