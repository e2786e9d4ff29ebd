// Which of the files of a path.
#[derive(Clone, Copy, PartialEq, Eq)]
pub enum Side {
    // the file in place
    Place = 0,
    // that file, set aside
    Aside = 1,
    // a conffile that waits for its place
    Pending = 2,
    // a pending one, set aside
    PendingAside = 3,
}
