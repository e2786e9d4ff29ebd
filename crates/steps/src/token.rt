// The files of a package that were laid, before the install's point. It is no value to let go: `put_back`, or `pass` and
// then `discard`, spends it.
#[must_use]
pub struct Before {
    pub(crate) touched: usize,
    pub(crate) aside: usize,
}

// The same past the point: there is no way back. It is a type of its own so that the compiler refuses one; the two have no
// parameter in common, since nothing but their two numbers would be shared.
#[must_use]
pub struct Past {
    pub(crate) touched: usize,
    pub(crate) aside: usize,
}
