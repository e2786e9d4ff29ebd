// The parts of a package as they stand in its words: name, version, and where the files begin.
#[derive(Clone, Copy)]
pub struct Parts<'a> {
    pub name: &'a [u32],
    pub version: &'a [u32],
    pub first_file: usize,
}
