use base::{Name, Version};

// What tells a package once its words are let go: its name and version, and where in its words the files begin. It borrows
// nothing, and its fields are plain data.
#[derive(Clone, Copy)]
pub struct Label {
    pub name: Name,
    pub version: Version,
    pub(crate) first_file: usize,
}
