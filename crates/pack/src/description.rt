use base::{FileKind, Name, Version};

// A file that a package is to carry.
#[derive(Drop)]
pub struct Entry {
    pub kind: FileKind,
    pub path: u8,
    pub content: Vec<u8>,
}

#[derive(Clone, Copy)]
pub struct Head {
    pub name: Name,
    pub version: Version,
}

#[derive(Drop)]
pub struct Description {
    pub head: Head,
    pub files: Vec<Entry>,
}

// What one line of a description says.
#[derive(Drop)]
pub enum Line {
    Nothing,
    Package(Head),
    File(Entry),
    End,
}
