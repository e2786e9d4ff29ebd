use crate::files::File;

// One item of a package. Texts and contents are parts of the input words.
#[derive(Clone, Copy)]
pub enum Item<'a> {
    Name(&'a [u32]),
    Version(&'a [u32]),
    File(File<'a>),
    End,
}

// Which item is due. An enum: it is what a reader keeps between its calls, and no step that is handed in.
#[derive(Clone, Copy)]
pub enum Stage {
    // the head and the name of a package
    Package,
    // the head and the name of a name alone
    NameAlone,
    // a version of so many bytes
    Version(usize),
    // a file or the end: how many files came before, and the lowest path that may follow
    Files { count: usize, floor: usize },
    // nothing more
    Done,
}

// A reader of items: the whole input, and where in it the next item begins.
#[derive(Clone, Copy)]
pub struct Items<'a> {
    pub(crate) words: &'a [u32],
    pub(crate) place: usize,
    pub(crate) stage: Stage,
}

// An item, the index of its first word, and the reader behind it.
#[derive(Clone, Copy)]
pub struct Step<'a> {
    pub item: Item<'a>,
    pub place: usize,
    pub rest: Items<'a>,
}
