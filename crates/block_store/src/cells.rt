// What a caller lends to a block store: a chain for each key and one of the free blocks, and blocks. The core allocates
// nothing, so a chain names its blocks by their indices in what was lent.

// The words of a block.
pub const WIDTH: usize = 4;

// Four words of a file, and the block that goes on. `seen` counts only while an image is looked through.
#[derive(Clone, Copy)]
pub struct Block {
    pub next: usize,
    pub seen: bool,
    pub words: [u32; WIDTH],
}

// A chain: its first block, how many blocks it has, and how many words they hold. A key with no file has a chain of no
// blocks, and no `Option` of one: the free chain can have none too.
#[derive(Clone, Copy)]
pub struct Chain {
    pub first: usize,
    pub blocks: usize,
    pub len: usize,
}

impl Block {
    pub const BLANK: Block = Block {
        next: 0,
        seen: false,
        words: [0; WIDTH],
    };
}

impl Chain {
    pub const EMPTY: Chain = Chain {
        first: 0,
        blocks: 0,
        len: 0,
    };
}
