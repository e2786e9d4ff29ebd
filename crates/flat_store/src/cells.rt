// What a caller lends to a flat image: an entry for each key, and slots.

ghost use Rattle.std.specs.Prelude.{◌≡◌};
ghost use Rattle.flat_store.specs.Images.{extent_of};

// Whether a key has a file, in which slot that lies, and how many words it has. The memory is the caller's, so an entry that
// is not held may have any numbers: they are read through `extent` alone, which looks at `held` first.
#[derive(Clone, Copy)]
pub struct Entry {
    pub held: bool,
    pub slot: usize,
    pub len: usize,
}

// The words of a file: so many from the start of a slot. Public, since definitions and theorems over a flat image speak of it.
#[derive(Clone, Copy)]
pub struct Extent {
    pub slot: usize,
    pub len: usize,
}

// Room for one file. The first slots' `spare` list the slots that are free, whatever these slots hold. While an image is
// looked through, `spare` is the mark of a slot that a file has: one field for both, since the memory is the caller's.
#[derive(Clone, Copy)]
pub struct Slot {
    pub spare: usize,
    pub words: [u32; 32],
}

impl Entry {
    pub const EMPTY: Entry = Entry {
        held: false,
        slot: 0,
        len: 0,
    };

    // Where the file of the entry lies, if it holds one.
    pub(crate) fn extent(&self) -> Option<Extent>
        ensures { result ≡ extent_of self.now }
    {
        self.held.then_some(Extent {
            slot: self.slot,
            len: self.len,
        })
    }
}

impl Slot {
    pub const BLANK: Slot = Slot {
        spare: 0,
        words: [0; 32],
    };
}
