use base::{FileKind, ShortText};
use table::Element;

// Whether a package must be installed anew before anything else can be done with it. It stands beside the state, as in the
// text of the status; a state that held it would be a narrower type, and ask more of who makes a record.
#[derive(Clone, Copy, PartialEq, Eq, Debug)]
pub enum Flag {
    Ok,
    // only with `HalfInstalled`
    Reinstreq,
}

// How far a package has come. A package that is not installed has no record.
#[derive(Clone, Copy, PartialEq, Eq, Debug)]
pub enum State {
    // only its configuration files are left
    ConfigFiles,
    // an install or a removal was begun and not ended
    HalfInstalled,
    // its files are there, not yet configured
    Unpacked,
    // its configuration was begun and failed
    HalfConfigured,
    Installed,
}

// A version, or none: then the text is all zero, so that equal values are equal rows. It is plain data, like the name: nothing
// here says that the text is a version, or that it is zero. An `Option` has no text where there is no version: it would be a
// narrower type, and ask more of who makes a record.
#[derive(Clone, Copy)]
pub struct Noted {
    pub there: bool,
    pub text: ShortText,
}

// What is recorded of a package. Rows are plain data; `Sound` of specs/Rows.antt says which of them are records.
#[derive(Clone, Copy)]
pub struct Record {
    pub name: ShortText,
    pub flag: Flag,
    pub state: State,
    pub version: Noted,
    // the version that was configured last
    pub configured: Noted,
}

impl Element for Record {
    type K = ShortText;

    ghost keyed = { λ r. r.name };

    fn key(&self) -> ShortText {
        self.name
    }
}

// A path that has an owner, and as what it is owned.
#[derive(Clone, Copy)]
pub struct Owned {
    pub path: u8,
    pub owner: ShortText,
    pub kind: FileKind,
}

impl Element for Owned {
    type K = u8;

    ghost keyed = { λ o. o.path };

    fn key(&self) -> u8 {
        self.path
    }
}
