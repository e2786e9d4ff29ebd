use base::ShortText;
use table::Element;

// Rows of the tests' own, and not those of `status`: a table takes any rows with a key.

// A package: its name, and a mark to tell it by.
#[derive(Clone, Copy)]
pub struct Record {
    pub name: ShortText,
    pub mark: u8,
}

impl Element for Record {
    type K = ShortText;

    ghost keyed = { λ r. r.name };

    fn key(&self) -> ShortText {
        self.name
    }
}

// A path that has an owner, and the owner's mark.
#[derive(Clone, Copy, PartialEq, Eq, Debug)]
pub struct Owner {
    pub path: u8,
    pub mark: u8,
}

impl Element for Owner {
    type K = u8;

    ghost keyed = { λ o. o.path };

    fn key(&self) -> u8 {
        self.path
    }
}
