use crate::samples::{changed, longest};
use crate::tally::{Tally, at};
use std::alloc::{AllocError, Global};

// Number 2: a word of a wrong kind, or a bit that must be zero.
pub(crate) fn all(tally: &mut Tally, heap: Global) -> Result<(), AllocError> {
    heads(tally);
    texts(tally);
    items(tally);
    behind(tally);
    let mut words = longest(heap)?;
    words.push(0)?;
    tally.refused("a word behind the longest", words.as_slice(), at(2, 806, 1));
    tally.refused(
        "a file in place of the last content word",
        changed(heap, 804, 0x3000_0000)?.as_slice(),
        at(2, 804, 1),
    );
    Ok(())
}

fn heads(tally: &mut Tally) {
    tally.refused("kind 0 first", &[0], at(2, 0, 1));
    tally.refused("a text first", &[0x2261_6200], at(2, 0, 1));
    tally.refused("an end first", &[0xf000_0000], at(2, 0, 1));
    tally.refused("bit 16 of the head", &[0x1001_0102], at(2, 0, 1));
    tally.refused("bit 27 of the head", &[0x1800_0102], at(2, 0, 1));
    tally.refused(
        "a bit of the head before its lengths",
        &[0x1001_0101],
        at(2, 0, 1),
    );
}

fn texts(tally: &mut Tally) {
    tally.refused(
        "an end where a name is due",
        &[0x1000_0102, 0xf000_0001],
        at(2, 1, 1),
    );
    tally.refused(
        "an unused byte of a word with two",
        &[0x1000_0102, 0x2261_6201],
        at(2, 1, 1),
    );
    tally.refused(
        "an unused byte of a word with one",
        &[0x1000_0102, 0x2261_6200, 0x2131_0100],
        at(2, 2, 1),
    );
    tally.refused(
        "an unused byte of a word with none",
        &[0x1000_0102, 0x2000_0001],
        at(2, 1, 1),
    );
    tally.refused(
        "a file where a content is due",
        &[
            0x1000_0102,
            0x2261_6200,
            0x2131_0000,
            0x3000_0107,
            0x3000_0008,
        ],
        at(2, 4, 1),
    );
}

fn items(tally: &mut Tally) {
    tally.refused(
        "kind 5",
        &[0x1000_0102, 0x2261_6200, 0x2131_0000, 0x5000_0000],
        at(2, 3, 1),
    );
    tally.refused(
        "kind 14",
        &[0x1000_0102, 0x2261_6200, 0x2131_0000, 0xe000_0003],
        at(2, 3, 1),
    );
    tally.refused(
        "a text among the files",
        &[0x1000_0102, 0x2261_6200, 0x2131_0000, 0x2161_0000],
        at(2, 3, 1),
    );
    tally.refused(
        "bit 14 of a file",
        &[0x1000_0102, 0x2261_6200, 0x2131_0000, 0x3000_4007],
        at(2, 3, 1),
    );
    tally.refused(
        "bit 27 of a file",
        &[0x1000_0102, 0x2261_6200, 0x2131_0000, 0x4800_0007],
        at(2, 3, 1),
    );
}

fn behind(tally: &mut Tally) {
    tally.refused(
        "a zero word behind the end",
        &[0x1000_0102, 0x2261_6200, 0x2131_0000, 0xf000_0003, 0],
        at(2, 4, 1),
    );
    tally.refused(
        "a second end",
        &[
            0x1000_0102,
            0x2261_6200,
            0x2131_0000,
            0xf000_0003,
            0xf000_0004,
        ],
        at(2, 4, 1),
    );
}
