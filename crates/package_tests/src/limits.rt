use crate::samples::{changed, empty_files, followed};
use crate::tally::{Tally, at};
use std::alloc::{AllocError, Global};

// Number 3: a length, a count or a byte outside its limits.
pub(crate) fn all(tally: &mut Tally, heap: Global) -> Result<(), AllocError> {
    lengths(tally);
    counts(tally);
    bytes(tally);
    contents(tally);
    tally.refused(
        "the last byte of a long name",
        changed(heap, 6, 0x215f_0000)?.as_slice(),
        at(3, 6, 2),
    );
    tally.refused(
        "the last byte of a long version",
        changed(heap, 12, 0x215f_0000)?.as_slice(),
        at(3, 12, 2),
    );
    tally.refused(
        "two bytes inside the last content",
        changed(heap, 803, 0x2261_6200)?.as_slice(),
        at(3, 803, 2),
    );
    tally.refused(
        "no bytes in the last content word",
        changed(heap, 804, 0x2000_0000)?.as_slice(),
        at(3, 804, 2),
    );
    tally.refused(
        "a 25th file, its path not above",
        followed(heap, 0x3000_0000)?.as_slice(),
        at(3, 805, 2),
    );
    tally.refused(
        "a 25th empty file",
        empty_files(heap, 25)?.as_slice(),
        at(3, 27, 2),
    );
    Ok(())
}

fn lengths(tally: &mut Tally) {
    tally.refused("a name of no bytes", &[0x1000_0100], at(3, 0, 2));
    tally.refused("a name of 1 byte", &[0x1000_0101], at(3, 0, 2));
    tally.refused("a name of 17 bytes", &[0x1000_0111], at(3, 0, 2));
    tally.refused("a name of 255 bytes", &[0x1000_01ff], at(3, 0, 2));
    tally.refused(
        "a version of no bytes",
        &[0x1000_0002, 0x2261_6200],
        at(3, 0, 2),
    );
    tally.refused("a version of 17 bytes", &[0x1000_1102], at(3, 0, 2));
}

fn counts(tally: &mut Tally) {
    tally.refused("no bytes", &[0x1000_0102, 0x2000_0000], at(3, 1, 2));
    tally.refused("one byte for two", &[0x1000_0102, 0x2161_0000], at(3, 1, 2));
    tally.refused(
        "three bytes for two",
        &[0x1000_0102, 0x2361_6263],
        at(3, 1, 2),
    );
    tally.refused("four bytes", &[0x1000_0103, 0x2461_6263], at(3, 1, 2));
    tally.refused("15 bytes", &[0x1000_0103, 0x2f61_6263], at(3, 1, 2));
    tally.refused(
        "two bytes where more follow",
        &[0x1000_0104, 0x2261_6200, 0x2263_6400],
        at(3, 1, 2),
    );
}

fn bytes(tally: &mut Tally) {
    tally.refused(
        "an upper-case letter in a name",
        &[0x1000_0102, 0x2241_6200],
        at(3, 1, 2),
    );
    tally.refused(
        "a name that begins with a sign",
        &[0x1000_0102, 0x222b_6200],
        at(3, 1, 2),
    );
    tally.refused(
        "an underscore in a name",
        &[0x1000_0102, 0x2261_5f00],
        at(3, 1, 2),
    );
    tally.refused(
        "a tilde in a name",
        &[0x1000_0102, 0x2261_7e00],
        at(3, 1, 2),
    );
    tally.refused(
        "a version that begins with a letter",
        &[0x1000_0102, 0x2261_6200, 0x2161_0000],
        at(3, 2, 2),
    );
    tally.refused(
        "an underscore in a version",
        &[0x1000_0202, 0x2261_6200, 0x2231_5f00],
        at(3, 2, 2),
    );
    tally.refused(
        "a zero byte in a version",
        &[0x1000_0202, 0x2261_6200, 0x2231_0000],
        at(3, 2, 2),
    );
}

fn contents(tally: &mut Tally) {
    tally.refused(
        "33 content words",
        &[0x1000_0102, 0x2261_6200, 0x2131_0000, 0x3000_2107],
        at(3, 3, 2),
    );
    tally.refused(
        "63 content words",
        &[0x1000_0102, 0x2261_6200, 0x2131_0000, 0x4000_3f07],
        at(3, 3, 2),
    );
    tally.refused(
        "33 content words at a path not above",
        &[
            0x1000_0102,
            0x2261_6200,
            0x2131_0000,
            0x3000_0007,
            0x3000_2107,
        ],
        at(3, 4, 2),
    );
    tally.refused(
        "two bytes where more follow in a content",
        &[
            0x1000_0102,
            0x2261_6200,
            0x2131_0000,
            0x3000_0207,
            0x2261_6200,
            0x2161_0000,
        ],
        at(3, 4, 2),
    );
    tally.refused(
        "no bytes in a content word",
        &[
            0x1000_0102,
            0x2261_6200,
            0x2131_0000,
            0x3000_0107,
            0x2000_0000,
        ],
        at(3, 4, 2),
    );
}
