use crate::samples::{LONG_NAME, LONG_VERSION, empty_files, longest};
use crate::tally::Tally;
use std::alloc::{AllocError, Global};

// Packages within the rules.
pub(crate) fn all(tally: &mut Tally, heap: Global) -> Result<(), AllocError> {
    small(tally);
    tally.package(
        "the longest",
        longest(heap)?.as_slice(),
        &LONG_NAME,
        &LONG_VERSION,
        24,
    );
    let mut words = empty_files(heap, 24)?;
    words.push(0xf000_001b)?;
    tally.package("24 empty files", words.as_slice(), b"ab", b"1", 24);
    Ok(())
}

fn small(tally: &mut Tally) {
    tally.package(
        "no files",
        &[0x1000_0102, 0x2261_6200, 0x2131_0000, 0xf000_0003],
        b"ab",
        b"1",
        0,
    );
    tally.package(
        "every sign of a name",
        &[
            0x1000_0104,
            0x2330_2b2d,
            0x212e_0000,
            0x2131_0000,
            0xf000_0004,
        ],
        b"0+-.",
        b"1",
        0,
    );
    tally.package(
        "the first and the last path",
        &[
            0x1000_0102,
            0x2261_6200,
            0x2131_0000,
            0x3000_0000,
            0x4000_00ff,
            0xf000_0005,
        ],
        b"ab",
        b"1",
        2,
    );
    tally.package(
        "any byte in a content, one to three in its last word",
        &[
            0x1000_0102,
            0x2261_6200,
            0x2131_0000,
            0x3000_0207,
            0x2300_ff0a,
            0x2100_0000,
            0xf000_0006,
        ],
        b"ab",
        b"1",
        1,
    );
}
