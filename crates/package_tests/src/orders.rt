use crate::samples::{changed, empty_files, followed};
use crate::tally::{Tally, at};
use std::alloc::{AllocError, Global};

// Number 4, a path not above the one before, and number 5, a wrong count in the end word.
pub(crate) fn all(tally: &mut Tally, heap: Global) -> Result<(), AllocError> {
    paths(tally);
    ends(tally);
    // the 24th file of the longest stands at 13 + 23 x 33
    tally.refused(
        "the 24th path as the 23rd",
        changed(heap, 772, 0x3000_20fe)?.as_slice(),
        at(4, 772, 2),
    );
    tally.refused(
        "the 24th path at 0",
        changed(heap, 772, 0x4000_2000)?.as_slice(),
        at(4, 772, 2),
    );
    let mut words = empty_files(heap, 23)?;
    words.push(0x4000_0016)?;
    tally.refused(
        "the 24th empty file at the path before",
        words.as_slice(),
        at(4, 26, 2),
    );
    tally.refused(
        "one word too few in the longest's end",
        followed(heap, 0xf000_0324)?.as_slice(),
        at(5, 805, 2),
    );
    tally.refused(
        "one word too many in the longest's end",
        followed(heap, 0xf000_0326)?.as_slice(),
        at(5, 805, 2),
    );
    Ok(())
}

fn paths(tally: &mut Tally) {
    tally.refused(
        "the same path twice",
        &[
            0x1000_0102,
            0x2261_6200,
            0x2131_0000,
            0x3000_0007,
            0x4000_0007,
        ],
        at(4, 4, 2),
    );
    tally.refused(
        "a lower path",
        &[
            0x1000_0102,
            0x2261_6200,
            0x2131_0000,
            0x3000_00ff,
            0x3000_0000,
        ],
        at(4, 4, 2),
    );
    tally.refused(
        "a lower path behind a content",
        &[
            0x1000_0102,
            0x2261_6200,
            0x2131_0000,
            0x3000_0107,
            0x2361_6263,
            0x4000_0106,
        ],
        at(4, 5, 2),
    );
}

fn ends(tally: &mut Tally) {
    tally.refused(
        "one word too few",
        &[0x1000_0102, 0x2261_6200, 0x2131_0000, 0xf000_0002],
        at(5, 3, 2),
    );
    tally.refused(
        "one word too many",
        &[0x1000_0102, 0x2261_6200, 0x2131_0000, 0xf000_0004],
        at(5, 3, 2),
    );
    tally.refused(
        "a high bit of the count",
        &[0x1000_0102, 0x2261_6200, 0x2131_0000, 0xf800_0003],
        at(5, 3, 2),
    );
    tally.refused(
        "a wrong count before words behind the end",
        &[0x1000_0102, 0x2261_6200, 0x2131_0000, 0xf000_0002, 0],
        at(5, 3, 2),
    );
}
