use crate::samples::longest_body;
use crate::tally::{Tally, at};
use std::alloc::{AllocError, Global};

// Number 1: the input ends too early, at its length.
pub(crate) fn all(tally: &mut Tally, heap: Global) -> Result<(), AllocError> {
    tally.refused("no words", &[], at(1, 0, 2));
    tally.refused("the head alone", &[0x1000_0102], at(1, 1, 2));
    tally.refused("no version", &[0x1000_0102, 0x2261_6200], at(1, 2, 2));
    tally.refused("inside a name", &[0x1000_0104, 0x2361_6263], at(1, 2, 2));
    tally.refused(
        "no end",
        &[0x1000_0102, 0x2261_6200, 0x2131_0000],
        at(1, 3, 2),
    );
    tally.refused(
        "inside a content",
        &[
            0x1000_0102,
            0x2261_6200,
            0x2131_0000,
            0x3000_0207,
            0x2361_6263,
        ],
        at(1, 5, 2),
    );
    let mut words = longest_body(heap)?;
    tally.refused(
        "the longest without its end",
        words.as_slice(),
        at(1, 805, 2),
    );
    let _ = words.pop();
    tally.refused(
        "the longest without its last content word",
        words.as_slice(),
        at(1, 804, 2),
    );
    Ok(())
}
