use crate::samples::LONG_NAME;
use crate::tally::{Tally, at};

// Names alone.
pub(crate) fn all(tally: &mut Tally) {
    good(tally);
    cut(tally);
    heads(tally);
    texts(tally);
}

fn good(tally: &mut Tally) {
    tally.name(
        "a name of 2 bytes alone",
        &[0x1000_0002, 0x2261_6200],
        b"ab",
    );
    tally.name(
        "a name of 3 bytes alone",
        &[0x1000_0003, 0x2330_2b2e],
        b"0+.",
    );
    tally.name(
        "a name of 16 bytes alone",
        &[
            0x1000_0010,
            0x2361_6263,
            0x2364_6566,
            0x2367_6869,
            0x236a_6b6c,
            0x236d_6e6f,
            0x2170_0000,
        ],
        &LONG_NAME,
    );
}

fn cut(tally: &mut Tally) {
    tally.no_name("no words for a name", &[], at(1, 0, 2));
    tally.no_name("the head of a name alone", &[0x1000_0002], at(1, 1, 2));
    tally.no_name(
        "a name of 16 bytes without its last word",
        &[
            0x1000_0010,
            0x2361_6263,
            0x2364_6566,
            0x2367_6869,
            0x236a_6b6c,
            0x236d_6e6f,
        ],
        at(1, 6, 2),
    );
}

fn heads(tally: &mut Tally) {
    tally.no_name("a text for a name's head", &[0x2261_6200], at(2, 0, 1));
    tally.no_name(
        "a bit of a name's head before its version length",
        &[0x1001_0102],
        at(2, 0, 1),
    );
    tally.no_name(
        "a version length beside a name alone",
        &[0x1000_0102, 0x2261_6200],
        at(3, 0, 2),
    );
    tally.no_name("a name of 1 byte alone", &[0x1000_0001], at(3, 0, 2));
    tally.no_name("a name of 17 bytes alone", &[0x1000_0011], at(3, 0, 2));
}

fn texts(tally: &mut Tally) {
    tally.no_name(
        "a byte not allowed in a name alone",
        &[0x1000_0002, 0x2261_5f00],
        at(3, 1, 2),
    );
    tally.no_name(
        "an end behind a name alone",
        &[0x1000_0002, 0x2261_6200, 0xf000_0002],
        at(2, 2, 1),
    );
    tally.no_name(
        "a word behind a name of 16 bytes alone",
        &[
            0x1000_0010,
            0x2361_6263,
            0x2364_6566,
            0x2367_6869,
            0x236a_6b6c,
            0x236d_6e6f,
            0x2170_0000,
            0,
        ],
        at(2, 7, 1),
    );
}
