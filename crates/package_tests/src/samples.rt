use std::alloc::{AllocError, Global};

// a name and a version of 16 bytes, the most that they may have, the version with every sign that it may have
pub const LONG_NAME: [u8; 16] = *b"abcdefghijklmnop";

pub const LONG_VERSION: [u8; 16] = *b"1.2+3-4~5:6AbZz9";

// head, name and version: 1 + 6 + 6 words
const LONG_HEAD: [u32; 13] = [
    0x1000_1010,
    0x2361_6263,
    0x2364_6566,
    0x2367_6869,
    0x236a_6b6c,
    0x236d_6e6f,
    0x2170_0000,
    0x2331_2e32,
    0x232b_332d,
    0x2334_7e35,
    0x233a_3641,
    0x2362_5a7a,
    0x2139_0000,
];

// One full file: 32 content words, plain and conffile in turn.
fn push_full_file(words: &mut Vec<u32>, path: u8) -> Result<(), AllocError> {
    let kind = if path % 2 == 0 {
        0x3000_2000
    } else {
        0x4000_2000
    };
    words.push(kind + u32::from(path))?;
    for _ in 0..32 {
        words.push(0x2300_ff0a)?;
    }
    Ok(())
}

// The longest package up to its end word: 13 words, then 24 files of 33 words at the paths 232 to 255.
pub(crate) fn longest_body(heap: Global) -> Result<Vec<u32>, AllocError> {
    let mut words = LONG_HEAD.to_vec(heap)?;
    for path in 232..=255u8 {
        push_full_file(&mut words, path)?;
    }
    Ok(words)
}

// The longest package: 13 + 24 x 33 = 805 words and the end word, which counts them.
pub(crate) fn longest(heap: Global) -> Result<Vec<u32>, AllocError> {
    followed(heap, 0xf000_0325)
}

// The words of the longest package before its end word, and this word behind them.
pub(crate) fn followed(heap: Global, last: u32) -> Result<Vec<u32>, AllocError> {
    let mut words = longest_body(heap)?;
    words.push(last)?;
    Ok(words)
}

// The longest package with another word at a place.
pub(crate) fn changed(heap: Global, place: usize, word: u32) -> Result<Vec<u32>, AllocError> {
    let mut words = longest(heap)?;
    if let Some(old) = words.get_mut(place) {
        *old = word;
    }
    Ok(words)
}

// The package ab 1 with so many empty files at the paths from 0 on, and no end word: 3 words, then one for each file.
pub(crate) fn empty_files(heap: Global, count: u32) -> Result<Vec<u32>, AllocError> {
    let mut words = [0x1000_0102u32, 0x2261_6200, 0x2131_0000].to_vec(heap)?;
    for path in 0..count {
        words.push(0x3000_0000 | path & 255)?;
    }
    Ok(words)
}
