// Why a call refuses, with the number by which manuals and programs name the reason.
#[derive(Clone, Copy, PartialEq, Eq, Debug)]
pub enum Reason {
    // the input ends before its end word, or inside an item, a line or a stanza
    EndsEarly = 1,
    // a word of a kind not allowed there, or a bit set that must be zero
    WrongWord = 2,
    // a length, a count or an input size outside its limits, or a byte not allowed
    OutsideLimits = 3,
    // a path not above the one before
    PathNotRising = 4,
    // a wrong count in the end word
    WrongEndCount = 5,
    // a status line not allowed there
    WrongLine = 6,
    // a value not allowed in its line
    WrongValue = 7,
    // names or paths not rising, a path in two stanzas, or one stanza too many
    NotRising = 8,
    // the output buffer is too short for the next stanza or line
    BufferShort = 9,
    // too few free trace lines
    TraceFull = 11,
    // no room for another package record
    RecordsFull = 12,
    // a path owned by another package
    OwnedByOther = 13,
    // a path owned as one kind and carried as the other
    KindDiffers = 14,
    // no record of that name
    NoRecord = 15,
    // the package's state does not allow the call
    WrongState = 16,
    // no room for another owned path
    OwnersFull = 17,
}

// Which part of the work found the fault.
#[derive(Clone, Copy, PartialEq, Eq, Debug)]
pub enum Layer {
    // the station's records, not its input
    Station = 0,
    // a single input word
    Words = 1,
    // an item of several words
    Items = 2,
    // a text: status database or trace
    Text = 3,
}

// The answer of a call that did nothing: why, where in the input, and in which layer.
#[derive(Clone, Copy, PartialEq, Eq, Debug)]
pub struct Refusal {
    pub reason: Reason,
    pub place: usize,
    pub layer: Layer,
}
