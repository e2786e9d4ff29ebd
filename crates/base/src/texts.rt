// Two kinds of text, each with its own rule.
#[derive(Clone, Copy, PartialEq, Eq, Debug)]
pub enum TextKind {
    Name,
    Version,
}

// Up to sixteen bytes, zero bytes behind them: plain data, as rows of tables and traces hold it.
// Nothing says that the text in it is allowed; a `Name` or a `Version` is made from it by a check.
#[derive(Clone, Copy, Debug, PartialEq, Eq)]
pub struct ShortText {
    pub bytes: [u8; 16],
}
