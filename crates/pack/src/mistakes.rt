use std::alloc::AllocError;
use thiserror::Error;

// What is wrong with a line of a description.
#[derive(Clone, Copy, Debug, Error)]
pub enum Mistake {
    #[error("a line begins with package, plain, conffile, end or #")]
    UnknownWord,
    #[error("the package line comes first")]
    NoPackageYet,
    #[error("there is one package line")]
    SecondPackage,
    #[error("a package line has a name and a version")]
    NotTwoWords,
    #[error("a name has 2 to 16 of a-z, 0-9 and +-., the first a letter or digit")]
    BadName,
    #[error("a version has 1 to 16 of a-z, A-Z, 0-9 and .+-~:, the first a digit")]
    BadVersion,
    #[error("a path is a number from 0 to 255")]
    BadPath,
    #[error("a content stands between double quotes")]
    NoQuotes,
    #[error("a double quote inside a content is written \\\"")]
    BareQuote,
    #[error("behind a backslash stands n, \" or another backslash")]
    UnknownEscape,
    #[error("a content has at most 96 bytes")]
    LongContent,
    #[error("nothing stands behind the end line")]
    WordsAfterEnd,
    #[error("the end line is missing")]
    NoEnd,
    #[error("out of memory")]
    NoMemory(#[from(alloc)] AllocError),
}
