use base::Refusal;
use package::{read_name, read_package};

// How many cases were tried, and the first that came out otherwise than expected.
#[derive(Clone, Copy)]
pub struct Tally {
    pub cases: usize,
    pub wrong: Option<&'static str>,
}

// What a refusal is to say, by the numbers that manuals and programs print, so that these are tested too.
#[derive(Clone, Copy)]
pub struct Expected {
    pub number: u8,
    pub place: usize,
    pub layer: u8,
}

impl Expected {
    fn is(&self, refusal: Refusal) -> bool {
        refusal.reason.number() == self.number
            && refusal.place == self.place
            && refusal.layer.number() == self.layer
    }
}

pub(crate) const fn at(number: u8, place: usize, layer: u8) -> Expected {
    Expected {
        number,
        place,
        layer,
    }
}

fn is_package(words: &[u32], name: &[u8], version: &[u8], files: usize) -> bool {
    read_package(words).is_ok_and(|package| {
        package.name.as_bytes() == name
            && package.version.as_bytes() == version
            && package.files().count() == files
    })
}

fn is_name(words: &[u32], name: &[u8]) -> bool {
    read_name(words).is_ok_and(|found| found.as_bytes() == name)
}

fn is_refused<T: Drop>(answer: Result<T, Refusal>, expected: Expected) -> bool {
    answer.is_err_and(|refusal| expected.is(refusal))
}

impl Tally {
    pub(crate) fn new() -> Tally {
        Tally {
            cases: 0,
            wrong: None,
        }
    }

    fn note(&mut self, title: &'static str, as_expected: bool) {
        self.cases = self.cases.saturating_add(1);
        if !as_expected && self.wrong.is_none() {
            self.wrong = Some(title);
        }
    }

    // The words are a package with this name, this version and so many files.
    pub(crate) fn package(
        &mut self,
        title: &'static str,
        words: &[u32],
        name: &[u8],
        version: &[u8],
        files: usize,
    ) {
        self.note(title, is_package(words, name, version, files));
    }

    // The words are no package, and this is their first fault.
    pub(crate) fn refused(&mut self, title: &'static str, words: &[u32], expected: Expected) {
        self.note(title, is_refused(read_package(words), expected));
    }

    // The words are this name alone.
    pub(crate) fn name(&mut self, title: &'static str, words: &[u32], name: &[u8]) {
        self.note(title, is_name(words, name));
    }

    // The words are no name alone, and this is their first fault.
    pub(crate) fn no_name(&mut self, title: &'static str, words: &[u32], expected: Expected) {
        self.note(title, is_refused(read_name(words), expected));
    }
}
