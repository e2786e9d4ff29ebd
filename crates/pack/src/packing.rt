use crate::description::{Description, Entry, Head, Line};
use crate::encode::encode;
use crate::lines::line_of;
use crate::mistakes::Mistake;
use base::Refusal;
use package::read_package;
use std::alloc::{AllocError, Global};
use thiserror::Error;
use wordfile::Told;

// Why no package was made.
#[derive(Clone, Copy, Debug, Error)]
pub enum Fault {
    // a line of the description, counted from 1
    #[error("line {0}: {1}")]
    InLine(usize, Mistake),
    // a description whose package is outside the rules
    #[error("{told}", told = Told(*.0))]
    Refused(#[from] Refusal),
    #[error("out of memory")]
    NoMemory(#[from(alloc)] AllocError),
}

// A description as far as it is read.
#[derive(Drop)]
struct Draft {
    head: Option<Head>,
    files: Vec<Entry>,
    // a flag of its own: what may stand behind the end is another question than whether there was a head
    ended: bool,
}

impl Draft {
    // One line more.
    fn add(&mut self, line: Line) -> Result<(), Mistake> {
        match line {
            Line::Nothing => {}
            _ if self.ended => return Err(Mistake::WordsAfterEnd),
            Line::Package(_) if self.head.is_some() => return Err(Mistake::SecondPackage),
            Line::Package(head) => self.head = Some(head),
            _ if self.head.is_none() => return Err(Mistake::NoPackageYet),
            Line::File(entry) => self.files.push(entry)?,
            Line::End => self.ended = true,
        }
        Ok(())
    }

    fn add_text(&mut self, heap: Global, line: &str) -> Result<(), Mistake> {
        self.add(line_of(heap, line)?)
    }

    // The whole description.
    fn finish(self) -> Result<Description, Mistake> {
        let Draft { head, files, ended } = self;
        match head {
            Some(head) if ended => Ok(Description { head, files }),
            _ => Err(Mistake::NoEnd),
        }
    }
}

// The description in a text, or the first line with a mistake.
fn parse(heap: Global, text: &str) -> Result<Description, Fault> {
    let mut draft = Draft {
        head: None,
        files: Vec::new(heap),
        ended: false,
    };
    // the number of the line behind those read so far
    let mut behind = 1usize;
    for (i, line) in text.lines().enumerate() {
        let number = i.saturating_add(1);
        draft
            .add_text(heap, line)
            .map_err(|mistake| Fault::InLine(number, mistake))?;
        behind = number.saturating_add(1);
    }
    draft
        .finish()
        .map_err(|mistake| Fault::InLine(behind, mistake))
}

// The words of the package that a text describes.
pub(crate) fn pack(heap: Global, text: &str) -> Result<Vec<u32>, Fault> {
    let description = parse(heap, text)?;
    let words = encode(heap, &description)?;
    read_package(words.as_slice())?;
    Ok(words)
}
