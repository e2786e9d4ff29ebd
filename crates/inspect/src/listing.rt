use base::FileKind;
use package::{File, Package};
use std::alloc::Global;
use std::fmt;
use std::fmt::Write;

// A file of a package as the listing shows it.
#[derive(Clone, Copy)]
struct FileLine {
    kind: FileKind,
    path: u8,
    words: usize,
    bytes: usize,
}

impl fmt::Display for FileLine {
    fn fmt<W: fmt::Write>(&self, f: &mut fmt::Formatter<W>) -> fmt::Result {
        let kind = match self.kind {
            FileKind::Plain => "plain",
            FileKind::Conffile => "conffile",
        };
        let path = self.path;
        let words = self.words;
        let bytes = self.bytes;
        write!(f, "{kind} {path}: {words} words, {bytes} bytes")
    }
}

// How many bytes the text words of a content carry: each has its count in bits 27 to 24.
fn byte_count(content: &[u32]) -> usize {
    content.iter().fold(0usize, |sum, word| {
        sum.saturating_add((*word >> 24 & 15) as usize)
    })
}

impl From<File<'_>> for FileLine {
    fn from(file: File<'_>) -> FileLine {
        FileLine {
            kind: file.kind,
            path: file.path,
            words: file.content.len(),
            bytes: byte_count(file.content),
        }
    }
}

// What a package holds: a line for itself, one for each file, and one with the totals.
pub(crate) fn listing(
    heap: Global,
    package: &Package<'_>,
    words: &[u32],
) -> anyhow::Result<String> {
    let name = String::from_utf8_lossy(heap, package.name.as_bytes())?;
    let version = String::from_utf8_lossy(heap, package.version.as_bytes())?;
    let files: Vec<FileLine> = package.files().map(FileLine::from).collect(heap)?;
    let mut text = format!(in heap; "package {name} {version}\n")?;
    for file in files.iter() {
        writeln!(text, "{file}")?;
    }
    let file_count = files.len();
    let word_count = words.len();
    write!(text, "{file_count} files, {word_count} words")?;
    Ok(text)
}
