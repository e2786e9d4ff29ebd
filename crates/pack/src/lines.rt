use crate::description::{Entry, Head, Line};
use crate::mistakes::Mistake;
use crate::quoted::content_of;
use base::{FileKind, Name, Version};
use std::alloc::Global;

// The first word of a line, and what stands behind it.
fn first_word(line: &str) -> (&str, &str) {
    match line.split_once(' ') {
        Some((word, rest)) => (word, rest.trim_start()),
        None => (line, ""),
    }
}

fn package_line(rest: &str) -> Result<Line, Mistake> {
    let (name, version) = first_word(rest);
    if version.is_empty() {
        return Err(Mistake::NotTwoWords);
    }
    let name = Name::new(name.as_bytes()).ok_or(Mistake::BadName)?;
    let version = Version::new(version.as_bytes()).ok_or(Mistake::BadVersion)?;
    Ok(Line::Package(Head { name, version }))
}

fn file_line(heap: Global, kind: FileKind, rest: &str) -> Result<Line, Mistake> {
    let (path, quoted) = first_word(rest);
    let path = path.parse::<u8>().map_err(|_| Mistake::BadPath)?;
    let content = content_of(heap, quoted)?;
    Ok(Line::File(Entry {
        kind,
        path,
        content,
    }))
}

// What a line says.
pub(crate) fn line_of(heap: Global, line: &str) -> Result<Line, Mistake> {
    let line = line.trim();
    if line.is_empty() || line.starts_with('#') {
        return Ok(Line::Nothing);
    }
    let (word, rest) = first_word(line);
    match word {
        "package" => package_line(rest),
        "plain" => file_line(heap, FileKind::Plain, rest),
        "conffile" => file_line(heap, FileKind::Conffile, rest),
        "end" if rest.is_empty() => Ok(Line::End),
        "end" => Err(Mistake::WordsAfterEnd),
        _ => Err(Mistake::UnknownWord),
    }
}
