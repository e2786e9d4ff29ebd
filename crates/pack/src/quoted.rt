use crate::mistakes::Mistake;
use std::alloc::Global;

// 32 words of three bytes
const LONGEST: usize = 96;

// The byte that an escape stands for.
fn unescaped(b: u8) -> Result<u8, Mistake> {
    match b {
        b'n' => Ok(b'\n'),
        b'"' | b'\\' => Ok(b),
        _ => Err(Mistake::UnknownEscape),
    }
}

// The text between the quotes.
fn between_quotes(quoted: &str) -> Option<&str> {
    quoted.strip_prefix('"')?.strip_suffix('"')
}

// The bytes of a content that is written in double quotes.
pub(crate) fn content_of(heap: Global, quoted: &str) -> Result<Vec<u8>, Mistake> {
    let inner = between_quotes(quoted).ok_or(Mistake::NoQuotes)?;
    let mut content = Vec::new(heap);
    let mut escape = false;
    for b in inner.bytes() {
        match b {
            _ if escape => {
                content.push(unescaped(b)?)?;
                escape = false;
            }
            b'\\' => escape = true,
            b'"' => return Err(Mistake::BareQuote),
            _ => content.push(b)?,
        }
    }
    if escape {
        // the closing quote was escaped
        return Err(Mistake::NoQuotes);
    }
    if content.len() > LONGEST {
        return Err(Mistake::LongContent);
    }
    Ok(content)
}
