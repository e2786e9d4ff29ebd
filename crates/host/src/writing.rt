ghost use Rattle.std.specs.Prelude.{length, decimal};
ghost use Rattle.writer.specs.Pages.{Writes};
ghost use Rattle.host.specs.Lines.{word, argument_text, status_text, line_text, Written};

use crate::line::{ArgumentRow, Line, Status};
use base::{Reason, Refusal};
use writer::{Full, Page};

// A text and a space.
fn put_word(page: &mut Page, text: &[u8]) -> Result<(), Full>
    ensures { Writes result (word text.now) page.old page.new }
{
    page.put(text)?;
    page.put(b" ")
}

// A number and a space.
fn put_numeral(page: &mut Page, number: u8) -> Result<(), Full>
    ensures { Writes result (word (decimal number)) page.old page.new }
{
    page.put_number(number)?;
    page.put(b" ")
}

// An argument and a space.
fn put_argument(page: &mut Page, argument: &ArgumentRow) -> Result<(), Full>
    ensures { Writes result (word (argument_text argument.now)) page.old page.new }
{
    match argument {
        ArgumentRow::Version(row) => put_word(page, row.as_bytes()),
        ArgumentRow::Null => put_word(page, b"null"),
        ArgumentRow::Nothing => put_word(page, b"-"),
    }
}

// A status, which ends its line.
fn put_status(page: &mut Page, status: Status) -> Result<(), Full>
    ensures { Writes result (status_text status) page.old page.new }
{
    page.put_number(status)?;
    page.put(b"\n")
}

// One line; where it does not fit, what stands before it stays.
fn put_line(page: &mut Page, line: &Line) -> Result<(), Full>
    ensures { Writes result (line_text line.now) page.old page.new }
{
    put_word(page, line.name.as_bytes())?;
    put_word(page, line.version.as_bytes())?;
    put_numeral(page, line.script.number())?;
    put_numeral(page, line.action.number())?;
    put_argument(page, &line.argument)?;
    put_status(page, line.status)
}

// Writes the lines, one after the other, and answers the count of bytes. Refused 9 at the first line that does not
// fit, and 7 at one that no call can have left; the place is the count of bytes of the whole lines before it.
pub fn write_trace(lines: &[Line], out: &mut [u8]) -> Result<usize, Refusal>
    ensures { Written result lines.now (length out.old) out.new }
{
    let mut page = Page::new(out);
    for line in lines {
        let count = page.count();
        if !line.is_sound() {
            return Err(Refusal::in_text(Reason::WrongValue, count));
        }
        put_line(&mut page, line).map_err(|_| Refusal::in_text(Reason::BufferShort, count))?;
    }
    Ok(page.count())
}
