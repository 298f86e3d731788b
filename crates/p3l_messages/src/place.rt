// A place in a text: its line as it stands there, and a mark below it.

ghost use Rattle.std.specs.Prelude.{OnErr};
ghost use Rattle.p3l_base.specs.Memory.{Refused};

use crate::safe::safe_line;
use p3l_base::NoMemory;
use std::alloc::Global;
use unicode_width::UnicodeWidthStr;

/// The most bytes of a line that are shown on each side of the place.
const MOST_SIDE: usize = 60;

/// The style in which places are shown: with colour or without.
#[derive(Clone, Copy, Drop)]
pub struct Style {
    pub has_color: bool,
}

impl Style {
    /// The bytes that begin a text that is to stand out.
    fn strong(self) -> &'static str {
        if self.has_color { "\x1b[1m" } else { "" }
    }

    /// The bytes that begin a mark.
    fn mark(self) -> &'static str {
        if self.has_color { "\x1b[1;31m" } else { "" }
    }

    /// The bytes that end either.
    fn plain(self) -> &'static str {
        if self.has_color { "\x1b[0m" } else { "" }
    }
}

/// The line of a number, counted from 1, if the text has it; without the carriage return of its end.
pub(crate) fn line_of(text: &[u8], number: u32) -> Option<&[u8]> {
    let mut rest = text;
    for _ in 1..number {
        match rest.iter().position(|byte| *byte == b'\n') {
            Some(end) => rest = &rest[end + 1..],
            None => return None,
        }
    }
    match rest.iter().position(|byte| *byte == b'\n') {
        Some(end) => Some(without_return(&rest[..end])),
        None => Some(without_return(rest)),
    }
}

/// A line without the carriage return that it may end with.
fn without_return(line: &[u8]) -> &[u8] {
    match line {
        [front @ .., b'\r'] => front,
        _ => line,
    }
}

/// The name of a file and a line of it, and of a column where there is one, as editors take them.
pub(crate) fn put_place(
    alloc: Global,
    message: &mut String,
    style: Style,
    file: &str,
    line: u32,
    column: Option<u32>,
) -> Result<(), NoMemory>
    ensures { OnErr result Refused }
{
    message.push_str(style.strong())?;
    put_safely(alloc, message, file.as_bytes())?;
    let place = match column {
        Some(column) => format!(in alloc; ":{line}:{column}")?,
        None => format!(in alloc; ":{line}")?,
    };
    message.push_str(place.as_str())?;
    message.push_str(style.plain())?;
    message.push_str("\n")?;
    Ok(())
}

/// The column of a place as a terminal shows it, by the column that counts bytes; both from 1.
pub(crate) fn column_in(alloc: Global, line: &[u8], column: u32) -> Result<u32, NoMemory>
    ensures { OnErr result Refused }
{
    let at = (column.max(1) as usize - 1).min(line.len());
    let mut front = String::new(alloc);
    put_safely(alloc, &mut front, &line[..at])?;
    Ok(front.as_str().width().min(u32::MAX as usize - 1) as u32 + 1)
}

/// Bytes of a file or of the words, in a form that can't steer a terminal.
pub(crate) fn put_safely(alloc: Global, message: &mut String, bytes: &[u8]) -> Result<(), NoMemory>
    ensures { OnErr result Refused }
{
    let safe = safe_line(alloc, bytes)?;
    let text = String::from_utf8_lossy(alloc, safe.as_slice())?;
    message.push_str(text.as_str())?;
    Ok(())
}

/// The line round a place, and a caret below it. The caret's column counts characters as a terminal
/// does.
pub(crate) fn put_line(
    alloc: Global,
    message: &mut String,
    style: Style,
    line: &[u8],
    column: u32,
) -> Result<(), NoMemory>
    ensures { OnErr result Refused }
{
    let at = (column.max(1) as usize - 1).min(line.len());
    let from = at - at.min(MOST_SIDE);
    let to = line.len().min(at + MOST_SIDE);
    message.push_str("  ")?;
    let shown = message.len();
    put_safely(alloc, message, &line[from..at])?;
    let width = match message.as_str().get(shown..) {
        Some(front) => front.width(),
        None => 0,
    };
    put_safely(alloc, message, &line[at..to])?;
    message.push_str("\n  ")?;
    for _ in 0..width {
        message.push_str(" ")?;
    }
    message.push_str(style.mark())?;
    message.push_str("^")?;
    message.push_str(style.plain())?;
    message.push_str("\n")?;
    Ok(())
}
