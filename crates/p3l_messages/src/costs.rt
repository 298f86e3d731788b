// Messages on a file of costs that is refused.

ghost use Rattle.std.specs.Prelude.{OnErr};
ghost use Rattle.p3l_base.specs.Memory.{Refused};

use crate::place::{Style, column_in, line_of, put_line, put_place};
use p3l_base::NoMemory;
use std::alloc::Global;
use toml::table_from_str;

/// The place in a text where it stops being a document.
enum Stop {
    /// After so many bytes.
    At(usize),
    /// It is a document.
    Nowhere,
    /// Out of memory.
    NoMemory,
}

/// Adds the line where a file of costs stops being a document. It gives false where memory ran out
/// before the line was known.
pub(crate) fn put_no_document(
    alloc: Global,
    message: &mut String,
    style: Style,
    file: &str,
    text: &[u8],
) -> Result<bool, NoMemory>
    ensures { OnErr result Refused }
{
    match stop_in(alloc, text) {
        Stop::At(at) => {
            put_stop(alloc, message, style, file, text, at)?;
            Ok(true)
        }
        Stop::Nowhere => Ok(true),
        Stop::NoMemory => Ok(false),
    }
}

/// The place where a text stops being a document.
fn stop_in(alloc: Global, text: &[u8]) -> Stop {
    match std::str::from_utf8(text) {
        Err(error) => Stop::At(error.valid_up_to()),
        Ok(text) => match table_from_str(alloc, text) {
            Ok(_) => Stop::Nowhere,
            Err(error) => match error.span() {
                Some(span) => Stop::At(span.start),
                None => Stop::NoMemory,
            },
        },
    }
}

/// Adds the line of a text that has the place after so many bytes.
fn put_stop(
    alloc: Global,
    message: &mut String,
    style: Style,
    file: &str,
    text: &[u8],
    at: usize,
) -> Result<(), NoMemory>
    ensures { OnErr result Refused }
{
    let (row, column) = place_after(&text[..at.min(text.len())]);
    let Some(line) = line_of(text, row) else {
        return Ok(());
    };
    let shown = column_in(alloc, line, column)?;
    put_place(alloc, message, style, file, row, Some(shown))?;
    put_line(alloc, message, style, line, column)
}

/// The line and the column of the place after a text, both counted from 1; a column counts bytes.
fn place_after(before: &[u8]) -> (u32, u32) {
    let mut row: u32 = 1;
    let mut column: u32 = 1;
    for byte in before.iter() {
        if *byte == b'\n' {
            row = row.saturating_add(1);
            column = 1;
        } else {
            column = column.saturating_add(1);
        }
    }
    (row, column)
}

/// Adds the line of a file of costs that has a key, if one has.
pub(crate) fn put_key(
    alloc: Global,
    message: &mut String,
    style: Style,
    file: &str,
    text: &[u8],
    key: &str,
) -> Result<(), NoMemory>
    ensures { OnErr result Refused }
{
    let Some(row) = row_of(alloc, text, key)? else {
        return Ok(());
    };
    put_place(alloc, message, style, file, row, None)?;
    match line_of(text, row) {
        Some(line) => put_line(alloc, message, style, line, 1),
        None => Ok(()),
    }
}

/// The number of the line that has a key, counted from 1: that of its last part, in its own section
/// where the key names one, or else the first line or section of this name.
fn row_of(alloc: Global, text: &[u8], key: &str) -> Result<Option<u32>, NoMemory>
    ensures { OnErr result Refused }
{
    let text = String::from_utf8_lossy(alloc, text)?;
    let (section, last) = match key.rsplit_once(".") {
        Some((section, last)) => (section, last),
        None => ("", key),
    };
    let mut row: u32 = 0;
    let mut is_here = section.is_empty();
    for line in text.as_str().lines() {
        row = row.saturating_add(1);
        let line = line.trim();
        if let Some(name) = section_of(line) {
            is_here = name == section;
            if name == key {
                return Ok(Some(row));
            }
        } else if has_key(line, key) || (is_here && has_key(line, last)) {
            return Ok(Some(row));
        }
    }
    Ok(None)
}

/// The name of the section that a line begins, if it begins one.
fn section_of(line: &str) -> Option<&str> {
    let (name, _) = line.strip_prefix("[")?.split_once("]")?;
    Some(name.trim())
}

/// Returns true exactly if a line gives a value to a key, which may be in quotes.
fn has_key(line: &str, key: &str) -> bool {
    match line.split_once("=") {
        Some((front, _)) => {
            let name = front.trim();
            name == key || name.trim_matches('"') == key
        }
        None => false,
    }
}
