// Bytes with one damage or two, and what is reported of them.

use crate::world::take_with_file;
use std::alloc::Global;
use std::process::Abort;
use std::test::Fail;

/// A file of evidence: its name, its bytes, the files beside it as heads of blocks say them, and the step
/// that is taken with it, up to its end.
#[derive(Clone, Copy)]
pub struct Evidence<'a> {
    pub name: &'a str,
    pub bytes: &'a [u8],
    pub head: &'a str,
    pub step: &'a str,
}

/// Makes a change of the form PLACE=BYTE.
fn change(bytes: &mut Vec<u8>, change: &str) -> Result<(), Fail> {
    let (place, byte) = change.split_once('=').ok_or("no byte")?;
    let place = place.parse::<usize>().map_err(|_| "no place")?;
    let byte = byte.parse::<u8>().map_err(|_| "no byte")?;
    match bytes.get_mut(place) {
        None => Err("no such place".into()),
        Some(found) => {
            *found = byte;
            Ok(())
        }
    }
}

/// The bytes with changes of this form, with a blank between two.
fn damaged(alloc: Global, bytes: &[u8], changes: &str) -> Result<Vec<u8>, Fail> {
    let mut all = Vec::from_slice(alloc, bytes)?;
    for word in changes.split(' ') {
        change(&mut all, word)?;
    }
    Ok(all)
}

/// Takes the step of evidence with other bytes, which must be refused so.
pub fn refuse(
    rt: &impl Abort,
    alloc: Global,
    evidence: &Evidence,
    bytes: &[u8],
    refusal: &str,
) -> Result<(), Fail> {
    let words = evidence.step;
    let step = format!(in alloc; "{words}\n! evidence: {refusal}\n? 13")?;
    let (head, name) = (evidence.head, evidence.name);
    take_with_file(rt, alloc, head, name, bytes, step.as_str())
}

/// Takes the step with the changes of each row, which must be refused as it says; a line behind `#` is
/// for the reader.
pub fn refuse_rows(
    rt: &impl Abort,
    alloc: Global,
    evidence: &Evidence,
    rows: &str,
) -> Result<(), Fail> {
    for row in rows.lines() {
        if !row.starts_with('#') {
            let (changes, refusal) = row.split_once(": ").ok_or("no refusal")?;
            let bytes = damaged(alloc, evidence.bytes, changes)?;
            refuse(rt, alloc, evidence, bytes.as_slice(), refusal)?;
        }
    }
    Ok(())
}

/// Takes the step of evidence with other bytes, which must be refused so, with this number behind it.
pub fn refuse_at(
    rt: &impl Abort,
    alloc: Global,
    evidence: &Evidence,
    bytes: &[u8],
    refusal: &str,
    number: usize,
) -> Result<(), Fail> {
    let line = format!(in alloc; "{refusal} {number}")?;
    refuse(rt, alloc, evidence, bytes, line.as_str())
}

/// Takes the step with one byte more at the end, whose place must be reported behind this refusal.
pub fn refuse_one_more(
    rt: &impl Abort,
    alloc: Global,
    evidence: &Evidence,
    refusal: &str,
) -> Result<(), Fail> {
    let mut more = Vec::from_slice(alloc, evidence.bytes)?;
    more.push(0)?;
    let place = evidence.bytes.len();
    refuse_at(rt, alloc, evidence, more.as_slice(), refusal, place)
}

/// Takes the step with each beginning of a text up to the end of a line, or to a byte of which the place
/// is a multiple of `every`. The line that isn't whole must be reported behind this refusal.
pub fn refuse_beginnings(
    rt: &impl Abort,
    alloc: Global,
    evidence: &Evidence,
    refusal: &str,
    every: usize,
) -> Result<(), Fail> {
    let mut line: usize = 1;
    for (at, byte) in evidence.bytes.iter().enumerate() {
        if at.checked_rem(every) == Some(0) || *byte == b'\n' {
            refuse_at(rt, alloc, evidence, &evidence.bytes[..at], refusal, line)?;
        }
        if *byte == b'\n' {
            line = line.saturating_add(1);
        }
    }
    Ok(())
}
