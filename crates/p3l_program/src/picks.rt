// The picks of a run, in a file of which a schedule is made.

ghost use Rattle.std.specs.Prelude.{◌≡◌, ◌++◌, IfErr};
ghost use Rattle.p3l_base.specs.Memory.{IfGiven, OnGiven};
ghost use Rattle.p3l_io.specs.Change.{change};
ghost use Rattle.p3l_trace.specs.Agreement.{picks_of};
ghost use Rattle.p3l_program.specs.Picks.{IsPicking, mark_before, picks_text};
ghost use Rattle.p3l_program.specs.Saved.{HasSave};
ghost use Rattle.p3l_program.specs.Wants.{Wants};

use crate::save::save;
use p3l_base::{List, Name, NoMemory};
use p3l_format::write_number_then;
use p3l_io::Files;
use p3l_report::Verdict;
use p3l_trace::TraceLine;
use std::alloc::Global;

/// Returns what comes after a pick before these lines.
fn mark_before(lines: &[TraceLine]) -> &'static [u8]
    ensures { result.now ≡ mark_before (picks_of lines.now) }
{
    if lines.is_empty() { b"\n" } else { b" " }
}

/// Puts the text of the picks of lines after others.
fn write_picks(alloc: Global, lines: &[TraceLine], out: &mut Vec<u8>) -> Result<(), NoMemory>
    ensures { OnGiven result (out.new.items ≡ out.old.items ++ picks_text (picks_of lines.now)) }
{
    let mut rest = lines;
    while let Some((line, after)) = rest.split_first() {
        write_number_then(alloc, line.pick as u128, mark_before(after), out)?;
        rest = after;
    }
    Ok(())
}

/// The text of the picks of lines: decimal numbers, separated by one space and ended by a line feed.
fn picks_text(alloc: Global, lines: &[TraceLine]) -> Result<Vec<u8>, NoMemory>
    ensures { IfGiven result (λ text. text.items ≡ picks_text (picks_of lines.now)) }
{
    let mut text = Vec::new(alloc);
    write_picks(alloc, lines, &mut text)?;
    Ok(text)
}

/// Writes the picks of lines to the file of this name.
fn save_lines<F: Files>(
    alloc: Global,
    name: &Name,
    lines: &[TraceLine],
    files: &mut F,
) -> Result<(), Verdict>
    ensures saved { HasSave (change (F.observed files.old) (F.observed files.new)) name.now
        (picks_text (picks_of lines.now)) result }
    ensures wants { IfErr result (Wants F.may_want) }
{
    match picks_text(alloc, lines) {
        Ok(text) => save(alloc, name, text.as_slice(), files),
        Err(_) => Err(Verdict::NoMemory),
    }
}

/// Writes the picks of a run, where a file is named for them.
pub fn save_picks<F: Files>(
    alloc: Global,
    name: Option<Name>,
    lines: Option<List<TraceLine>>,
    files: &mut F,
) -> Result<(), Verdict>
    ensures saved { IsPicking (change (F.observed files.old) (F.observed files.new)) name lines
        result }
    ensures wants { IfErr result (Wants F.may_want) }
{
    let Some(name) = name else {
        return Ok(());
    };
    let Some(lines) = lines else {
        return Ok(());
    };
    save_lines(alloc, &name, lines.as_slice(), files)
}
