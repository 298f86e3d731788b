// The trace of a run, in a file.

ghost use Rattle.std.specs.Prelude.{◌≡◌, true, OnOk, IfErr};
ghost use Rattle.p3l_io.specs.Change.{change};
ghost use Rattle.p3l_trace.specs.Text.{trace_format};
ghost use Rattle.p3l_program.specs.Recorded.{IsRecording};
ghost use Rattle.p3l_program.specs.Saved.{HasSave};
ghost use Rattle.p3l_program.specs.Wants.{Wants};

use crate::save::save;
use p3l_base::{List, Name};
use p3l_io::Files;
use p3l_report::Verdict;
use p3l_run::RunStats;
use p3l_trace::{TraceLine, Traced, trace_text};
use std::alloc::Global;

/// Writes a trace to the file of this name.
fn save_trace<F: Files>(
    alloc: Global,
    name: &Name,
    traced: &Traced,
    files: &mut F,
) -> Result<(), Verdict>
    ensures saved { HasSave (change (F.observed files.old) (F.observed files.new)) name.now
        (trace_format.spell traced.now) result }
    ensures fits { OnOk result (trace_format.fits traced.now ≡ true) }
    ensures wants { IfErr result (Wants F.may_want) }
{
    match trace_text(alloc, traced) {
        Ok(text) => save(alloc, name, text.as_slice(), files),
        Err(_) => Err(Verdict::NoMemory),
    }
}

/// Writes the trace of a run, where a file is named for it: the lines of its picks, and how many of
/// them fired and were idle.
pub fn record<F: Files>(
    alloc: Global,
    trace: Option<Name>,
    lines: Option<List<TraceLine>>,
    stats: &RunStats,
    files: &mut F,
) -> Result<(), Verdict>
    ensures recorded { IsRecording (change (F.observed files.old) (F.observed files.new)) trace
        lines stats.now result }
    ensures wants { IfErr result (Wants F.may_want) }
{
    let Some(name) = trace else {
        return Ok(());
    };
    let Some(lines) = lines else {
        return Ok(());
    };
    let traced = Traced {
        lines,
        fired: stats.fired,
        idle: stats.idle,
    };
    save_trace(alloc, &name, &traced, files)
}
