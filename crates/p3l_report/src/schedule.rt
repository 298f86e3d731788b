// The lines of refused files of picks.

ghost use Rattle.std.specs.Prelude.{◌≡◌, ◌++◌, codes};
ghost use Rattle.p3l_base.specs.Memory.{IfGiven};
ghost use Rattle.std.specs.Fmt.{decimal};
ghost use Rattle.p3l_report.specs.LineText.{line_text};
ghost use Rattle.p3l_report.specs.Schedule.{process_line, schedule_line};

use crate::line::{MessageLine, no_memory_line, refused_line};
use p3l_base::NoMemory;
use p3l_sched::PickRefusal;
use std::alloc::Global;

/// The line of a file of picks that is refused.
pub fn schedule_line(alloc: Global, refusal: PickRefusal) -> Result<MessageLine, NoMemory>
    ensures { IfGiven result (λ line. line_text line ≡ schedule_line refusal) }
{
    match refusal {
        PickRefusal::BadPick { line } => refused_line(alloc, "schedule", line, "95 BadPick"),
        PickRefusal::NoSuchProcess { line, pick, count } => process_line(alloc, line, pick, count),
        PickRefusal::NoMemory => Ok(no_memory_line()),
    }
}

/// The line of a pick that is the number of no process.
fn process_line(alloc: Global, number: u64, pick: u64, count: u32) -> Result<MessageLine, NoMemory>
    ensures { IfGiven result (λ line. line_text line ≡ process_line number pick count) }
{
    let text = format!(in alloc; "schedule: line {number}: 96 NoSuchProcess {pick} of {count}\n")?;
    Ok(MessageLine::Made(text))
}
