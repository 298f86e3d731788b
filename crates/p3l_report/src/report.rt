// The lines that a verdict puts on the standard error.

ghost use Rattle.std.specs.Prelude.{◌≡◌, ◌≤◌, List, ℕ, Some, IfOk};
ghost use Rattle.p3l_base.specs.Memory.{IfGiven};
ghost use Rattle.p3l_io.specs.Change.{change};
ghost use Rattle.p3l_report.specs.declared.verdict.Verdict.TheVariants as verdicts;
ghost use Rattle.p3l_report.specs.Verdict.{end_line, ending_line, finish_line, lines_of, refusal_line, reported_line, status_line};
ghost use Rattle.p3l_report.specs.Report.{BeginsToPut, IsReportOf, PutsFront, PutsText, optional_text, report_text};

use crate::costs::cost_line;
use crate::evidence::{differs_line, evidence_line};
use crate::line::{
    MessageLine, count_line, fault_line, few_line, file_line, no_memory_line, numbers_line,
    picks_line, refused_line, trapped_line,
};
use crate::scan::scan_line;
use crate::schedule::schedule_line;
use crate::verdict::{Finish, Refusal, Verdict};
use p3l_base::NoMemory;
use p3l_io::Sink;
use p3l_run::RunEnd;
use p3l_stream::Ending;
use std::alloc::Global;

/// The lines of a verdict: that of a run's numbers, and that of the status.
#[derive(Drop)]
pub struct Report {
    numbers: Option<MessageLine>,
    status: Option<MessageLine>,
}

/// The line of a refusal.
fn line_of_refusal(alloc: Global, refusal: &Refusal) -> Result<MessageLine, NoMemory>
    ensures { IfGiven result (λ line. optional_text (Some line) ≡ refusal_line refusal.now) }
{
    match refusal {
        Refusal::Usage => Ok(MessageLine::Fixed("usage: the words are not a command of p3l\n")),
        Refusal::FileFault(name) => file_line(alloc, "file fault", name),
        Refusal::FileTooLong(name) => file_line(alloc, "file too long", name),
        Refusal::Source { fault, pos } => fault_line(alloc, *fault, *pos),
        Refusal::Costs(refusal) => cost_line(alloc, refusal),
        Refusal::TooFew { need } => few_line(alloc, *need),
        Refusal::Schedule(refusal) => schedule_line(alloc, *refusal),
        Refusal::Evidence(evidence) => evidence_line(alloc, evidence),
        Refusal::Scan(refusal) => Ok(scan_line(*refusal)),
    }
}

/// The line of a run whose stream ended so, if one is to be written.
fn line_of_ending(alloc: Global, ending: Ending) -> Result<Option<MessageLine>, NoMemory>
    ensures { IfGiven result (λ line. optional_text line ≡ ending_line ending) }
{
    match ending {
        Ending::End => Ok(None),
        Ending::BadWord(line) => Ok(Some(refused_line(alloc, "stream", line, "100 BadWord")?)),
        Ending::WrongCount { line, had } => Ok(Some(count_line(alloc, line, had)?)),
        Ending::OutOfRange(line) => {
            Ok(Some(refused_line(alloc, "stream", line, "102 OutOfRange")?))
        }
        Ending::ReadFault => Ok(Some(MessageLine::Fixed("read fault\n"))),
        Ending::TooLong => Ok(Some(MessageLine::Fixed("input too long\n"))),
    }
}

/// The line of a run that ended so, if one is to be written.
fn line_of_end(alloc: Global, end: &RunEnd) -> Result<Option<MessageLine>, NoMemory>
    ensures { IfGiven result (λ line. optional_text line ≡ end_line end.now) }
{
    match end {
        RunEnd::Stopped { fired, idle } => Ok(Some(picks_line(alloc, *fired, *idle)?)),
        RunEnd::Trapped { item, kind, module } => {
            Ok(Some(trapped_line(alloc, *item, *kind, module)?))
        }
        RunEnd::Stream(ending) => line_of_ending(alloc, *ending),
    }
}

/// The line of a command's end, if one is to be written.
fn line_of_finish(alloc: Global, finish: &Finish) -> Result<Option<MessageLine>, NoMemory>
    ensures { IfGiven result (λ line. optional_text line ≡ finish_line finish.now) }
{
    match finish {
        Finish::Done => Ok(None),
        Finish::Run(end) => line_of_end(alloc, end),
        Finish::Differs { line } => Ok(Some(differs_line(alloc, *line)?)),
    }
}

/// The line of a verdict's status, if one is to be written.
fn line_of_status(alloc: Global, verdict: &Verdict) -> Result<Option<MessageLine>, NoMemory>
    ensures { IfGiven result (λ line. optional_text line ≡ status_line verdict.now) }
{
    match verdict {
        Verdict::Refused(refusal) => Ok(Some(line_of_refusal(alloc, refusal)?)),
        Verdict::Ended(finish, _) => line_of_finish(alloc, finish),
        Verdict::WriteFault => Ok(Some(MessageLine::Fixed("write fault\n"))),
        Verdict::NoMemory => Ok(Some(no_memory_line())),
    }
}

/// The line of the numbers of a run, if it is to be written.
fn line_of_numbers(alloc: Global, verdict: &Verdict) -> Result<Option<MessageLine>, NoMemory>
    ensures { IfGiven result (λ line. optional_text line ≡ reported_line verdict.now) }
{
    match verdict {
        Verdict::Ended(_, Some(stats)) => Ok(Some(numbers_line(alloc, *stats)?)),
        _ => Ok(None),
    }
}

/// The lines of a verdict.
pub fn report_of(alloc: Global, verdict: &Verdict) -> Result<Report, NoMemory>
    ensures text { IfGiven result (λ report. report_text report ≡ lines_of verdict.now) }
    ensures lines { IfOk result (IsReportOf verdict.now) }
{
    let numbers = line_of_numbers(alloc, verdict)?;
    let status = line_of_status(alloc, verdict)?;
    Ok(Report { numbers, status })
}

/// Puts a line, if there is one; a fault of the sink is reported by its count alone.
fn put_line<E: Sink>(err: &mut E, line: &Option<MessageLine>)
    ensures known { PutsText (change (E.observed err.old) (E.observed err.new)) (optional_text line.now) }
    ensures begun { (said : List ℕ) → (E.observed err.old).content ≡ Some said
        → PutsFront said (E.observed err.new).content (optional_text line.now) }
    ensures later { (E.observed err.old).faults ≤ (E.observed err.new).faults }
{
    if let Some(line) = line {
        let _ = err.put(line.as_bytes());
    }
}

/// Puts all lines, each by one put; one that fails doesn't stop the next.
pub fn put_report<E: Sink>(err: &mut E, report: &Report)
    ensures known { PutsText (change (E.observed err.old) (E.observed err.new)) (report_text report.now) }
    ensures begun { BeginsToPut (change (E.observed err.old) (E.observed err.new))
        (optional_text report.now.numbers) (optional_text report.now.status) }
    ensures later { (E.observed err.old).faults ≤ (E.observed err.new).faults }
{
    put_line(err, &report.numbers);
    put_line(err, &report.status);
}

/// Puts the line that says that memory ran out.
pub fn put_no_memory<E: Sink>(err: &mut E)
    ensures known { PutsText (change (E.observed err.old) (E.observed err.new))
        (lines_of verdicts.NoMemory) }
    ensures begun { BeginsToPut (change (E.observed err.old) (E.observed err.new))
        (reported_line verdicts.NoMemory) (status_line verdicts.NoMemory) }
    ensures later { (E.observed err.old).faults ≤ (E.observed err.new).faults }
{
    let _ = err.put(b"no memory\n");
}
