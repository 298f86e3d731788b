// Lines for the standard error.

ghost use Rattle.std.specs.Prelude.{◌≡◌, ◌++◌, codes, string_bytes};
ghost use Rattle.p3l_base.specs.Memory.{IfGiven};
ghost use Rattle.std.specs.Fmt.{decimal};
ghost use Rattle.p3l_report.specs.Line.{counted_line, named_line, need_line, no_memory_line, numbered_line, numbers_text, source_line, stats_line, stopped_line, trap_line};
ghost use Rattle.p3l_report.specs.LineText.{line_text};

use crate::stats::Stats;
use crate::trap::kind_text;
use p3l_ast::{Fault, Pos};
use p3l_base::{Name, NoMemory, TrapKind};
use p3l_run::RunStats;
use std::alloc::Global;

/// A line: one that is always the same, or one that was made.
#[derive(Drop)]
pub enum MessageLine {
    Fixed(&'static str),
    Made(String),
}

impl MessageLine {
    /// The bytes of the line.
    pub fn as_bytes(&self) -> &[u8]
        ensures { result.now ≡ line_text self.now }
    {
        match self {
            MessageLine::Fixed(text) => text.as_bytes(),
            MessageLine::Made(text) => text.as_str().as_bytes(),
        }
    }
}

/// The line that says that memory ran out.
pub fn no_memory_line() -> MessageLine
    ensures { line_text result ≡ no_memory_line }
{
    MessageLine::Fixed("no memory\n")
}

/// A line that says what became of a file.
pub fn file_line(alloc: Global, what: &'static str, name: &Name) -> Result<MessageLine, NoMemory>
    ensures { IfGiven result (λ line. line_text line ≡ named_line what.now name.now) }
{
    let name = name.as_str();
    let text = format!(in alloc; "{what}: {name}\n")?;
    Ok(MessageLine::Made(text))
}

/// The line of a fault of the source text.
pub fn fault_line(alloc: Global, fault: Fault, pos: Pos) -> Result<MessageLine, NoMemory>
    ensures { IfGiven result (λ line. line_text line ≡ source_line fault pos) }
{
    let line = pos.line;
    let col = pos.col;
    let number = fault.number();
    let name = fault.name();
    let text = format!(in alloc; "source: {line}:{col}: {number} {name}\n")?;
    Ok(MessageLine::Made(text))
}

/// The line of a line of a text, as the stream or the file of picks, that is refused with this number
/// and name.
pub fn refused_line(
    alloc: Global,
    what: &'static str,
    number: u64,
    fault: &'static str,
) -> Result<MessageLine, NoMemory>
    ensures { IfGiven result (λ line. line_text line ≡ numbered_line what.now number fault.now) }
{
    let text = format!(in alloc; "{what}: line {number}: {fault}\n")?;
    Ok(MessageLine::Made(text))
}

/// The line of a line of the stream that has another count of words than an item.
pub fn count_line(alloc: Global, number: u64, had: u64) -> Result<MessageLine, NoMemory>
    ensures { IfGiven result (λ line. line_text line ≡ counted_line number had) }
{
    let text = format!(in alloc; "stream: line {number}: 101 WrongCount {had}\n")?;
    Ok(MessageLine::Made(text))
}

/// The line of too few processors.
pub fn few_line(alloc: Global, need: u64) -> Result<MessageLine, NoMemory>
    ensures { IfGiven result (λ line. line_text line ≡ need_line need) }
{
    let text = format!(in alloc; "too few processors: need {need}\n")?;
    Ok(MessageLine::Made(text))
}

/// The line of picks that ended early.
pub fn picks_line(alloc: Global, fired: u64, idle: u64) -> Result<MessageLine, NoMemory>
    ensures { IfGiven result (λ line. line_text line ≡ stopped_line fired idle) }
{
    let text = format!(in alloc; "stopped: {fired} fired, {idle} idle\n")?;
    Ok(MessageLine::Made(text))
}

/// The line of an item that came to a trap.
pub fn trapped_line(
    alloc: Global,
    item: u64,
    kind: TrapKind,
    home: &Name,
) -> Result<MessageLine, NoMemory>
    ensures { IfGiven result (λ line. line_text line ≡ trap_line item kind home.now) }
{
    let what = kind_text(kind);
    let name = home.as_str();
    let text = format!(in alloc; "trap: item {item}: {what} in {name}\n")?;
    Ok(MessageLine::Made(text))
}

/// The numbers of a run, as lines have them.
pub fn numbers_text(alloc: Global, numbers: &RunStats) -> Result<String, NoMemory>
    ensures { IfGiven result (λ text. string_bytes text ≡ numbers_text numbers.now) }
{
    let items = numbers.items;
    let fired = numbers.fired;
    let idle = numbers.idle;
    let bound = numbers.bound;
    Ok(format!(in alloc; "items {items}, fired {fired}, idle {idle}, bound {bound}")?)
}

/// The line of the numbers of a run.
pub fn numbers_line(alloc: Global, stats: Stats) -> Result<MessageLine, NoMemory>
    ensures { IfGiven result (λ line. line_text line ≡ stats_line stats) }
{
    match stats {
        Stats::Scheduled(numbers) => {
            let numbers = numbers_text(alloc, &numbers)?;
            let numbers = numbers.as_str();
            let text = format!(in alloc; "stats: {numbers}\n")?;
            Ok(MessageLine::Made(text))
        }
        Stats::Timed {
            items,
            fired,
            finish,
            busiest,
            busy,
        } => {
            let text = format!(in alloc;
                "time: items {items}, fired {fired}, finish {finish}, busiest {busiest} {busy}\n"
            )?;
            Ok(MessageLine::Made(text))
        }
        Stats::Saved { items, picks } => {
            let text = format!(in alloc; "saved: items {items}, picks {picks}\n")?;
            Ok(MessageLine::Made(text))
        }
    }
}
