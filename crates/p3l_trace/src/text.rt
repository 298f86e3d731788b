// Traces as text.

ghost use Rattle.std.specs.Prelude.{◌≡◌, ℕ, ◌++◌, List, [], true, Ok, OnOk, IfOk};
ghost use Rattle.p3l_base.specs.Memory.{OnGiven};
ghost use Rattle.p3l_format.specs.Format.{Gives, read_all};
ghost use Rattle.p3l_trace.specs.declared.trace.Traced.{Traced as TheTraced};
ghost use Rattle.p3l_trace.specs.Text.{lines_format, counts_format, body_format, trace_format, line_format, next_line, first_line};
ghost use Rattle.p3l_trace.specs.Answers.{Answers, ReportsFirst};
ghost use Rattle.p3l_format.specs.Series.{fits_from, spell_from};
ghost use Rattle.p3l_trace.specs.laws.Text.{lawful_trace};

use crate::line::{LineItem, write_pick};
use crate::trace::{TraceLine, TraceRefusal, Traced};
use p3l_base::{List, NoMemory};
use p3l_format::{
    Field, ReadError, line_at, read_number_then, read_text, read_until, write_number_then,
};
use std::alloc::Global;

// The lines of picks in front, and what is after the first word of the last line.
#[tactic(auto, unfolding(crate::specs::Text::lines_format))]
fn read_lines(alloc: Global, bytes: &[u8]) -> Result<(List<TraceLine>, &[u8]), ReadError>
    ensures { Gives (λ x. (x.0, x.1.now)) result (lines_format.read bytes.now) }
{
    read_until(alloc, LineItem, b"end ", bytes)
}

// Puts the lines of picks after others.
#[tactic(auto, unfolding(crate::specs::Text::line_format, p3l_format::specs::Line::line))]
fn write_lines(alloc: Global, lines: &[TraceLine], out: &mut Vec<u8>) -> Result<(), NoMemory>
    ensures fits { OnGiven result (fits_from line_format next_line first_line lines.now ≡ true) }
    ensures put { OnOk result (out.new.items
        ≡ out.old.items ++ spell_from line_format next_line first_line lines.now) }
{
    for line in lines {
        write_pick(alloc, *line, out)?;
    }
    Ok(())
}

// The counts of the last line, and what is after them.
#[tactic(auto, unfolding(crate::specs::Text::counts_format, p3l_format::specs::Format::pair))]
fn read_counts(bytes: &[u8]) -> Result<((u64, u64), &[u8]), ReadError>
    ensures { Gives (λ x. (x.0, x.1.now)) result (counts_format.read bytes.now) }
{
    let (fired, rest) = read_number_then(0, u64::MAX as u128, b" ", bytes)?;
    let (idle, rest) = read_number_then(0, u64::MAX as u128, b"\n", rest)?;
    Ok(((fired as u64, idle as u64), rest))
}

// Puts the counts of the last line after others.
#[tactic(auto, using(crate::specs::laws::Text::counts_fit), unfolding(crate::specs::Text::counts_format, p3l_format::specs::Format::pair, p3l_format::specs::Format::within, p3l_format::specs::Decimal::number_then, p3l_format::specs::Text::then_text, p3l_format::specs::Decimal::number_text))]
fn write_counts(alloc: Global, fired: u64, idle: u64, out: &mut Vec<u8>) -> Result<(), NoMemory>
    ensures fits { counts_format.fits (fired, idle) ≡ true }
    ensures put { OnGiven result (out.new.items ≡ out.old.items ++ counts_format.spell (fired, idle)) }
{
    write_number_then(alloc, fired as u128, b" ", out)?;
    write_number_then(alloc, idle as u128, b"\n", out)
}

// The lines after the first.
#[tactic(auto, unfolding(crate::specs::Text::body_format, p3l_format::specs::Format::pair, p3l_format::specs::Format::as_form))]
fn read_body(alloc: Global, bytes: &[u8]) -> Result<(Traced, &[u8]), ReadError>
    ensures { Gives (λ x. (x.0, x.1.now)) result (body_format.read bytes.now) }
{
    let (lines, rest) = read_lines(alloc, bytes)?;
    let (counts, rest) = read_counts(rest)?;
    Ok((
        Traced {
            lines,
            fired: counts.0,
            idle: counts.1,
        },
        rest,
    ))
}

// Puts a whole trace after others.
#[tactic(auto, unfolding(crate::specs::Text::trace_format, crate::specs::Text::body_format, crate::specs::Text::lines_format, p3l_format::specs::Series::until, p3l_format::specs::Text::text_then, p3l_format::specs::Format::pair, p3l_format::specs::Format::as_form))]
fn write_trace(alloc: Global, traced: &Traced, out: &mut Vec<u8>) -> Result<(), NoMemory>
    ensures fits { OnGiven result (trace_format.fits traced.now ≡ true) }
    ensures put { OnOk result (out.new.items ≡ out.old.items ++ trace_format.spell traced.now) }
{
    out.extend_from_slice(b"p3l-trace 1\n")?;
    write_lines(alloc, traced.lines.as_slice(), out)?;
    out.extend_from_slice(b"end ")?;
    write_counts(alloc, traced.fired, traced.idle, out)
}

// A whole trace.
#[derive(Clone, Copy, Drop)]
struct TraceField {
    alloc: Global,
}

impl Field for TraceField {
    type Value = Traced;

    ghost format = { λ _. trace_format };

    ghost lawful = { λ _. lawful_trace };

    #[tactic(auto, unfolding(crate::specs::Text::trace_format, p3l_format::specs::Text::text_then))]
    fn read<'a>(&self, alloc: Global, bytes: &'a [u8]) -> Result<(Traced, &'a [u8]), ReadError> {
        let rest = read_text(b"p3l-trace 1\n", bytes)?;
        let (traced, rest) = read_body(alloc, rest)?;
        Ok((traced, rest))
    }

    fn write(&self, value: &Traced, out: &mut Vec<u8>) -> Result<(), NoMemory> {
        write_trace(self.alloc, value, out)
    }
}

/// The text of a trace: each has one.
pub fn trace_text(alloc: Global, traced: &Traced) -> Result<List<u8>, NoMemory>
    ensures fits { OnGiven result (trace_format.fits traced.now ≡ true) }
    ensures text { IfOk result (λ text. text ≡ trace_format.spell traced.now) }
{
    let mut out = Vec::new(alloc);
    write_trace(alloc, traced, &mut out)?;
    Ok(List::from_vec(out))
}

/// The trace that a text spells, or the number of the first line that isn't of its form.
#[tactic(auto, using(crate::proofs::FirstLine::trace_first_bad))]
pub fn read_trace(alloc: Global, text: &[u8]) -> Result<Traced, TraceRefusal>
    // The text is the spelling of the trace that is read.
    ensures found { IfOk result (λ traced. (trace_format.fits traced ≡ true)
        × (text.now ≡ trace_format.spell traced)) }
    // A trace that is spelled so is read, unless memory runs out.
    ensures only { (traced : TheTraced) → trace_format.fits traced ≡ true
        → text.now ≡ trace_format.spell traced → Answers text.now result (Ok traced) }
    // The line that is reported is the first that isn't of its form, whatever reads it.
    ensures first { ReportsFirst text.now result }
    // The line that the format's own reading reports.
    ensures exact { Answers text.now result (read_all trace_format text.now) }
{
    match p3l_format::decode(&TraceField { alloc }, alloc, text) {
        Ok(traced) => Ok(traced),
        Err(ReadError::NoMemory) => Err(TraceRefusal::NoMemory),
        Err(ReadError::Wrong(fault)) => Err(TraceRefusal::BadLine {
            line: line_at(text, fault.left),
        }),
    }
}

/// No trace's text begins another's.
pub fn text_begins_no_other()
    ensures { (v w : TheTraced) (more : List ℕ) → trace_format.fits v ≡ true
        → trace_format.fits w ≡ true → trace_format.spell v ++ more ≡ trace_format.spell w
        → (v ≡ w) × (more ≡ []) }
{}
