// The lines of a trace.

ghost use Rattle.std.specs.Prelude.{◌≡◌, ◌++◌, true};
ghost use Rattle.p3l_base.specs.Memory.{OnGiven};
ghost use Rattle.p3l_format.specs.Format.{Gives};
ghost use Rattle.p3l_trace.specs.Text.{pick_format, line_format, next_line};
ghost use Rattle.p3l_trace.specs.laws.Text.{line_takes};

use crate::kind::{read_said, write_said};
use crate::trace::TraceLine;
use p3l_base::NoMemory;
use p3l_format::{Item, ReadError, fault_at, read_number_then, read_text, write_number_then};
use std::alloc::Global;

/// A line of a pick.
#[derive(Clone, Copy, Drop)]
pub struct LineItem;

// The pick in front, where a fault is reported at its own place.
#[tactic(auto, unfolding(crate::specs::Text::pick_format, p3l_format::specs::Format::pair, p3l_format::specs::Format::as_form, p3l_format::specs::Text::then_text))]
fn read_pick(bytes: &[u8]) -> Result<(TraceLine, &[u8]), ReadError>
    ensures { Gives (λ x. (x.0, x.1.now)) result (pick_format.read bytes.now) }
{
    let (pick, rest) = read_number_then(0, u32::MAX as u128, b" ", bytes)?;
    let (kind, rest) = read_said(rest)?;
    let rest = read_text(b"\n", rest)?;
    Ok((
        TraceLine {
            pick: pick as u32,
            kind,
        },
        rest,
    ))
}

/// Puts the line of a pick after others.
#[tactic(auto, using(crate::specs::laws::Text::pick_fits), unfolding(crate::specs::Text::pick_format, p3l_format::specs::Format::pair, p3l_format::specs::Format::as_form, p3l_format::specs::Format::within, p3l_format::specs::Decimal::number_then, p3l_format::specs::Text::then_text, p3l_format::specs::Decimal::number_text))]
pub(crate) fn write_pick(alloc: Global, line: TraceLine, out: &mut Vec<u8>) -> Result<(), NoMemory>
    ensures fits { pick_format.fits line ≡ true }
    ensures put { OnGiven result (out.new.items ≡ out.old.items ++ pick_format.spell line) }
{
    write_number_then(alloc, line.pick as u128, b" ", out)?;
    write_said(line.kind, out)?;
    out.extend_from_slice(b"\n")?;
    Ok(())
}

impl Item for LineItem {
    type Value = TraceLine;

    ghost format = { line_format };

    ghost next = { next_line };

    ghost takes_some = { line_takes };

    fn after(_value: &TraceLine) -> LineItem {
        LineItem
    }

    #[tactic(auto, unfolding(crate::specs::Text::line_format, p3l_format::specs::Line::line))]
    fn read<'a>(
        &self,
        _alloc: Global,
        bytes: &'a [u8],
    ) -> Result<(TraceLine, &'a [u8]), ReadError> {
        match read_pick(bytes) {
            Ok(read) => Ok(read),
            Err(error) => Err(fault_at(bytes, error)),
        }
    }

    #[tactic(auto, unfolding(crate::specs::Text::line_format, p3l_format::specs::Line::line))]
    fn write(&self, alloc: Global, value: &TraceLine, out: &mut Vec<u8>) -> Result<(), NoMemory> {
        write_pick(alloc, *value, out)
    }
}
