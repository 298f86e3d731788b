// The items of a certificate: its counts and its rows.

ghost use Rattle.std.specs.Prelude.{◌≡◌, ◌++◌, [], ◌∷◌};
ghost use Rattle.p3l_base.specs.Memory.{OnGiven};
ghost use Rattle.p3l_format.specs.Format.{Gives, within};
ghost use Rattle.p3l_format.specs.Text.{text_then};
ghost use Rattle.p3l_cert.specs.Text.{row_word, count_format, next_count, is_above, numbers_format, row_format, next_row};
ghost use Rattle.p3l_cert.specs.Order.{comes_before};
ghost use Rattle.p3l_cert.specs.laws.Text.{count_takes, row_takes};

use crate::cert::Row;
use p3l_base::NoMemory;
use p3l_base::limits::MOST_PROCESSORS;
use p3l_format::{
    Cause, Item, ReadError, fault_at, fault_of, read_number_in, read_number_then, read_text,
    write_number, write_number_then,
};
use std::alloc::Global;

/// The least number that isn't the bound of a row, or the service time of a certificate.
pub const BOUND_LIMIT: u128 = 1 << 110;

/// A count.
#[derive(Clone, Copy, Drop)]
pub struct CountItem;

/// A row above the one before it, if there is one.
#[derive(Clone, Copy, Drop)]
pub struct RowItem {
    pub above: Option<Row>,
}

impl Item for CountItem {
    type Value = u32;

    ghost format = { count_format };

    ghost next = { next_count };

    ghost takes_some = { count_takes };

    fn after(_value: &u32) -> CountItem {
        CountItem
    }

    #[tactic(auto, unfolding(crate::specs::Text::count_format, p3l_format::specs::Text::text_then))]
    fn read<'a>(&self, _alloc: Global, bytes: &'a [u8]) -> Result<(u32, &'a [u8]), ReadError> {
        let rest = read_text(b" ", bytes)?;
        let (count, rest) = read_number_in(0, u32::MAX as u128, rest)?;
        Ok((count as u32, rest))
    }

    #[tactic(auto, unfolding(crate::specs::Text::count_format, p3l_format::specs::Text::text_then, p3l_format::specs::Format::within, p3l_format::specs::Decimal::number_text))]
    fn write(&self, alloc: Global, value: &u32, out: &mut Vec<u8>) -> Result<(), NoMemory> {
        out.extend_from_slice(b" ")?;
        write_number(alloc, *value as u128, out)
    }
}

/// Returns true exactly if a row comes before another: by node, bound and cap.
pub fn comes_before(first: Row, second: Row) -> bool
    ensures { result ≡ comes_before first second }
{
    first.node < second.node
        || first.node == second.node
            && (first.bound < second.bound || first.bound == second.bound && first.cap < second.cap)
}

// Returns true exactly if a row may come after another, if there is one.
fn is_above(above: Option<Row>, row: Row) -> bool
    ensures { result ≡ is_above above row }
{
    match above {
        None => true,
        Some(other) => comes_before(other, row),
    }
}

// The numbers of a row, and what is after its line.
#[tactic(auto, unfolding(crate::specs::Text::numbers_format, p3l_format::specs::Format::pair, p3l_format::specs::Format::as_form))]
fn read_numbers(bytes: &[u8]) -> Result<(Row, &[u8]), ReadError>
    ensures { Gives (λ x. (x.0, x.1.now)) result (numbers_format.read bytes.now) }
{
    let (node, rest) = read_number_then(0, u32::MAX as u128, b" ", bytes)?;
    let (bound, rest) = read_number_then(0, BOUND_LIMIT - 1, b" ", rest)?;
    let (cap, rest) = read_number_then(1, MOST_PROCESSORS as u128, b" ", rest)?;
    let (least, rest) = read_number_then(1, 513, b"\n", rest)?;
    Ok((
        Row {
            node: node as u32,
            bound,
            cap: cap as u32,
            least: least as u32,
        },
        rest,
    ))
}

// The row in front, where a fault is reported at its own place.
#[tactic(auto, unfolding(p3l_format::specs::Text::text_then, p3l_format::specs::Format::within))]
fn read_row(above: Option<Row>, bytes: &[u8]) -> Result<(Row, &[u8]), ReadError>
    ensures { Gives (λ x. (x.0, x.1.now))
        result ((text_then row_word (within (is_above above) numbers_format)).read bytes.now) }
{
    let numbers = read_text(b"row ", bytes)?;
    let (row, rest) = read_numbers(numbers)?;
    if is_above(above, row) {
        return Ok((row, rest));
    }
    Err(fault_of(Cause::Range, numbers))
}

// Puts the numbers of a row after others.
#[tactic(auto, unfolding(crate::specs::Text::numbers_format, p3l_format::specs::Format::pair, p3l_format::specs::Format::as_form, p3l_format::specs::Format::within, p3l_format::specs::Decimal::number_then, p3l_format::specs::Text::then_text, p3l_format::specs::Decimal::number_text))]
fn write_numbers(alloc: Global, row: Row, out: &mut Vec<u8>) -> Result<(), NoMemory>
    ensures { OnGiven result (out.new.items ≡ out.old.items ++ numbers_format.spell row) }
{
    write_number_then(alloc, row.node as u128, b" ", out)?;
    write_number_then(alloc, row.bound, b" ", out)?;
    write_number_then(alloc, row.cap as u128, b" ", out)?;
    write_number_then(alloc, row.least as u128, b"\n", out)
}

impl Item for RowItem {
    type Value = Row;

    ghost format = { row_format };

    ghost next = { next_row };

    ghost takes_some = { row_takes };

    fn after(value: &Row) -> RowItem {
        RowItem {
            above: Some(*value),
        }
    }

    #[tactic(auto, unfolding(crate::specs::Text::row_format, p3l_format::specs::Line::line))]
    fn read<'a>(&self, _alloc: Global, bytes: &'a [u8]) -> Result<(Row, &'a [u8]), ReadError> {
        match read_row(self.above, bytes) {
            Ok(read) => Ok(read),
            Err(error) => Err(fault_at(bytes, error)),
        }
    }

    #[tactic(auto, unfolding(crate::specs::Text::row_format, p3l_format::specs::Line::line, p3l_format::specs::Text::text_then, p3l_format::specs::Format::within))]
    fn write(&self, alloc: Global, value: &Row, out: &mut Vec<u8>) -> Result<(), NoMemory> {
        out.extend_from_slice(b"row ")?;
        write_numbers(alloc, *value, out)
    }
}
