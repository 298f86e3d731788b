// The writing of texts and of what a network emits.

ghost use Rattle.std.specs.Prelude.{◌≡◌, IfOk, OnOk, OnErr, fold, IfErr, Bool};
ghost use Rattle.std.specs.Option.{option_to_list};
ghost use Rattle.p3l_io.specs.Change.{change};
ghost use Rattle.p3l_run.specs.Sum.{sum_after};
ghost use Rattle.p3l_run.specs.Trap.{trap_after};
ghost use Rattle.p3l_run.specs.Wants.{Wants};
ghost use Rattle.p3l_run.specs.Write.{HasBegun, HasPut, WriteCause};
ghost use Rattle.p3l_stream.specs.Text.{text_of};

use crate::fault::RunFault;
use crate::sum::add_words;
use p3l_base::{Outcome, Trap};
use p3l_io::Sink;
use p3l_stream::item_text;
use std::alloc::Global;

/// Writes a text by one put, or by none where there is no text.
pub fn write<K: Sink>(out: &mut K, text: &[u8]) -> Result<(), RunFault>
    ensures put { OnOk result (HasPut (change (K.observed out.old) (K.observed out.new)) text.now) }
    ensures begun { OnErr result (HasBegun (change (K.observed out.old) (K.observed out.new))
        text.now) }
    ensures cause { WriteCause (change (K.observed out.old) (K.observed out.new)) result }
    ensures wants { (units : Bool) → IfErr result (Wants units) }
{
    if text.is_empty() {
        return Ok(());
    }
    match out.put(text) {
        Ok(()) => Ok(()),
        Err(_) => Err(RunFault::Write),
    }
}

/// The outcomes that were emitted so far, as a run ends by them: the last trap among them, and the
/// sum of the words of the values.
#[derive(Clone, Copy, Debug, Drop)]
pub struct Emitted {
    pub trap: Option<Trap>,
    pub sum: i64,
}

/// Writes the line of an outcome, if there is one and it is a value; gives all that was emitted,
/// with it included.
pub(crate) fn write_emitted<K: Sink>(
    alloc: Global,
    outcome: Option<Outcome>,
    emitted: Emitted,
    out: &mut K,
) -> Result<Emitted, RunFault>
    ensures trap { IfOk result (λ after. after.trap
        ≡ fold trap_after emitted.trap (option_to_list outcome)) }
    ensures sum { IfOk result (λ after. after.sum
        ≡ fold sum_after emitted.sum (option_to_list outcome)) }
    ensures put { OnOk result (HasPut (change (K.observed out.old) (K.observed out.new))
        (text_of (option_to_list outcome))) }
    ensures begun { OnErr result (HasBegun (change (K.observed out.old) (K.observed out.new))
        (text_of (option_to_list outcome))) }
    ensures cause { WriteCause (change (K.observed out.old) (K.observed out.new)) result }
    ensures wants { (units : Bool) → IfErr result (Wants units) }
{
    match outcome {
        None => Ok(emitted),
        Some(Outcome::Trapped(other)) => Ok(Emitted {
            trap: Some(other),
            sum: emitted.sum,
        }),
        Some(Outcome::Value(words)) => {
            let text = item_text(alloc, &words)?;
            match write(out, text.as_slice()) {
                Ok(()) => Ok(Emitted {
                    trap: emitted.trap,
                    sum: add_words(emitted.sum, &words),
                }),
                Err(fault) => Err(fault),
            }
        }
    }
}
