// The check of a trace.

ghost use Rattle.std.specs.Prelude.{◌≡◌, ◌<◌, ◌≤◌, ◌*◌, ◌^◌, OnErr};
ghost use Rattle.p3l_io.specs.Change.{change};
ghost use Rattle.p3l_skel.specs.Tree.{node_at};
ghost use Rattle.p3l_run.specs.Feed.{most_of_input};
ghost use Rattle.p3l_run.specs.Network.{IsSound, network};
ghost use Rattle.p3l_run.specs.Wants.{IsWanting};
ghost use Rattle.p3l_run.specs.Retraced.{IsRetraced};

use crate::Plan;
use crate::comparison::Comparison;
use crate::laws::laws;
use p3l_base::NoMemory;
use p3l_io::Source;
use p3l_skel::Units;
use p3l_stream::Ending;
use p3l_stream::laws::a_stream_gives_its_items;
use p3l_trace::{Traced, is_counted};
use std::alloc::Global;

/// The outcome of a trace's check.
#[derive(Clone, Copy, Debug, Drop, PartialEq, Eq)]
pub enum Retraced {
    /// All lines agree, and the stream ended so, if it did.
    Agreed(Option<Ending>),
    /// The line of this number, from 1, is the first that differs.
    Differs(u64),
}

/// Checks a trace against a network on the items of the input.
///
/// An item is requested before each line of a pick where the inbox is empty, and none at the last
/// line.
pub fn retrace<U: Units, S: Source>(
    alloc: Global,
    plan: Plan<'_, U>,
    traced: &Traced,
    input: &mut S,
) -> Result<Retraced, NoMemory>
    requires units { U.tree plan.units.now ≡ plan.tree.now }
    requires sound { IsSound (network plan.tree.now (U.leaf plan.units.now) plan.net plan.firings) }
    requires width { plan.width ≡ (node_at plan.tree.now 0).ins }
    requires wide { 1 ≤ plan.width }
    requires fits { plan.firings * most_of_input < 2 ^ 63 }
    ensures does { IsRetraced (network plan.entry.tree.now (U.leaf plan.entry.units.now)
        plan.entry.net plan.entry.firings) traced.now
        (change (S.observed input.old) (S.observed input.new)) result }
    ensures wants { OnErr result (IsWanting U.may_want) }
{
    laws();
    a_stream_gives_its_items();
    let mut comparison = Comparison::start(alloc, plan.tree, plan.net, plan.width)?;
    // The first line of a trace is its header.
    let mut number: u64 = 1;
    for line in traced.lines.as_slice() {
        number += 1;
        if !comparison.pass(alloc, plan.tree, plan.units, line, input)? {
            return Ok(Retraced::Differs(number));
        }
    }
    if !is_counted(traced) {
        return Ok(Retraced::Differs(number + 1));
    }
    Ok(Retraced::Agreed(comparison.stream.ending()))
}
