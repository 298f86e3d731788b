// The run of a network from the input to the output.

ghost use Rattle.std.specs.Prelude.{◌≡◌, ◌<◌, ◌≤◌, ◌*◌, ◌^◌, length, IfErr};
ghost use Rattle.p3l_io.specs.Change.{change};
ghost use Rattle.p3l_sched.specs.Picker.{NamesProcesses, recorded};
ghost use Rattle.p3l_skel.specs.Tree.{node_at};
ghost use Rattle.p3l_run.specs.Feed.{most_of_input};
ghost use Rattle.p3l_run.specs.Network.{IsSound, network, network_named};
ghost use Rattle.p3l_run.specs.Run.{IsRunEnd};
ghost use Rattle.p3l_run.specs.Wants.{Wants};
ghost use Rattle.p3l_run.specs.Write.{WriteCause};

use crate::end::{RunEnd, RunStats};
use crate::execution::Execution;
use crate::fault::RunFault;
use crate::keeping::Keeping;
use crate::laws::laws;
use crate::plan::Plan;
use p3l_base::List;
use p3l_io::{Sink, Source};
use p3l_sched::Schedule;
use p3l_skel::{Tree, Units};
use p3l_stream::laws::a_stream_gives_its_items;
use p3l_trace::TraceLine;
use std::alloc::Global;

/// A run that came to its end, with its numbers.
#[derive(Debug, Drop)]
pub struct Ran {
    pub finish: RunEnd,
    pub stats: RunStats,
    /// A line for each pick, where lines were to be kept.
    pub lines: Option<List<TraceLine>>,
    /// The sum of all words that were emitted, which wraps at 64 bits.
    pub sum: i64,
}

/// Runs a network on the items of the input under a schedule, and writes each value as it comes
/// out.
///
/// An item is requested where the inbox is empty; a pick that can't fire is idle. The run ends
/// where no process can fire, or the recorded picks are ended. Each pick is a line of the trace,
/// where lines are kept: the process, and its kind if it fired. A module of the tree names a trap.
pub fn run<U: Units, S: Source, K: Sink>(
    alloc: Global,
    plan: Plan<'_, U>,
    schedule: Schedule,
    keeping: Keeping,
    input: &mut S,
    out: &mut K,
) -> Result<Ran, RunFault>
    requires units { U.tree plan.units.now ≡ plan.tree.now }
    requires sound { IsSound (network plan.tree.now (U.leaf plan.units.now) plan.net plan.firings) }
    requires width { plan.width ≡ (node_at plan.tree.now 0).ins }
    requires wide { 1 ≤ plan.width }
    requires fits { plan.firings * most_of_input < 2 ^ 63 }
    requires named { NamesProcesses (length plan.net.procs) schedule }
    requires few { recorded schedule < 2 ^ 63 }
    ensures ends { IsRunEnd (network plan.entry.tree.now (U.leaf plan.entry.units.now)
        plan.entry.net plan.entry.firings) schedule keeping
        (change (S.observed input.old) (S.observed input.new))
        (change (K.observed out.old) (K.observed out.new)) result }
    ensures output { WriteCause (change (K.observed out.old) (K.observed out.new)) result }
    ensures wants { IfErr result (Wants U.may_want) }
{
    let named = plan.tree;
    run_named(alloc, plan, named, schedule, keeping, input, out)
}

/// Runs a network as `run` does, but a module of another tree names a trap: where the bodies that
/// are run do what that tree's do, and hand on their traps.
pub fn run_named<U: Units, S: Source, K: Sink>(
    alloc: Global,
    plan: Plan<'_, U>,
    named: &Tree,
    schedule: Schedule,
    keeping: Keeping,
    input: &mut S,
    out: &mut K,
) -> Result<Ran, RunFault>
    requires units { U.tree plan.units.now ≡ plan.tree.now }
    requires sound { IsSound (network plan.tree.now (U.leaf plan.units.now) plan.net plan.firings) }
    requires width { plan.width ≡ (node_at plan.tree.now 0).ins }
    requires wide { 1 ≤ plan.width }
    requires fits { plan.firings * most_of_input < 2 ^ 63 }
    requires picks { NamesProcesses (length plan.net.procs) schedule }
    requires few { recorded schedule < 2 ^ 63 }
    ensures ends { IsRunEnd (network_named named.now plan.entry.tree.now
        (U.leaf plan.entry.units.now) plan.entry.net plan.entry.firings) schedule keeping
        (change (S.observed input.old) (S.observed input.new))
        (change (K.observed out.old) (K.observed out.new)) result }
    ensures output { WriteCause (change (K.observed out.old) (K.observed out.new)) result }
    ensures wants { IfErr result (Wants U.may_want) }
{
    laws();
    a_stream_gives_its_items();
    let execution = Execution::start(
        alloc,
        plan.tree,
        plan.net,
        plan.firings,
        plan.width,
        schedule,
        keeping,
    )?;
    execution.complete(alloc, plan.tree, named, plan.units, input, out)
}
