// Runs that continue from snapshots.

ghost use Rattle.std.specs.Prelude.{◌≡◌, ◌≤◌, ◌<◌, ◌^◌, length, IfErr};
ghost use Rattle.p3l_io.specs.Change.{change};
ghost use Rattle.p3l_sched.specs.Picker.{NamesProcesses, recorded};
ghost use Rattle.p3l_skel.specs.Tree.{node_at};
ghost use Rattle.p3l_run.specs.declared.keeping.Keeping.TheVariants.{Nothing};
ghost use Rattle.p3l_run.specs.Network.{network, resumed};
ghost use Rattle.p3l_run.specs.Resume.{IsResumable, IsResumedBy};
ghost use Rattle.p3l_run.specs.Run.{IsRunEnd};
ghost use Rattle.p3l_run.specs.Start.{Resumption, uncounted};
ghost use Rattle.p3l_run.specs.Wants.{Wants};
ghost use Rattle.p3l_run.specs.Write.{WriteCause};

use crate::execution::Execution;
use crate::fault::RunFault;
use crate::keeping::Keeping;
use crate::laws::laws;
use crate::plan::Plan;
use crate::run::Ran;
use p3l_io::{Sink, Source};
use p3l_net::{Machine, Shot};
use p3l_sched::Schedule;
use p3l_skel::Units;
use p3l_stream::laws::a_stream_gives_its_items;
use std::alloc::Global;

/// A shot as the run that continues from it begins, which counts only the outcomes that it emits
/// itself.
fn uncounted(shot: Shot) -> Shot
    ensures { result ≡ uncounted shot }
{
    Shot { emitted: 0, ..shot }
}

/// Runs a network from the state that was saved of another run, as `run` does from the first one:
/// further items come from the input, and nothing that was in the network is lost or repeated.
/// Items are counted from the first one of all, and picks and firings from the state on.
pub fn resume<U: Units, S: Source, K: Sink>(
    alloc: Global,
    plan: Plan<'_, U>,
    shot: Shot,
    schedule: Schedule,
    input: &mut S,
    out: &mut K,
) -> Result<Ran, RunFault>
    requires units { U.tree plan.units.now ≡ plan.tree.now }
    requires resumable { IsResumable (network plan.tree.now (U.leaf plan.units.now) plan.net
        plan.firings) shot }
    requires width { plan.width ≡ (node_at plan.tree.now 0).ins }
    requires wide { 1 ≤ plan.width }
    requires named { NamesProcesses (length plan.net.procs) schedule }
    requires few { recorded schedule < 2 ^ 63 }
    ensures ends { (r : Resumption)
        → IsResumedBy (network plan.entry.tree.now (U.leaf plan.entry.units.now)
        plan.entry.net plan.entry.firings) shot r
        → IsRunEnd (resumed r (network plan.entry.tree.now (U.leaf plan.entry.units.now)
        plan.entry.net plan.entry.firings)) schedule Nothing
        (change (S.observed input.old) (S.observed input.new))
        (change (K.observed out.old) (K.observed out.new)) result }
    ensures output { WriteCause (change (K.observed out.old) (K.observed out.new)) result }
    ensures wants { IfErr result (Wants U.may_want) }
{
    laws();
    a_stream_gives_its_items();
    let earlier = shot.emitted;
    let machine = Machine::restore(alloc, plan.tree, plan.net, uncounted(shot))?;
    let execution = Execution::on(
        alloc,
        machine,
        earlier,
        plan.firings,
        plan.width,
        schedule,
        Keeping::Nothing,
    )?;
    execution.complete(alloc, plan.tree, plan.tree, plan.units, input, out)
}
