// The command `resume`: the image of a snapshot, run on the input from the state that was saved.

ghost use Rattle.std.specs.Prelude.{◌≡◌, ◌≤◌, ◌⊎◌, [], None, ◌||◌};
ghost use Rattle.p3l_io.specs.Change.{HasSameContent, change};
ghost use Rattle.p3l_run.specs.Network.{network, resumed};
ghost use Rattle.p3l_run.specs.Resume.{IsResumable, IsResumedBy};
ghost use Rattle.p3l_run.specs.Start.{Resumption};
ghost use Rattle.p3l_skel.specs.Tree.{node_at};
ghost use Rattle.p3l_program.specs.LoadSnapshot.{IsReadySnapshot};
ghost use Rattle.p3l_program.specs.Origin.{continued};
ghost use Rattle.p3l_program.specs.Plan.{continued_network};
ghost use Rattle.p3l_program.specs.Run.{IsRunExpected, IsRunOf, KeepsRun, RunsOver};
ghost use Rattle.p3l_program.specs.Saved.{KeepsFiles};
ghost use Rattle.p3l_program.specs.World.{world};
ghost use Rattle.p3l_program.specs.Wants.{Wants};

use crate::plan::plan_of;
use crate::running::close;
use crate::schedule::load_schedule;
use crate::snapshot::{ResumableNetwork, load_snapshot};
use crate::verdict::fault_verdict;
use p3l_base::Name;
use p3l_io::{Files, Sink, Source};
use p3l_link::laws::every_linked_net_has_invariants;
use p3l_load::Loaded;
use p3l_net::Shot;
use p3l_opts::Sched;
use p3l_report::Verdict;
use p3l_resume_laws::start::{every_orderly_shot_goes_on, every_resumed_run_can_be_counted};
use p3l_run::Plan;
use p3l_skel::Units;
use p3l_units::UnitTable;
use std::alloc::Global;

/// Runs a plan from what was saved of another run, on the items of the input under the schedule that is
/// requested, and writes each value as it comes out.
fn resume_plan<U: Units, F: Files, S: Source, K: Sink>(
    alloc: Global,
    plan: Plan<'_, U>,
    shot: Shot,
    request: Sched,
    reported: bool,
    files: &mut F,
    input: &mut S,
    out: &mut K,
) -> Verdict
    requires units { U.tree plan.units.now ≡ plan.tree.now }
    requires resumable { IsResumable (network plan.tree.now (U.leaf plan.units.now) plan.net
        plan.firings) shot }
    requires width { plan.width ≡ (node_at plan.tree.now 0).ins }
    requires wide { 1 ≤ plan.width }
    ensures ran { (r : Resumption)
        → IsResumedBy (network plan.entry.tree.now (U.leaf plan.entry.units.now) plan.entry.net
        plan.entry.firings) shot r → IsRunOf
        (resumed r (network plan.entry.tree.now (U.leaf plan.entry.units.now) plan.entry.net
        plan.entry.firings)) (change (F.observed files.old) (F.observed files.new))
        (change (S.observed input.old) (S.observed input.new))
        (change (K.observed out.old) (K.observed out.new)) request None reported result }
    ensures kept { (r : Resumption)
        → IsResumedBy (network plan.entry.tree.now (U.leaf plan.entry.units.now) plan.entry.net
        plan.entry.firings) shot r → KeepsRun
        (resumed r (network plan.entry.tree.now (U.leaf plan.entry.units.now) plan.entry.net
        plan.entry.firings)) (change (F.observed files.old) (F.observed files.new))
        (change (S.observed input.old) (S.observed input.new))
        (change (K.observed out.old) (K.observed out.new)) request None result }
    ensures wants { Wants (U.may_want || F.may_want) result }
{
    let count = plan.net.procs.len() as u32;
    let schedule = match load_schedule(alloc, request, count, files) {
        Ok(schedule) => schedule,
        Err(verdict) => return verdict,
    };
    match p3l_run::resume::resume(alloc, plan, shot, schedule, input, out) {
        Err(fault) => fault_verdict(fault),
        Ok(ran) => close(alloc, ran, None, reported, files),
    }
}

/// Runs the network of a snapshot from what was saved.
fn resume_network<F: Files, S: Source, K: Sink>(
    alloc: Global,
    snapshot: ResumableNetwork,
    request: Sched,
    reported: bool,
    files: &mut F,
    input: &mut S,
    out: &mut K,
) -> Verdict
    requires ready { IsReadySnapshot snapshot }
    ensures ran { IsRunOf (continued_network snapshot.network snapshot.shot)
        (change (F.observed files.old) (F.observed files.new))
        (change (S.observed input.old) (S.observed input.new))
        (change (K.observed out.old) (K.observed out.new)) request None reported result }
    ensures kept { KeepsRun (continued_network snapshot.network snapshot.shot)
        (change (F.observed files.old) (F.observed files.new))
        (change (S.observed input.old) (S.observed input.new))
        (change (K.observed out.old) (K.observed out.new)) request None result }
    ensures wants { Wants F.may_want result }
{
    every_linked_net_has_invariants();
    every_orderly_shot_goes_on();
    every_resumed_run_can_be_counted();
    let ResumableNetwork { network, shot } = snapshot;
    let Loaded {
        tree,
        counts,
        codes,
        net,
        ..
    } = network;
    let Ok(units) = UnitTable::new(alloc, &tree, codes) else {
        return Verdict::NoMemory;
    };
    let plan = plan_of(&tree, &counts, &units, net);
    resume_plan(alloc, plan, shot, request, reported, files, input, out)
}

/// Goes on with the run that the snapshot of a file was saved of, on the input; its numbers are to be
/// reported or not.
pub fn resume<F: Files, S: Source, K: Sink>(
    alloc: Global,
    name: Name,
    request: Sched,
    reported: bool,
    files: &mut F,
    input: &mut S,
    out: &mut K,
) -> Verdict
    ensures expected { IsRunExpected
        (world (change (F.observed files.old) (F.observed files.new))
        (change (S.observed input.old) (S.observed input.new))
        (change (K.observed out.old) (K.observed out.new))) (continued name) request None reported
        result }
    ensures kept { KeepsFiles (change (F.observed files.old) (F.observed files.new)) [] result }
    ensures over { HasSameContent (change (F.observed files.old) (F.observed files.new))
        ⊎ RunsOver (world (change (F.observed files.old) (F.observed files.new))
        (change (S.observed input.old) (S.observed input.new))
        (change (K.observed out.old) (K.observed out.new))) (continued name) request }
    ensures wants { Wants F.may_want result }
{
    match load_snapshot(alloc, name, files) {
        Err(verdict) => verdict,
        Ok(snapshot) => { resume_network(alloc, snapshot, request, reported, files, input, out) }
    }
}
