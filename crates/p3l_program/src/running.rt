// A network that is run under the schedule that words and files request, whatever it was made from.

ghost use Rattle.std.specs.Prelude.{◌≡◌, ◌<◌, ◌≤◌, ◌*◌, ◌^◌, ◌||◌};
ghost use Rattle.p3l_io.specs.Change.{change};
ghost use Rattle.p3l_report.specs.declared.verdict.Verdict.TheVariants as verdict;
ghost use Rattle.p3l_run.specs.Feed.{most_of_input};
ghost use Rattle.p3l_run.specs.Network.{IsSound, network, network_named};
ghost use Rattle.p3l_skel.specs.Tree.{node_at};
ghost use Rattle.p3l_program.specs.LoadImage.{IsReadyImage};
ghost use Rattle.p3l_program.specs.Plan.{network_in};
ghost use Rattle.p3l_program.specs.Run.{IsClosed, IsRunOf, KeepsRun, keeping_for, shown};
ghost use Rattle.p3l_program.specs.Wants.{Wants};

use crate::plan::plan_of;
use crate::record::record;
use crate::schedule::load_schedule;
use crate::verdict::fault_verdict;
use p3l_base::Name;
use p3l_io::{Files, Sink, Source};
use p3l_link::laws::every_linked_net_has_invariants;
use p3l_load::Loaded;
use p3l_opts::Sched;
use p3l_report::{Finish, Stats, Verdict};
use p3l_run::run::run_named;
use p3l_run::{Keeping, Plan, Ran};
use p3l_skel::{Tree, Units};
use p3l_units::UnitTable;
use std::alloc::Global;

/// The verdict of a run that came to its end, whose numbers are to be reported or not.
fn ended(finish: Finish, stats: Stats, reported: bool) -> Verdict
    ensures { result ≡ verdict.Ended finish (shown reported stats) }
{
    if reported {
        Verdict::Ended(finish, Some(stats))
    } else {
        Verdict::Ended(finish, None)
    }
}

/// Returns what is kept of the picks of a run: their lines, where a file is named for the trace.
pub fn keeping_for(trace: &Option<Name>) -> Keeping
    ensures { result ≡ keeping_for trace.now }
{
    match trace {
        None => Keeping::Nothing,
        Some(_) => Keeping::Lines,
    }
}

/// Ends a run: writes its trace where a file is named for it, and reports how it ended.
pub fn close<F: Files>(
    alloc: Global,
    ran: Ran,
    trace: Option<Name>,
    reported: bool,
    files: &mut F,
) -> Verdict
    ensures closed { IsClosed (change (F.observed files.old) (F.observed files.new)) ran trace
        reported result }
    ensures wants { Wants F.may_want result }
{
    let Ran {
        finish,
        stats,
        lines,
        ..
    } = ran;
    match record(alloc, trace, lines, &stats, files) {
        Ok(()) => ended(Finish::Run(finish), Stats::Scheduled(stats), reported),
        Err(verdict) => verdict,
    }
}

/// Runs a plan on the items of the input under the schedule that is requested, writes each value
/// as it comes out, and at the end the trace; the modules of a tree name a trap.
pub fn run_plan<U: Units, F: Files, S: Source, K: Sink>(
    alloc: Global,
    plan: Plan<'_, U>,
    named: &Tree,
    request: Sched,
    trace: Option<Name>,
    reported: bool,
    files: &mut F,
    input: &mut S,
    out: &mut K,
) -> Verdict
    requires units { U.tree plan.units.now ≡ plan.tree.now }
    requires sound { IsSound (network plan.tree.now (U.leaf plan.units.now) plan.net plan.firings) }
    requires width { plan.width ≡ (node_at plan.tree.now 0).ins }
    requires wide { 1 ≤ plan.width }
    requires fits { plan.firings * most_of_input < 2 ^ 63 }
    ensures ran { IsRunOf (network_named named.now plan.entry.tree.now (U.leaf plan.entry.units.now)
        plan.entry.net plan.entry.firings) (change (F.observed files.old) (F.observed files.new))
        (change (S.observed input.old) (S.observed input.new))
        (change (K.observed out.old) (K.observed out.new)) request trace reported result }
    ensures kept { KeepsRun (network_named named.now plan.entry.tree.now
        (U.leaf plan.entry.units.now) plan.entry.net plan.entry.firings)
        (change (F.observed files.old) (F.observed files.new))
        (change (S.observed input.old) (S.observed input.new))
        (change (K.observed out.old) (K.observed out.new)) request trace result }
    ensures wants { Wants (U.may_want || F.may_want) result }
{
    let count = plan.net.procs.len() as u32;
    let schedule = match load_schedule(alloc, request, count, files) {
        Ok(schedule) => schedule,
        Err(verdict) => return verdict,
    };
    let keeping = keeping_for(&trace);
    match run_named(alloc, plan, named, schedule, keeping, input, out) {
        Err(fault) => fault_verdict(fault),
        Ok(ran) => close(alloc, ran, trace, reported, files),
    }
}

/// Runs a network that was loaded, from a program or an image.
pub fn run_network<F: Files, S: Source, K: Sink>(
    alloc: Global,
    loaded: Loaded,
    request: Sched,
    trace: Option<Name>,
    reported: bool,
    files: &mut F,
    input: &mut S,
    out: &mut K,
) -> Verdict
    requires ready { IsReadyImage loaded }
    ensures ran { IsRunOf (network_in loaded) (change (F.observed files.old) (F.observed files.new))
        (change (S.observed input.old) (S.observed input.new))
        (change (K.observed out.old) (K.observed out.new)) request trace reported result }
    ensures kept { KeepsRun (network_in loaded)
        (change (F.observed files.old) (F.observed files.new))
        (change (S.observed input.old) (S.observed input.new))
        (change (K.observed out.old) (K.observed out.new)) request trace result }
    ensures wants { Wants F.may_want result }
{
    every_linked_net_has_invariants();
    let Loaded {
        tree,
        counts,
        codes,
        net,
        ..
    } = loaded;
    let Ok(units) = UnitTable::new(alloc, &tree, codes) else {
        return Verdict::NoMemory;
    };
    let plan = plan_of(&tree, &counts, &units, net);
    run_plan(
        alloc, plan, &tree, request, trace, reported, files, input, out,
    )
}
