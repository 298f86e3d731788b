// The command `time`: a program of a file, run on the input in virtual time.

ghost use Rattle.std.specs.Prelude.{◌≡◌, ◌<◌, ◌≤◌, ◌*◌, ◌^◌, ◌⊎◌, length, Some, ◌||◌};
ghost use Rattle.std.specs.Option.{option_to_list};
ghost use Rattle.p3l_io.specs.Change.{HasSameContent, change};
ghost use Rattle.p3l_run.specs.Feed.{most_of_input};
ghost use Rattle.p3l_run.specs.Network.{IsSound, network};
ghost use Rattle.p3l_skel.specs.Tree.{node_at};
ghost use Rattle.p3l_timed.specs.Price.{HasSmallPrices, prices_of};
ghost use Rattle.p3l_program.specs.LoadImage.{IsReadyImage};
ghost use Rattle.p3l_program.specs.Plan.{network_in};
ghost use Rattle.p3l_program.specs.Saved.{KeepsFiles};
ghost use Rattle.p3l_program.specs.Time.{AreReported, IsTimeClosed, IsTimeExpected, IsTimeOf, KeepsTime, TimesOver};
ghost use Rattle.p3l_program.specs.World.{world};
ghost use Rattle.p3l_program.specs.Wants.{Wants};

use crate::picks::save_picks;
use crate::plan::{Linked, load_linked, plan_of};
use crate::running::keeping_for;
use crate::verdict::fault_verdict;
use p3l_base::Name;
use p3l_cost::Costs;
use p3l_io::{Files, Sink, Source};
use p3l_link::laws::every_linked_net_has_invariants;
use p3l_load::Loaded;
use p3l_opts::Build;
use p3l_price_laws::linked_nets_have_small_prices;
use p3l_report::{Finish, Stats, Verdict};
use p3l_run::{Plan, Ran, RunStats, TimedRan, run_in_time};
use p3l_skel::Units;
use p3l_timed::Timer;
use p3l_timed::laws::{a_finish_is_between_one_and_all, a_timed_run_is_a_run};
use p3l_units::UnitTable;
use std::alloc::Global;

/// The numbers of a run in virtual time, by its timer.
fn time_stats(stats: &RunStats, timer: &Timer) -> Stats
    requires some { 0 < length timer.now.prices }
    ensures { AreReported stats.now timer.now (Some result) }
{
    let busiest = timer.busiest();
    Stats::Timed {
        items: stats.items,
        fired: stats.fired,
        finish: timer.now(),
        busiest,
        busy: timer.busy(busiest),
    }
}

/// Ends a run in virtual time: writes its picks where a file is named for them, and reports how it
/// ended.
fn close<F: Files>(alloc: Global, end: TimedRan, picks: Option<Name>, files: &mut F) -> Verdict
    requires some { 0 < length end.timer.prices }
    ensures closed { IsTimeClosed (change (F.observed files.old) (F.observed files.new)) end.ran
        end.timer picks result }
    ensures wants { Wants F.may_want result }
{
    let TimedRan { ran, timer } = end;
    let Ran {
        finish,
        stats,
        lines,
        ..
    } = ran;
    let numbers = time_stats(&stats, &timer);
    match save_picks(alloc, picks, lines, files) {
        Ok(()) => Verdict::Ended(Finish::Run(finish), Some(numbers)),
        Err(verdict) => verdict,
    }
}

/// Runs a plan on the items of the input in virtual time by these costs, writes each value as it
/// comes out, and at the end the picks.
fn time_plan<U: Units, F: Files, S: Source, K: Sink>(
    alloc: Global,
    plan: Plan<'_, U>,
    costs: &Costs,
    picks: Option<Name>,
    files: &mut F,
    input: &mut S,
    out: &mut K,
) -> Verdict
    requires units { U.tree plan.units.now ≡ plan.tree.now }
    requires sound { IsSound (network plan.tree.now (U.leaf plan.units.now) plan.net plan.firings) }
    requires width { plan.width ≡ (node_at plan.tree.now 0).ins }
    requires wide { 1 ≤ plan.width }
    requires fits { plan.firings * most_of_input < 2 ^ 63 }
    requires small { HasSmallPrices plan.tree.now costs.now plan.net }
    ensures ran { IsTimeOf (network plan.entry.tree.now (U.leaf plan.entry.units.now) plan.entry.net
        plan.entry.firings) (prices_of plan.entry.tree.now costs.now plan.entry.net)
        (change (F.observed files.old) (F.observed files.new))
        (change (S.observed input.old) (S.observed input.new))
        (change (K.observed out.old) (K.observed out.new)) picks result }
    ensures kept { KeepsTime (network plan.entry.tree.now (U.leaf plan.entry.units.now)
        plan.entry.net plan.entry.firings) (prices_of plan.entry.tree.now costs.now plan.entry.net)
        (change (F.observed files.old) (F.observed files.new))
        (change (S.observed input.old) (S.observed input.new))
        (change (K.observed out.old) (K.observed out.new)) picks result }
    ensures wants { Wants (U.may_want || F.may_want) result }
{
    a_timed_run_is_a_run();
    a_finish_is_between_one_and_all();
    let keeping = keeping_for(&picks);
    match run_in_time(alloc, plan, costs, keeping, input, out) {
        Err(fault) => fault_verdict(fault),
        Ok(end) => close(alloc, end, picks, files),
    }
}

/// Runs a network that was loaded with its costs in virtual time.
fn time_linked<F: Files, S: Source, K: Sink>(
    alloc: Global,
    linked: Linked,
    picks: Option<Name>,
    files: &mut F,
    input: &mut S,
    out: &mut K,
) -> Verdict
    requires ready { IsReadyImage linked.network }
    requires small { HasSmallPrices linked.network.tree linked.costs linked.network.net }
    ensures ran { IsTimeOf (network_in linked.network)
        (prices_of linked.network.tree linked.costs linked.network.net)
        (change (F.observed files.old) (F.observed files.new))
        (change (S.observed input.old) (S.observed input.new))
        (change (K.observed out.old) (K.observed out.new)) picks result }
    ensures kept { KeepsTime (network_in linked.network)
        (prices_of linked.network.tree linked.costs linked.network.net)
        (change (F.observed files.old) (F.observed files.new))
        (change (S.observed input.old) (S.observed input.new))
        (change (K.observed out.old) (K.observed out.new)) picks result }
    ensures wants { Wants F.may_want result }
{
    every_linked_net_has_invariants();
    let Linked { network, costs } = linked;
    let Loaded {
        tree,
        counts,
        codes,
        net,
        ..
    } = network;
    let Ok(units) = UnitTable::new(alloc, &tree, codes) else {
        return Verdict::NoMemory;
    };
    let plan = plan_of(&tree, &counts, &units, net);
    time_plan(alloc, plan, &costs, picks, files, input, out)
}

/// Runs the program of a file on the input in virtual time; its picks go to the file of a name, if
/// there is one, and its numbers are reported.
pub fn time<F: Files, S: Source, K: Sink>(
    alloc: Global,
    build: Build,
    picks: Option<Name>,
    files: &mut F,
    input: &mut S,
    out: &mut K,
) -> Verdict
    requires processors { (1 ≤ build.processors) × (build.processors ≤ 512) }
    requires capacity { (1 ≤ build.capacity) × (build.capacity ≤ 1024) }
    ensures expected { IsTimeExpected
        (world (change (F.observed files.old) (F.observed files.new))
        (change (S.observed input.old) (S.observed input.new))
        (change (K.observed out.old) (K.observed out.new))) build picks result }
    ensures kept { KeepsFiles (change (F.observed files.old) (F.observed files.new))
        (option_to_list picks) result }
    ensures over { HasSameContent (change (F.observed files.old) (F.observed files.new))
        ⊎ TimesOver (world (change (F.observed files.old) (F.observed files.new))
        (change (S.observed input.old) (S.observed input.new))
        (change (K.observed out.old) (K.observed out.new))) build }
    ensures wants { Wants F.may_want result }
{
    linked_nets_have_small_prices();
    match load_linked(alloc, build, files) {
        Err(verdict) => verdict,
        Ok(linked) => time_linked(alloc, linked, picks, files, input, out),
    }
}
