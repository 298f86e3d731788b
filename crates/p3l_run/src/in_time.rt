// A run in virtual time: a timer makes its picks.

ghost use Rattle.std.specs.Prelude.{◌≡◌, ◌<◌, ◌≤◌, ◌*◌, ◌^◌, OnErr, true, IfErr};
ghost use Rattle.p3l_base.specs.Memory.{Refused};
ghost use Rattle.p3l_io.specs.Change.{change};
ghost use Rattle.p3l_skel.specs.Tree.{node_at};
ghost use Rattle.p3l_timed.specs.Price.{HasSmallPrices, prices_of};
ghost use Rattle.p3l_run.specs.Feed.{most_of_input};
ghost use Rattle.p3l_run.specs.Network.{IsSound, network};
ghost use Rattle.p3l_run.specs.Streams.{streams};
ghost use Rattle.p3l_run.specs.Timed.{CompletesInTime, FeedsInTime, IsInTime, IsTimedEnd, MayFeed, MayStep, RunsInTime, StepsInTime, timed_job};
ghost use Rattle.p3l_run.specs.Wants.{Wants};

use crate::execution::Execution;
use crate::fault::RunFault;
use crate::feed::feed;
use crate::keeping::Keeping;
use crate::laws::laws;
use crate::plan::Plan;
use crate::run::Ran;
use crate::write::write_emitted;
use p3l_base::{List, NoMemory};
use p3l_cost::Costs;
use p3l_io::{Sink, Source};
use p3l_sched::Schedule;
use p3l_skel::{Tree, Units};
use p3l_stream::laws::a_stream_gives_its_items;
use p3l_timed::Timer;
use p3l_timed::laws::small_prices_are_counted_in_full;
use std::alloc::Global;

impl<'t> Execution<'t> {
    /// Requests the next item of the stream, where the machine wants one, and notifies the timer.
    fn feed_in_time<S: Source>(
        &mut self,
        alloc: Global,
        timer: &mut Timer,
        input: &mut S,
    ) -> Result<(), NoMemory>
        requires { MayFeed (S.observed input.old) self.old timer.old }
        ensures feeds { FeedsInTime (change (S.observed input.old) (S.observed input.new))
            self.old self.new timer.old timer.new result }
        ensures wants { OnErr result Refused }
    {
        feed(alloc, &mut self.machine, &mut self.stream, input)?;
        timer.offered(&self.machine);
        Ok(())
    }

    /// Fires the process that is due next, if one is, and writes what it emits; says whether one
    /// was.
    fn step_in_time<U: Units, K: Sink>(
        &mut self,
        alloc: Global,
        tree: &Tree,
        units: &U,
        timer: &mut Timer,
        out: &mut K,
    ) -> Result<bool, RunFault>
        requires tree { tree.now ≡ self.old.machine.tree }
        requires units { U.tree units.now ≡ tree.now }
        requires job { MayStep (U.leaf units.now) (K.observed out.old) self.old timer.old }
        ensures steps { StepsInTime (U.leaf units.now)
            (change (K.observed out.old) (K.observed out.new))
            self.old self.new timer.old timer.new result }
        ensures wants { IfErr result (Wants U.may_want) }
    {
        let Some(process) = timer.next() else {
            return Ok(false);
        };
        let outcome = self.fire(alloc, tree, units, process)?;
        timer.fired(process, &self.machine);
        self.emitted = write_emitted(alloc, outcome, self.emitted, out)?;
        Ok(true)
    }

    /// Fires all that is due, in turn, and requests an item before each firing where the machine
    /// wants one.
    fn run_in_time<U: Units, S: Source, K: Sink>(
        &mut self,
        alloc: Global,
        tree: &Tree,
        units: &U,
        timer: &mut Timer,
        input: &mut S,
        out: &mut K,
    ) -> Result<(), RunFault>
        requires tree { tree.now ≡ self.old.machine.tree }
        requires units { U.tree units.now ≡ tree.now }
        requires job { IsInTime (U.leaf units.now)
            (streams (S.observed input.old) (K.observed out.old))
            self.old timer.old }
        ensures runs { RunsInTime (U.leaf units.now)
            (streams (S.observed input.old) (K.observed out.old))
            (streams (S.observed input.new) (K.observed out.new))
            self.old self.new timer.old timer.new result }
        ensures wants { IfErr result (Wants U.may_want) }
    {
        'firings: loop {
            self.feed_in_time(alloc, timer, input)?;
            if !self.step_in_time(alloc, tree, units, timer, out)? {
                return Ok(());
            }
        }
    }
}

/// A run in virtual time that came to its end.
#[derive(Drop)]
pub struct TimedRan {
    pub ran: Ran,
    /// The timer when all had fired: its moment is that of the last firing.
    pub timer: Timer,
}

impl<'t> Execution<'t> {
    /// Fires all that is due, and says how the run ended.
    fn complete_in_time<U: Units, S: Source, K: Sink>(
        mut self,
        alloc: Global,
        tree: &Tree,
        units: &U,
        timer: Timer,
        input: &mut S,
        out: &mut K,
    ) -> Result<TimedRan, RunFault>
        requires tree { tree.now ≡ self.machine.tree }
        requires units { U.tree units.now ≡ tree.now }
        requires job { IsInTime (U.leaf units.now)
            (streams (S.observed input.old) (K.observed out.old))
            self timer }
        ensures ends { CompletesInTime (U.leaf units.now) tree.now
            (streams (S.observed input.old) (K.observed out.old))
            (streams (S.observed input.new) (K.observed out.new))
            self.entry timer result }
        ensures wants { IfErr result (Wants U.may_want) }
    {
        let mut timer = timer;
        self.run_in_time(alloc, tree, units, &mut timer, input, out)?;
        let ran = self.into_ran(alloc, tree)?;
        Ok(TimedRan { ran, timer })
    }
}

/// Runs a network on the items of the input in virtual time, and writes each value as it comes out.
///
/// Each firing costs its process a price, by the costs of the tree, and the process that is due
/// first fires next. The run is that under the picks so made, as if they had been recorded.
pub fn run_in_time<U: Units, S: Source, K: Sink>(
    alloc: Global,
    plan: Plan<'_, U>,
    costs: &Costs,
    keeping: Keeping,
    input: &mut S,
    out: &mut K,
) -> Result<TimedRan, RunFault>
    requires units { U.tree plan.units.now ≡ plan.tree.now }
    requires sound { IsSound (network plan.tree.now (U.leaf plan.units.now) plan.net plan.firings) }
    requires width { plan.width ≡ (node_at plan.tree.now 0).ins }
    requires wide { 1 ≤ plan.width }
    requires fits { plan.firings * most_of_input < 2 ^ 63 }
    requires small { HasSmallPrices plan.tree.now costs.now plan.net }
    ensures does { IsTimedEnd (timed_job (network plan.entry.tree.now (U.leaf plan.entry.units.now)
        plan.entry.net plan.entry.firings) keeping
        (streams (S.observed input.old) (K.observed out.old)))
        (prices_of plan.entry.tree.now costs.now plan.entry.net)
        (streams (S.observed input.new) (K.observed out.new))
        result }
    ensures wants { IfErr result (Wants U.may_want) }
{
    laws();
    a_stream_gives_its_items();
    let execution = Execution::start(
        alloc,
        plan.tree,
        plan.net,
        plan.firings,
        plan.width,
        Schedule::Recorded(List::new(alloc)),
        keeping,
    )?;
    let machine = &execution.machine;
    let timer = Timer::start(alloc, plan.tree, costs, machine.net(), machine)?;
    small_prices_are_counted_in_full();
    execution.complete_in_time(alloc, plan.tree, plan.units, timer, input, out)
}
