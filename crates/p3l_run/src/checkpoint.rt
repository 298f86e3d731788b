// Runs that end at a checkpoint, where the state of the network is saved.

ghost use Rattle.std.specs.Prelude.{◌≡◌, ◌<◌, ◌≤◌, ◌+◌, ◌*◌, ◌^◌, false, length, IfErr};
ghost use Rattle.p3l_base.specs.Memory.{IfGiven};
ghost use Rattle.std.specs.Option.{option_to_list};
ghost use Rattle.p3l_firing.specs.Shot.{IsCountable};
ghost use Rattle.p3l_io.specs.Change.{change};
ghost use Rattle.p3l_net.specs.Shot.{shot_of};
ghost use Rattle.p3l_sched.specs.Picker.{NamesProcesses};
ghost use Rattle.p3l_sched.specs.declared.schedule.Schedule.TheVariants as schedule;
ghost use Rattle.p3l_skel.specs.Tree.{node_at};
ghost use Rattle.p3l_run.specs.Checkpoint.{IsCheckpointEnd};
ghost use Rattle.p3l_run.specs.Feed.{most_of_input};
ghost use Rattle.p3l_run.specs.Network.{IsSound, network};
ghost use Rattle.p3l_run.specs.Replay.{ComesTo, HaltsOn, IsHalted, IsToReplay, MakesOn, Saves, cut_of};
ghost use Rattle.p3l_run.specs.Streams.{streams};
ghost use Rattle.p3l_run.specs.Wants.{Wants};
ghost use Rattle.p3l_run.specs.Write.{WriteCause};

use crate::end::RunEnd;
use crate::execution::Execution;
use crate::fault::RunFault;
use crate::finish::finish_with;
use crate::keeping::Keeping;
use crate::laws::laws;
use crate::plan::Plan;
use crate::write::write_emitted;
use p3l_base::{List, NoMemory};
use p3l_io::{Sink, Source};
use p3l_net::Shot;
use p3l_sched::Schedule;
use p3l_skel::{Tree, Units};
use p3l_stream::Ending;
use p3l_stream::laws::a_stream_gives_its_items;
use std::alloc::Global;

/// The state of a network that was saved, with the numbers of the run that led there.
#[derive(Debug, Drop)]
pub struct Checkpoint {
    pub shot: Shot,
    /// The count of items that the stream gave.
    pub items: u64,
    /// The count of recorded picks that were made.
    pub picks: u64,
}

/// The end of a run to a checkpoint.
#[derive(Debug, Drop)]
pub enum CheckpointEnd {
    /// The picks were ended, or the stream had no item for the next of them: the state was saved.
    Saved(Checkpoint),
    /// A trap was emitted, or the stream ended otherwise: nothing was saved.
    Ended(RunEnd),
}

impl<'t> Execution<'t> {
    /// Makes a pick of a process: where it can fire it does, and what it emits is written; else the
    /// pick is idle.
    fn make<U: Units, K: Sink>(
        &mut self,
        alloc: Global,
        tree: &Tree,
        units: &U,
        process: u32,
        out: &mut K,
    ) -> Result<(), RunFault>
        requires there { process < length self.old.machine.net.procs }
        requires few { self.old.machine.fired + self.old.idle < 2 ^ 63 }
        requires tree { tree.now ≡ self.old.machine.tree }
        requires units { U.tree units.now ≡ tree.now }
        ensures makes { MakesOn (U.leaf units.now) process
            (change (K.observed out.old) (K.observed out.new)) self.old self.new result }
        ensures wants { IfErr result (Wants U.may_want) }
    {
        if !self.machine.can_step(process) {
            self.pass(process)?;
            return Ok(());
        }
        let outcome = self.fire(alloc, tree, units, process)?;
        self.emitted = write_emitted(alloc, outcome, self.emitted, out)?;
        Ok(())
    }

    /// Makes one pick after another until a trap was emitted, the stream is ended or no pick is
    /// left, and requests an item before each where the inbox is empty.
    fn replay<U: Units, S: Source, K: Sink>(
        &mut self,
        alloc: Global,
        tree: &Tree,
        units: &U,
        picks: &[u32],
        input: &mut S,
        out: &mut K,
    ) -> Result<(), RunFault>
        requires tree { tree.now ≡ self.old.machine.tree }
        requires units { U.tree units.now ≡ tree.now }
        requires replay { IsToReplay (U.leaf units.now) picks.now
            (streams (S.observed input.old) (K.observed out.old))
            self.old }
        ensures halts { HaltsOn (U.leaf units.now) picks.now
            (streams (S.observed input.old) (K.observed out.old))
            (streams (S.observed input.new) (K.observed out.new))
            self.old self.new result }
        ensures wants { IfErr result (Wants U.may_want) }
    {
        for process in picks {
            if self.emitted.trap.is_some() {
                return Ok(());
            }
            self.feed(alloc, input)?;
            if self.stream.ending().is_some() {
                return Ok(());
            }
            self.make(alloc, tree, units, *process, out)?;
        }
        Ok(())
    }

    /// The count of items that the stream gave: those that were sent, and the one in the inbox.
    fn items(&self) -> u64
        requires { self.now.machine.sent < 2 ^ 63 }
        ensures { result ≡ self.now.machine.sent
            + length (option_to_list self.now.machine.inbox) }
    {
        if self.machine.wants_item() {
            self.machine.sent()
        } else {
            self.machine.sent() + 1
        }
    }

    /// Saves the state, with the numbers of items and picks.
    fn save(&self, alloc: Global) -> Result<Checkpoint, NoMemory>
        requires untrapped { self.now.machine.trapped ≡ false }
        requires sent { self.now.machine.sent < 2 ^ 63 }
        requires countable { IsCountable (shot_of self.now.machine) }
        requires few { self.now.machine.fired + self.now.idle < 2 ^ 63 }
        ensures { IfGiven result (Saves self.now) }
    {
        let shot = self.machine.save(alloc)?;
        Ok(Checkpoint {
            shot,
            items: self.items(),
            picks: self.machine.fired() + self.idle,
        })
    }

    /// The end of a run that goes no further: its trap, the ending of its stream, or its saved
    /// state. The modules of a tree name its trap.
    fn into_checkpoint(self, alloc: Global, named: &Tree) -> Result<CheckpointEnd, NoMemory>
        requires { IsHalted self }
        ensures { IfGiven result (ComesTo named.now self.entry) }
    {
        let close = self.stream.ending();
        if self.emitted.trap.is_some() {
            let number = self.machine.emitted();
            let finish = finish_with(alloc, named, self.emitted.trap, number, close)?;
            return Ok(CheckpointEnd::Ended(finish));
        }
        if let Some(ending) = cut_off(close) {
            return Ok(CheckpointEnd::Ended(RunEnd::Stream(ending)));
        }
        let saved = self.save(alloc)?;
        Ok(CheckpointEnd::Saved(saved))
    }
}

/// The ending of a stream, if it ended before the input did.
fn cut_off(close: Option<Ending>) -> Option<Ending>
    ensures { result ≡ cut_of close }
{
    match close {
        None => None,
        Some(Ending::End) => None,
        Some(ending) => Some(ending),
    }
}

/// Runs a network on the items of the input under recorded picks, writes each value as it comes
/// out, and saves the state that they lead to.
///
/// Before each pick an empty inbox is filled from the stream, so that the source has an item at
/// each; a pick that can't fire is idle. The run ends where the picks are ended, where the stream
/// ends in place of an item, or where a trap was emitted.
pub fn run_to_checkpoint<U: Units, S: Source, K: Sink>(
    alloc: Global,
    plan: Plan<'_, U>,
    picks: List<u32>,
    input: &mut S,
    out: &mut K,
) -> Result<CheckpointEnd, RunFault>
    requires units { U.tree plan.units.now ≡ plan.tree.now }
    requires sound { IsSound (network plan.tree.now (U.leaf plan.units.now) plan.net plan.firings) }
    requires width { plan.width ≡ (node_at plan.tree.now 0).ins }
    requires wide { 1 ≤ plan.width }
    requires fits { plan.firings * most_of_input < 2 ^ 63 }
    requires named { NamesProcesses (length plan.net.procs) (schedule.Recorded picks) }
    requires few { length picks < 2 ^ 63 }
    ensures ends { IsCheckpointEnd (network plan.entry.tree.now (U.leaf plan.entry.units.now)
        plan.entry.net plan.entry.firings) picks
        (change (S.observed input.old) (S.observed input.new))
        (change (K.observed out.old) (K.observed out.new)) result }
    ensures output { WriteCause (change (K.observed out.old) (K.observed out.new)) result }
    ensures wants { IfErr result (Wants U.may_want) }
{
    laws();
    a_stream_gives_its_items();
    let mut execution = Execution::start(
        alloc,
        plan.tree,
        plan.net,
        plan.firings,
        plan.width,
        Schedule::Recorded(List::new(alloc)),
        Keeping::Nothing,
    )?;
    execution.replay(alloc, plan.tree, plan.units, picks.as_slice(), input, out)?;
    Ok(execution.into_checkpoint(alloc, plan.tree)?)
}
