// A run under way, pick by pick.

ghost use Rattle.std.specs.Prelude.{◌≡◌, ◌≢◌, ◌<◌, ◌≤◌, ◌+◌, ◌^◌, [], None, Some, length, IfOk, IsNone, IsSome, IsTrue, OnErr, OnOk, true, IfErr};
ghost use Rattle.p3l_base.specs.Memory.{IfGiven, IfGivenOr, OnGiven, OnGivenOr, Refused};
ghost use Rattle.p3l_io.specs.Change.{change};
ghost use Rattle.p3l_firing.specs.Process.{kind_at};
ghost use Rattle.p3l_net.specs.Machine.{can_step, ready_list};
ghost use Rattle.p3l_net.specs.Steps.{OthersStay};
ghost use Rattle.p3l_firing.specs.Typed.{IsTyped};
ghost use Rattle.p3l_sched.specs.Picker.{HasPlace, HasProcesses};
ghost use Rattle.p3l_skel.specs.Tree.{node_at};
ghost use Rattle.p3l_run.specs.Feed.{IsOpenOrEnded, ending_of};
ghost use Rattle.p3l_run.specs.Replay.{FillsOn};
ghost use Rattle.p3l_run.specs.Streams.{streams};
ghost use Rattle.p3l_run.specs.Wants.{Wants};
ghost use Rattle.p3l_run.specs.Execution.{Completes, FeedsOn, FiresOn, HasFired, IsFinish, IsInRange, IsUnderWay, MayPick, RunsOut, StepsOn, after_idle, begun_on, started, stats_at};

use crate::end::RunEnd;
use crate::fault::RunFault;
use crate::feed::{INPUT_LIMIT, feed};
use crate::finish::{finish_with, stats_of};
use crate::keeping::{Keeping, keep, no_lines};
use crate::run::Ran;
use crate::write::{Emitted, write_emitted};
use p3l_base::{List, NoMemory, Outcome};
use p3l_firing::{Net, ProcKind};
use p3l_io::{Sink, Source};
use p3l_net::Machine;
use p3l_sched::{Picker, Schedule};
use p3l_skel::{Tree, Units};
use p3l_stream::Lines;
use p3l_trace::TraceLine;
use std::alloc::Global;

/// A run under way.
#[derive(Drop)]
pub(crate) struct Execution<'t> {
    /// The most firings of the net for one item.
    pub(crate) firings: u64,
    pub(crate) machine: Machine<'t>,
    /// The count of outcomes that were emitted before the run began.
    pub(crate) earlier: u64,
    pub(crate) stream: Lines,
    pub(crate) picker: Picker,
    pub(crate) emitted: Emitted,
    /// The count of idle picks.
    pub(crate) idle: u64,
    /// A line for each pick, where lines are kept.
    pub(crate) kept: Option<List<TraceLine>>,
}

impl<'t> Execution<'t> {
    /// A run in which nothing was requested and nothing picked.
    pub(crate) fn start(
        alloc: Global,
        tree: &'t Tree,
        net: Net,
        firings: u64,
        width: u32,
        schedule: Schedule,
        keeping: Keeping,
    ) -> Result<Execution<'t>, NoMemory>
        requires typed { IsTyped tree.now net }
        requires wide { 1 ≤ width }
        ensures { IfGiven result (λ execution. execution
            ≡ started tree.now net firings width schedule keeping) }
    {
        let machine = Machine::start(alloc, tree, net)?;
        Execution::on(alloc, machine, 0, firings, width, schedule, keeping)
    }

    /// A run on a machine, which emitted this number of outcomes before the run began, in which
    /// nothing was requested and nothing picked.
    pub(crate) fn on(
        alloc: Global,
        machine: Machine<'t>,
        earlier: u64,
        firings: u64,
        width: u32,
        schedule: Schedule,
        keeping: Keeping,
    ) -> Result<Execution<'t>, NoMemory>
        requires { 1 ≤ width }
        ensures { IfGiven result (λ execution. execution
            ≡ begun_on machine.entry earlier firings width schedule keeping) }
    {
        Ok(Execution {
            firings,
            machine,
            earlier,
            stream: Lines::new(alloc, width, INPUT_LIMIT)?,
            picker: Picker::new(schedule),
            emitted: Emitted { trap: None, sum: 0 },
            idle: 0,
            kept: no_lines(alloc, keeping),
        })
    }

    /// Makes all picks that are left, and says how the run ended; the modules of a tree name its
    /// trap.
    pub(crate) fn complete<U: Units, S: Source, K: Sink>(
        mut self,
        alloc: Global,
        tree: &Tree,
        named: &Tree,
        units: &U,
        input: &mut S,
        out: &mut K,
    ) -> Result<Ran, RunFault>
        requires tree { tree.now ≡ self.machine.tree }
        requires units { U.tree units.now ≡ tree.now }
        requires job { IsUnderWay (U.leaf units.now)
            (streams (S.observed input.old) (K.observed out.old)) self }
        ensures ends { Completes (U.leaf units.now) named.now
            (streams (S.observed input.old) (K.observed out.old))
            (streams (S.observed input.new) (K.observed out.new)) self.entry result }
        ensures wants { IfErr result (Wants U.may_want) }
    {
        self.run_out(alloc, tree, units, input, out)?;
        Ok(self.into_ran(alloc, named)?)
    }

    /// Makes one pick after another until none is left, and requests an item before each where the
    /// machine wants one.
    fn run_out<U: Units, S: Source, K: Sink>(
        &mut self,
        alloc: Global,
        tree: &Tree,
        units: &U,
        input: &mut S,
        out: &mut K,
    ) -> Result<(), RunFault>
        requires tree { tree.now ≡ self.old.machine.tree }
        requires units { U.tree units.now ≡ tree.now }
        requires job { IsUnderWay (U.leaf units.now)
            (streams (S.observed input.old) (K.observed out.old)) self.old }
        ensures runs { RunsOut (U.leaf units.now)
            (streams (S.observed input.old) (K.observed out.old))
            (streams (S.observed input.new) (K.observed out.new)) self.old self.new result }
        ensures wants { IfErr result (Wants U.may_want) }
    {
        'picks: loop {
            self.feed(alloc, input)?;
            if !self.step(alloc, tree, units, out)? {
                return Ok(());
            }
        }
    }

    /// Requests the next item of the stream, where the machine wants one.
    #[inline(always)]
    pub(crate) fn feed<S: Source>(&mut self, alloc: Global, input: &mut S) -> Result<(), NoMemory>
        requires wide { self.old.stream.words ≡ (node_at self.old.machine.tree 0).ins }
        requires open { IsOpenOrEnded self.old.stream }
        ensures feeds { FeedsOn (change (S.observed input.old) (S.observed input.new))
            self.old self.new result }
        ensures fills { FillsOn (change (S.observed input.old) (S.observed input.new))
            self.old self.new result }
        ensures wants { OnErr result Refused }
    {
        feed(alloc, &mut self.machine, &mut self.stream, input)
    }

    /// Makes the next pick and does what it leads to, and says whether one was left: where the
    /// process can fire it does, and what it emits is written; else the pick is idle.
    #[inline(always)]
    fn step<U: Units, K: Sink>(
        &mut self,
        alloc: Global,
        tree: &Tree,
        units: &U,
        out: &mut K,
    ) -> Result<bool, RunFault>
        requires tree { tree.now ≡ self.old.machine.tree }
        requires units { U.tree units.now ≡ tree.now }
        requires range { IsInRange self.old }
        ensures steps { StepsOn (U.leaf units.now)
            (change (K.observed out.old) (K.observed out.new)) self.old self.new result }
        ensures wants { IfErr result (Wants U.may_want) }
    {
        let Some(process) = self.pick() else {
            return Ok(false);
        };
        if !self.machine.can_step(process) {
            self.pass(process)?;
            return Ok(true);
        }
        if self.machine.kind(process) == ProcKind::Sink {
            self.fire_sink(alloc, tree, units, process, out)?;
        } else {
            self.fire_within(alloc, tree, units, process)?;
        }
        Ok(true)
    }

    /// Fires the sink, keeps the line of that, and writes what it emits.
    #[inline(never)]
    fn fire_sink<U: Units, K: Sink>(
        &mut self,
        alloc: Global,
        tree: &Tree,
        units: &U,
        process: u32,
        out: &mut K,
    ) -> Result<(), RunFault>
        requires there { process < length self.old.machine.net.procs }
        requires can { IsTrue (can_step self.old.machine process) }
        requires count { self.old.machine.fired < 2 ^ 63 }
        requires tree { tree.now ≡ self.old.machine.tree }
        requires units { U.tree units.now ≡ tree.now }
        ensures fires { FiresOn (U.leaf units.now) process
            (change (K.observed out.old) (K.observed out.new)) self.old self.new result }
        ensures wants { IfErr result (Wants U.may_want) }
    {
        let outcome = self.fire(alloc, tree, units, process)?;
        self.emitted = write_emitted(alloc, outcome, self.emitted, out)?;
        Ok(())
    }

    /// Fires a process that isn't the sink, so that nothing is emitted, and keeps the line of that.
    #[inline(always)]
    fn fire_within<U: Units>(
        &mut self,
        alloc: Global,
        tree: &Tree,
        units: &U,
        process: u32,
    ) -> Result<(), NoMemory>
        requires there { process < length self.old.machine.net.procs }
        requires can { IsTrue (can_step self.old.machine process) }
        requires count { self.old.machine.fired < 2 ^ 63 }
        requires tree { tree.now ≡ self.old.machine.tree }
        requires units { U.tree units.now ≡ tree.now }
        requires within { kind_at self.old.machine.net process ≢ Some ProcKind.Sink }
        ensures { OnGivenOr result (HasFired (U.leaf units.now) process self.old self.new None)
            (U.may_want ≡ true) }
    {
        let kind = self.machine.kind(process);
        self.machine.fire_within(alloc, tree, units, process)?;
        keep(&mut self.kept, process, Some(kind))
    }

    /// The next pick, and none where no process can fire or the recorded picks are ended.
    #[inline(always)]
    fn pick(&mut self) -> Option<u32>
        requires place { HasPlace (length self.old.machine.net.procs) self.old.picker }
        requires named { HasProcesses (length self.old.machine.net.procs) self.old.picker }
        ensures { MayPick self.old self.new result }
    {
        if self.machine.ready() == 0 {
            return None;
        }
        self.picker.pick(&self.machine)
    }

    /// Counts an idle pick of a process, and keeps its line.
    pub(crate) fn pass(&mut self, process: u32) -> Result<(), NoMemory>
        requires { self.old.idle < 2 ^ 63 }
        ensures { OnGiven result (self.new ≡ after_idle process self.old) }
    {
        self.idle += 1;
        keep(&mut self.kept, process, None)
    }

    /// Fires a process, and keeps the line of that; gives what it emitted.
    pub(crate) fn fire<U: Units>(
        &mut self,
        alloc: Global,
        tree: &Tree,
        units: &U,
        process: u32,
    ) -> Result<Option<Outcome>, NoMemory>
        requires there { process < length self.old.machine.net.procs }
        requires can { IsTrue (can_step self.old.machine process) }
        requires count { self.old.machine.fired < 2 ^ 63 }
        requires tree { tree.now ≡ self.old.machine.tree }
        requires units { U.tree units.now ≡ tree.now }
        ensures fired { IfGivenOr result (HasFired (U.leaf units.now) process self.old self.new)
            (U.may_want ≡ true) }
        ensures others { OnOk result (OthersStay self.old.machine self.new.machine process) }
        ensures item { OnOk result (process ≢ 0
            → self.new.machine.inbox ≡ self.old.machine.inbox) }
    {
        let fired = self.machine.fire(alloc, tree, units, process)?;
        keep(&mut self.kept, process, Some(fired.kind))?;
        Ok(fired.emitted)
    }

    /// The end of the run, where no pick is left, with its numbers and the lines that were kept.
    /// The modules of a tree name its trap.
    pub(crate) fn into_ran(self, alloc: Global, named: &Tree) -> Result<Ran, NoMemory>
        requires fits { self.earlier + self.machine.emitted < 2 ^ 64 }
        requires ended { ready_list self.machine ≡ [] → IsNone self.emitted.trap
            → IsSome (ending_of self.stream) }
        ensures finish { IfGiven result (λ ran. IsFinish named.now self.entry ran.finish) }
        ensures stats { IfOk result (λ ran. ran.stats ≡ stats_at self.entry) }
        ensures lines { IfOk result (λ ran. ran.lines ≡ self.entry.kept) }
        ensures sum { IfOk result (λ ran. ran.sum ≡ self.entry.emitted.sum) }
    {
        let finish = self.finish(alloc, named)?;
        let stats = stats_of(&self.machine, self.firings, self.idle);
        Ok(Ran {
            finish,
            stats,
            lines: self.kept,
            sum: self.emitted.sum,
        })
    }

    /// The end of the run, where no pick is left. The modules of a tree name its trap.
    fn finish(&self, alloc: Global, named: &Tree) -> Result<RunEnd, NoMemory>
        requires fits { self.now.earlier + self.now.machine.emitted < 2 ^ 64 }
        requires ended { ready_list self.now.machine ≡ [] → IsNone self.now.emitted.trap
            → IsSome (ending_of self.now.stream) }
        ensures { IfGiven result (IsFinish named.now self.now) }
    {
        if self.machine.ready() == 0 {
            return finish_with(
                alloc,
                named,
                self.emitted.trap,
                self.earlier + self.machine.emitted(),
                self.stream.ending(),
            );
        }
        Ok(RunEnd::Stopped {
            fired: self.machine.fired(),
            idle: self.idle,
        })
    }
}
