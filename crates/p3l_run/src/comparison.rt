// A trace compared with a machine, line by line.

ghost use Rattle.std.specs.Prelude.{◌≡◌, ◌<◌, ◌≤◌, ◌^◌, length, true};
ghost use Rattle.p3l_base.specs.Memory.{IfGiven, IfGivenOr, OnGiven, OnGivenOr};
ghost use Rattle.p3l_io.specs.Change.{change};
ghost use Rattle.p3l_firing.specs.Typed.{IsTyped};
ghost use Rattle.p3l_skel.specs.Tree.{node_at};
ghost use Rattle.p3l_run.specs.Comparison.{FeedsOn, IsUnderWay, PassesOn, Steps, started};
ghost use Rattle.p3l_run.specs.Feed.{IsOpenOrEnded};

use crate::feed::{INPUT_LIMIT, feed};
use p3l_base::NoMemory;
use p3l_io::Source;
use p3l_net::{Machine, Net};
use p3l_skel::{Tree, Units};
use p3l_stream::Lines;
use p3l_trace::{TraceLine, agrees};
use std::alloc::Global;

/// A comparison of a trace with a machine that has made the picks of the lines that were passed.
#[derive(Drop)]
pub(crate) struct Comparison<'t> {
    machine: Machine<'t>,
    pub(crate) stream: Lines,
}

impl<'t> Comparison<'t> {
    /// A comparison in which nothing was requested and no line passed.
    pub(crate) fn start(
        alloc: Global,
        tree: &'t Tree,
        net: Net,
        width: u32,
    ) -> Result<Comparison<'t>, NoMemory>
        requires typed { IsTyped tree.now net }
        requires wide { 1 ≤ width }
        ensures { IfGiven result (λ made. made ≡ started tree.now net width) }
    {
        Ok(Comparison {
            machine: Machine::start(alloc, tree, net)?,
            stream: Lines::new(alloc, width, INPUT_LIMIT)?,
        })
    }

    /// Says whether the next line agrees, and passes it where it does: requests an item where the
    /// machine wants one, compares the line with the machine, and makes its pick.
    pub(crate) fn pass<U: Units, S: Source>(
        &mut self,
        alloc: Global,
        tree: &Tree,
        units: &U,
        line: &TraceLine,
        input: &mut S,
    ) -> Result<bool, NoMemory>
        requires tree { tree.now ≡ self.old.machine.tree }
        requires units { U.tree units.now ≡ tree.now }
        requires network { IsUnderWay (U.leaf units.now) (S.observed input.old) self.old }
        ensures { IfGivenOr result (PassesOn (U.leaf units.now)
            line.now (change (S.observed input.old) (S.observed input.new)) self.old self.new)
            (U.may_want ≡ true) }
    {
        self.feed(alloc, input)?;
        if !agrees(line, &self.machine, self.machine.net()) {
            return Ok(false);
        }
        self.step(alloc, tree, units, line.pick)?;
        Ok(true)
    }

    /// Requests the next item of the stream, where the machine wants one.
    fn feed<S: Source>(&mut self, alloc: Global, input: &mut S) -> Result<(), NoMemory>
        requires wide { self.old.stream.words ≡ (node_at self.old.machine.tree 0).ins }
        requires open { IsOpenOrEnded self.old.stream }
        ensures { OnGiven result (FeedsOn (change (S.observed input.old) (S.observed input.new))
            self.old self.new) }
    {
        feed(alloc, &mut self.machine, &mut self.stream, input)
    }

    /// Makes a pick: the process fires, if it can.
    fn step<U: Units>(
        &mut self,
        alloc: Global,
        tree: &Tree,
        units: &U,
        process: u32,
    ) -> Result<(), NoMemory>
        requires there { process < length self.old.machine.net.procs }
        requires count { self.old.machine.fired < 2 ^ 63 }
        requires tree { tree.now ≡ self.old.machine.tree }
        requires units { U.tree units.now ≡ tree.now }
        ensures { OnGivenOr result (Steps (U.leaf units.now) process self.old self.new)
            (U.may_want ≡ true) }
    {
        if self.machine.can_step(process) {
            self.machine.fire(alloc, tree, units, process)?;
        }
        Ok(())
    }
}
