// The rows of the table: when a process of each kind can fire, and what its firing does.

mod collect;
mod emit;
mod fold_gather;
mod gather;
mod head;
mod join;
mod pieces;
mod run;
mod scatter;
mod sink;
mod source;
mod split;
mod tail;

ghost use Rattle.std.specs.Prelude.{◌≡◌, ◌≢◌, ◌<◌, ◌^◌, length, Some, None, true, OnErr};
ghost use Rattle.p3l_base.specs.Memory.{IfGivenOr};
ghost use Rattle.p3l_firing.specs.Process.{kind_at};
ghost use Rattle.p3l_net.specs.Machine.{IsSound, may_want_memory};
ghost use Rattle.p3l_net.specs.Steps.{Done, HasEnds, ready_at};

use crate::ends::Sides;
use crate::store::Store;
use crate::touched::Touched;
use p3l_base::NoMemory;
use p3l_firing::ProcKind;
use p3l_skel::Units;
use std::alloc::Global;

impl<'t> Store<'t> {
    /// Returns true exactly if process `p` is ready, as long as no trap was emitted. Most
    /// processes are runs, so these are looked at without a call.
    #[inline(always)]
    pub(crate) fn is_ready(&self, sides: &Sides, p: u32) -> bool
        requires sound { IsSound self.now }
        requires sides { HasEnds self.now.net sides.now }
        requires there { p < length self.now.net.procs }
        ensures { result ≡ ready_at self.now p }
    {
        let descriptor = sides.descriptor(p);
        if descriptor.kind == ProcKind::Run {
            return self.can_run(p, descriptor);
        }
        self.is_other_ready(p)
    }

    // Returns true exactly if a process that isn't a run is ready.
    #[inline(never)]
    fn is_other_ready(&self, p: u32) -> bool
        requires sound { IsSound self.now }
        requires there { p < length self.now.net.procs }
        requires other { kind_at self.now.net p ≢ Some ProcKind.Run }
        ensures { result ≡ ready_at self.now p }
    {
        let process = self.process(p);
        match process.kind {
            ProcKind::Source => self.can_source(p, process),
            ProcKind::Sink => self.can_sink(p, process),
            ProcKind::Run => unreachable!(),
            ProcKind::Emit => self.can_emit(p, process),
            ProcKind::Collect => self.can_collect(p, process),
            ProcKind::Scatter => self.can_scatter(p, process),
            ProcKind::Gather => self.can_gather(p, process),
            ProcKind::Split => self.can_split(p, process),
            ProcKind::FoldGather => self.can_fold_gather(p, process),
            ProcKind::Join => self.can_join(p, process),
            ProcKind::Head => self.can_head(p, process),
            ProcKind::Tail => self.can_tail(p, process),
        }
    }

    /// Fires process `p`, which is neither a sink nor a run: the step of its kind's row. Returns
    /// the channels touched.
    pub(crate) fn fire_other<U: Units>(
        &mut self,
        alloc: Global,
        units: &U,
        p: u32,
    ) -> Result<Touched, NoMemory>
        requires sound { IsSound self.old }
        requires there { p < length self.old.net.procs }
        requires ready { ready_at self.old p ≡ true }
        requires count { self.old.fired < 2 ^ 63 }
        requires units { U.tree units.now ≡ self.old.tree }
        requires no_sink { kind_at self.old.net p ≢ Some ProcKind.Sink }
        requires no_run { kind_at self.old.net p ≢ Some ProcKind.Run }
        ensures done { IfGivenOr result (λ touched. Done (U.leaf units.now)
            self.old self.new p touched None) (U.may_want ≡ true) }
        ensures err { OnErr result (self.new ≡ self.old) }
        ensures memory { OnErr result (may_want_memory self.old p ≡ true) }
    {
        match self.process(p).kind {
            ProcKind::Source => Ok(self.fire_source(p)),
            ProcKind::Sink => unreachable!(),
            ProcKind::Run => unreachable!(),
            ProcKind::Emit => Ok(self.fire_emit(p)),
            ProcKind::Collect => Ok(self.fire_collect(p)),
            ProcKind::Scatter => self.fire_scatter(alloc, p),
            ProcKind::Gather => self.fire_gather(alloc, p),
            ProcKind::Split => self.fire_split(alloc, p),
            ProcKind::FoldGather => self.fire_fold_gather(alloc, units, p),
            ProcKind::Join => self.fire_join(alloc, units, p),
            ProcKind::Head => Ok(self.fire_head(p)),
            ProcKind::Tail => self.fire_tail(alloc, units, p),
        }
    }
}
