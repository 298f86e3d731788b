// The machine: a net that fires, one process at a time.

ghost use Rattle.std.specs.Prelude.{◌≡◌, ◌≢◌, ◌<◌, length, None, IsTrue, ◌↔◌, IfOk, OnOk, OnErr, Some, [], ◌^◌, ℕ, List, IsSome, IfSome, IfNone, true, false, slice_get, find};
ghost use Rattle.p3l_base.specs.Memory.{IfGiven, IfGivenOr, OnGiven, OnGivenOr};
ghost use Rattle.p3l_ready.specs.Flags.{in_turn};
ghost use Rattle.p3l_firing.specs.Shot.{IsCountable};
ghost use Rattle.p3l_firing.specs.Fire.{can_fire};
ghost use Rattle.p3l_firing.specs.State.{first_state};
ghost use Rattle.p3l_firing.specs.RoundRobin.{next_of};
ghost use Rattle.p3l_firing.specs.Typed.{IsTyped};
ghost use Rattle.p3l_firing.specs.Process.{kind_at};
ghost use Rattle.p3l_net.specs.Machine.{can_step, started, state_of, HasEmitted, Fires, may_want_memory, ready_list};
ghost use Rattle.p3l_net.specs.Steps.{CanFire, FiresLocally, IsReader, IsWriter, OthersStay, ready_at};
ghost use Rattle.p3l_net.specs.Shot.{CanRestore, restored, shot_of};
ghost use Rattle.p3l_skel.specs.Tree.{node_at};

use crate::ends::Sides;
use crate::refresh::{all_ready, refresh, refresh_run};
use crate::store::Store;
use p3l_base::{NoMemory, Outcome, Words};
use p3l_firing::{Fired, Net, ProcKind, Shot};
use p3l_ready::ReadySet;
use p3l_skel::{Tree, Units};
use std::alloc::Global;
use std::marker::Model;

/// A net with its tokens, which fires one process at a time.
///
/// Contracts see the tree and the net, the queue of each channel, what each process keeps, the item
/// in the inbox, the numbers of firings, of items sent and of outcomes emitted, and whether a trap
/// was emitted.
#[derive(Drop)]
pub struct Machine<'t> {
    store: Store<'t>,
    ready: ReadySet,
    sides: Sides,
}

impl<'t> Model for Machine<'t> {
    ghost use Rattle.p3l_net.specs.Machine.{Seen};
    ghost use Rattle.p3l_net.specs.Steps.{IsKept};

    ghost Value = { Seen };

    ghost view = { λ it. it.store };

    ghost invariant = { λ it. IsKept it.store it.ready it.sides };
}

impl<'t> Machine<'t> {
    /// A machine in which nothing has fired. All channels are empty but for their credits.
    pub fn start(alloc: Global, tree: &'t Tree, net: Net) -> Result<Machine<'t>, NoMemory>
        requires { IsTyped tree.now net }
        ensures started { IfGiven result (λ machine. machine ≡ started tree.now net) }
        ensures state { IfOk result (λ machine. state_of machine [] ≡ first_state net []) }
    {
        let sides = Sides::of(alloc, &net)?;
        let store = Store::start(alloc, tree, net)?;
        let ready = all_ready(alloc, &store, &sides)?;
        Ok(Machine {
            store,
            ready,
            sides,
        })
    }

    /// The machine in the state that was saved, in which nothing has fired.
    pub fn restore(
        alloc: Global,
        tree: &'t Tree,
        net: Net,
        shot: Shot,
    ) -> Result<Machine<'t>, NoMemory>
        requires { CanRestore tree.now net shot }
        ensures { IfGiven result (λ machine. machine ≡ restored tree.now net shot) }
    {
        let sides = Sides::of(alloc, &net)?;
        let store = Store::restore(alloc, tree, net, shot)?;
        let ready = all_ready(alloc, &store, &sides)?;
        Ok(Machine {
            store,
            ready,
            sides,
        })
    }

    /// Saves the state.
    pub fn save(&self, alloc: Global) -> Result<Shot, NoMemory>
        requires { self.now.trapped ≡ false }
        ensures saved { IfGiven result (λ shot. shot ≡ shot_of self.now) }
        ensures back { IfOk result (λ shot. restored self.now.tree self.now.net shot
            ≡ record self.now { fired = 0 }) }
        ensures fits { IfOk result (λ shot. IsCountable shot
            → CanRestore self.now.tree self.now.net shot) }
    {
        self.store.save(alloc)
    }

    /// The count of processes.
    pub fn size(&self) -> u32
        ensures { result ≡ length self.now.net.procs }
    {
        self.store.net.procs.len() as u32
    }

    /// The net that the machine was started with.
    pub fn net(&self) -> &Net
        ensures { result.now ≡ self.now.net }
    {
        &self.store.net
    }

    /// Returns true exactly if the inbox is empty.
    pub fn wants_item(&self) -> bool
        ensures { IsTrue result ↔ (self.now.inbox ≡ None) }
    {
        self.store.inbox.is_none()
    }

    /// Puts an item of the root's in words into the empty inbox, for the source to send.
    pub fn offer(&mut self, _alloc: Global, item: Words) -> Result<(), NoMemory>
        requires empty { self.old.inbox ≡ None }
        requires fits { length item ≡ (node_at self.old.tree 0).ins }
        ensures ok { OnGiven result (self.new ≡ record self.old { inbox = Some item }) }
        ensures err { OnErr result (self.new ≡ self.old) }
        ensures others { OnOk result ((r : ℕ) → r ≢ 0 → ready_at self.new r ≡ ready_at self.old r) }
    {
        self.store.offer(item);
        refresh(
            &self.store,
            &self.sides,
            &mut self.ready,
            0,
            [0u32; 0].as_slice(),
        );
        Ok(())
    }

    /// Returns true exactly if process `p` can fire; the source's next item is the one in the
    /// inbox.
    pub fn can_step(&self, p: u32) -> bool
        requires { p < length self.now.net.procs }
        ensures ready { result ≡ can_step self.now p }
        ensures state { (emitted : List Outcome) → HasEmitted self.now emitted
            → result ≡ can_fire self.now.tree self.now.net (state_of self.now emitted) p }
    {
        !self.store.trapped && self.ready.contains(p)
    }

    /// The process that writes a channel.
    pub fn writer(&self, c: u32) -> u32
        requires { c < length self.now.net.chans }
        ensures there { result < length self.now.net.procs }
        ensures writes { IsWriter self.now.net c result }
    {
        self.sides.writer(c)
    }

    /// The process that reads a channel.
    pub fn reader(&self, c: u32) -> u32
        requires { c < length self.now.net.chans }
        ensures there { result < length self.now.net.procs }
        ensures reads { IsReader self.now.net c result }
    {
        self.sides.reader(c)
    }

    /// The count of processes that can fire.
    pub fn ready(&self) -> u32
        ensures { result ≡ length (ready_list self.now) }
    {
        if self.store.trapped {
            0
        } else {
            self.ready.count()
        }
    }

    /// The `k`-th of the processes that can fire, in ascending order, from 0.
    pub fn ready_at(&self, k: u32) -> u32
        requires { k < length (ready_list self.now) }
        ensures there { result < length self.now.net.procs }
        ensures at { slice_get (ready_list self.now) k ≡ Some result }
    {
        self.ready.nth(k)
    }

    /// The first process at or after `from`, cyclically, that can fire; None exactly where none
    /// can.
    pub fn next_ready(&self, from: u32) -> Option<u32>
        requires { from < length self.now.net.procs }
        ensures first { result
            ≡ find (can_step self.now) (in_turn (length self.now.net.procs) from) }
        ensures ready { IfSome result (λ p. (p < length self.now.net.procs)
            × IsTrue (can_step self.now p)) }
        ensures none { IfNone result ((p : ℕ) → can_step self.now p ≡ false) }
        ensures state { (emitted : List Outcome) → HasEmitted self.now emitted
            → result ≡ next_of self.now.tree self.now.net (state_of self.now emitted) from }
    {
        if self.store.trapped {
            None
        } else {
            self.ready.next(from)
        }
    }

    /// The kind of process `p`.
    pub fn kind(&self, p: u32) -> ProcKind
        requires { p < length self.now.net.procs }
        ensures { kind_at self.now.net p ≡ Some result }
    {
        self.sides.descriptor(p).kind
    }

    /// Fires process `p`: the step of its kind's row. The outcome handed out is there exactly where
    /// the sink fired. Refused, the machine is unchanged.
    pub fn fire<U: Units>(
        &mut self,
        alloc: Global,
        tree: &Tree,
        units: &U,
        p: u32,
    ) -> Result<Fired, NoMemory>
        requires there { p < length self.old.net.procs }
        requires can { IsTrue (can_step self.old p) }
        requires count { self.old.fired < 2 ^ 63 }
        requires tree { tree.now ≡ self.old.tree }
        requires units { U.tree units.now ≡ tree.now }
        ensures fires { IfGivenOr result (λ done. Fires (U.leaf units.now)
            self.old self.new p done.emitted) (U.may_want ≡ true) }
        ensures kind { IfOk result (λ done. kind_at self.old.net p ≡ Some done.kind) }
        ensures sink { IfOk result (λ done. IsSome done.emitted ↔ (done.kind ≡ ProcKind.Sink)) }
        ensures err { OnErr result (self.new ≡ self.old) }
        ensures memory { OnErr result (may_want_memory self.old p ≡ true) }
        ensures others { OnOk result (OthersStay self.old self.new p) }
        ensures item { OnOk result (p ≢ 0 → self.new.inbox ≡ self.old.inbox) }
    {
        let kind = self.kind(p);
        if kind == ProcKind::Sink {
            let outcome = self.fire_sink(units, p);
            return Ok(Fired {
                kind,
                emitted: Some(outcome),
            });
        }
        self.fire_within(alloc, tree, units, p)?;
        Ok(Fired {
            kind,
            emitted: None,
        })
    }

    /// Fires process `p`, which isn't the sink, so that nothing is emitted: the step of its kind's
    /// row. Refused, the machine is unchanged.
    #[inline(always)]
    pub fn fire_within<U: Units>(
        &mut self,
        alloc: Global,
        tree: &Tree,
        units: &U,
        p: u32,
    ) -> Result<(), NoMemory>
        requires there { p < length self.old.net.procs }
        requires can { IsTrue (can_step self.old p) }
        requires count { self.old.fired < 2 ^ 63 }
        requires tree { tree.now ≡ self.old.tree }
        requires units { U.tree units.now ≡ tree.now }
        requires within { kind_at self.old.net p ≢ Some ProcKind.Sink }
        ensures fires { OnGivenOr result (Fires (U.leaf units.now) self.old self.new p None)
            (U.may_want ≡ true) }
        ensures err { OnErr result (self.new ≡ self.old) }
        ensures memory { OnErr result (may_want_memory self.old p ≡ true) }
        ensures others { OnOk result (OthersStay self.old self.new p) }
        ensures item { OnOk result (p ≢ 0 → self.new.inbox ≡ self.old.inbox) }
    {
        if self.kind(p) == ProcKind::Run {
            return self.fire_run(alloc, units, p);
        }
        self.fire_other(alloc, units, p)
    }

    // Fires the sink `p`, and hands out the outcome that it takes.
    fn fire_sink<U: Units>(&mut self, units: &U, p: u32) -> Outcome
        requires can { CanFire self.old p }
        requires units { U.tree units.now ≡ self.old.tree }
        requires sink { kind_at self.old.net p ≡ Some ProcKind.Sink }
        ensures { FiresLocally (U.leaf units.now) self.old self.new p (Some result) }
    {
        let (outcome, touched) = self.store.fire_sink(p);
        let touched = touched.as_slice();
        refresh(&self.store, &self.sides, &mut self.ready, p, touched);
        outcome
    }

    // Fires the run `p`.
    #[inline(always)]
    fn fire_run<U: Units>(&mut self, alloc: Global, units: &U, p: u32) -> Result<(), NoMemory>
        requires can { CanFire self.old p }
        requires units { U.tree units.now ≡ self.old.tree }
        requires run { kind_at self.old.net p ≡ Some ProcKind.Run }
        ensures ok { OnGivenOr result (FiresLocally (U.leaf units.now) self.old self.new p None)
            (U.may_want ≡ true) }
        ensures err { OnErr result (self.new ≡ self.old) }
        ensures memory { OnErr result (may_want_memory self.old p ≡ true) }
    {
        let descriptor = self.sides.descriptor(p);
        match self.store.fire_run(alloc, units, p, descriptor) {
            Ok(()) => {
                refresh_run(&self.store, &self.sides, &mut self.ready, p, descriptor);
                Ok(())
            }
            Err(error) => Err(error),
        }
    }

    // Fires process `p`, which is neither the sink nor a run.
    #[inline(never)]
    fn fire_other<U: Units>(&mut self, alloc: Global, units: &U, p: u32) -> Result<(), NoMemory>
        requires can { CanFire self.old p }
        requires units { U.tree units.now ≡ self.old.tree }
        requires no_sink { kind_at self.old.net p ≢ Some ProcKind.Sink }
        requires no_run { kind_at self.old.net p ≢ Some ProcKind.Run }
        ensures ok { OnGivenOr result (FiresLocally (U.leaf units.now) self.old self.new p None)
            (U.may_want ≡ true) }
        ensures err { OnErr result (self.new ≡ self.old) }
        ensures memory { OnErr result (may_want_memory self.old p ≡ true) }
    {
        let touched = self.store.fire_other(alloc, units, p)?;
        let touched = touched.as_slice();
        refresh(&self.store, &self.sides, &mut self.ready, p, touched);
        Ok(())
    }

    /// The count of firings since the machine was started.
    pub fn fired(&self) -> u64
        ensures { result ≡ self.now.fired }
    {
        self.store.fired
    }

    /// The count of items that the source has sent.
    pub fn sent(&self) -> u64
        ensures { result ≡ self.now.sent }
    {
        self.store.sent
    }

    /// The count of outcomes that the sink has emitted.
    pub fn emitted(&self) -> u64
        ensures { result ≡ self.now.emitted }
    {
        self.store.emitted
    }

    /// Returns true exactly if a trap was emitted.
    pub fn trapped(&self) -> bool
        ensures { result ≡ self.now.trapped }
    {
        self.store.trapped
    }
}
