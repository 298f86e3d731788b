// The timer.

ghost use Rattle.std.specs.Prelude.{◌≡◌, ◌≢◌, ◌<◌, ◌≤◌, ◌+◌, ◌*◌, ◌^◌, ℕ, None, false, length, slice_index, IfSome, IsNone};
ghost use Rattle.p3l_base.specs.Memory.{IfGiven};
ghost use Rattle.std.specs.Option.{is_some};
ghost use Rattle.p3l_firing.specs.Typed.{IsTyped};
ghost use Rattle.p3l_net.specs.Machine.{can_step};
ghost use Rattle.p3l_timed.specs.Moments.{due_at};
ghost use Rattle.p3l_timed.specs.Clock.{HasFired, IsBusiest, IsRenewed, IsStarted, OthersAsBefore};
ghost use Rattle.p3l_timed.specs.Due.{IsNext};
ghost use Rattle.p3l_timed.specs.Price.{counted_prices, price_at};

use crate::Moments;
use crate::greatest::greatest;
use crate::look::{look, look_after, look_at_all};
use crate::price::prices;
use p3l_base::NoMemory;
use p3l_cost::Costs;
use p3l_firing::Net;
use p3l_net::Machine;
use p3l_skel::Tree;
use std::alloc::Global;
use std::marker::Model;

/// Says which process of a machine fires next: the one that is due first. A process that can fire
/// is due at the moment at which it became able to, or fired last, plus its price.
///
/// It is notified of each offer and each firing, and looks then at the processes that may have
/// become able to fire by it, or unable. Moments are in ticks, from 0 on.
#[derive(Drop)]
pub struct Timer {
    prices: Vec<u128>,
    moments: Moments,
    busy: Vec<u128>,
    moment: u128,
    fired: u64,
    over: bool,
}

impl Model for Timer {
    ghost use Rattle.std.specs.Prelude.{[], cond};
    ghost use Rattle.p3l_timed.specs.Clock.{Clock, IsKept};

    ghost Value = { Clock };

    ghost view = { λ it. record {
      prices = it.prices.items;
      due = cond it.over [] it.moments;
      busy = it.busy.items;
      moment = it.moment;
      fired = it.fired;
      over = it.over;
    } };

    ghost invariant = { λ it. IsKept it.prices.items it.busy.items it.moments it.moment it.fired };
}

impl Timer {
    /// A timer for a machine of this tree and net in which nothing has fired.
    ///
    /// It counts each price that is below 2^48 in full, as those of every linked net are.
    pub fn start(
        alloc: Global,
        tree: &Tree,
        costs: &Costs,
        net: &Net,
        machine: &Machine<'_>,
    ) -> Result<Timer, NoMemory>
        requires net { net.now ≡ machine.now.net }
        requires first { machine.now.fired ≡ 0 }
        ensures { IfGiven result
            (IsStarted (counted_prices tree.now costs.now machine.now.net) machine.now) }
    {
        let prices = prices(alloc, tree, costs, net)?;
        let mut moments = Moments::new(alloc, machine.size())?;
        let busy = vec![in alloc; 0u128; prices.len()]?;
        look_at_all(&mut moments, machine, prices.as_slice());
        Ok(Timer {
            prices,
            moments,
            busy,
            moment: 0,
            fired: 0,
            over: machine.trapped(),
        })
    }

    /// An item was offered to the machine, so that the source may have become able to fire.
    pub fn offered(&mut self, machine: &Machine<'_>)
        requires size { length machine.now.net.procs ≡ length self.old.prices }
        requires some { 0 < length self.old.prices }
        requires others { (r : ℕ) → r ≢ 0
            → can_step machine.now r ≡ is_some (due_at self.old.due r) }
        requires over { machine.now.trapped ≡ self.old.over }
        ensures { IsRenewed machine.now self.old self.new }
    {
        let fresh = self.moment + self.prices[0];
        look(&mut self.moments, machine, 0, fresh);
    }

    /// The process that fires next; None exactly where none is due.
    pub fn next(&self) -> Option<u32>
        ensures next { IfSome result (IsNext (due_at self.now.due)) }
        ensures there { IfSome result (λ p. p < length self.now.prices) }
        ensures none { IsNone result → (r : ℕ) → due_at self.now.due r ≡ None }
    {
        if self.over {
            return None;
        }
        self.moments.least()
    }

    /// Process `p` fired, which was due.
    pub fn fired(&mut self, p: u32, machine: &Machine<'_>)
        requires typed { IsTyped machine.now.tree machine.now.net }
        requires size { length machine.now.net.procs ≡ length self.old.prices }
        requires due { due_at self.old.due p ≢ None }
        requires others { machine.now.trapped ≡ false
            → OthersAsBefore machine.now p (due_at self.old.due) }
        requires count { machine.now.fired ≡ self.old.fired + 1 }
        ensures { HasFired machine.now p self.old self.new }
    {
        self.moment = self.moments.due(p).unwrap_or(self.moment);
        self.busy[p as usize] += self.prices[p as usize];
        self.fired = machine.fired();
        self.over = look_after(
            &mut self.moments,
            machine,
            self.prices.as_slice(),
            p,
            self.moment,
        );
    }

    /// States that every price is below 2^48, and that the moment, and the time that each process
    /// was busy, are at most that many ticks for each firing.
    pub(crate) fn look(&self)
        ensures price { (p : ℕ) → price_at self.now.prices p < 2 ^ 48 }
        ensures moment { self.now.moment ≤ self.now.fired * 2 ^ 48 }
        ensures busy { (p : ℕ) → slice_index self.now.busy p ≤ self.now.fired * 2 ^ 48 }
    {
        let _moment = self.moment;
    }

    /// The moment of the last firing.
    pub fn now(&self) -> u128
        ensures { result ≡ self.now.moment }
    {
        self.moment
    }

    /// The process that was busy longest, the lowest of equals.
    pub fn busiest(&self) -> u32
        requires { 0 < length self.now.prices }
        ensures there { result < length self.now.prices }
        ensures most { IsBusiest self.now.busy result }
    {
        greatest(self.busy.as_slice()) as u32
    }

    /// The ticks that process `p` was busy.
    pub fn busy(&self, p: u32) -> u128
        requires { p < length self.now.prices }
        ensures { result ≡ slice_index self.now.busy p }
    {
        self.busy[p as usize]
    }
}
