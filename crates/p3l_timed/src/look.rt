// A timer looks at the processes of a machine: when those are due that can fire.

ghost use Rattle.std.specs.Prelude.{◌≡◌, ◌<◌, ◌+◌, ℕ, List, ◌∷◌, ◌++◌, Option, None, true, false, length, slice_set};
ghost use Rattle.std.specs.List.{AllByRecursion};
ghost use Rattle.p3l_firing.specs.Typed.{IsTyped};
ghost use Rattle.p3l_net.specs.Machine.{can_step};
ghost use Rattle.p3l_timed.specs.Moments.{IsNeverDue, due_at};
ghost use Rattle.p3l_timed.specs.Clock.{CanLook, IsOnTheWay, OthersAsBefore};
ghost use Rattle.p3l_timed.specs.Due.{due_next, renewed, without};
ghost use Rattle.p3l_timed.specs.Price.{price_at};

use crate::Moments;
use p3l_net::Machine;

// Returns the due time of a process, from the one before: none if it can't fire; otherwise the one
// before, or `fresh` if it was not due.
fn due_next(can: bool, fresh: u128, due: Option<u128>) -> Option<u128>
    ensures { result ≡ due_next can fresh due }
{
    if can {
        Some(due.unwrap_or(fresh))
    } else {
        None
    }
}

/// Looks whether process `r` can fire: if it became able to, it is due at this moment.
pub(crate) fn look(moments: &mut Moments, machine: &Machine<'_>, r: u32, fresh: u128)
    requires there { r < length machine.now.net.procs }
    requires room { r < length moments.old }
    ensures { moments.new ≡ slice_set moments.old r
        (due_next (can_step machine.now r) fresh (due_at moments.old r)) }
{
    let due = moments.due(r);
    let next = due_next(machine.can_step(r), fresh, due);
    if next != due {
        moments.put(r, next);
    }
}

/// Looks at all processes, of which none is due: those that can fire are due at their prices.
pub(crate) fn look_at_all(moments: &mut Moments, machine: &Machine<'_>, prices: &[u128])
    requires can { CanLook machine.now prices.now moments.old 0 }
    requires never { IsNeverDue moments.old }
    ensures size { length moments.new ≡ length moments.old }
    ensures due { (r : ℕ) → due_at moments.new r
        ≡ renewed (can_step machine.now) (price_at prices.now) 0 (λ q. None) r }
{
    for r in 0..machine.size() {
        look(moments, machine, r, prices[r as usize]);
    }
}

// Looks at the processes that write and read channel `c`.
fn look_at_ends(moments: &mut Moments, machine: &Machine<'_>, prices: &[u128], c: u32, moment: u128)
    requires can { CanLook machine.now prices.now moments.old moment }
    requires there { c < length machine.now.net.chans }
    ensures size { length moments.new ≡ length moments.old }
    ensures way { (p : ℕ) (cs : List ℕ) (before : ℕ → Option ℕ)
        → IsOnTheWay machine.now (price_at prices.now) moment p (c ∷ cs) before moments.old
        → IsOnTheWay machine.now (price_at prices.now) moment p cs before moments.new }
{
    let writer = machine.writer(c);
    look(moments, machine, writer, moment + prices[writer as usize]);
    let reader = machine.reader(c);
    look(moments, machine, reader, moment + prices[reader as usize]);
}

// Looks at the processes that write and read these channels.
fn look_along(
    moments: &mut Moments,
    machine: &Machine<'_>,
    prices: &[u128],
    channels: &[u32],
    moment: u128,
)
    requires can { CanLook machine.now prices.now moments.old moment }
    requires there { AllByRecursion (λ c. c < length machine.now.net.chans) channels.now }
    ensures size { length moments.new ≡ length moments.old }
    ensures way { (p : ℕ) (cs : List ℕ) (before : ℕ → Option ℕ)
        → IsOnTheWay machine.now (price_at prices.now) moment p (channels.now ++ cs) before moments.old
        → IsOnTheWay machine.now (price_at prices.now) moment p cs before moments.new }
{
    for channel in channels {
        look_at_ends(moments, machine, prices, *channel, moment);
    }
}

// Looks at process `p`, which has just fired, and at those that share a channel with it.
fn look_round(moments: &mut Moments, machine: &Machine<'_>, prices: &[u128], p: u32, moment: u128)
    requires can { CanLook machine.now prices.now moments.old moment }
    requires there { p < length machine.now.net.procs }
    requires typed { IsTyped machine.now.tree machine.now.net }
    requires others { OthersAsBefore machine.now p (due_at moments.old) }
    ensures size { length moments.new ≡ length moments.old }
    ensures due { (r : ℕ) → due_at moments.new r ≡ renewed (can_step machine.now)
        (price_at prices.now) moment (without p (due_at moments.old)) r }
{
    moments.put(p, None);
    look(moments, machine, p, moment + prices[p as usize]);
    let process = &machine.net().procs.as_slice()[p as usize];
    look_along(moments, machine, prices, process.ins.as_slice(), moment);
    look_along(moments, machine, prices, process.outs.as_slice(), moment);
}

/// Looks where process `p` has just fired, unless nothing will fire any more, since a trap was
/// emitted; says whether that is so.
pub(crate) fn look_after(
    moments: &mut Moments,
    machine: &Machine<'_>,
    prices: &[u128],
    p: u32,
    moment: u128,
) -> bool
    requires can { CanLook machine.now prices.now moments.old moment }
    requires there { p < length machine.now.net.procs }
    requires typed { IsTyped machine.now.tree machine.now.net }
    requires others { machine.now.trapped ≡ false
        → OthersAsBefore machine.now p (due_at moments.old) }
    ensures over { result ≡ machine.now.trapped }
    ensures size { length moments.new ≡ length moments.old }
    ensures due { machine.now.trapped ≡ false → (r : ℕ) → due_at moments.new r
        ≡ renewed (can_step machine.now) (price_at prices.now) moment
        (without p (due_at moments.old)) r }
    ensures rest { machine.now.trapped ≡ true → moments.new ≡ moments.old }
{
    if machine.trapped() {
        return true;
    }
    look_round(moments, machine, prices, p, moment);
    false
}
