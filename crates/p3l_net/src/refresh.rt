// The ready set after a step.

ghost use Rattle.std.specs.Prelude.{◌≡◌, ◌<◌, ◌+◌, ℕ, List, [], ◌∷◌, length, nat_le, slice_index, slice_set};
ghost use Rattle.p3l_base.specs.Memory.{IfGiven};
ghost use Rattle.p3l_firing.specs.State.{chan_at};
ghost use Rattle.p3l_net.specs.Channel.{tokens_at};
ghost use Rattle.p3l_net.specs.Descriptor.{IsRun};
ghost use Rattle.p3l_net.specs.Machine.{IsSound};
ghost use Rattle.p3l_net.specs.Steps.{AgreesAt, AgreesBut, CanRefresh, HasEnds, IsKept, looked, ready_at};

use crate::descriptor::Descriptor;
use crate::ends::Sides;
use crate::store::Store;
use p3l_base::NoMemory;
use p3l_ready::ReadySet;
use std::alloc::Global;

// Looks again whether process `r` is ready.
#[inline(always)]
fn look(store: &Store, sides: &Sides, ready: &mut ReadySet, r: u32)
    requires sound { IsSound store.now }
    requires sides { HasEnds store.now.net sides.now }
    requires there { r < length store.now.net.procs }
    requires size { length ready.old ≡ length store.now.net.procs }
    ensures { ready.new ≡ slice_set ready.old r (ready_at store.now r) }
{
    ready.put(r, store.is_ready(sides, r));
}

// Looks again whether process `r` is ready, unless it is `p`, of which that is known.
#[inline(always)]
fn look_beside(store: &Store, sides: &Sides, ready: &mut ReadySet, p: u32, r: u32)
    requires known { AgreesAt store.now ready.old p }
    requires sides { HasEnds store.now.net sides.now }
    requires there { r < length store.now.net.procs }
    ensures looked { ready.new ≡ slice_set ready.old r (ready_at store.now r) }
    ensures known { AgreesAt store.now ready.new p }
{
    if r != p {
        look(store, sides, ready, r);
    }
}

// Looks again at the process that writes channel `c`, if it was full before a token was taken from
// it, but not at `p`, of which it is known whether it is ready.
#[inline(always)]
fn look_at_writer(store: &Store, sides: &Sides, ready: &mut ReadySet, p: u32, c: u32)
    requires known { AgreesAt store.now ready.old p }
    requires sides { HasEnds store.now.net sides.now }
    requires there { c < length store.now.net.chans }
    ensures looked { ready.new
        ≡ looked (nat_le (chan_at store.now.net c).cap (length (tokens_at store.now.queues c) + 1))
        store.now (slice_index sides.now.writers c) ready.old }
    ensures known { AgreesAt store.now ready.new p }
{
    if store.room(c) as usize <= store.load(c) + 1 {
        look_beside(store, sides, ready, p, sides.writer(c));
    }
}

// Looks again at the process that reads channel `c`, if it was empty before a token was put into
// it, but not at `p`, of which it is known whether it is ready.
#[inline(always)]
fn look_at_reader(store: &Store, sides: &Sides, ready: &mut ReadySet, p: u32, c: u32)
    requires known { AgreesAt store.now ready.old p }
    requires sides { HasEnds store.now.net sides.now }
    requires there { c < length store.now.net.chans }
    ensures looked { ready.new
        ≡ looked (nat_le (length (tokens_at store.now.queues c)) 1)
        store.now (slice_index sides.now.readers c) ready.old }
    ensures known { AgreesAt store.now ready.new p }
{
    if store.load(c) <= 1 {
        look_beside(store, sides, ready, p, sides.reader(c));
    }
}

// Looks again at the processes that write and read channel `c`, where a token that was taken from
// it or put into it can have made them ready, but not at `p`, of which it is known whether it is.
#[inline(always)]
fn look_at_ends(store: &Store, sides: &Sides, ready: &mut ReadySet, p: u32, c: u32)
    requires known { AgreesAt store.now ready.old p }
    requires sides { HasEnds store.now.net sides.now }
    requires there { c < length store.now.net.chans }
    ensures known { AgreesAt store.now ready.new p }
    ensures agrees { (cs : List ℕ) → AgreesBut store.now ready.old (c ∷ cs)
        → AgreesBut store.now ready.new cs }
{
    look_at_writer(store, sides, ready, p, c);
    look_at_reader(store, sides, ready, p, c);
}

/// Looks again at process `p`, and at other ends of these channels: at the process that writes one
/// that was full before `p` took a token, and at the one that reads one that was empty before `p`
/// put one into it. To the others each channel is as it was: it has room, or the same first token.
pub(crate) fn refresh(store: &Store, sides: &Sides, ready: &mut ReadySet, p: u32, touched: &[u32])
    requires { CanRefresh store.now sides.now ready.old p touched.now }
    ensures { IsKept store.now ready.new sides.now }
{
    look(store, sides, ready, p);
    for channel in touched {
        look_at_ends(store, sides, ready, p, *channel);
    }
}

/// Looks again at the run `p`, at the process that writes the channel that it reads, and at the one
/// that reads the channel that it writes. The other end of each of the two is `p` itself.
#[inline(always)]
pub(crate) fn refresh_run(
    store: &Store,
    sides: &Sides,
    ready: &mut ReadySet,
    p: u32,
    descriptor: &Descriptor,
)
    requires can { CanRefresh store.now sides.now ready.old p
        (descriptor.now.input ∷ (descriptor.now.output ∷ [])) }
    requires run { IsRun store.now.net p descriptor.now }
    ensures { IsKept store.now ready.new sides.now }
{
    ready.put(p, store.can_run(p, descriptor));
    look_at_writer(store, sides, ready, p, descriptor.input);
    look_at_reader(store, sides, ready, p, descriptor.output);
}

/// The set of the processes that are ready.
pub(crate) fn all_ready(alloc: Global, store: &Store, sides: &Sides) -> Result<ReadySet, NoMemory>
    requires sound { IsSound store.now }
    requires sides { HasEnds store.now.net sides.now }
    ensures { IfGiven result (λ ready. AgreesBut store.now ready []) }
{
    let size = store.net.procs.len() as u32;
    let mut ready = ReadySet::new(alloc, size)?;
    for r in 0..size {
        look(store, sides, &mut ready, r);
    }
    Ok(ready)
}
