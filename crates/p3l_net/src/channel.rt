// Channels of the machine: rings of outcomes and of tags, whose room is taken when they are made.

ghost use Rattle.std.specs.Prelude.{◌≡◌, ◌+◌, ◌<◌, ◌≤◌, [], ◌∷◌, ◌++◌, drop, length, map, slice_index_or, EachIndex};
ghost use Rattle.p3l_base.specs.Memory.{IfGiven, OnGiven};
ghost use Rattle.std.specs.List.{All};
ghost use Rattle.p3l_net.specs.Channel.{opened};
ghost use Rattle.p3l_net.specs.Rings.{lists_in, lists_of, token_in, tokens_of};
ghost use Rattle.p3l_firing.specs.Shot.{HasFewTags, saved_token, token_of};
ghost use Rattle.p3l_net.specs.Shot.{HasRoom, queue_of, queues_of, saved_queue};
ghost use Rattle.p3l_firing.specs.State.{no_chan};

use crate::ring;
use circular_buffer::HeapCircularBuffer;
use p3l_base::{List, NoMemory, Outcome, Words};
use p3l_firing::{Chan, SavedToken, Tags, Token};
use std::alloc::Global;
use std::marker::Model;

/// The entry of a token in the ring of outcomes: its outcome, and whether its tags lie in the ring
/// of tags. Those of a plain token lie nowhere: it has none.
#[derive(Debug, Drop)]
pub(crate) enum Slot {
    Plain(Outcome),
    Tagged(Outcome),
}

impl Slot {
    // The count of its lists of tags in the ring of tags: one or none.
    fn lists(&self) -> usize
        ensures { result ≡ lists_of self.now }
    {
        match self {
            Slot::Plain(_) => 0,
            Slot::Tagged(_) => 1,
        }
    }

    /// The outcome.
    pub(crate) fn body(&self) -> &Outcome
        ensures { result.now ≡ (token_in self.now []).body }
    {
        match self {
            Slot::Plain(body) => body,
            Slot::Tagged(body) => body,
        }
    }
}

// The token of a slot, as it is saved. Its tags are those of number `next`, if it has some.
fn saved_slot(
    alloc: Global,
    slot: &Slot,
    tags: &HeapCircularBuffer<Tags>,
    next: usize,
) -> Result<SavedToken, NoMemory>
    requires { next + lists_of slot.now ≤ length tags.now.items }
    ensures { IfGiven result (λ saved. saved ≡ saved_token (token_in slot.now
        (drop next tags.now.items))) }
{
    match slot {
        Slot::Plain(body) => SavedToken::plain(alloc, body),
        Slot::Tagged(body) => SavedToken::tagged(alloc, ring::nth(tags, next), body),
    }
}

// The tokens of these slots, with these tags, as they are saved.
fn saved_slots(
    alloc: Global,
    slots: &HeapCircularBuffer<Slot>,
    tags: &HeapCircularBuffer<Tags>,
) -> Result<List<SavedToken>, NoMemory>
    requires { length tags.now.items ≡ lists_in slots.now.items }
    ensures { IfGiven result (λ saved. saved
        ≡ map saved_token (tokens_of slots.now.items tags.now.items)) }
{
    let mut saved = List::new(alloc);
    let mut next = 0;
    for k in 0..slots.len() {
        let slot = ring::nth(slots, k);
        saved.push(saved_slot(alloc, slot, tags, next)?)?;
        next += slot.lists();
    }
    Ok(saved)
}

/// A queue of tokens, which contracts see as the tokens in the order of sending, and how many there
/// may be. Tags lie apart from the outcomes, so that a token without tags is moved without them.
#[derive(Debug, Drop)]
pub(crate) struct Channel {
    pub(crate) slots: HeapCircularBuffer<Slot>,
    pub(crate) tags: HeapCircularBuffer<Tags>,
}

impl Model for Channel {
    ghost use Rattle.p3l_net.specs.Channel.{Queue};

    ghost Value = { Queue };

    ghost use Rattle.p3l_net.specs.Rings.{queue_in, AreRings};

    ghost view = { λ it. queue_in it.slots it.tags };

    ghost invariant = { λ it. AreRings it.slots it.tags };
}

impl Channel {
    // The channel without tokens.
    fn empty(alloc: Global, chan: &Chan) -> Result<Channel, NoMemory>
        ensures { IfGiven result (λ channel. channel ≡ record { tokens = []; room = chan.now.cap }) }
    {
        let slots = HeapCircularBuffer::with_capacity(alloc, chan.cap as usize)?;
        let tags = HeapCircularBuffer::with_capacity(alloc, chan.cap as usize)?;
        Ok(Channel { slots, tags })
    }

    // The channel as it is before anything has fired: empty but for its credits.
    fn open(alloc: Global, chan: &Chan) -> Result<Channel, NoMemory>
        requires { chan.now.credits ≤ chan.now.cap }
        ensures { IfGiven result (λ channel. channel ≡ opened chan.now) }
    {
        let mut channel = Channel::empty(alloc, chan)?;
        for _ in 0..chan.credits {
            let credit = Outcome::Value(Words::new(alloc));
            ring::append(&mut channel.slots, Slot::Plain(credit));
        }
        Ok(channel)
    }

    // Appends a token that was saved, for which there is room.
    fn append_saved(&mut self, alloc: Global, saved: &SavedToken) -> Result<(), NoMemory>
        requires room { length self.old.tokens < self.old.room }
        requires tags { HasFewTags saved.now }
        ensures { OnGiven result (self.new
            ≡ record self.old { tokens = self.old.tokens ++ token_of saved.now ∷ [] }) }
    {
        let Token { tags, body } = saved.restore(alloc)?;
        if tags.is_empty() {
            ring::append(&mut self.slots, Slot::Plain(body));
            return Ok(());
        }
        ring::append(&mut self.slots, Slot::Tagged(body));
        ring::append(&mut self.tags, tags);
        Ok(())
    }

    // The channel with the tokens that were saved.
    fn restore(alloc: Global, chan: &Chan, saved: &[SavedToken]) -> Result<Channel, NoMemory>
        requires room { length saved.now ≤ chan.now.cap }
        requires tags { All HasFewTags saved.now }
        ensures { IfGiven result (λ channel. channel ≡ queue_of chan.now saved.now) }
    {
        let mut channel = Channel::empty(alloc, chan)?;
        for token in saved {
            channel.append_saved(alloc, token)?;
        }
        Ok(channel)
    }

    // Saves its tokens.
    fn save(&self, alloc: Global) -> Result<List<SavedToken>, NoMemory>
        ensures { IfGiven result (λ saved. saved ≡ saved_queue self.now) }
    {
        saved_slots(alloc, &self.slots, &self.tags)
    }
}

/// The channels of a net before anything has fired.
pub(crate) fn open_all(alloc: Global, chans: &[Chan]) -> Result<Vec<Channel>, NoMemory>
    requires { EachIndex chans.now (λ c. (slice_index_or chans.now c no_chan).credits
        ≤ (slice_index_or chans.now c no_chan).cap) }
    ensures { IfGiven result (λ channels. channels.items ≡ map opened chans.now) }
{
    let mut channels = Vec::new(alloc);
    for chan in chans {
        channels.push(Channel::open(alloc, chan)?)?;
    }
    Ok(channels)
}

/// The channels of a net with the tokens that were saved.
pub(crate) fn restore_all(
    alloc: Global,
    chans: &[Chan],
    saved: &[List<SavedToken>],
) -> Result<Vec<Channel>, NoMemory>
    requires all { length saved.now ≡ length chans.now }
    requires fit { EachIndex chans.now (λ c. HasRoom
        (slice_index_or chans.now c no_chan) (slice_index_or saved.now c [])) }
    ensures { IfGiven result (λ channels. channels.items ≡ queues_of chans.now saved.now) }
{
    let mut channels = Vec::with_capacity(alloc, chans.len())?;
    for c in 0..chans.len() {
        channels.push(Channel::restore(alloc, &chans[c], saved[c].as_slice())?)?;
    }
    Ok(channels)
}

/// Saves the tokens of each channel.
pub(crate) fn save_all(
    alloc: Global,
    channels: &[Channel],
) -> Result<List<List<SavedToken>>, NoMemory>
    ensures { IfGiven result (λ saved. saved ≡ map saved_queue channels.now) }
{
    let mut saved = List::new(alloc);
    for channel in channels {
        saved.push(channel.save(alloc)?)?;
    }
    Ok(saved)
}
