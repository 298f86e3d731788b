// Steps on the channels of a store.

ghost use Rattle.std.specs.Prelude.{◌≡◌, ◌<◌, ◌≤◌, [], length, IsTrue};
ghost use Rattle.p3l_firing.specs.Lists.{has_first, first_or};
ghost use Rattle.p3l_firing.specs.Token.{credit, newest_tag, plain};
ghost use Rattle.p3l_net.specs.Channel.{prepended, queue_at, tokens_at};
ghost use Rattle.p3l_net.specs.Steps.{CanPut, CanTake, room_at, with_last, without_first};

use crate::channel::Slot;
use crate::ring;
use crate::store::Store;
use p3l_base::Outcome;
use p3l_firing::{Tags, Token};

impl<'t> Store<'t> {
    /// Returns true exactly if a channel has a token.
    pub(crate) fn has_token(&self, c: u32) -> bool
        requires { c < length self.now.queues }
        ensures { result ≡ has_first (tokens_at self.now.queues c) }
    {
        !self.channels[c as usize].slots.is_empty()
    }

    /// Returns true exactly if a channel has room for one token more.
    pub(crate) fn has_room(&self, c: u32) -> bool
        requires { c < length self.now.queues }
        ensures { result ≡ room_at self.now c }
    {
        let slots = &self.channels[c as usize].slots;
        slots.len() < slots.capacity()
    }

    /// The count of tokens in a channel.
    pub(crate) fn load(&self, c: u32) -> usize
        requires { c < length self.now.queues }
        ensures { result ≡ length (tokens_at self.now.queues c) }
    {
        self.channels[c as usize].slots.len()
    }

    /// The outcome of the first token of a channel that has one.
    pub(crate) fn front_body(&self, c: u32) -> &Outcome
        requires { CanTake self.now c }
        ensures { result.now ≡ (first_or credit (tokens_at self.now.queues c)).body }
    {
        ring::nth(&self.channels[c as usize].slots, 0).body()
    }

    /// Returns true exactly if the first token of a channel that has one has no tags stored: then
    /// it has none.
    pub(crate) fn is_plain(&self, c: u32) -> bool
        requires { CanTake self.now c }
        ensures { IsTrue result → (first_or credit (tokens_at self.now.queues c)).tags ≡ [] }
    {
        match ring::nth(&self.channels[c as usize].slots, 0) {
            Slot::Plain(_) => true,
            Slot::Tagged(_) => false,
        }
    }

    /// The newest tag of the first token of a channel that has one, 0 if that has no tags.
    pub(crate) fn front_newest_tag(&self, c: u32) -> u64
        requires { CanTake self.now c }
        ensures { result ≡ newest_tag (first_or credit (tokens_at self.now.queues c)) }
    {
        let channel = &self.channels[c as usize];
        match ring::nth(&channel.slots, 0) {
            Slot::Plain(_) => 0,
            Slot::Tagged(_) => ring::nth(&channel.tags, 0).newest(),
        }
    }

    /// Appends a token without tags to a channel that has room for it.
    pub(crate) fn put_plain(&mut self, c: u32, body: Outcome)
        requires { CanPut self.old c }
        ensures { self.new ≡ with_last self.old c (plain body) }
    {
        let channel = &mut self.channels[c as usize];
        ring::append(&mut channel.slots, Slot::Plain(body));
    }

    // Appends a token with these tags to a channel that has room for it.
    fn put_tagged(&mut self, c: u32, tags: Tags, body: Outcome)
        requires { CanPut self.old c }
        ensures { self.new ≡ with_last self.old c (record { tags = tags; body = body }) }
    {
        let channel = &mut self.channels[c as usize];
        ring::append(&mut channel.slots, Slot::Tagged(body));
        ring::append(&mut channel.tags, tags);
    }

    /// Appends a token to a channel that has room for it.
    pub(crate) fn put(&mut self, c: u32, token: Token)
        requires { CanPut self.old c }
        ensures { self.new ≡ with_last self.old c token }
    {
        let Token { tags, body } = token;
        if tags.is_empty() {
            self.put_plain(c, body);
        } else {
            self.put_tagged(c, tags, body);
        }
    }

    /// Takes the first token of a channel that has one.
    pub(crate) fn take(&mut self, c: u32) -> Token
        requires { CanTake self.old c }
        ensures front { result ≡ first_or credit (tokens_at self.old.queues c) }
        ensures after { self.new ≡ without_first self.old c }
    {
        let channel = &mut self.channels[c as usize];
        match ring::take(&mut channel.slots) {
            Slot::Plain(body) => return Token::plain(body),
            Slot::Tagged(body) => {
                let tags = ring::take(&mut channel.tags);
                return Token { tags, body };
            }
        }
    }

    /// Takes the outcome of the first token of a channel that has one, and drops its tags.
    pub(crate) fn take_body(&mut self, c: u32) -> Outcome
        requires { CanTake self.old c }
        ensures body { result ≡ (first_or credit (tokens_at self.old.queues c)).body }
        ensures after { self.new ≡ without_first self.old c }
    {
        let channel = &mut self.channels[c as usize];
        match ring::take(&mut channel.slots) {
            Slot::Plain(body) => return body,
            Slot::Tagged(body) => {
                let _tags = ring::take(&mut channel.tags);
                return body;
            }
        }
    }

    /// Puts a token before the others of a channel that has room for it.
    pub(crate) fn put_back(&mut self, c: u32, token: Token)
        requires { CanPut self.old c }
        ensures { self.new ≡ record self.old { queues = prepended self.old.queues c token } }
    {
        let channel = &mut self.channels[c as usize];
        let Token { tags, body } = token;
        if tags.is_empty() {
            ring::prepend(&mut channel.slots, Slot::Plain(body));
            return;
        }
        ring::prepend(&mut channel.slots, Slot::Tagged(body));
        ring::prepend(&mut channel.tags, tags);
    }

    // Moves a token from one channel to another with its tags.
    #[inline(never)]
    fn forward_tagged(&mut self, input: u32, output: u32, body: Outcome)
        requires token { CanTake self.old input }
        requires room { CanPut (without_first self.old input) output }
        ensures { self.new ≡ with_last (without_first self.old input) output
            (record (first_or credit (tokens_at self.old.queues input)) { body = body }) }
    {
        let Token { tags, body: _ } = self.take(input);
        self.put_tagged(output, tags, body);
    }

    /// Takes the first token of channel `input`, and appends it to channel `output`, which has
    /// room for it, with another outcome; `plain` says whether it is known to have no tags.
    #[inline(always)]
    pub(crate) fn forward(&mut self, input: u32, output: u32, plain: bool, body: Outcome)
        requires token { CanTake self.old input }
        requires room { CanPut (without_first self.old input) output }
        requires plain { IsTrue plain
            → (first_or credit (tokens_at self.old.queues input)).tags ≡ [] }
        ensures { self.new ≡ with_last (without_first self.old input) output
            (record (first_or credit (tokens_at self.old.queues input)) { body = body }) }
    {
        if plain {
            let _before = self.take_body(input);
            self.put_plain(output, body);
        } else {
            self.forward_tagged(input, output, body);
        }
    }

    /// Takes the first token of channel `input`, and appends it to channel `output`, which has
    /// room for it, as it is.
    pub(crate) fn pass(&mut self, input: u32, output: u32)
        requires token { CanTake self.old input }
        requires room { CanPut (without_first self.old input) output }
        ensures { self.new ≡ with_last (without_first self.old input) output
            (first_or credit (tokens_at self.old.queues input)) }
    {
        let token = self.take(input);
        self.put(output, token);
    }
}
