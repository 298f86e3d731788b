// Steps on the local states of the processes of a store.

ghost use Rattle.std.specs.Prelude.{◌≡◌, ◌+◌, ◌<◌, ◌≤◌, ◌^◌, length, true, cond, OnErr};
ghost use Rattle.p3l_base.specs.Memory.{OnGiven};
ghost use Rattle.p3l_base.specs.declared.outcome.Outcome.TheVariants.{Trapped};
ghost use Rattle.p3l_firing.specs.Lists.{has_first, first_or};
ghost use Rattle.p3l_firing.specs.State.{own_at, counted, fresh, gathering, holding, released};
ghost use Rattle.p3l_firing.specs.Token.{credit};
ghost use Rattle.p3l_firing.specs.kinds.Tail.{has_number, pick_number, after_release};
ghost use Rattle.p3l_net.specs.Channel.{queue_at, tokens_at};
ghost use Rattle.p3l_net.specs.Steps.{CanTake, without_first, with_own};

use crate::store::Store;
use p3l_base::{NoMemory, Outcome, Trap};
use p3l_firing::Token;

impl<'t> Store<'t> {
    /// The number in the local state of process `p`.
    pub(crate) fn number(&self, p: u32) -> u64
        requires { p < length self.now.owns }
        ensures { result ≡ (own_at self.now.owns p).number }
    {
        self.locals[p as usize].number
    }

    /// The tokens that process `p` holds.
    pub(crate) fn held(&self, p: u32) -> &[Token]
        requires { p < length self.now.owns }
        ensures { result.now ≡ (own_at self.now.owns p).held }
    {
        self.locals[p as usize].held.as_slice()
    }

    /// Returns true exactly if process `p` holds a token.
    pub(crate) fn is_holding(&self, p: u32) -> bool
        requires { p < length self.now.owns }
        ensures { result ≡ has_first (own_at self.now.owns p).held }
    {
        !self.locals[p as usize].held.is_empty()
    }

    /// Increments the number of process `p`.
    pub(crate) fn count(&mut self, p: u32)
        requires there { p < length self.old.owns }
        requires few { (own_at self.old.owns p).number + 1 < 2 ^ 64 }
        ensures { self.new ≡ with_own self.old p (counted (own_at self.old.owns p)) }
    {
        self.locals[p as usize].number += 1;
    }

    /// Process `p` holds a token alone, to hand it out in pieces from number 0 on.
    pub(crate) fn hold(&mut self, p: u32, token: Token)
        requires { p < length self.old.owns }
        ensures { self.new ≡ with_own self.old p (holding token) }
    {
        let local = &mut self.locals[p as usize];
        local.number = 0;
        local.held.clear();
        local.held.push(token).unwrap();
    }

    /// Process `p` takes the first token of channel `c` to those that it holds. Refused, nothing
    /// changes.
    pub(crate) fn gather(&mut self, p: u32, c: u32) -> Result<(), NoMemory>
        requires there { p < length self.old.owns }
        requires token { CanTake self.old c }
        requires room { length (tokens_at self.old.queues c) ≤ (queue_at self.old.queues c).room }
        ensures ok { OnGiven result (self.new
            ≡ with_own (without_first self.old c)
            p (gathering (own_at self.old.owns p) (first_or credit (tokens_at self.old.queues c)))) }
        ensures err { OnErr result (self.new ≡ self.old) }
    {
        let token = self.take(c);
        match self.locals[p as usize].gather(token) {
            Ok(()) => Ok(()),
            Err((token, want)) => {
                self.put_back(c, token);
                Err(want)
            }
        }
    }

    /// Process `p` takes the first token of channel `c` to those that it holds, with a trap in
    /// place of its outcome. Refused, nothing changes.
    pub(crate) fn gather_trapped(&mut self, p: u32, c: u32, trap: Trap) -> Result<(), NoMemory>
        requires there { p < length self.old.owns }
        requires token { CanTake self.old c }
        requires room { length (tokens_at self.old.queues c) ≤ (queue_at self.old.queues c).room }
        ensures ok { OnGiven result (self.new
            ≡ with_own (without_first self.old c)
            p (gathering (own_at self.old.owns p)
            (record (first_or credit (tokens_at self.old.queues c)) { body = Trapped trap }))) }
        ensures err { OnErr result (self.new ≡ self.old) }
    {
        let Token { tags, body } = self.take(c);
        let trapped = Token {
            tags,
            body: Outcome::Trapped(trap),
        };
        match self.locals[p as usize].gather(trapped) {
            Ok(()) => Ok(()),
            Err((token, want)) => {
                self.put_back(c, token.with_body(body));
                Err(want)
            }
        }
    }

    /// Returns true exactly if process `p` holds the token that is expected.
    pub(crate) fn holds_expected(&self, p: u32) -> bool
        requires { p < length self.now.owns }
        ensures { result
            ≡ has_number (own_at self.now.owns p).number (own_at self.now.owns p).held }
    {
        self.locals[p as usize].expected_place().is_some()
    }

    /// Removes the token that process `p` holds and that is expected, and increments its number.
    pub(crate) fn pop_expected(&mut self, p: u32) -> Token
        requires there { p < length self.old.owns }
        requires due { has_number (own_at self.old.owns p).number (own_at self.old.owns p).held
            ≡ true }
        requires few { (own_at self.old.owns p).number + 1 < 2 ^ 64 }
        ensures token { result
            ≡ pick_number (own_at self.old.owns p).number (own_at self.old.owns p).held }
        ensures after { self.new ≡ with_own self.old p (after_release (own_at self.old.owns p)) }
    {
        let local = &mut self.locals[p as usize];
        let place = local.expected_place().unwrap();
        let token = local.held.remove(place);
        local.number += 1;
        token
    }

    /// Clears the local state of process `p`.
    pub(crate) fn clear(&mut self, p: u32)
        requires { p < length self.old.owns }
        ensures { self.new ≡ with_own self.old p fresh }
    {
        let local = &mut self.locals[p as usize];
        local.number = 0;
        local.held.clear();
    }

    /// Increments the number of process `p`, if it has more pieces to hand out; otherwise clears
    /// its local state.
    pub(crate) fn pass_piece(&mut self, p: u32, more: bool)
        requires there { p < length self.old.owns }
        requires few { (own_at self.old.owns p).number + 1 < 2 ^ 64 }
        ensures { self.new
            ≡ with_own self.old p (cond more (counted (own_at self.old.owns p)) fresh) }
    {
        if more {
            self.count(p);
        } else {
            self.clear(p);
        }
    }

    /// Drops all tokens that process `p` holds.
    pub(crate) fn release(&mut self, p: u32)
        requires { p < length self.old.owns }
        ensures { self.new ≡ with_own self.old p (released (own_at self.old.owns p)) }
    {
        self.locals[p as usize].held.clear();
    }
}
