// Steps shared by processes that hand a token out in pieces and those that gather pieces.

ghost use Rattle.std.specs.Prelude.{◌≡◌, ◌<◌, ◌-◌, ◌≤◌, ◌^◌, [], ◌∷◌, length, IfOk, OnErr};
ghost use Rattle.p3l_base.specs.Memory.{OnGiven};
ghost use Rattle.p3l_base.specs.Cut.{element_count};
ghost use Rattle.p3l_firing.specs.Lists.{first_or};
ghost use Rattle.p3l_firing.specs.Nodes.{cut_of};
ghost use Rattle.p3l_firing.specs.State.{own_at, gathering, holding};
ghost use Rattle.p3l_firing.specs.Token.{credit};
ghost use Rattle.p3l_net.specs.Channel.{queue_at, tokens_at};
ghost use Rattle.p3l_net.specs.Forms.{IsMap};
ghost use Rattle.p3l_net.specs.Steps.{CanTake, ticked, without_first, with_own};

use crate::store::Store;
use crate::touched::Touched;
use p3l_base::{Cut, NoMemory};
use p3l_skel::{Form, Node};

// The cut of a map.
pub(super) fn cut_of(node: &Node) -> &Cut
    requires { IsMap node.now.form }
    ensures { result.now ≡ cut_of node.now.form }
{
    match &node.form {
        Form::Map { cut, .. } => cut,
        _ => unreachable!(),
    }
}

// The number of the last element of a cut.
pub(super) fn last_element(cut: &Cut) -> u64
    ensures { result ≡ element_count cut.now - 1 }
{
    let count = cut.first as u64 * cut.second as u64;
    count.saturating_sub(1)
}

impl<'t> Store<'t> {
    // Process `p` takes the first token of a channel, to hand it out in pieces. Returns the
    // channel touched.
    pub(super) fn take_whole(&mut self, p: u32, input: u32) -> Touched
        requires there { p < length self.old.owns }
        requires token { CanTake self.old input }
        requires count { self.old.fired < 2 ^ 63 }
        ensures after { self.new
            ≡ ticked (with_own (without_first self.old input)
            p (holding (first_or credit (tokens_at self.old.queues input)))) }
        ensures touched { result ≡ input ∷ [] }
    {
        let token = self.take(input);
        self.hold(p, token);
        self.tick();
        Touched::one(input)
    }

    // Process `p` takes the first token of a channel to those that it holds. Returns the
    // channel touched. Refused, nothing changes.
    pub(super) fn take_piece(&mut self, p: u32, input: u32) -> Result<Touched, NoMemory>
        requires there { p < length self.old.owns }
        requires token { CanTake self.old input }
        requires room { length (tokens_at self.old.queues input)
            ≤ (queue_at self.old.queues input).room }
        requires count { self.old.fired < 2 ^ 63 }
        ensures after { OnGiven result (self.new
            ≡ ticked (with_own (without_first self.old input)
            p (gathering (own_at self.old.owns p)
            (first_or credit (tokens_at self.old.queues input))))) }
        ensures touched { IfOk result (λ touched. touched ≡ input ∷ []) }
        ensures err { OnErr result (self.new ≡ self.old) }
    {
        self.gather(p, input)?;
        self.tick();
        Ok(Touched::one(input))
    }
}
