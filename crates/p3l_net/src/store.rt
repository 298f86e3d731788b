// The store of a machine: the tokens of a net, and the steps that its firings are made of.

ghost use Rattle.std.specs.Prelude.{◌≡◌, ◌<◌, ◌+◌, ◌^◌, length, Some, IsTrue, slice_get, is_some};
ghost use Rattle.p3l_base.specs.Memory.{IfGiven};
ghost use Rattle.p3l_firing.specs.State.{chan_at};
ghost use Rattle.p3l_firing.specs.Typed.{IsTyped};
ghost use Rattle.p3l_net.specs.Machine.{started};
ghost use Rattle.p3l_net.specs.Shot.{IsHeld, restored, shot_of};
ghost use Rattle.p3l_skel.specs.Tree.{node_at};
ghost use Rattle.p3l_net.specs.Steps.{ticked, item_sent, one_emitted};

use crate::channel::{self, Channel};
use crate::local_state::{self, LocalState};
use p3l_base::{NoMemory, Outcome, Words};
use p3l_firing::token::is_trap;
use p3l_firing::{Net, Proc, Shot};
use p3l_skel::outcome::copied;
use p3l_skel::{Node, Tree};
use std::alloc::Global;
use std::marker::Model;

/// A net with its tokens. Contracts see all of it.
#[derive(Drop)]
pub(crate) struct Store<'t> {
    pub(crate) tree: &'t Tree,
    pub(crate) net: Net,
    pub(crate) channels: Vec<Channel>,
    pub(crate) locals: Vec<LocalState>,
    pub(crate) inbox: Option<Words>,
    pub(crate) fired: u64,
    pub(crate) sent: u64,
    pub(crate) emitted: u64,
    pub(crate) trapped: bool,
}

impl<'t> Model for Store<'t> {
    ghost use Rattle.p3l_net.specs.Machine.{Seen};

    ghost Value = { Seen };

    ghost view = { λ it. record { tree = it.tree.now; net = it.net; queues = it.channels.items; owns = it.locals.items; inbox = it.inbox; fired = it.fired; sent = it.sent; emitted = it.emitted; trapped = it.trapped } };
}

impl<'t> Store<'t> {
    /// A net in which nothing has fired. All channels are empty but for their credits.
    pub(crate) fn start(alloc: Global, tree: &'t Tree, net: Net) -> Result<Store<'t>, NoMemory>
        requires { IsTyped tree.now net }
        ensures { IfGiven result (λ store. store ≡ started tree.now net) }
    {
        let channels = channel::open_all(alloc, net.chans.as_slice())?;
        let locals = local_state::new_all(alloc, net.procs.len())?;
        Ok(Store {
            tree,
            net,
            channels,
            locals,
            inbox: None,
            fired: 0,
            sent: 0,
            emitted: 0,
            trapped: false,
        })
    }

    /// The state that is to be restored.
    pub(crate) fn restore(
        alloc: Global,
        tree: &'t Tree,
        net: Net,
        shot: Shot,
    ) -> Result<Store<'t>, NoMemory>
        requires { IsHeld net shot }
        ensures { IfGiven result (λ store. store ≡ restored tree.now net shot) }
    {
        let channels = channel::restore_all(alloc, net.chans.as_slice(), shot.chans.as_slice())?;
        let locals = local_state::restore_all(alloc, shot.owns.as_slice())?;
        Ok(Store {
            tree,
            net,
            channels,
            locals,
            inbox: shot.inbox,
            fired: 0,
            sent: shot.sent,
            emitted: shot.emitted,
            trapped: false,
        })
    }

    // The item in the inbox, as it is saved.
    fn saved_inbox(&self, alloc: Global) -> Result<Option<Words>, NoMemory>
        ensures { IfGiven result (λ inbox. inbox ≡ self.now.inbox) }
    {
        match &self.inbox {
            Some(item) => Ok(Some(copied(alloc, item)?)),
            None => Ok(None),
        }
    }

    /// Saves the state.
    pub(crate) fn save(&self, alloc: Global) -> Result<Shot, NoMemory>
        ensures { IfGiven result (λ shot. shot ≡ shot_of self.now) }
    {
        Ok(Shot {
            chans: channel::save_all(alloc, self.channels.as_slice())?,
            owns: local_state::save_all(alloc, self.locals.as_slice())?,
            inbox: self.saved_inbox(alloc)?,
            sent: self.sent,
            emitted: self.emitted,
        })
    }

    /// The process of this number.
    pub(crate) fn process(&self, p: u32) -> &Proc
        requires { p < length self.now.net.procs }
        ensures { slice_get self.now.net.procs p ≡ Some result.now }
    {
        &self.net.procs.as_slice()[p as usize]
    }

    /// The node of this number.
    pub(crate) fn node(&self, number: u32) -> &'t Node
        requires { number < length self.now.tree.nodes }
        ensures { result.now ≡ node_at self.now.tree number }
    {
        self.tree.node(number).unwrap()
    }

    /// The capacity of a channel.
    pub(crate) fn room(&self, c: u32) -> u32
        requires { c < length self.now.net.chans }
        ensures { result ≡ (chan_at self.now.net c).cap }
    {
        self.net.chans.as_slice()[c as usize].cap
    }

    /// Counts one firing more.
    pub(crate) fn tick(&mut self)
        requires { self.old.fired < 2 ^ 63 }
        ensures { self.new ≡ ticked self.old }
    {
        self.fired += 1;
    }

    /// Puts an item into the empty inbox, for the source to send.
    pub(crate) fn offer(&mut self, item: Words)
        ensures { self.new ≡ record self.old { inbox = Some item } }
    {
        self.inbox = Some(item);
    }

    /// Takes the item out of the inbox, and counts it as sent.
    pub(crate) fn next_item(&mut self) -> Words
        requires some { IsTrue (is_some self.old.inbox) }
        requires few { self.old.sent + 1 < 2 ^ 64 }
        ensures item { self.old.inbox ≡ Some result }
        ensures after { self.new ≡ item_sent self.old }
    {
        let item = self.inbox.take().unwrap();
        self.sent += 1;
        item
    }

    /// Counts an outcome as emitted.
    pub(crate) fn emit(&mut self, outcome: &Outcome)
        requires { self.old.emitted + 1 < 2 ^ 64 }
        ensures { self.new ≡ one_emitted self.old outcome.now }
    {
        self.emitted += 1;
        self.trapped = is_trap(outcome);
    }
}
