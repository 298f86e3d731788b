// Numbers that are read off a tree and a net, with what stands for those that are not there.

ghost use Rattle.std.specs.Prelude.{◌≡◌, ◌+◌, ◌-◌, ◌<◌, ◌^◌, slice_index};
ghost use Rattle.p3l_skel.specs.Tree.{node_at, part_at};
ghost use Rattle.p3l_base.specs.Cut.{element_count};
ghost use Rattle.p3l_firing.specs.Nodes.{cut_of, last_element, turns_of};
ghost use Rattle.p3l_firing.specs.State.{chan_at};
ghost use Rattle.p3l_net.specs.Fitting.{most_tokens};

use p3l_base::List;
use p3l_firing::Net;
use p3l_skel::{Form, Tree};

/// Channel `k` of a list of channels, and 0 past its end.
pub(crate) fn channel(list: &List<u32>, k: usize) -> u32
    ensures { result ≡ slice_index list.now k }
{
    list.as_slice().get(k).copied().unwrap_or(0)
}

/// The count of tokens that a channel has room for.
pub(crate) fn room(net: &Net, c: u32) -> u32
    ensures { result ≡ (chan_at net.now c).cap }
{
    match net.chans.as_slice().get(c as usize) {
        Some(chan) => chan.cap,
        None => 0,
    }
}

/// Part `k` of a node, and 0 where there is none.
pub(crate) fn part(tree: &Tree, number: u32, k: usize) -> u32
    ensures { result ≡ part_at tree.now number k }
{
    match tree.node(number) {
        Some(node) => node.part(k),
        None => 0,
    }
}

/// The number of the last element of a map.
#[tactic(auto, unfolding(p3l_firing::specs::Nodes::last_element))]
pub(crate) fn last_element(tree: &Tree, number: u32) -> u64
    ensures value { result ≡ last_element tree.now number }
    ensures more { result + 1 < 2 ^ 64 }
{
    match tree.node(number) {
        Some(node) => last_of(&node.form),
        None => 0,
    }
}

// The number of the last element of a form, if it is that of a map.
fn last_of(form: &Form) -> u64
    ensures value { result ≡ element_count (cut_of form.now) - 1 }
    ensures more { result + 1 < 2 ^ 64 }
{
    match form {
        Form::Map { cut, .. } => (cut.first as u64 * cut.second as u64).saturating_sub(1),
        Form::Seq
        | Form::Comp
        | Form::Pipe
        | Form::Farm { .. }
        | Form::Reduce { .. }
        | Form::Loop { .. } => 0,
    }
}

/// The most turns of a loop.
#[tactic(auto, unfolding(p3l_firing::specs::Nodes::turns_of))]
pub(crate) fn most_turns(tree: &Tree, number: u32) -> u32
    ensures { result ≡ turns_of tree.now number }
{
    match tree.node(number) {
        Some(node) => match &node.form {
            Form::Loop { turns, .. } => *turns,
            Form::Seq
            | Form::Comp
            | Form::Pipe
            | Form::Farm { .. }
            | Form::Map { .. }
            | Form::Reduce { .. } => 0,
        },
        None => 0,
    }
}

/// The count of tokens that a loop lets in at once.
pub(crate) fn most_tokens(tree: &Tree, number: u32) -> u32
    ensures { result ≡ most_tokens (node_at tree.now number).form }
{
    match tree.node(number) {
        Some(node) => match &node.form {
            Form::Loop { tokens, .. } => *tokens,
            Form::Seq
            | Form::Comp
            | Form::Pipe
            | Form::Farm { .. }
            | Form::Map { .. }
            | Form::Reduce { .. } => 0,
        },
        None => 0,
    }
}
