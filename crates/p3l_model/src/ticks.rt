// The ticks of tokens and of sequential nodes.

ghost use Rattle.std.specs.Prelude.{◌≡◌, ◌<◌, ◌^◌};
ghost use Rattle.p3l_model.specs.NodeCost.{timed};
ghost use Rattle.p3l_model.specs.Service.{ticks, ticks_row, ticks_to, transfer};

use crate::cost::{NEVER, element_count, number_of};
use p3l_cost::Costs;
use p3l_skel::tree::NESTING;
use p3l_skel::{Form, Tree};

/// The ticks in which a token of `words` words is taken or handed on.
pub fn transfer(costs: &Costs, words: u64) -> u128
    ensures value { result ≡ transfer costs.now words }
    ensures small { result < 2 ^ 97 }
{
    costs.setup as u128 + costs.word as u128 * words as u128
}

/// The ticks of an item in a sequential node, as far as they count.
pub fn ticks(tree: &Tree, costs: &Costs, number: u32) -> u128
    ensures { result ≡ timed (ticks tree.now costs.now number) }
{
    ticks_from(tree, costs, NESTING, number)
}

// The ticks of a node, as far as `levels` levels show and they count.
fn ticks_from(tree: &Tree, costs: &Costs, levels: u32, number: u32) -> u128
    ensures { result ≡ timed (ticks_to tree.now costs.now levels number) }
{
    if levels == 0 {
        return 0;
    }
    let Some(node) = tree.node(number) else {
        return 0;
    };
    let mut inner: u128 = 0;
    for part in node.parts.as_slice() {
        inner = inner
            .saturating_add(ticks_from(tree, costs, levels - 1, *part))
            .min(NEVER);
    }
    ticks_over(&node.form, number_of(&costs.ticks, node.module), inner)
}

// The ticks of a node of this form, whose module has `own` and whose parts have `inner` in all, as
// far as they count.
fn ticks_over(form: &Form, own: u32, inner: u128) -> u128
    ensures { result ≡ timed (ticks_row form.now own inner) }
{
    match form {
        Form::Seq => own as u128,
        Form::Comp => inner.min(NEVER),
        Form::Map { cut, .. } => (element_count(cut) as u128)
            .saturating_mul(inner)
            .min(NEVER),
        Form::Reduce { len, .. } => (len.saturating_sub(1) as u128)
            .saturating_mul(inner)
            .min(NEVER),
        Form::Pipe | Form::Farm { .. } | Form::Loop { .. } => 0,
    }
}
