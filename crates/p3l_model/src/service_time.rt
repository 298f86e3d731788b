// The service time of a tree: the time from one item to the next, where items never end.

ghost use Rattle.std.specs.Prelude.{◌≡◌, ◌<◌, ◌≤◌};
ghost use Rattle.std.specs.List.{Contains};
ghost use Rattle.p3l_skel.specs.Tree.{node_at};
ghost use Rattle.p3l_skel.specs.Counts.{HasLawfulCounts, outside, count_of};
ghost use Rattle.p3l_skel.specs.Lawful.{IsLawfulTree};
ghost use Rattle.p3l_cost.specs.Costs.{AreCostsOf};
ghost use Rattle.p3l_model.specs.NodeCost.{never, timed};
ghost use Rattle.p3l_model.specs.Service.{service, service_by, service_row};
ghost use Rattle.p3l_model.specs.Timed.{IsTimed, HasWorkers};

use crate::cost::{
    NEVER, Sharing, element_count, farm_time, fold_cost, loop_time, map_time, number_of, unit_time,
};
use crate::workers::workers;
use p3l_cost::Costs;
use p3l_skel::counts::outside_parts;
use p3l_skel::tree::NESTING;
use p3l_skel::{Counts, Form, Node, Tree};

/// The service time of a node outside units, in ticks.
pub fn service(tree: &Tree, costs: &Costs, counts: &Counts, node: u32) -> u128
    requires tree { IsLawfulTree tree.now }
    requires costs { AreCostsOf tree.now costs.now }
    requires counts { HasLawfulCounts tree.now counts.now.list }
    requires outside { Contains (outside tree.now) node }
    ensures number { result ≡ service tree.now costs.now counts.now.list node }
    ensures small { result < never }
{
    service_from(tree, costs, counts, NESTING, node)
}

// The service time of a node and of `levels` levels below it.
fn service_from(tree: &Tree, costs: &Costs, counts: &Counts, levels: u32, number: u32) -> u128
    requires tree { IsLawfulTree tree.now }
    requires costs { AreCostsOf tree.now costs.now }
    requires timed { IsTimed tree.now costs.now (count_of tree.now counts.now.list) levels number }
    ensures number { result
        ≡ service_by tree.now costs.now (count_of tree.now counts.now.list) levels number }
    ensures small { result < never }
{
    if levels == 0 {
        return 0;
    }
    let Some(node) = tree.node(number) else {
        return 0;
    };
    let mut inner: u128 = 0;
    for part in outside_parts(node) {
        inner = inner.max(service_from(tree, costs, counts, levels - 1, *part));
    }
    let count = workers(tree, counts, number);
    service_over(tree, costs, number, node, count, inner)
}

// The service time of a node with `count` workers, where the slowest of its parts outside units has
// `inner`, as far as it counts.
fn service_over(
    tree: &Tree,
    costs: &Costs,
    number: u32,
    node: &Node,
    count: u32,
    inner: u128,
) -> u128
    requires node { node.now ≡ node_at tree.now number }
    requires workers { HasWorkers node.now.form count }
    requires inner { inner ≤ never }
    ensures { result ≡ timed (service_row tree.now costs.now number node.now.form count inner) }
{
    match &node.form {
        Form::Seq | Form::Comp => unit_time(tree, costs, number, node),
        Form::Pipe => inner,
        Form::Farm { .. } => {
            let ends = farm_time(costs, node);
            ends.max(Sharing::Items.share(count, inner))
        }
        Form::Map { cut, .. } => {
            let ends = map_time(tree, costs, number, node, cut);
            let sharing = Sharing::Elements {
                count: element_count(cut),
            };
            ends.max(sharing.share(count, inner))
        }
        Form::Reduce { len, elem, .. } => {
            fold_cost(tree, costs, node, *len, *elem).service(count)
        }
        Form::Loop { .. } => {
            let turns = number_of(&costs.turns, node.module);
            let ends = loop_time(tree, costs, node, turns);
            ends.max((turns as u128).saturating_mul(inner)).min(NEVER)
        }
    }
}
