// True if costs are costs of a tree.

ghost use Rattle.std.specs.Prelude.{◌≡◌, ◌≤◌, ◌↔◌, IsTrue, slice_index};
ghost use Rattle.std.specs.List.{All};
ghost use Rattle.p3l_skel.specs.declared.tree.Node.{Node};
ghost use Rattle.p3l_base.specs.Limits.{most_cost};
ghost use Rattle.p3l_cost.specs.Costs.{AreCostsOf, IsTurns, IsWithinTurns};

use crate::costs::Costs;
use p3l_base::limits::MOST_COST;
use p3l_skel::{Form, Node, Tree};

/// Returns true exactly if there is a number for each module of a tree, all within the greatest,
/// and no loop is expected to turn more often than it may.
pub fn lawful_costs(tree: &Tree, costs: &Costs) -> bool
    ensures { IsTrue result ↔ AreCostsOf tree.now costs.now }
{
    costs.setup <= MOST_COST
        && costs.word <= MOST_COST
        && costs.ticks.len() == tree.modules.len()
        && are_few(costs.ticks.as_slice())
        && costs.turns.len() == tree.modules.len()
        && are_turns(costs.turns.as_slice())
        && turn_within(tree, costs)
}

/// Returns true exactly if no number is past the greatest.
fn are_few(numbers: &[u32]) -> bool
    ensures { IsTrue result ↔ All (λ n. n ≤ most_cost) numbers.now }
{
    numbers.iter().all(|n| *n <= MOST_COST)
}

/// Returns true exactly if all numbers are expected turns of a loop.
fn are_turns(numbers: &[u32]) -> bool
    ensures { IsTrue result ↔ All IsTurns numbers.now }
{
    numbers.iter().all(|n| 1 <= *n && *n <= MOST_COST)
}

/// Returns true exactly if each loop of a tree is expected to turn no more often than it may.
fn turn_within(tree: &Tree, costs: &Costs) -> bool
    ensures { IsTrue result
        ↔ All (λ (node : Node). IsWithinTurns node.form (slice_index costs.now.turns node.module))
        tree.now.nodes }
{
    tree.nodes
        .as_slice()
        .iter()
        .all(|node| turns_within(costs, node))
}

/// Returns true exactly if a node, if it is a loop, is expected to turn no more often than it may.
fn turns_within(costs: &Costs, node: &Node) -> bool
    ensures { IsTrue result
        ↔ IsWithinTurns node.now.form (slice_index costs.now.turns node.now.module) }
{
    match &node.form {
        Form::Loop { turns, .. } => expected(costs, node.module) <= *turns,
        _ => true,
    }
}

// The expected turns of a module, and 0 where there is none.
fn expected(costs: &Costs, home: u32) -> u32
    ensures { result ≡ slice_index costs.now.turns home }
{
    costs
        .turns
        .as_slice()
        .get(home as usize)
        .copied()
        .unwrap_or(0)
}
