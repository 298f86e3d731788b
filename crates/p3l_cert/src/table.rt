// The costs of the nodes outside units, kept for all rows.

ghost use Rattle.std.specs.Prelude.{◌≡◌, ◌<◌, ◌≤◌, None, get_or, length};
ghost use Rattle.p3l_base.specs.Memory.{IfGiven};
ghost use Rattle.std.specs.Option.{option_map};
ghost use Rattle.p3l_base.specs.Limits.{most_nodes};
ghost use Rattle.p3l_skel.specs.Lawful.{IsLawfulTree};
ghost use Rattle.p3l_cost.specs.Costs.{AreCostsOf};
ghost use Rattle.p3l_cert.specs.Rows.{AreRows, IsInRange};
ghost use Rattle.p3l_cert.specs.Rule.{cost_at, rule, key_of};
ghost use Rattle.p3l_cert.specs.Table.{IsTable};

use crate::cert::{Key, Row};
use crate::rule::rule_of;
use p3l_base::{List, NoMemory};
use p3l_cost::Costs;
use p3l_model::{NodeCost, is_outside, node_cost};
use p3l_skel::Tree;
use std::alloc::Global;

// The costs of a node, if it is outside units.
#[tactic(auto, unfolding(crate::specs::Rule::cost_at))]
fn cost_at(tree: &Tree, costs: &Costs, node: u32) -> Option<NodeCost>
    requires { node < length tree.now.nodes }
    ensures { result ≡ cost_at tree.now costs.now node }
{
    if is_outside(tree, node) {
        return Some(node_cost(tree, costs, node));
    }
    None
}

/// The costs of the nodes of a tree, and none for those in units.
pub fn table(alloc: Global, tree: &Tree, costs: &Costs) -> Result<List<Option<NodeCost>>, NoMemory>
    requires { length tree.now.nodes ≤ most_nodes }
    ensures { IfGiven result (IsTable tree.now costs.now) }
{
    let mut table = List::new(alloc);
    for node in 0..tree.nodes.len() {
        table.push(cost_at(tree, costs, node as u32))?;
    }
    Ok(table)
}

/// The cost of a node in a table, and none past its end.
pub fn cost_in(table: &[Option<NodeCost>], node: u32) -> Option<&NodeCost>
    ensures { option_map (λ cost. cost.now) result ≡ get_or table.now node None }
{
    table.get(node as usize)?.as_ref()
}

/// The number that the rule of a row finds by the rows of its parts, or the first row that it needs
/// and isn't there; by a table of what the nodes cost.
#[tactic(auto, unfolding(crate::specs::Rule::rule))]
pub fn rule(
    tree: &Tree,
    costs: &Costs,
    table: &[Option<NodeCost>],
    rows: &[Row],
    row: &Row,
) -> Result<u32, Key>
    requires tree { IsLawfulTree tree.now }
    requires costs { AreCostsOf tree.now costs.now }
    requires table { IsTable tree.now costs.now table.now }
    requires rows { AreRows rows.now }
    requires row { IsInRange row.now }
    ensures { result ≡ rule tree.now costs.now rows.now (key_of row.now) }
{
    let Some(cost) = cost_in(table, row.node) else {
        return Ok(0);
    };
    match tree.node(row.node) {
        Some(node) => rule_of(rows, cost, node.parts.as_slice(), row.bound, row.cap),
        None => Ok(0),
    }
}
