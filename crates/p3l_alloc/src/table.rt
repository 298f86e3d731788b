// The table of soonest service times.

ghost use Rattle.std.specs.Prelude.{◌≡◌, ◌<◌, ◌≤◌, ◌+◌, ℕ, length, slice_index};
ghost use Rattle.p3l_base.specs.Memory.{IfGiven};
ghost use Rattle.p3l_base.specs.Limits.{most_processors};
ghost use Rattle.p3l_skel.specs.Lawful.{IsLawfulTree};
ghost use Rattle.p3l_skel.specs.Tree.{node_at};
ghost use Rattle.p3l_cost.specs.Costs.{AreCostsOf};
ghost use Rattle.p3l_model.specs.Costed.{Costed, Both, stages};
ghost use Rattle.p3l_alloc.specs.Soonest.{IsSoonest, IsRow, IsCrossing, split_time, over_part, HasPart};
ghost use Rattle.p3l_alloc.specs.Table.{IsTableFrom, row_in, IsRowFor, AreRows};

use crate::entry::{entry, soonest};
use p3l_base::{List, NoMemory};
use p3l_cost::Costs;
use p3l_model::{NodeCost, node_cost};
use p3l_skel::Tree;
use std::alloc::Global;

/// The row of a node, of a table with the rows of the nodes from the last to the first.
pub fn row_in<'a>(tree: &Tree, rows: &'a [List<u128>], node: u32) -> &'a [u128]
    ensures { result.now ≡ row_in tree.now rows.now node }
{
    let after = tree.nodes.len().saturating_sub(node as usize + 1);
    match rows.get(after) {
        Some(row) => row.as_slice(),
        None => &[],
    }
}

/// The rows of all nodes, from the last to the first, for up to `most` processes.
pub fn table(
    alloc: Global,
    tree: &Tree,
    costs: &Costs,
    most: u32,
) -> Result<List<List<u128>>, NoMemory>
    requires tree { IsLawfulTree tree.now }
    requires costs { AreCostsOf tree.now costs.now }
    requires most { most ≤ most_processors }
    ensures { IfGiven result (λ rows. IsTableFrom tree.now costs.now most rows 0) }
{
    let mut rows = List::new(alloc);
    for after in 0..tree.nodes.len() {
        let node = (tree.nodes.len() - 1 - after) as u32;
        let row = node_row(alloc, tree, costs, rows.as_slice(), node, most)?;
        rows.push(row)?;
    }
    Ok(rows)
}

// The row of a node, from those of its parts, which come after it.
fn node_row(
    alloc: Global,
    tree: &Tree,
    costs: &Costs,
    rows: &[List<u128>],
    node: u32,
    most: u32,
) -> Result<List<u128>, NoMemory>
    requires tree { IsLawfulTree tree.now }
    requires costs { AreCostsOf tree.now costs.now }
    requires node { node < length tree.now.nodes }
    requires most { most ≤ most_processors }
    requires rows { IsTableFrom tree.now costs.now most rows.now (node + 1) }
    ensures { IfGiven result (IsRowFor tree.now costs.now most node) }
{
    let cost = node_cost(tree, costs, node);
    match &cost {
        NodeCost::Stages => stages_row(alloc, tree, rows, parts_of(tree, node), most),
        _ => cost_row(
            alloc,
            &cost,
            row_in(tree, rows, first_part(tree, node)),
            most,
        ),
    }
}

/// The number of a node's first part.
pub fn first_part(tree: &Tree, node: u32) -> u32
    ensures { result ≡ slice_index (node_at tree.now node).parts 0 }
{
    match tree.node(node) {
        Some(node) => node.part(0),
        None => 0,
    }
}

/// The numbers of a node's parts.
pub fn parts_of(tree: &Tree, node: u32) -> &[u32]
    ensures { result.now ≡ (node_at tree.now node).parts }
{
    match tree.node(node) {
        Some(node) => node.parts.as_slice(),
        None => &[],
    }
}

// The row of a pipe with these stages.
fn stages_row(
    alloc: Global,
    tree: &Tree,
    rows: &[List<u128>],
    parts: &[u32],
    most: u32,
) -> Result<List<u128>, NoMemory>
    requires { most ≤ most_processors }
    ensures { IfGiven result (λ row. (below : ℕ → Costed)
        → AreRows tree.now rows.now below most parts.now
        → IsRow (stages below parts.now) most row) }
{
    let mut row = cost_row(alloc, &NodeCost::Stages, &[], most)?;
    for after in 0..parts.len() {
        let part = parts[parts.len() - 1 - after];
        row = both_row(alloc, row_in(tree, rows, part), row.as_slice(), most)?;
    }
    Ok(row)
}

// The row of a node, from that of its first part; of a pipe that of no stages.
fn cost_row(
    alloc: Global,
    cost: &NodeCost,
    part: &[u128],
    most: u32,
) -> Result<List<u128>, NoMemory>
    requires { most ≤ most_processors }
    ensures { IfGiven result (λ row. (a : Costed) → HasPart cost.now a most part.now
        → IsRow (over_part cost.now a) most row) }
{
    let mut row = Vec::new(alloc);
    for processes in 0..most + 1 {
        row.push(entry(cost, part, processes))?;
    }
    Ok(List::from_vec(row))
}

// The row of a stage and those that follow it, from their rows.
fn both_row(
    alloc: Global,
    first: &[u128],
    others: &[u128],
    most: u32,
) -> Result<List<u128>, NoMemory>
    requires { most ≤ most_processors }
    ensures { IfGiven result (λ row. (a b : Costed) → IsRow a most first.now → IsRow b most others.now
        → IsRow (Both a b) most row) }
{
    let mut row = Vec::new(alloc);
    for processes in 0..most + 1 {
        row.push(both_entry(first, others, processes))?;
    }
    Ok(List::from_vec(row))
}

// The soonest over all ways to share the processes among a stage and those that follow it. Neither
// row grows, so no share is sooner than the two where the times cross: before them the stage is the
// later, and is soonest with the most processes; after them the others are, and are soonest with
// the most that are left.
fn both_entry(first: &[u128], others: &[u128], processes: u32) -> u128
    ensures { (a b : Costed) → IsRow a processes first.now → IsRow b processes others.now
        → IsSoonest (Both a b) processes result }
{
    let given = crossing(first, others, processes);
    let from = split_time(first, others, processes, given);
    let before = split_time(first, others, processes, given.saturating_sub(1));
    from.min(before)
}

// The service time where the stage gets `given` processes and those that follow it the rest.
fn split_time(first: &[u128], others: &[u128], processes: u32, given: u32) -> u128
    requires { given ≤ processes }
    ensures { result ≡ split_time first.now others.now processes given }
{
    soonest(first, given).max(soonest(others, processes - given))
}

// The least number of processes with which the stage is no later than those that follow it, found
// by halving.
fn crossing(first: &[u128], others: &[u128], processes: u32) -> u32
    ensures { IsCrossing first.now others.now processes result }
{
    let mut low = 0;
    let mut high = processes;
    while low < high {
        let middle = low + (high - low) / 2;
        if soonest(first, middle) <= soonest(others, processes - middle) {
            high = middle;
        } else {
            low = middle + 1;
        }
    }
    low
}
