// The keys of the rows that a certificate needs.

ghost use Rattle.std.specs.Prelude.{◌≡◌, ◌<◌, ◌≤◌, ◌^◌, ◌++◌, map};
ghost use Rattle.p3l_base.specs.Memory.{IfGiven, OnGiven};
ghost use Rattle.std.specs.List.Sorted.{IsPermutation};
ghost use Rattle.p3l_base.specs.Limits.{most_processors};
ghost use Rattle.p3l_skel.specs.Lawful.{IsLawfulTree};
ghost use Rattle.p3l_cost.specs.Costs.{AreCostsOf};
ghost use Rattle.p3l_model.specs.Costed.{IsSharing};
ghost use Rattle.p3l_model.specs.Least.{part_bound};
ghost use Rattle.p3l_cert.specs.Keys.{worker_keys, dependencies_of, depends_on, keys_from, AreSorted, IsSmall};
ghost use Rattle.p3l_cert.specs.Rule.{key, low_of, run_of};
ghost use Rattle.p3l_cert.specs.Table.{IsTable};
ghost use Rattle.p3l_cert.specs.Usable.{IsUsable};

use crate::cert::Key;
use crate::rule::{first_of, part_bound};
use crate::table::cost_in;
use p3l_base::{List, NoMemory};
use p3l_cost::Costs;
use p3l_model::{NodeCost, Sharing, Span};
use p3l_skel::Tree;
use std::alloc::Global;

// The keys of the stages of a pipe.
fn stage_keys(alloc: Global, parts: &[u32], bound: u128, cap: u32) -> Result<List<Key>, NoMemory>
    ensures { IfGiven result (λ keys. keys ≡ map (λ p. key p bound cap) parts.now) }
{
    let mut keys = List::new(alloc);
    for part in parts {
        keys.push(Key {
            node: *part,
            bound,
            cap,
        })?;
    }
    Ok(keys)
}

// The keys of the part for each lawful number of workers that may fit.
fn worker_keys(
    alloc: Global,
    part: u32,
    sharing: Sharing,
    span: Span,
    bound: u128,
    cap: u32,
) -> Result<List<Key>, NoMemory>
    requires sharing { IsSharing sharing }
    requires low { span.low ≤ most_processors }
    requires bound { bound < 2 ^ 110 }
    requires cap { cap ≤ most_processors }
    ensures { IfGiven result (λ keys. keys
        ≡ worker_keys part (part_bound sharing bound) cap (low_of span) (run_of span cap)) }
{
    let room = cap.saturating_sub(2);
    let first = span.low.max(1);
    let end = (span.high.min(room) + 1).max(first);
    let mut keys = List::new(alloc);
    for workers in first..end {
        keys.push(Key {
            node: part,
            bound: part_bound(sharing, bound, workers),
            cap: room / workers,
        })?;
    }
    Ok(keys)
}

// The keys on which the rule of a node of this cost depends.
#[tactic(auto, unfolding(crate::specs::Keys::dependencies_of))]
fn dependencies_of(
    alloc: Global,
    cost: &NodeCost,
    parts: &[u32],
    bound: u128,
    cap: u32,
) -> Result<List<Key>, NoMemory>
    requires cost { IsUsable cost.now }
    requires bound { bound < 2 ^ 110 }
    requires cap { cap ≤ most_processors }
    ensures { IfGiven result (λ keys. keys ≡ dependencies_of cost.now parts.now bound cap) }
{
    match cost {
        NodeCost::Unit { .. } | NodeCost::Segments { .. } => Ok(List::new(alloc)),
        NodeCost::Stages => stage_keys(alloc, parts, bound, cap),
        NodeCost::Workers {
            span,
            sharing,
            ends,
        } => {
            if *ends <= bound {
                return worker_keys(alloc, first_of(parts), *sharing, *span, bound, cap);
            }
            Ok(List::new(alloc))
        }
        NodeCost::Loop { turns, ends } => {
            let mut keys = List::new(alloc);
            if *ends <= bound && 3 <= cap {
                keys.push(Key {
                    node: first_of(parts),
                    bound: bound / *turns as u128,
                    cap: cap - 2,
                })?;
            }
            Ok(keys)
        }
    }
}

// The keys on which the rule of a key depends.
#[tactic(auto, unfolding(crate::specs::Keys::depends_on))]
fn depends_on(
    alloc: Global,
    tree: &Tree,
    costs: &Costs,
    table: &[Option<NodeCost>],
    key: Key,
) -> Result<List<Key>, NoMemory>
    requires tree { IsLawfulTree tree.now }
    requires costs { AreCostsOf tree.now costs.now }
    requires table { IsTable tree.now costs.now table.now }
    requires key { IsSmall key }
    ensures { IfGiven result (λ keys. keys ≡ depends_on tree.now costs.now key) }
{
    let Some(cost) = cost_in(table, key.node) else {
        return Ok(List::new(alloc));
    };
    match tree.node(key.node) {
        Some(node) => dependencies_of(alloc, cost, node.parts.as_slice(), key.bound, key.cap),
        None => Ok(List::new(alloc)),
    }
}

/// Sorts keys.
pub fn sort(keys: &mut Vec<Key>)
    ensures permutation { IsPermutation keys.old.items keys.new.items }
    ensures sorted { AreSorted keys.new.items }
{
    keys.sort_unstable();
}

/// Puts a key and all that it depends on after others, as deep as `levels` levels.
#[tactic(auto, unfolding(crate::specs::Keys::keys_from))]
pub fn push_keys(
    alloc: Global,
    tree: &Tree,
    costs: &Costs,
    table: &[Option<NodeCost>],
    levels: u32,
    key: Key,
    keys: &mut Vec<Key>,
) -> Result<(), NoMemory>
    requires tree { IsLawfulTree tree.now }
    requires costs { AreCostsOf tree.now costs.now }
    requires table { IsTable tree.now costs.now table.now }
    requires key { IsSmall key }
    ensures { OnGiven result (keys.new.items
        ≡ keys.old.items ++ keys_from tree.now costs.now levels key) }
{
    if levels == 0 {
        return Ok(());
    }
    keys.push(key)?;
    let depends = depends_on(alloc, tree, costs, table, key)?;
    for part in depends.as_slice() {
        push_keys(alloc, tree, costs, table, levels - 1, *part, keys)?;
    }
    Ok(())
}
