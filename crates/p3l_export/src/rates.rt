// The number of tokens that go through each node for one item of the stream.

ghost use Rattle.std.specs.Prelude.{◌≡◌, ◌≤◌, ◌+◌, ◌*◌, ◌^◌, ◌++◌, max, min};
ghost use Rattle.std.specs.Int.{div_ceil};
ghost use Rattle.std.specs.List.{flat_map};
ghost use Rattle.p3l_base.specs.Cut.{element_count};
ghost use Rattle.p3l_base.specs.Memory.{IfGiven, OnGiven};
ghost use Rattle.p3l_skel.specs.Counts.{count_of};
ghost use Rattle.p3l_skel.specs.Tree.{node_at};
ghost use Rattle.p3l_model.specs.Service.{expected_turns};
ghost use Rattle.p3l_export.specs.Rates.{capped, elements_of, part_rate, rate_inside, rates, rates_from};

use p3l_base::{Cut, NoMemory};
use p3l_cost::Costs;
use p3l_model::workers::workers;
use p3l_skel::tree::NESTING;
use p3l_skel::{Counts, Form, Tree};
use std::alloc::Global;

/// The greatest number that counts in a load.
const MOST: u128 = 1 << 62;

/// The rate of a node that gets a token for each item.
const WHOLE: u64 = 65_536;

/// A number, as far as it counts.
pub(crate) fn capped(n: u128) -> u64
    ensures { result ≡ capped n }
{
    n.min(MOST) as u64
}

/// The count of elements of a cut.
fn element_count(cut: &Cut) -> u64
    ensures value { result ≡ element_count cut.now }
    ensures few { result + 2 ≤ 2 ^ 64 }
{
    cut.first as u64 * cut.second as u64
}

/// The count of elements of a node, if it is a map.
pub(crate) fn elements_of(tree: &Tree, number: u32) -> u64
    ensures value { result ≡ elements_of (node_at tree.now number).form }
    ensures few { result + 2 ≤ 2 ^ 64 }
{
    match tree.node(number) {
        Some(node) => match &node.form {
            Form::Map { cut, .. } => element_count(cut),
            _ => 0,
        },
        None => 0,
    }
}

/// The turns that are expected of a node, if it is a loop.
pub(crate) fn expected_turns(tree: &Tree, costs: &Costs, number: u32) -> u32
    ensures { result ≡ expected_turns tree.now costs.now number }
{
    let home = match tree.node(number) {
        Some(node) => node.module,
        None => 0,
    };
    costs
        .turns
        .as_slice()
        .get(home as usize)
        .copied()
        .unwrap_or(0)
}

/// The elements of a map for each of its workers.
fn share(cut: &Cut, n: u32) -> u64
    ensures { result ≡ div_ceil (element_count cut.now) (max 1 n) }
{
    element_count(cut).div_ceil(n.max(1) as u64)
}

/// The rate of one copy of a part, in a node of this form with `n` workers and these turns.
fn part_rate(form: &Form, n: u32, turns: u32, rate: u64) -> u64
    ensures { result ≡ part_rate form.now n turns rate }
{
    match form {
        Form::Farm { .. } => rate.div_ceil(n.max(1) as u64),
        Form::Map { cut, .. } => capped(rate as u128 * share(cut, n) as u128),
        Form::Loop { .. } => capped(rate as u128 * turns as u128),
        Form::Seq | Form::Comp | Form::Pipe | Form::Reduce { .. } => rate,
    }
}

/// The rate of a part of a node.
fn rate_inside(tree: &Tree, costs: &Costs, counts: &Counts, rate: u64, number: u32) -> u64
    ensures { result
        ≡ rate_inside tree.now costs.now (count_of tree.now counts.now.list) rate number }
{
    let n = workers(tree, counts, number);
    let turns = expected_turns(tree, costs, number);
    match tree.node(number) {
        Some(node) => part_rate(&node.form, n, turns, rate),
        None => rate,
    }
}

/// The parts of a node.
fn parts_of(tree: &Tree, number: u32) -> &[u32]
    ensures { result.now ≡ (node_at tree.now number).parts }
{
    match tree.node(number) {
        Some(node) => node.parts.as_slice(),
        None => &[],
    }
}

/// Puts the rates of these nodes and of those below them after others, `levels` levels at most.
#[cycle(rating)]
fn push_parts(
    rates: &mut Vec<u64>,
    tree: &Tree,
    costs: &Costs,
    counts: &Counts,
    levels: u32,
    rate: u64,
    parts: &[u32],
) -> Result<(), NoMemory>
    ensures { OnGiven result (rates.new.items ≡ rates.old.items
        ++ flat_map (rates_from tree.now costs.now (count_of tree.now counts.now.list) levels rate)
        parts.now) }
{
    for part in parts {
        push_rates(rates, tree, costs, counts, levels, rate, *part)?;
    }
    Ok(())
}

/// Puts the rate of a node and of those below it after others, `levels` levels at most.
#[cycle(rating)]
fn push_rates(
    rates: &mut Vec<u64>,
    tree: &Tree,
    costs: &Costs,
    counts: &Counts,
    levels: u32,
    rate: u64,
    number: u32,
) -> Result<(), NoMemory>
    ensures { OnGiven result (rates.new.items ≡ rates.old.items
        ++ rates_from tree.now costs.now (count_of tree.now counts.now.list) levels rate number) }
{
    if levels == 0 {
        return Ok(());
    }
    rates.push(rate)?;
    let inside = rate_inside(tree, costs, counts, rate, number);
    let parts = parts_of(tree, number);
    push_parts(rates, tree, costs, counts, levels - 1, inside, parts)?;
    Ok(())
}

/// The rates of the nodes, by their numbers.
pub(crate) fn rates(
    alloc: Global,
    tree: &Tree,
    counts: &Counts,
    costs: &Costs,
) -> Result<Vec<u64>, NoMemory>
    ensures { IfGiven result (λ found. found.items ≡ rates tree.now counts.now.list costs.now) }
{
    let mut rates = Vec::new(alloc);
    push_rates(&mut rates, tree, costs, counts, NESTING, WHOLE, 0)?;
    Ok(rates)
}
