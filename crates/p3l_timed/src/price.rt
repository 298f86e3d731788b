// Prices: the cost of a firing of each process.

ghost use Rattle.std.specs.Prelude.{◌≡◌, ◌+◌, ◌*◌, ◌<◌, ◌^◌, length, max};
ghost use Rattle.p3l_base.specs.Memory.{IfGiven};
ghost use Rattle.std.specs.Int.{div_ceil};
ghost use Rattle.p3l_skel.specs.Tree.{node_at, part_at};
ghost use Rattle.p3l_firing.specs.Nodes.{elem_of};
ghost use Rattle.p3l_model.specs.NodeCost.{timed};
ghost use Rattle.p3l_model.specs.Service.{fold_service, join_service, transfer, unit_service};
ghost use Rattle.p3l_timed.specs.Price.{counted, counted_prices, len_of, part_ticks, price_of, run_price};

use p3l_base::NoMemory;
use p3l_cost::Costs;
use p3l_firing::{Net, Proc, ProcKind};
use p3l_model::NEVER;
use p3l_model::ticks::{ticks, transfer};
use p3l_skel::{Form, Tree};
use std::alloc::Global;

/// The greatest price that a timer counts, which stands for every greater one: no linked net has
/// such prices.
const MOST_PRICE: u128 = (1 << 48) - 1;

// The words that a node takes, and 0 for no node.
fn ins_of(tree: &Tree, number: u32) -> u32
    ensures { result ≡ (node_at tree.now number).ins }
{
    match tree.node(number) {
        Some(node) => node.ins,
        None => 0,
    }
}

// The words that a node gives, and 0 for no node.
fn outs_of(tree: &Tree, number: u32) -> u32
    ensures { result ≡ (node_at tree.now number).outs }
{
    match tree.node(number) {
        Some(node) => node.outs,
        None => 0,
    }
}

// The number of a node's part.
fn part_of(tree: &Tree, number: u32, k: usize) -> u32
    ensures { result ≡ part_at tree.now number k }
{
    match tree.node(number) {
        Some(node) => node.part(k),
        None => 0,
    }
}

// The count of elements that a node has, if it is a reduce.
fn len_of(tree: &Tree, number: u32) -> u32
    ensures { result ≡ len_of (node_at tree.now number).form }
{
    match tree.node(number) {
        Some(node) => match &node.form {
            Form::Reduce { len, .. } => *len,
            _ => 0,
        },
        None => 0,
    }
}

// The words of a node's elements, if it is a reduce.
fn elem_of(tree: &Tree, number: u32) -> u32
    ensures { result ≡ elem_of (node_at tree.now number).form }
{
    match tree.node(number) {
        Some(node) => match &node.form {
            Form::Reduce { elem, .. } => *elem,
            _ => 0,
        },
        None => 0,
    }
}

// The ticks of a node's part, as far as they count.
fn part_ticks(tree: &Tree, costs: &Costs, number: u32, k: usize) -> u128
    ensures { result ≡ timed (part_ticks tree.now costs.now number k) }
{
    ticks(tree, costs, part_of(tree, number, k))
}

// The time of a process that runs a node whole.
fn unit_price(tree: &Tree, costs: &Costs, number: u32) -> u128
    ensures { result ≡ timed (unit_service tree.now costs.now number) }
{
    let taken = transfer(costs, ins_of(tree, number) as u64);
    let given = transfer(costs, outs_of(tree, number) as u64);
    ticks(tree, costs, number)
        .saturating_add(taken + given)
        .min(NEVER)
}

// The time of a process that folds `len` elements of a node.
fn fold_price(tree: &Tree, costs: &Costs, number: u32, len: u32) -> u128
    ensures { result ≡ timed (fold_service (transfer costs.now) len
        (elem_of (node_at tree.now number).form) (part_ticks tree.now costs.now number 0)) }
{
    let elem = elem_of(tree, number) as u64;
    let ends = transfer(costs, len as u64 * elem) + transfer(costs, elem);
    (len.saturating_sub(1) as u128)
        .saturating_mul(part_ticks(tree, costs, number, 0))
        .saturating_add(ends)
        .min(NEVER)
}

// The time of a process that runs a node whole, or folds `arg` elements of it where `arg` isn't 0.
fn run_price(tree: &Tree, costs: &Costs, number: u32, arg: u32) -> u128
    ensures { result ≡ timed (run_price tree.now costs.now number arg) }
{
    if arg == 0 {
        unit_price(tree, costs, number)
    } else {
        fold_price(tree, costs, number, arg)
    }
}

// The time of a process that sends one of `segments` segments of a node, of which the longest
// counts.
fn split_price(tree: &Tree, costs: &Costs, number: u32, segments: usize) -> u128
    ensures { result ≡ timed (transfer costs.now
        (div_ceil (len_of (node_at tree.now number).form) (max 1 segments)
        * elem_of (node_at tree.now number).form)) }
{
    let segments = segments.max(1) as u64;
    let longest = (len_of(tree, number) as u64).div_ceil(segments);
    transfer(costs, longest * elem_of(tree, number) as u64).min(NEVER)
}

// The time of a process that joins two results of a node.
fn join_price(tree: &Tree, costs: &Costs, number: u32) -> u128
    ensures { result ≡ timed (join_service (transfer costs.now)
        (elem_of (node_at tree.now number).form) (part_ticks tree.now costs.now number 0)) }
{
    let elem = transfer(costs, elem_of(tree, number) as u64);
    part_ticks(tree, costs, number, 0)
        .saturating_add(3 * elem)
        .min(NEVER)
}

// The time of a process that tests the condition of a node.
fn tail_price(tree: &Tree, costs: &Costs, number: u32) -> u128
    ensures { result ≡ timed (part_ticks tree.now costs.now number 1
        + 2 * transfer costs.now (node_at tree.now number).ins) }
{
    let token = transfer(costs, ins_of(tree, number) as u64);
    part_ticks(tree, costs, number, 1)
        .saturating_add(2 * token)
        .min(NEVER)
}

/// The ticks of a firing of a process, as far as they count.
pub fn price(tree: &Tree, costs: &Costs, process: &Proc) -> u128
    ensures { result ≡ timed (price_of tree.now costs.now process.now) }
{
    let node = process.node;
    match process.kind {
        ProcKind::Source | ProcKind::Sink | ProcKind::FoldGather => 0,
        ProcKind::Run => run_price(tree, costs, node, process.arg),
        ProcKind::Emit | ProcKind::Head => 2 * transfer(costs, ins_of(tree, node) as u64),
        ProcKind::Collect => 2 * transfer(costs, outs_of(tree, node) as u64),
        ProcKind::Scatter => transfer(costs, ins_of(tree, part_of(tree, node, 0)) as u64),
        ProcKind::Gather => transfer(costs, outs_of(tree, part_of(tree, node, 0)) as u64),
        ProcKind::Split => split_price(tree, costs, node, process.outs.len()),
        ProcKind::Join => join_price(tree, costs, node),
        ProcKind::Tail => tail_price(tree, costs, node),
    }
}

// The ticks of a firing of a process, as far as a timer counts them.
fn counted_price(tree: &Tree, costs: &Costs, process: &Proc) -> u128
    ensures { result ≡ counted (price_of tree.now costs.now process.now) }
{
    price(tree, costs, process).min(MOST_PRICE)
}

/// The prices of the processes of a net, by their numbers, as far as a timer counts them.
pub fn prices(alloc: Global, tree: &Tree, costs: &Costs, net: &Net) -> Result<Vec<u128>, NoMemory>
    ensures { IfGiven result (λ prices. prices.items ≡ counted_prices tree.now costs.now net.now) }
{
    let mut prices = Vec::new(alloc);
    for process in net.procs.as_slice() {
        prices.push(counted_price(tree, costs, process))?;
    }
    Ok(prices)
}
