// The ticks of work that each process has for one item of the stream.

ghost use Rattle.std.specs.Prelude.{◌≡◌, ◌≤◌, ◌+◌, ◌^◌, map, slice_index};
ghost use Rattle.p3l_base.specs.Memory.{IfGiven};
ghost use Rattle.p3l_skel.specs.Tree.{node_at};
ghost use Rattle.p3l_export.specs.Loads.{firing_price, firings_row, load_of, loads_of, ticks_row, token_ticks};

use crate::rates::{capped, elements_of, expected_turns, rates};
use p3l_base::NoMemory;
use p3l_cost::Costs;
use p3l_firing::{Net, Proc, ProcKind};
use p3l_model::ticks::transfer;
use p3l_skel::{Counts, Tree};
use p3l_timed::price::price;
use std::alloc::Global;

/// The price of a process, as far as it counts.
#[tactic(auto, using(crate::proofs::LoadSteps::capped_timed))]
pub(crate) fn firing_price(tree: &Tree, costs: &Costs, process: &Proc) -> u64
    ensures { result ≡ firing_price tree.now costs.now process.now }
{
    capped(price(tree, costs, process))
}

/// The words that a node takes.
fn ins_of(tree: &Tree, number: u32) -> u32
    ensures { result ≡ (node_at tree.now number).ins }
{
    match tree.node(number) {
        Some(node) => node.ins,
        None => 0,
    }
}

/// The words that a node gives.
fn outs_of(tree: &Tree, number: u32) -> u32
    ensures { result ≡ (node_at tree.now number).outs }
{
    match tree.node(number) {
        Some(node) => node.outs,
        None => 0,
    }
}

/// The ticks of a firing of a process. The source and the sink have no price: they hand a token of
/// the root on or take it.
fn firing_ticks(tree: &Tree, costs: &Costs, process: &Proc) -> u64
    ensures { result ≡ ticks_row process.now.kind tree.now costs.now process.now }
{
    match process.kind {
        ProcKind::Source => capped(transfer(costs, ins_of(tree, 0) as u64)),
        ProcKind::Sink => capped(transfer(costs, outs_of(tree, 0) as u64)),
        ProcKind::Run
        | ProcKind::Emit
        | ProcKind::Collect
        | ProcKind::Scatter
        | ProcKind::Gather
        | ProcKind::Split
        | ProcKind::FoldGather
        | ProcKind::Join
        | ProcKind::Head
        | ProcKind::Tail => firing_price(tree, costs, process),
    }
}

/// The count of firings of a process for one token of its node.
fn firings(tree: &Tree, costs: &Costs, process: &Proc) -> u64
    ensures { result ≡ firings_row process.now.kind tree.now costs.now process.now }
{
    match process.kind {
        ProcKind::Source
        | ProcKind::Sink
        | ProcKind::Run
        | ProcKind::Emit
        | ProcKind::Collect
        | ProcKind::Join => 1,
        ProcKind::Scatter | ProcKind::Gather => 1 + elements_of(tree, process.node),
        ProcKind::Split => 1 + process.outs.as_slice().len() as u64,
        ProcKind::FoldGather => 1 + process.ins.as_slice().len() as u64,
        ProcKind::Head => expected_turns(tree, costs, process.node) as u64,
        ProcKind::Tail => 1 + expected_turns(tree, costs, process.node) as u64,
    }
}

/// The ticks of a process for one token of its node.
fn token_ticks(tree: &Tree, costs: &Costs, process: &Proc) -> u64
    ensures { result ≡ token_ticks tree.now costs.now process.now }
{
    let ticks = firing_ticks(tree, costs, process);
    capped(ticks as u128 * firings(tree, costs, process) as u128)
}

/// The rate of a node, and 0 where it has none.
fn rate_at(rates: &[u64], number: u32) -> u64
    ensures { result ≡ slice_index rates.now number }
{
    rates.get(number as usize).copied().unwrap_or(0)
}

/// The load of a process, where the rates of the nodes are known.
fn load(tree: &Tree, costs: &Costs, rates: &[u64], process: &Proc) -> u64
    ensures { result ≡ load_of tree.now costs.now rates.now process.now }
{
    let ticks = token_ticks(tree, costs, process);
    let rate = rate_at(rates, process.node);
    capped(ticks as u128 * rate as u128 / 65_536)
}

/// The loads of these processes, where the rates of the nodes are known.
fn loads_at(
    alloc: Global,
    tree: &Tree,
    costs: &Costs,
    rates: &[u64],
    procs: &[Proc],
) -> Result<Vec<u64>, NoMemory>
    ensures { IfGiven result (λ list. list.items
        ≡ map (load_of tree.now costs.now rates.now) procs.now) }
{
    let mut loads = Vec::new(alloc);
    for process in procs {
        loads.push(load(tree, costs, rates, process))?;
    }
    Ok(loads)
}

/// The loads of the processes of a net, by their numbers.
pub(crate) fn loads(
    alloc: Global,
    tree: &Tree,
    counts: &Counts,
    costs: &Costs,
    net: &Net,
) -> Result<Vec<u64>, NoMemory>
    ensures { IfGiven result (λ list. list.items
        ≡ loads_of tree.now counts.now.list costs.now net.now) }
{
    let found = rates(alloc, tree, counts, costs)?;
    let procs = net.procs.as_slice();
    loads_at(alloc, tree, costs, found.as_slice(), procs)
}
