// The walk down the tree that takes the first counts within a service time and a number of
// processes.

ghost use Rattle.std.specs.Prelude.{◌≡◌, ◌<◌, ◌≤◌, ◌+◌, ◌-◌, ◌/◌, ◌^◌, ℕ, min, IfSome, IfNone, slice_index_or, sum_by};
ghost use Rattle.p3l_base.specs.Memory.{IfGiven};
ghost use Rattle.p3l_base.specs.Limits.{most_processors};
ghost use Rattle.p3l_skel.specs.Lawful.{IsLawfulTree};
ghost use Rattle.p3l_skel.specs.Numbers.{joined_procs};
ghost use Rattle.p3l_cost.specs.Costs.{AreCostsOf};
ghost use Rattle.p3l_model.specs.NodeCost.{never, node_cost, segments_service};
ghost use Rattle.p3l_model.specs.Costed.{IsIn, AreSegments, IsSharing, costed, slowest};
ghost use Rattle.p3l_model.specs.declared.cost.NodeCost.TheVariants as cost;
ghost use Rattle.p3l_alloc.specs.Table.{IsTableFrom};
ghost use Rattle.p3l_alloc.specs.Walk.{first_within, least_of, part_time, CanServe, AddsFirst, IsFirstCount, IsFirstSegments, IsWithin};

use crate::entry::{can_segment, power_of_two, segments_procs, soonest};
use crate::table::{first_part, parts_of, row_in};
use p3l_base::{List, NoMemory};
use p3l_cost::Costs;
use p3l_model::{FoldCost, NEVER, NodeCost, Sharing, Span, node_cost};
use p3l_skel::Tree;

/// The first number of processes with which a row stays within a time; past the row where it has
/// none.
pub fn first_within(row: &[u128], time: u128) -> usize
    ensures { result ≡ first_within time row.now }
{
    for (processes, entry) in row.iter().enumerate() {
        if *entry <= time {
            return processes;
        }
    }
    row.len()
}

// The processes with which these stages stay within a time, each with as few as it can.
fn least_of_all(tree: &Tree, rows: &[List<u128>], parts: &[u32], time: u128) -> u64
    ensures { result ≡ min (sum_by (least_of tree.now rows.now time) parts.now) (2 ^ 64 - 1) }
{
    let mut sum: u64 = 0;
    for part in parts {
        sum = sum.saturating_add(first_within(row_in(tree, rows, *part), time) as u64);
    }
    sum
}

// The time within which the part of this number of workers has to stay, as far as times are
// counted.
fn part_time(sharing: Sharing, time: u128, workers: u32) -> u128
    requires some { 1 ≤ workers }
    requires sharing { IsSharing sharing }
    ensures { result ≡ part_time sharing time workers }
{
    let workers = workers as u128;
    let within = match sharing {
        Sharing::Items => time.saturating_mul(workers),
        Sharing::Elements { count } => time / (count as u128).div_ceil(workers),
    };
    within.min(NEVER - 1)
}

// The first number of workers with which the part can stay within its time.
fn first_workers(
    span: Span,
    sharing: Sharing,
    part: &[u128],
    time: u128,
    processes: u32,
) -> Option<u32>
    requires processes { processes ≤ most_processors }
    requires sharing { IsSharing sharing }
    ensures found { IfSome result (IsFirstCount span sharing part.now time processes) }
    ensures none { IfNone result ((m : ℕ) → IsIn span m → m + 2 ≤ processes
        → part_time sharing time m < slice_index_or part.now ((processes - 2) / m) never) }
{
    let room = processes.saturating_sub(2);
    let most = span.high.min(room);
    for workers in span.low.max(1)..most + 1 {
        if soonest(part, room / workers) <= part_time(sharing, time, workers) {
            return Some(workers);
        }
    }
    None
}

// The first number of segments that stays within a time and a number of processes.
fn first_segments(span: Span, fold: &FoldCost, time: u128, processes: u32) -> Option<u32>
    requires processes { processes ≤ most_processors }
    requires time { time < never }
    ensures found { IfSome result (IsFirstSegments span fold.now time processes) }
    ensures none { IfNone result ((m : ℕ) → AreSegments span m → joined_procs m ≤ processes
        → time < segments_service fold.now m) }
{
    for level in 0..10u32 {
        let segments = power_of_two(level);
        if can_segment(span, segments, processes) && fold.service(segments) <= time {
            return Some(segments);
        }
    }
    None
}

/// Adds the first counts of a node with which it stays within a time and a number of processes;
/// gives how many processes they take.
#[cycle(walk)]
pub fn first_counts(
    tree: &Tree,
    costs: &Costs,
    rows: &[List<u128>],
    most: u32,
    levels: u32,
    node: u32,
    time: u128,
    processes: u32,
    counts: &mut List<u32>,
) -> Result<u32, NoMemory>
    requires tree { IsLawfulTree tree.now }
    requires costs { AreCostsOf tree.now costs.now }
    requires rows { IsTableFrom tree.now costs.now most rows.now 0 }
    requires most { most ≤ most_processors }
    requires processes { processes ≤ most }
    requires levels { IsWithin tree.now levels node }
    requires time { time < never }
    requires slow { slowest (costed tree.now costs.now node) < never }
    requires can { CanServe (costed tree.now costs.now node) time processes }
    ensures { IfGiven result (AddsFirst (costed tree.now costs.now node)
        time processes counts.old counts.new) }
{
    if levels == 0 {
        return Ok(0);
    }
    let first = first_part(tree, node);
    match node_cost(tree, costs, node) {
        NodeCost::Unit { .. } => Ok(1),
        NodeCost::Stages => {
            stages_counts(
                tree, costs, rows, most, levels, node, time, processes, counts,
            )
        }
        NodeCost::Workers { span, sharing, .. } => {
            let row = row_in(tree, rows, first);
            let Some(workers) = first_workers(span, sharing, row, time, processes) else {
                return Ok(0);
            };
            counts.push(workers)?;
            let within = part_time(sharing, time, workers);
            let each = (processes - 2) / workers;
            let used = first_counts(
                tree,
                costs,
                rows,
                most,
                levels - 1,
                first,
                within,
                each,
                counts,
            )?;
            Ok(2 + workers * used)
        }
        NodeCost::Segments { span, fold } => {
            let Some(segments) = first_segments(span, &fold, time, processes) else {
                return Ok(0);
            };
            counts.push(segments)?;
            Ok(segments_procs(segments) as u32)
        }
        NodeCost::Loop { turns, .. } => {
            let within = time / turns as u128;
            let used = first_counts(
                tree,
                costs,
                rows,
                most,
                levels - 1,
                first,
                within,
                processes - 2,
                counts,
            )?;
            Ok(2 + used)
        }
    }
}

// The same for the stages of a pipe: each leaves what those after it need at least.
#[cycle(walk)]
fn stages_counts(
    tree: &Tree,
    costs: &Costs,
    rows: &[List<u128>],
    most: u32,
    levels: u32,
    node: u32,
    time: u128,
    processes: u32,
    counts: &mut List<u32>,
) -> Result<u32, NoMemory>
    requires tree { IsLawfulTree tree.now }
    requires costs { AreCostsOf tree.now costs.now }
    requires rows { IsTableFrom tree.now costs.now most rows.now 0 }
    requires most { most ≤ most_processors }
    requires processes { processes ≤ most }
    requires levels { IsWithin tree.now levels node }
    requires time { time < never }
    requires slow { slowest (costed tree.now costs.now node) < never }
    requires can { CanServe (costed tree.now costs.now node) time processes }
    requires pipe { node_cost tree.now costs.now node ≡ cost.Stages }
    ensures { IfGiven result (AddsFirst (costed tree.now costs.now node)
        time processes counts.old counts.new) }
{
    let parts = parts_of(tree, node);
    let mut later = least_of_all(tree, rows, parts, time);
    let mut left = processes;
    for part in parts {
        later -= first_within(row_in(tree, rows, *part), time) as u64;
        let given = left - later as u32;
        left -= first_counts(
            tree,
            costs,
            rows,
            most,
            levels - 1,
            *part,
            time,
            given,
            counts,
        )?;
    }
    Ok(processes - left)
}
