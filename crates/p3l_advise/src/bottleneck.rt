// The bottleneck of a tree, and the part of its time that makes it so.

ghost use Rattle.std.specs.Prelude.{◌≡◌, ◌==◌, ◌<◌, ◌≤◌, ◌+◌, ◌*◌, ◌^◌, ◌∷◌, ℕ, [], find, slice_index};
ghost use Rattle.std.specs.List.{Contains};
ghost use Rattle.p3l_skel.specs.Counts.{HasLawfulCounts, outside, outside_from};
ghost use Rattle.p3l_skel.specs.Lawful.{IsLawfulTree};
ghost use Rattle.p3l_skel.specs.Tree.{node_at};
ghost use Rattle.p3l_cost.specs.Costs.{AreCostsOf};
ghost use Rattle.p3l_model.specs.NodeCost.{never, timed};
ghost use Rattle.p3l_model.specs.Timed.{HasWorkers};
ghost use Rattle.p3l_model.specs.Service.{service, transfer};
ghost use Rattle.p3l_advise.specs.Bottleneck.{at_once, bottleneck, ends_of, in_turn, is_stage, reduce_term, segments_term, stages_from, term_row};

use p3l_cost::Costs;
use p3l_model::{FoldCost, NEVER, NodeCost, node_cost, service};
use p3l_skel::counts::outside_parts;
use p3l_skel::tree::NESTING;
use p3l_skel::{Counts, Form, Node, Tree};

/// The parts of a node's own time.
#[derive(Clone, Copy, Debug, Drop, PartialEq, Eq)]
pub enum Term {
    /// Takes tokens.
    Reading,
    /// Works on them, or has its parts do so.
    Work,
    /// Hands tokens on.
    Writing,
}

/// The ticks in which a token of this many words is taken or handed on.
pub fn token_time(costs: &Costs, words: u64) -> u128
    ensures value { result ≡ transfer costs.now words }
    ensures small { result < 2 ^ 97 }
{
    costs.setup as u128 + costs.word as u128 * words as u128
}

/// The greatest part of the time of one process, which reads, works and writes in turn.
fn in_turn(time: u128, reading: u128, writing: u128) -> Term
    requires reading { reading < 2 ^ 97 }
    requires writing { writing < 2 ^ 97 }
    ensures { result ≡ in_turn time reading writing }
{
    let work = time.saturating_sub(reading + writing);
    if writing.max(work) <= reading {
        Term::Reading
    } else if work <= writing {
        Term::Writing
    } else {
        Term::Work
    }
}

/// The part that takes the whole time, where one process reads and another writes.
fn at_once(time: u128, reading: u128, ends: u128) -> Term
    ensures { result ≡ at_once time reading ends }
{
    if time == reading {
        Term::Reading
    } else if time == ends {
        Term::Writing
    } else {
        Term::Work
    }
}

/// The greater of the times of a node's two ends, of a node that has ends.
fn ends_of(cost: &NodeCost) -> u128
    ensures { result ≡ ends_of cost.now }
{
    match cost {
        NodeCost::Workers { ends, .. } | NodeCost::Loop { ends, .. } => *ends,
        NodeCost::Unit { .. } | NodeCost::Stages | NodeCost::Segments { .. } => 0,
    }
}

/// The time of a process that takes a token and hands on several.
fn scatter_time(costs: &Costs, words: u64, pieces: u64, each: u64) -> u128
    ensures { result ≡ timed (transfer costs.now words + pieces * transfer costs.now each) }
{
    let handed = (pieces as u128).saturating_mul(token_time(costs, each));
    handed.saturating_add(token_time(costs, words)).min(NEVER)
}

/// The part of a reduce's time with this many segments.
fn fold_term(costs: &Costs, time: u128, fold: &FoldCost, count: u32) -> Term
    requires time { time < never }
    requires some { 1 ≤ count }
    ensures { result
        ≡ reduce_term costs.now time fold.now.len fold.now.elem fold.now.operator count }
{
    let elem = fold.elem as u64;
    let whole = fold.len as u64 * elem;
    if count == 1 {
        return in_turn(time, token_time(costs, whole), token_time(costs, elem));
    }
    let long = fold.len.div_ceil(count) as u64 * elem;
    let splits = scatter_time(costs, whole, count as u64, long);
    let joins = fold
        .operator
        .saturating_add(3 * token_time(costs, elem))
        .min(NEVER);
    at_once(time, splits, joins)
}

/// The part of a reduce's time with this many segments, of a node of the tree.
fn reduce_term(cost: &NodeCost, costs: &Costs, time: u128, count: u32) -> Term
    requires time { time < never }
    requires some { 1 ≤ count }
    ensures { result ≡ segments_term cost.now costs.now time count }
{
    match cost {
        NodeCost::Segments { fold, .. } => fold_term(costs, time, fold, count),
        _ => Term::Work,
    }
}

/// The words that a part of a node takes, and 0 where it has no such part.
fn part_ins(tree: &Tree, node: &Node) -> u32
    ensures { result ≡ (node_at tree.now (slice_index node.now.parts 0)).ins }
{
    match tree.node(node.part(0)) {
        Some(part) => part.ins,
        None => 0,
    }
}

/// The time of a loop's end that lets items in.
fn head_time(costs: &Costs, node: &Node) -> u128
    ensures { result ≡ timed (2 * (slice_index costs.now.turns node.now.module
        * transfer costs.now node.now.ins)) }
{
    let turns = costs
        .turns
        .as_slice()
        .get(node.module as usize)
        .copied()
        .unwrap_or(0);
    let token = token_time(costs, node.ins as u64);
    (turns as u128)
        .saturating_mul(token)
        .saturating_mul(2)
        .min(NEVER)
}

/// The part of a node's own time that makes its service time, which is `time` with `count` workers.
pub fn term_of(tree: &Tree, costs: &Costs, number: u32, node: &Node, time: u128, count: u32) -> Term
    requires node { node.now ≡ node_at tree.now number }
    requires time { time < never }
    requires count { HasWorkers node.now.form count }
    ensures { result ≡ term_row tree.now costs.now number node.now.form time count }
{
    let reading = token_time(costs, node.ins as u64);
    let cost = node_cost(tree, costs, number);
    match &node.form {
        Form::Seq | Form::Comp => in_turn(time, reading, token_time(costs, node.outs as u64)),
        Form::Pipe => Term::Work,
        Form::Farm { .. } => at_once(time, 2 * reading, ends_of(&cost)),
        Form::Map { cut, .. } => {
            let pieces = cut.first as u64 * cut.second as u64;
            let each = part_ins(tree, node) as u64;
            let scatters = scatter_time(costs, node.ins as u64, pieces, each);
            at_once(time, scatters, ends_of(&cost))
        }
        Form::Reduce { .. } => reduce_term(&cost, costs, time, count),
        Form::Loop { .. } => at_once(time, head_time(costs, node), ends_of(&cost)),
    }
}

/// Returns true exactly if a node of this form is a stage of its own, as all but pipes are.
pub fn is_stage(form: &Form) -> bool
    ensures { result ≡ is_stage form.now }
{
    match form {
        Form::Pipe => false,
        Form::Seq
        | Form::Comp
        | Form::Farm { .. }
        | Form::Map { .. }
        | Form::Reduce { .. }
        | Form::Loop { .. } => true,
    }
}

/// The node itself, if its service time is this.
fn takes_time(tree: &Tree, costs: &Costs, counts: &Counts, number: u32, time: u128) -> Option<u32>
    requires tree { IsLawfulTree tree.now }
    requires costs { AreCostsOf tree.now costs.now }
    requires counts { HasLawfulCounts tree.now counts.now.list }
    requires outside { Contains (outside tree.now) number }
    ensures { result
        ≡ find (λ k. service tree.now costs.now counts.now.list k == time) (number ∷ []) }
{
    if service(tree, costs, counts, number) == time {
        Some(number)
    } else {
        None
    }
}

/// The first stage of a node, down to `levels` levels, with this service time.
fn stage_with(
    tree: &Tree,
    costs: &Costs,
    counts: &Counts,
    levels: u32,
    number: u32,
    time: u128,
) -> Option<u32>
    requires tree { IsLawfulTree tree.now }
    requires costs { AreCostsOf tree.now costs.now }
    requires counts { HasLawfulCounts tree.now counts.now.list }
    requires outside { (node : ℕ) → Contains (outside_from tree.now levels number) node
        → Contains (outside tree.now) node }
    ensures { result ≡ find (λ k. service tree.now costs.now counts.now.list k == time)
        (stages_from tree.now levels number) }
{
    let Some(node) = tree.node(number) else {
        return None;
    };
    if levels == 0 {
        return takes_time(tree, costs, counts, number, time);
    }
    if is_stage(&node.form) {
        return takes_time(tree, costs, counts, number, time);
    }
    for part in outside_parts(node) {
        if let Some(found) = stage_with(tree, costs, counts, levels - 1, *part, time) {
            return Some(found);
        }
    }
    None
}

/// The bottleneck: the first stage whose service time is that of the whole.
pub fn bottleneck(tree: &Tree, costs: &Costs, counts: &Counts) -> u32
    requires tree { IsLawfulTree tree.now }
    requires costs { AreCostsOf tree.now costs.now }
    requires counts { HasLawfulCounts tree.now counts.now.list }
    ensures { result ≡ bottleneck tree.now costs.now counts.now.list }
{
    let time = service(tree, costs, counts, 0);
    stage_with(tree, costs, counts, NESTING, 0, time).unwrap_or(0)
}
