// The costs of a tree's nodes.

ghost use Rattle.std.specs.Prelude.{◌≡◌, ◌<◌, ◌≤◌, ◌+◌, ◌*◌, ◌^◌, min, max, slice_index};
ghost use Rattle.p3l_base.specs.Cut.{element_count};
ghost use Rattle.p3l_base.specs.Limits.{most_workers};
ghost use Rattle.p3l_skel.specs.Tree.{node_at};
ghost use Rattle.p3l_model.specs.Service.{transfer, ticks, unit_service, map_ends, fold_service, split_service, join_service};
ghost use Rattle.p3l_model.specs.NodeCost.{never, timed, shared, segments_service, span_up_to, node_cost_row, node_cost};

use crate::ticks::{ticks, transfer};
use p3l_base::limits::MOST_WORKERS;
use p3l_base::{Cut, List};
use p3l_cost::Costs;
use p3l_skel::{Form, Node, Tree};

/// Later than any service time of a tree.
pub const NEVER: u128 = 1 << 100;

/// The numbers of workers that a node may have, from the least to the greatest; of segments only
/// the powers of two among them.
#[derive(Clone, Copy, Debug, Drop, PartialEq, Eq)]
pub struct Span {
    pub low: u32,
    pub high: u32,
}

/// A way in which workers share the work of their node.
#[derive(Clone, Copy, Debug, Drop, PartialEq, Eq)]
pub enum Sharing {
    /// Each takes a whole item in turn.
    Items,
    /// Each takes its share of the elements of an item.
    Elements { count: u64 },
}

/// The costs of a reduce of `len` elements of `elem` words each.
#[derive(Clone, Copy, Debug, Drop, PartialEq, Eq)]
pub struct FoldCost {
    pub setup: u32,
    pub word: u32,
    pub len: u32,
    pub elem: u32,
    pub operator: u128,
}

/// The costs of a node besides its parts outside units. All times are in ticks; one that is later
/// than any service time counts as `NEVER`.
#[derive(Clone, Copy, Debug, Drop, PartialEq, Eq)]
pub enum NodeCost {
    /// One process, with its service time.
    Unit {
        service: u128,
    },
    /// The parts of a pipe, each on its own processes.
    Stages,
    /// The workers of a farm or a map, with the greater of the service times of its two ends.
    Workers {
        span: Span,
        sharing: Sharing,
        ends: u128,
    },
    /// The segments of a reduce.
    Segments {
        span: Span,
        fold: FoldCost,
    },
    /// A loop, with the turns that are expected of it and the greater of the service times of its
    /// two ends.
    Loop {
        turns: u32,
        ends: u128,
    },
}

impl Sharing {
    /// The service time of `workers` workers, where their part has this one.
    pub fn share(self, workers: u32, part: u128) -> u128
        requires some { 1 ≤ workers }
        requires part { part ≤ never }
        ensures { result ≡ timed (shared self workers part) }
    {
        match self {
            Sharing::Items => part.div_ceil(workers as u128).min(NEVER),
            Sharing::Elements { count } => (count as u128)
                .div_ceil(workers as u128)
                .saturating_mul(part)
                .min(NEVER),
        }
    }
}

impl FoldCost {
    // The service time of a process that folds `len` elements.
    fn fold(&self, len: u32) -> u128
        ensures { result
            ≡ timed (fold_service (λ w. self.now.setup + self.now.word * w)
            len self.now.elem self.now.operator) }
    {
        let elem = self.elem as u64;
        let ends = self.transfer(len as u64 * elem) + self.transfer(elem);
        let steps = len.saturating_sub(1) as u128;
        steps
            .saturating_mul(self.operator)
            .saturating_add(ends)
            .min(NEVER)
    }

    // The service time of the process that splits the whole into `segments` segments, the longest
    // of which has `long` elements.
    fn split(&self, segments: u32, long: u32) -> u128
        ensures { result
            ≡ timed (split_service (λ w. self.now.setup + self.now.word * w)
            (self.now.len * self.now.elem) (long * self.now.elem) segments) }
    {
        let elem = self.elem as u64;
        let pieces = (segments as u128).saturating_mul(self.transfer(long as u64 * elem));
        pieces
            .saturating_add(self.transfer(self.len as u64 * elem))
            .min(NEVER)
    }

    // The service time of a process that joins the results of two segments.
    fn join(&self) -> u128
        ensures { result
            ≡ timed (join_service (λ w. self.now.setup + self.now.word * w)
            self.now.elem self.now.operator) }
    {
        self.operator
            .saturating_add(3 * self.transfer(self.elem as u64))
            .min(NEVER)
    }

    // The ticks in which a token of `words` words is taken or handed on.
    fn transfer(&self, words: u64) -> u128
        ensures value { result ≡ self.now.setup + self.now.word * words }
        ensures small { result < 2 ^ 97 }
    {
        self.setup as u128 + self.word as u128 * words as u128
    }

    /// The service time with `segments` segments.
    pub fn service(&self, segments: u32) -> u128
        requires { 1 ≤ segments }
        ensures { result ≡ timed (segments_service self.now segments) }
    {
        if segments == 1 {
            return self.fold(self.len);
        }
        let long = self.len.div_ceil(segments);
        self.split(segments, long)
            .max(self.fold(long))
            .max(self.join())
    }
}

// The ticks in which a token of a node is taken or handed on.
fn token_time(costs: &Costs, words: u32) -> u128
    ensures value { result ≡ transfer costs.now words }
    ensures small { result < 2 ^ 97 }
{
    transfer(costs, words as u64)
}

/// The number of a module in a list that has one for each, and 0 past the list.
pub fn number_of(list: &List<u32>, home: u32) -> u32
    ensures { result ≡ slice_index list.now home }
{
    list.as_slice().get(home as usize).copied().unwrap_or(0)
}

/// The count of elements of a cut.
pub fn element_count(cut: &Cut) -> u64
    ensures { result ≡ element_count cut.now }
{
    cut.first as u64 * cut.second as u64
}

/// The service time of a process that runs a node.
pub fn unit_time(tree: &Tree, costs: &Costs, number: u32, node: &Node) -> u128
    requires { node.now ≡ node_at tree.now number }
    ensures { result ≡ timed (unit_service tree.now costs.now number) }
{
    let ends = token_time(costs, node.ins) + token_time(costs, node.outs);
    ticks(tree, costs, number).saturating_add(ends).min(NEVER)
}

/// The greater of the service times of a farm's two ends.
pub fn farm_time(costs: &Costs, node: &Node) -> u128
    ensures { result
        ≡ timed (max (2 * transfer costs.now node.now.ins) (2 * transfer costs.now node.now.outs)) }
{
    let ins = 2 * token_time(costs, node.ins);
    let outs = 2 * token_time(costs, node.outs);
    ins.max(outs).min(NEVER)
}

// The service time of the end of a map where the node's token has `words` words, and each of the
// elements' `each`.
fn map_end(costs: &Costs, elements: u64, words: u32, each: u32) -> u128
    ensures { result ≡ timed (transfer costs.now words + elements * transfer costs.now each) }
{
    let pieces = (elements as u128).saturating_mul(token_time(costs, each));
    pieces.saturating_add(token_time(costs, words)).min(NEVER)
}

/// The greater of the service times of a map's two ends.
pub fn map_time(tree: &Tree, costs: &Costs, number: u32, node: &Node, cut: &Cut) -> u128
    requires { node.now ≡ node_at tree.now number }
    ensures { result ≡ timed (map_ends tree.now costs.now number cut.now) }
{
    let (ins, outs) = words_of(tree, node.part(0));
    let elements = element_count(cut);
    let scatter = map_end(costs, elements, node.ins, ins);
    let gather = map_end(costs, elements, node.outs, outs);
    scatter.max(gather)
}

// The words that a node takes and gives.
fn words_of(tree: &Tree, number: u32) -> (u32, u32)
    ensures { result
        ≡ record { 0 = (node_at tree.now number).ins; 1 = (node_at tree.now number).outs } }
{
    match tree.node(number) {
        Some(node) => (node.ins, node.outs),
        None => (0, 0),
    }
}

/// The greater of the service times of a loop's two ends, with `turns` turns.
pub fn loop_time(tree: &Tree, costs: &Costs, node: &Node, turns: u32) -> u128
    ensures { result
        ≡ timed (max (2 * (turns * transfer costs.now node.now.ins))
        (turns * (ticks tree.now costs.now (slice_index node.now.parts 1)
        + 2 * transfer costs.now node.now.ins))) }
{
    let token = token_time(costs, node.ins);
    let test = ticks(tree, costs, node.part(1)).saturating_add(2 * token);
    let admits = (2 * turns as u128).saturating_mul(token);
    let tests = (turns as u128).saturating_mul(test);
    admits.max(tests).min(NEVER)
}

/// The costs of a node besides its parts.
pub fn node_cost(tree: &Tree, costs: &Costs, number: u32) -> NodeCost
    ensures { result ≡ node_cost tree.now costs.now number }
{
    match tree.node(number) {
        Some(node) => cost_over(tree, costs, number, node),
        None => NodeCost::Stages,
    }
}

// The costs of a node of the tree.
fn cost_over(tree: &Tree, costs: &Costs, number: u32, node: &Node) -> NodeCost
    requires { node.now ≡ node_at tree.now number }
    ensures { result ≡ node_cost_row tree.now costs.now number node.now.form }
{
    match &node.form {
        Form::Seq | Form::Comp => NodeCost::Unit {
            service: unit_time(tree, costs, number, node),
        },
        Form::Pipe => NodeCost::Stages,
        Form::Farm { workers } => NodeCost::Workers {
            span: span_up_to(*workers, MOST_WORKERS),
            sharing: Sharing::Items,
            ends: farm_time(costs, node),
        },
        Form::Map { workers, cut } => map_cost(tree, costs, number, node, *workers, cut),
        Form::Reduce { workers, len, elem } => NodeCost::Segments {
            span: span_up_to(*workers, (*len).min(MOST_WORKERS)),
            fold: fold_cost(tree, costs, node, *len, *elem),
        },
        Form::Loop { .. } => loop_cost(tree, costs, node),
    }
}

/// The costs of a reduce of `len` elements of `elem` words each.
pub fn fold_cost(tree: &Tree, costs: &Costs, node: &Node, len: u32, elem: u32) -> FoldCost
    ensures { result
        ≡ record {
          setup = costs.now.setup;
          word = costs.now.word;
          len = len;
          elem = elem;
          operator
              = timed (ticks tree.now costs.now (slice_index node.now.parts 0));
        } }
{
    FoldCost {
        setup: costs.setup,
        word: costs.word,
        len,
        elem,
        operator: ticks(tree, costs, node.part(0)),
    }
}

// The costs of a map.
fn map_cost(
    tree: &Tree,
    costs: &Costs,
    number: u32,
    node: &Node,
    workers: Option<u32>,
    cut: &Cut,
) -> NodeCost
    requires { node.now ≡ node_at tree.now number }
    ensures { result
        ≡ NodeCost.Workers (span_up_to workers (min (element_count cut.now) most_workers))
        (Sharing.Elements (element_count cut.now))
        (timed (map_ends tree.now costs.now number cut.now)) }
{
    let count = element_count(cut);
    NodeCost::Workers {
        span: span_up_to(workers, count.min(MOST_WORKERS as u64) as u32),
        sharing: Sharing::Elements { count },
        ends: map_time(tree, costs, number, node, cut),
    }
}

// The costs of a loop.
fn loop_cost(tree: &Tree, costs: &Costs, node: &Node) -> NodeCost
    ensures { let turns = slice_index costs.now.turns node.now.module in
        result ≡ NodeCost.Loop turns (timed (max (2 * (turns * transfer costs.now node.now.ins))
        (turns * (ticks tree.now costs.now (slice_index node.now.parts 1)
        + 2 * transfer costs.now node.now.ins)))) }
{
    let turns = number_of(&costs.turns, node.module);
    NodeCost::Loop {
        turns,
        ends: loop_time(tree, costs, node, turns),
    }
}

// The numbers from 1 on, or the clause's alone.
fn span_up_to(workers: Option<u32>, high: u32) -> Span
    ensures { result ≡ span_up_to workers high }
{
    match workers {
        None => Span { low: 1, high },
        Some(n) => Span { low: n, high: n },
    }
}
