// The numbers of small trees by the formulas of the cost model, for all numbers of workers, and the
// best of them.

use crate::trees::{Row, RowForm, Tokens, number_at};
use p3l_base::NoMemory;
use std::alloc::Global;

/// The most workers or segments that are tried: no more fit the processors.
const MOST: u32 = 12;

/// Numbers of a node: its words, its ticks in a unit, and its processes and its service time
/// outside units.
#[derive(Clone, Copy, Drop)]
struct Numbers {
    ins: u64,
    outs: u64,
    ticks: u64,
    procs: u64,
    service: u64,
}

const NOTHING: Numbers = Numbers {
    ins: 0,
    outs: 0,
    ticks: 0,
    procs: 0,
    service: 0,
};

/// Numbers of the parts of a node: all their ticks and processes, the greatest service time, and
/// the first and the last of them.
#[derive(Clone, Copy, Drop)]
struct Parts {
    ticks: u64,
    procs: u64,
    slowest: u64,
    first: Numbers,
    last: Numbers,
}

/// A node that is done, with the row of the node that it is a part of.
#[derive(Clone, Copy, Drop)]
struct Done {
    parent: u32,
    numbers: Numbers,
}

// Tells whether the parts have another one after them.
fn with_part(parts: Option<Parts>, part: Numbers) -> Parts {
    match parts {
        None => Parts {
            ticks: part.ticks,
            procs: part.procs,
            slowest: part.service,
            first: part,
            last: part,
        },
        Some(parts) => Parts {
            ticks: parts.ticks.saturating_add(part.ticks),
            procs: parts.procs.saturating_add(part.procs),
            slowest: parts.slowest.max(part.service),
            first: parts.first,
            last: part,
        },
    }
}

// The parts of a row among the nodes that are done, of which the last is first in preorder.
fn parts_of(done: &[Done], number: u32) -> Parts {
    let mut parts = None;
    for node in done.iter().rev() {
        if node.parent == number {
            parts = Some(with_part(parts, node.numbers));
        }
    }
    parts.unwrap_or(with_part(None, NOTHING))
}

impl Tokens {
    // The ticks of a token of this number of words.
    fn time(self, words: u64) -> u64 {
        (self.word as u64)
            .saturating_mul(words)
            .saturating_add(self.setup as u64)
    }
}

// The share of each, rounded up.
fn share(whole: u64, count: u64) -> u64 {
    whole.div_ceil(count.max(1))
}

// So many times a number.
fn times(count: u64, number: u64) -> u64 {
    count.saturating_mul(number)
}

fn greatest(a: u64, b: u64, c: u64) -> u64 {
    a.max(b).max(c)
}

fn ticks(row: Row, parts: Parts) -> u64 {
    match row.shape {
        RowForm::Seq => row.cost as u64,
        RowForm::Comp => parts.ticks,
        RowForm::Map { elements, .. } => times(elements as u64, parts.ticks),
        RowForm::Reduce { len, .. } => times(len.saturating_sub(1) as u64, parts.ticks),
        RowForm::Pipe | RowForm::Farm { .. } | RowForm::Loop { .. } => 0,
    }
}

fn procs(shape: RowForm, count: u64, parts: Parts) -> u64 {
    match shape {
        RowForm::Seq | RowForm::Comp => 1,
        RowForm::Pipe => parts.procs,
        RowForm::Farm { .. } | RowForm::Map { .. } => times(count, parts.procs).saturating_add(2),
        RowForm::Reduce { .. } if count == 1 => 1,
        RowForm::Reduce { .. } => times(2, count),
        RowForm::Loop { .. } => parts.procs.saturating_add(2),
    }
}

fn unit_time(tokens: Tokens, row: Row, parts: Parts) -> u64 {
    let ends = tokens
        .time(row.ins as u64)
        .saturating_add(tokens.time(row.outs as u64));
    ticks(row, parts).saturating_add(ends)
}

fn farm_time(tokens: Tokens, row: Row, count: u64, parts: Parts) -> u64 {
    greatest(
        times(2, tokens.time(row.ins as u64)),
        share(parts.slowest, count),
        times(2, tokens.time(row.outs as u64)),
    )
}

fn map_time(tokens: Tokens, row: Row, elements: u64, count: u64, parts: Parts) -> u64 {
    let taken = times(elements, tokens.time(parts.first.ins));
    let given = times(elements, tokens.time(parts.first.outs));
    greatest(
        tokens.time(row.ins as u64).saturating_add(taken),
        times(share(elements, count), parts.slowest),
        tokens.time(row.outs as u64).saturating_add(given),
    )
}

fn reduce_time(tokens: Tokens, row: Row, len: u64, count: u64, parts: Parts) -> u64 {
    if count == 1 {
        return unit_time(tokens, row, parts);
    }
    let longest = share(len, count);
    let element = tokens.time(row.outs as u64);
    let segment = tokens.time(times(longest, row.outs as u64));
    let folds = times(longest.saturating_sub(1), parts.ticks);
    greatest(
        tokens
            .time(row.ins as u64)
            .saturating_add(times(count, segment)),
        folds.saturating_add(segment).saturating_add(element),
        parts.ticks.saturating_add(times(3, element)),
    )
}

fn loop_time(tokens: Tokens, row: Row, parts: Parts) -> u64 {
    let turns = row.cost as u64;
    let both = times(2, tokens.time(row.ins as u64));
    greatest(
        times(turns, both),
        times(turns, parts.first.service),
        times(turns, parts.last.ticks.saturating_add(both)),
    )
}

fn service(tokens: Tokens, row: Row, count: u64, parts: Parts) -> u64 {
    match row.shape {
        RowForm::Seq | RowForm::Comp => unit_time(tokens, row, parts),
        RowForm::Pipe => parts.slowest,
        RowForm::Farm { .. } => farm_time(tokens, row, count, parts),
        RowForm::Map { elements, .. } => map_time(tokens, row, elements as u64, count, parts),
        RowForm::Reduce { len, .. } => reduce_time(tokens, row, len as u64, count, parts),
        RowForm::Loop { .. } => loop_time(tokens, row, parts),
    }
}

// The parts of a loop that are outside units: its body.
fn outside_of(shape: RowForm, parts: Parts) -> Parts {
    match shape {
        RowForm::Loop { .. } => Parts {
            ticks: parts.ticks,
            procs: parts.first.procs,
            slowest: parts.first.service,
            first: parts.first,
            last: parts.last,
        },
        _ => parts,
    }
}

fn numbers_of(tokens: Tokens, row: Row, count: u64, parts: Parts) -> Numbers {
    let parts = outside_of(row.shape, parts);
    Numbers {
        ins: row.ins as u64,
        outs: row.outs as u64,
        ticks: ticks(row, parts),
        procs: procs(row.shape, count, parts),
        service: service(tokens, row, count, parts),
    }
}

/// The least and the greatest number of workers or segments of a node.
#[derive(Clone, Copy, Drop)]
struct Span {
    low: u32,
    high: u32,
    segments: bool,
}

fn span_to(workers: Option<u32>, high: u32, segments: bool) -> Option<Span> {
    match workers {
        Some(count) => Some(Span {
            low: count,
            high: count,
            segments,
        }),
        None => Some(Span {
            low: 1,
            high: high.min(MOST),
            segments,
        }),
    }
}

// The numbers that a row may have, if it has one.
fn span_of(row: Row) -> Option<Span> {
    match row.shape {
        _ if row.in_unit => None,
        RowForm::Farm { workers } => span_to(workers, MOST, false),
        RowForm::Map { workers, elements } => span_to(workers, elements, false),
        RowForm::Reduce { workers, len } => span_to(workers, len, true),
        RowForm::Seq | RowForm::Comp | RowForm::Pipe | RowForm::Loop { .. } => None,
    }
}

// The spans of the rows that have a number, from the last row to the first.
fn spans_of(alloc: Global, rows: &[Row]) -> Result<Vec<Span>, NoMemory> {
    let mut spans = Vec::new(alloc);
    for row in rows.iter().rev() {
        if let Some(span) = span_of(*row) {
            spans.push(span)?;
        }
    }
    Ok(spans)
}

impl Span {
    // Counts the numbers in the span.
    fn many(self) -> u32 {
        self.high.saturating_sub(self.low).saturating_add(1)
    }

    // Returns true exactly if a number in the span is lawful: segments are as many as a power of
    // two.
    fn allows(self, count: u32) -> bool {
        !self.segments || count == 1 || count == 2 || count == 4 || count == 8
    }
}

// Counts the lists with one number of each span.
fn lists(spans: &[Span]) -> u32 {
    let mut lists: u32 = 1;
    for span in spans {
        lists = lists.saturating_mul(span.many());
    }
    lists
}

// The list of this number, where lists are numbered in their order from 0; from the last row to the first.
fn list_at(alloc: Global, spans: &[Span], number: u32) -> Result<Vec<u32>, NoMemory> {
    let mut list = Vec::new(alloc);
    let mut rest = number;
    for span in spans {
        let many = span.many();
        list.push(span.low.saturating_add(rest.checked_rem(many).unwrap_or(0)))?;
        rest = rest.checked_div(many).unwrap_or(0);
    }
    Ok(list)
}

// Returns true exactly if each number of a list is lawful.
fn are_lawful(spans: &[Span], list: &[u32]) -> bool {
    spans
        .iter()
        .zip(list.iter())
        .all(|(span, count)| span.allows(*count))
}

// Returns what the root comes to with a list of numbers, from the last row to the first.
fn root_of(alloc: Global, rows: &[Row], tokens: Tokens, list: &[u32]) -> Result<Numbers, NoMemory> {
    let mut done = Vec::new(alloc);
    let mut root = NOTHING;
    let mut place = rows.len();
    let mut taken = 0;
    for row in rows.iter().rev() {
        place = place.wrapping_sub(1);
        let mut count = 0;
        if span_of(*row).is_some() {
            count = list.get(taken).copied().unwrap_or(0);
            taken = taken.wrapping_add(1);
        }
        let parts = parts_of(done.as_slice(), number_at(place));
        root = numbers_of(tokens, *row, count as u64, parts);
        done.push(Done {
            parent: row.parent,
            numbers: root,
        })?;
    }
    Ok(root)
}

/// A list of numbers with its service time and its processes.
#[derive(Clone, Copy, Drop)]
pub struct Tried {
    number: u32,
    pub service: u64,
    pub used: u64,
}

/// All lawful lists of numbers of a tree, in their order.
pub fn try_all(alloc: Global, rows: &[Row], tokens: Tokens) -> Result<Vec<Tried>, NoMemory> {
    let spans = spans_of(alloc, rows)?;
    let mut tried = Vec::new(alloc);
    for number in 0..lists(spans.as_slice()) {
        let list = list_at(alloc, spans.as_slice(), number)?;
        if are_lawful(spans.as_slice(), list.as_slice()) {
            let root = root_of(alloc, rows, tokens, list.as_slice())?;
            tried.push(Tried {
                number,
                service: root.service,
                used: root.procs,
            })?;
        }
    }
    Ok(tried)
}

/// The numbers of workers of a list that was tried, from the last row to the first.
pub fn workers_of(alloc: Global, rows: &[Row], tried: Tried) -> Result<Vec<u32>, NoMemory> {
    let spans = spans_of(alloc, rows)?;
    list_at(alloc, spans.as_slice(), tried.number)
}

/// The fewest processes of all.
pub fn fewest(tried: &[Tried]) -> u64 {
    let mut fewest = u64::MAX;
    for one in tried {
        fewest = fewest.min(one.used);
    }
    fewest
}

// Returns true exactly if one comes before the best of those before it.
fn is_better(one: Tried, best: Option<Tried>) -> bool {
    match best {
        None => true,
        Some(best) => one.service < best.service
            || one.service == best.service && one.used < best.used,
    }
}

/// The first of the best that fit this number of processors.
pub fn best(tried: &[Tried], processors: u64) -> Option<Tried> {
    let mut best = None;
    for one in tried {
        if one.used <= processors && is_better(*one, best) {
            best = Some(*one);
        }
    }
    best
}
