// The rules of rows.

ghost use Rattle.std.specs.Prelude.{◌≡◌, ◌<◌, ◌≤◌, ◌^◌, slice_index};
ghost use Rattle.p3l_base.specs.Limits.{most_processors};
ghost use Rattle.p3l_skel.specs.Numbers.{joined_procs};
ghost use Rattle.p3l_model.specs.Costed.{IsSharing};
ghost use Rattle.p3l_model.specs.Least.{part_bound, capped};
ghost use Rattle.p3l_cert.specs.Rows.{AreRows};
ghost use Rattle.p3l_cert.specs.Rule.{needed, stages_rule, workers_step, workers_rule, low_of, run_of, segments_step, segments_rule, loop_rule, rule_of};
ghost use Rattle.p3l_cert.specs.Usable.{IsUsable};

use crate::cert::{Key, Row};
use crate::find::needed;
use p3l_model::{FoldCost, NodeCost, Sharing, Span};

// The stages of a pipe.
fn stages_rule(rows: &[Row], bound: u128, cap: u32, parts: &[u32]) -> Result<u32, Key>
    requires rows { AreRows rows.now }
    requires cap { cap ≤ most_processors }
    ensures { result ≡ stages_rule (needed rows.now) bound cap 0 parts.now }
{
    let mut before = 0;
    for part in parts {
        let least = needed(
            rows,
            Key {
                node: *part,
                bound,
                cap,
            },
        )?;
        before = (before + least).min(cap + 1);
    }
    Ok(before)
}

/// The service time within which the part of this number of workers has to stay.
pub fn part_bound(sharing: Sharing, bound: u128, workers: u32) -> u128
    requires sharing { IsSharing sharing }
    requires some { 1 ≤ workers }
    requires workers { workers ≤ most_processors }
    requires bound { bound < 2 ^ 110 }
    ensures { result ≡ part_bound sharing bound workers }
{
    match sharing {
        Sharing::Items => workers as u128 * bound,
        Sharing::Elements { count } => bound / (count as u128).div_ceil(workers as u128),
    }
}

// With `workers` workers, where fewer have come to `best` at least.
fn workers_step(
    rows: &[Row],
    part: u32,
    sharing: Sharing,
    bound: u128,
    cap: u32,
    workers: u32,
    best: u32,
) -> Result<u32, Key>
    requires rows { AreRows rows.now }
    requires sharing { IsSharing sharing }
    requires some { 1 ≤ workers }
    requires workers { workers ≤ most_processors }
    requires bound { bound < 2 ^ 110 }
    ensures { result
        ≡ workers_step (needed rows.now) part (part_bound sharing bound) cap workers best }
{
    let least = needed(
        rows,
        Key {
            node: part,
            bound: part_bound(sharing, bound, workers),
            cap: cap.saturating_sub(2) / workers,
        },
    )?;
    Ok(best.min(2 + workers * least))
}

// With any lawful number of workers that may fit.
fn workers_rule(
    rows: &[Row],
    part: u32,
    sharing: Sharing,
    span: Span,
    bound: u128,
    cap: u32,
) -> Result<u32, Key>
    requires rows { AreRows rows.now }
    requires sharing { IsSharing sharing }
    requires low { span.low ≤ most_processors }
    requires bound { bound < 2 ^ 110 }
    requires cap { cap ≤ most_processors }
    ensures { result
        ≡ workers_rule (needed rows.now) part (part_bound sharing bound) cap (low_of span)
        (run_of span cap) }
{
    let first = span.low.max(1);
    let end = (span.high.min(cap.saturating_sub(2)) + 1).max(first);
    let mut best = cap + 1;
    for workers in first..end {
        best = workers_step(rows, part, sharing, bound, cap, workers, best)?;
    }
    Ok(best)
}

// With `segments` segments.
fn segments_step(span: Span, fold: &FoldCost, bound: u128, cap: u32, segments: u32) -> u32
    requires some { 1 ≤ segments }
    requires few { segments ≤ most_processors }
    requires cap { cap ≤ most_processors }
    ensures { result ≡ segments_step span fold.now bound cap segments }
{
    if span.low <= segments && segments <= span.high && fold.service(segments) <= bound {
        return joined_procs(segments);
    }
    cap + 1
}

// The processes of a reduce with this number of segments.
fn joined_procs(segments: u32) -> u32
    requires { segments ≤ most_processors }
    ensures { result ≡ joined_procs segments }
{
    if segments == 1 {
        return 1;
    }
    2 * segments
}

// With any lawful number of segments.
#[tactic(auto, unfolding(crate::specs::Rule::segments_rule, p3l_model::specs::Least::least_over))]
fn segments_rule(span: Span, fold: &FoldCost, bound: u128, cap: u32) -> u32
    requires { cap ≤ most_processors }
    ensures { result ≡ segments_rule span fold.now bound cap }
{
    let mut best = cap + 1;
    for power in 0..10u32 {
        best = best.min(segments_step(span, fold, bound, cap, 1 << power));
    }
    best
}

// A loop whose body stays within a bound.
fn loop_rule(rows: &[Row], body: u32, bound: u128, cap: u32) -> Result<u32, Key>
    requires rows { AreRows rows.now }
    requires cap { cap ≤ most_processors }
    requires room { 3 ≤ cap }
    ensures { result ≡ loop_rule (needed rows.now) body bound cap }
{
    let least = needed(
        rows,
        Key {
            node: body,
            bound,
            cap: cap - 2,
        },
    )?;
    Ok((2 + least).min(cap + 1))
}

/// The first of some parts, and 0 where there is none.
pub fn first_of(parts: &[u32]) -> u32
    ensures { result ≡ slice_index parts.now 0 }
{
    parts.first().copied().unwrap_or(0)
}

/// The number that the rule of a node of this cost finds by the rows of its parts, or the first row
/// that it needs and isn't there.
#[tactic(auto, unfolding(crate::specs::Rule::rule_of))]
pub fn rule_of(
    rows: &[Row],
    cost: &NodeCost,
    parts: &[u32],
    bound: u128,
    cap: u32,
) -> Result<u32, Key>
    requires rows { AreRows rows.now }
    requires cost { IsUsable cost.now }
    requires bound { bound < 2 ^ 110 }
    requires cap { cap ≤ most_processors }
    ensures { result ≡ rule_of (needed rows.now) cost.now parts.now bound cap }
{
    match cost {
        NodeCost::Unit { service } => {
            if *service <= bound {
                return Ok(1);
            }
            Ok(cap + 1)
        }
        NodeCost::Stages => stages_rule(rows, bound, cap, parts),
        NodeCost::Workers {
            span,
            sharing,
            ends,
        } => {
            if *ends <= bound {
                return workers_rule(rows, first_of(parts), *sharing, *span, bound, cap);
            }
            Ok(cap + 1)
        }
        NodeCost::Segments { span, fold } => Ok(segments_rule(*span, fold, bound, cap)),
        NodeCost::Loop { turns, ends } => {
            if *ends <= bound && 3 <= cap {
                return loop_rule(rows, first_of(parts), bound / *turns as u128, cap);
            }
            Ok(cap + 1)
        }
    }
}
