// The soonest service time of a node within a number of processes, from that of its part.

ghost use Rattle.std.specs.Prelude.{◌≡◌, ◌≤◌, ◌↔◌, ◌^◌, IsTrue, slice_index_or};
ghost use Rattle.p3l_base.specs.Limits.{most_processors};
ghost use Rattle.p3l_skel.specs.Numbers.{joined_procs};
ghost use Rattle.p3l_model.specs.declared.cost.NodeCost.TheVariants as cost;
ghost use Rattle.p3l_model.specs.NodeCost.{never};
ghost use Rattle.p3l_model.specs.Costed.{Costed};
ghost use Rattle.p3l_model.specs.Costed as costs;
ghost use Rattle.p3l_alloc.specs.Soonest.{IsSoonest, HasPart, over_part, shared_time};

use p3l_model::{FoldCost, NEVER, NodeCost, Sharing, Span};

/// The entry of a row for `processes` processes; past the row none fit.
pub fn soonest(row: &[u128], processes: u32) -> u128
    ensures { result ≡ slice_index_or row.now processes never }
{
    row.get(processes as usize).copied().unwrap_or(NEVER)
}

/// The soonest service time of a node within `processes` processes, from the row of its first part.
/// Of a pipe it is that of no stages.
pub fn entry(cost: &NodeCost, part: &[u128], processes: u32) -> u128
    requires { processes ≤ most_processors }
    ensures { (a : Costed) → HasPart cost.now a processes part.now
        → IsSoonest (over_part cost.now a) processes result }
{
    match cost {
        NodeCost::Unit { service } => unit_entry(*service, processes),
        NodeCost::Stages => 0,
        NodeCost::Workers {
            span,
            sharing,
            ends,
        } => workers_entry(*span, *sharing, *ends, part, processes),
        NodeCost::Segments { span, fold } => segments_entry(*span, fold, processes),
        NodeCost::Loop { turns, ends } => loop_entry(*turns, *ends, part, processes),
    }
}

// One process is enough for a unit.
fn unit_entry(service: u128, processes: u32) -> u128
    ensures { IsSoonest (costs.Leaf service) processes result }
{
    if processes == 0 {
        return NEVER;
    }
    service.min(NEVER)
}

// The head and the tail of a loop take two processes.
fn loop_entry(turns: u32, ends: u128, body: &[u128], processes: u32) -> u128
    ensures { (a : Costed) → HasPart (cost.Loop turns ends) a processes body.now
        → IsSoonest (costs.Loop turns ends a) processes result }
{
    if processes < 2 {
        return NEVER;
    }
    let time = soonest(body, processes - 2);
    if time >= NEVER {
        return NEVER;
    }
    ends.max((turns as u128).saturating_mul(time)).min(NEVER)
}

// The service time with `workers` workers, where their part has this one.
fn shared(sharing: Sharing, ends: u128, workers: u32, part: u128) -> u128
    requires { 1 ≤ workers }
    ensures { result ≡ shared_time sharing ends workers part }
{
    if part >= NEVER {
        return NEVER;
    }
    ends.max(sharing.share(workers, part)).min(NEVER)
}

// The soonest over all numbers of workers. Two processes are the ends; of the numbers that leave
// each worker the same number of processes the last is the best.
fn workers_entry(span: Span, sharing: Sharing, ends: u128, part: &[u128], processes: u32) -> u128
    requires { processes ≤ most_processors }
    ensures { (a : Costed) → HasPart (cost.Workers span sharing ends) a processes part.now
        → IsSoonest (costs.Workers span sharing ends a) processes result }
{
    let room = processes.saturating_sub(2);
    let most = span.high.min(room);
    let mut workers = span.low.max(1);
    let mut best = NEVER;
    while workers <= most {
        let each = room / workers;
        let last = (room / each).min(span.high);
        best = best.min(shared(sharing, ends, last, soonest(part, each)));
        workers = last + 1;
    }
    best
}

/// The processes of a reduce with this number of segments.
pub fn segments_procs(segments: u32) -> u64
    ensures { result ≡ joined_procs segments }
{
    if segments == 1 {
        1
    } else {
        2 * segments as u64
    }
}

// The soonest over all numbers of segments.
fn segments_entry(span: Span, fold: &FoldCost, processes: u32) -> u128
    requires { processes ≤ most_processors }
    ensures { IsSoonest (costs.Segments span fold.now) processes result }
{
    let mut best = NEVER;
    for level in 0..10u32 {
        let segments = power_of_two(level);
        if can_segment(span, segments, processes) {
            best = best.min(fold.service(segments));
        }
    }
    best
}

/// Two to one of the first ten powers.
pub fn power_of_two(level: u32) -> u32
    requires { level ≤ 9 }
    ensures { result ≡ 2 ^ level }
{
    1 << level
}

/// Returns true exactly if a reduce may have these segments within these processes.
pub fn can_segment(span: Span, segments: u32, processes: u32) -> bool
    ensures { IsTrue result
        ↔ ((span.low ≤ segments) × (segments ≤ span.high) × (joined_procs segments ≤ processes)) }
{
    span.low <= segments && segments <= span.high && segments_procs(segments) <= processes as u64
}
