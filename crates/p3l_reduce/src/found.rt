// The tokens found in a reduce: whether the flows of each join match, and what is still to come
// out of the last one.

ghost use Rattle.std.specs.Prelude.{◌≡◌, ◌+◌, ◌++◌, ◌≤◌, ◌<◌, ◌^◌};
ghost use Rattle.p3l_base.specs.Limits.{most_workers};
ghost use Rattle.p3l_base.specs.Memory.{IfGiven};
ghost use Rattle.p3l_template.specs.Finding.{bares, if_orderly};
ghost use Rattle.p3l_firing.specs.Shot.{HaveFewTags, state_of};
ghost use Rattle.p3l_reduce.specs.JoinTree.{after_node, split_ok};
ghost use Rattle.p3l_reduce.specs.Reduce.{tee};
ghost use Rattle.p3l_reduce.specs.ReduceKind.{bare_folding, found_by, found_from, seen_of};
ghost use Rattle.p3l_reduce.specs.laws.Heap.{Deep};

use crate::matched::are_matched;
use crate::segments::segment_count;
use crate::tree::tee;
use p3l_base::{List, NoMemory};
use p3l_firing::{Shot, Token};
use p3l_template::Site;
use p3l_template::bare::{add_bare, add_saved, bare_saved};
use std::alloc::Global;

// Returns true exactly if the process that sends the segments, if it holds a token, is at one of
// them.
fn is_at_segment(shot: &Shot, place: &Site, count: u32) -> bool
    ensures { let own = (state_of shot.now).own place.now.proc in
        result ≡ split_ok (bare_folding count) (bares own.held) own.number }
{
    if shot.held(place.proc as usize).len() == 0 {
        return true;
    }
    shot.number(place.proc as usize) < count as u64
}

// The tokens still to come out of the segment at place q: those that wait before its fold, and the
// one that is held for it.
fn from_segment(
    alloc: Global,
    shot: &Shot,
    place: &Site,
    count: u32,
    q: u32,
) -> Result<List<Token>, NoMemory>
    requires chans { place.now.chan + q < 2 ^ 32 }
    requires segment { count ≤ q }
    requires few { HaveFewTags shot.now }
    ensures { IfGiven result (λ list. list
        ≡ after_node (bare_folding count) (seen_of place.now count (state_of shot.now)) 0 q) }
{
    let segment = q - count;
    let mut list = List::new(alloc);
    add_saved(
        alloc,
        &mut list,
        shot.tokens(place.chan as usize + segment as usize),
    )?;
    let held = shot.held(place.proc as usize);
    if held.len() == 0 || (segment as u64) < shot.number(place.proc as usize) {
        return Ok(list);
    }
    list.push(bare_saved(alloc, &held[0]))?;
    Ok(list)
}

// The flow of place q, where these are still to come to its channel: the tokens in that channel
// come first.
fn flow_of(
    alloc: Global,
    shot: &Shot,
    place: &Site,
    count: u32,
    q: u32,
    coming: &List<Token>,
) -> Result<List<Token>, NoMemory>
    requires chans { place.now.chan + (count + q) < 2 ^ 32 }
    requires few { HaveFewTags shot.now }
    ensures { IfGiven result (λ flow. flow
        ≡ bares ((state_of shot.now).tokens (tee place.now count q)) ++ bares coming.now) }
{
    let chan = tee(place.output, place.chan + count, q);
    let mut flow = List::new(alloc);
    add_saved(alloc, &mut flow, shot.tokens(chan as usize))?;
    add_bare(alloc, &mut flow, coming.as_slice())?;
    Ok(flow)
}

// The tokens still to come to the channel of place q, with `depth` levels of joins down from it, if
// the flows of all these joins match. Two flows that match make one of their length, so that all
// flows together are no longer than twice the tokens and segments below.
fn to_come(
    alloc: Global,
    shot: &Shot,
    place: &Site,
    count: u32,
    depth: u32,
    q: u32,
) -> Result<Option<List<Token>>, NoMemory>
    requires chans { place.now.chan ≤ 1048576 }
    requires count { count ≤ most_workers }
    requires places { Deep count depth q }
    requires few { HaveFewTags shot.now }
    ensures { IfGiven result (λ pending. pending
        ≡ if_orderly (found_from count depth q (seen_of place.now count (state_of shot.now)))) }
{
    if depth == 0 {
        let list = from_segment(alloc, shot, place, count, q)?;
        return Ok(Some(list));
    }
    let Some(to_left) = to_come(alloc, shot, place, count, depth - 1, q + q)? else {
        return Ok(None);
    };
    let Some(to_right) = to_come(alloc, shot, place, count, depth - 1, q + q + 1)? else {
        return Ok(None);
    };
    let left = flow_of(alloc, shot, place, count, q + q, &to_left)?;
    let right = flow_of(alloc, shot, place, count, q + q + 1, &to_right)?;
    if !are_matched(left.as_slice(), right.as_slice()) {
        return Ok(None);
    }
    Ok(Some(left))
}

/// The tokens pending in a reduce of 2 to the power `level` segments, if it is orderly.
pub(crate) fn in_joins(
    alloc: Global,
    shot: &Shot,
    place: &Site,
    level: u32,
) -> Result<Option<List<Token>>, NoMemory>
    requires level { level ≤ 9 }
    requires chans { place.now.chan ≤ 1048576 }
    requires few { HaveFewTags shot.now }
    ensures { let m = 2 ^ level in IfGiven result (λ pending. pending
        ≡ if_orderly (found_by m level (seen_of place.now m (state_of shot.now)))) }
{
    let count = segment_count(level);
    if !is_at_segment(shot, place, count) {
        return Ok(None);
    }
    to_come(alloc, shot, place, count, level, 1)
}
