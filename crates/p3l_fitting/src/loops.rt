// Tests of the saved tokens of loops.

ghost use Rattle.std.specs.Prelude.{◌≡◌, ◌↔◌, ◌≤◌, ◌<◌, ℕ, IsTrue};
ghost use Rattle.std.specs.List.{All};
ghost use Rattle.p3l_firing.specs.Shot.{own_saved_at, saved_at};
ghost use Rattle.p3l_net.specs.Fitting.{FitsLoop, IsTurning};
ghost use Rattle.p3l_fitting.specs.Decided.{LoopFits};
ghost use Rattle.p3l_fitting.specs.Survey.{widths_of};

use crate::numbers::{channel, most_tokens, most_turns};
use crate::survey::LoopPlace;
use p3l_firing::{Net, Proc};
use p3l_net::{SavedToken, Shot};
use p3l_skel::Tree;
use p3l_template::Width;
use p3l_template::width::width_at;

/// Bounds of the two tags of a loop: its tokens have `depth` tags outside it, then a number below
/// `next`, then a turn from 1 to `turns`.
#[derive(Clone, Copy, Drop)]
struct Ring {
    depth: u32,
    next: u64,
    turns: u32,
}

/// Returns true exactly if a token of a loop has a number and a turn that the loop can have given.
fn is_turning(ring: Ring, token: &SavedToken) -> bool
    ensures { IsTrue result ↔ IsTurning ring.depth ring.next ring.turns token.now }
{
    let tags = token.tags.as_slice();
    let depth = ring.depth as usize;
    if tags.len() < depth + 2 {
        return true;
    }
    let turn = tags[depth + 1];
    tags[depth] < ring.next && 1 <= turn && turn <= ring.turns as u64
}

/// Returns true exactly if all these tokens have such numbers and turns.
fn are_turning(ring: Ring, tokens: &[SavedToken]) -> bool
    ensures { IsTrue result ↔ All (IsTurning ring.depth ring.next ring.turns) tokens.now }
{
    tokens.iter().all(|token| is_turning(ring, token))
}

/// Returns true exactly if all tokens in the channels from one number on and before another have
/// such numbers and turns.
fn sent_turn(ring: Ring, shot: &Shot, from: usize, to: usize) -> bool
    ensures { IsTrue result ↔ ((c : ℕ) → from ≤ c → c < to
        → All (IsTurning ring.depth ring.next ring.turns) (saved_at shot.now c)) }
{
    for c in from..to {
        if !are_turning(ring, shot.tokens(c)) {
            return false;
        }
    }
    true
}

/// Returns true exactly if all tokens that the processes from one number on and before another
/// hold have such numbers and turns.
fn held_turn(ring: Ring, shot: &Shot, from: usize, to: usize) -> bool
    ensures { IsTrue result ↔ ((p : ℕ) → from ≤ p → p < to
        → All (IsTurning ring.depth ring.next ring.turns) (own_saved_at shot.now p).held) }
{
    for p in from..to {
        if !are_turning(ring, shot.held(p)) {
            return false;
        }
    }
    true
}

/// Returns true exactly if a loop has as many credits as its tokens leave, and these are in its
/// turns.
fn fits_loop(
    tree: &Tree,
    net: &Net,
    row: &[Width],
    shot: &Shot,
    place: &LoopPlace,
    q: &Proc,
) -> bool
    ensures { IsTrue result
        ↔ FitsLoop tree.now net.now (widths_of row.now) shot.now place.now q.now }
{
    let head = shot.number(place.head);
    let tail = shot.number(place.tail);
    let credits = shot.tokens(channel(&q.ins, 2) as usize).len();
    let ring = Ring {
        depth: width_at(row, channel(&q.ins, 0) as usize).tags,
        next: head,
        turns: most_turns(tree, q.node),
    };
    tail <= head
        && credits as u128 + head as u128 == most_tokens(tree, q.node) as u128 + tail as u128
        && sent_turn(ring, shot, place.chan_from, place.chan_to)
        && held_turn(ring, shot, place.proc_from, place.proc_to)
}

/// Returns true exactly if a loop fits, if its head is there.
#[tactic(auto, unfolding(crate::specs::Decided::LoopFits))]
fn loop_fits(tree: &Tree, net: &Net, row: &[Width], shot: &Shot, place: &LoopPlace) -> bool
    ensures { IsTrue result ↔ LoopFits tree.now net.now row.now shot.now place.now }
{
    match net.procs.as_slice().get(place.head) {
        Some(q) => fits_loop(tree, net, row, shot, place, q),
        None => true,
    }
}

/// Returns true exactly if all loops fit.
pub(crate) fn loops_fit(
    tree: &Tree,
    net: &Net,
    row: &[Width],
    shot: &Shot,
    places: &[LoopPlace],
) -> bool
    ensures { IsTrue result ↔ All (LoopFits tree.now net.now row.now shot.now) places.now }
{
    places
        .iter()
        .all(|place| loop_fits(tree, net, row, shot, place))
}
