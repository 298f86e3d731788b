// The tokens found in a loop: the admitted ones in the order of their numbers.

ghost use Rattle.std.specs.Prelude.{◌≡◌, ◌+◌, ◌≤◌, length, nat_eq};
ghost use Rattle.p3l_base.specs.Memory.{IfGiven};
ghost use Rattle.p3l_firing.specs.Nodes.{turns_of};
ghost use Rattle.p3l_template.specs.Finding.{if_orderly};
ghost use Rattle.p3l_firing.specs.Shot.{HaveFewTags, state_of};
ghost use Rattle.p3l_loop.specs.Loop.{in_turns};
ghost use Rattle.p3l_loop.specs.LoopKind.{found_by, is_counted, seen_bag, seen_of};

use p3l_base::{List, NoMemory};
use p3l_firing::{Shot, Token};
use p3l_skel::{Form, Tree};
use p3l_template::bare::{add_saved, add_untagged};
use p3l_template::lines::add_line;
use p3l_template::numbered::{in_order, lead_to, lie_within};
use p3l_template::{Ports, Site};
use std::alloc::Global;
use std::marker::Model;

/// The most turns of a node, if it is a loop.
pub(crate) fn turns_of(tree: &Tree, node: u32) -> u32
    ensures { result ≡ turns_of tree.now node }
{
    let Some(found) = tree.node(node) else {
        return 0;
    };
    match &found.form {
        Form::Loop { turns, .. } => *turns,
        _ => 0,
    }
}

// Returns true exactly if the newest tags of tokens lie in 1 to `turns` (to 1 where that is 0).
fn are_in_turns(turns: u32, tokens: &[Token]) -> bool
    ensures { result ≡ in_turns turns tokens.now }
{
    lie_within(tokens, 1, 2 + turns.saturating_sub(1) as u64)
}

/// The view of a loop in a snapshot, without the outcomes.
#[derive(Drop)]
pub(crate) struct Seen {
    next: u64,
    least: u64,
    credits: usize,
    held: List<Token>,
    ring: List<Token>,
}

impl Model for Seen {
    ghost use Rattle.p3l_loop.specs.LoopKind.{Seen};

    ghost Value = { Seen };

    ghost view = { λ it. record {
      next = it.next;
      least = it.least;
      credits = it.credits;
      held = it.held;
      ring = it.ring;
    } };
}

/// Reads the view of a loop at a place of a snapshot, where these tokens are pending in the body.
pub(crate) fn look_at(
    alloc: Global,
    shot: &Shot,
    place: &Site,
    pending: &List<Token>,
) -> Result<Seen, NoMemory>
    requires room { (place.now.proc + 2 ≤ 1048576) × (place.now.chan + 4 ≤ 1048576) }
    requires few { HaveFewTags shot.now }
    ensures { IfGiven result (λ seen. seen
        ≡ seen_of place.now (state_of shot.now) pending.now) }
{
    let slot = Ports {
        input: place.chan,
        output: place.chan + 1,
    };
    let mut ring = List::new(alloc);
    add_line(alloc, shot, &mut ring, &slot, pending)?;
    add_saved(alloc, &mut ring, shot.tokens(place.chan as usize + 2))?;
    let mut held = List::new(alloc);
    add_saved(alloc, &mut held, shot.held(place.proc as usize + 1))?;
    let next = shot.number(place.proc as usize);
    let least = shot.number(place.proc as usize + 1);
    let credits = shot.tokens(place.chan as usize + 3).len();
    Ok(Seen {
        next,
        least,
        credits,
        held,
        ring,
    })
}

// The admitted tokens, without their turns.
fn bag_of(alloc: Global, seen: &Seen) -> Result<List<Token>, NoMemory>
    ensures { IfGiven result (λ bag. bag ≡ seen_bag seen.now) }
{
    let mut bag = List::new(alloc);
    add_untagged(alloc, &mut bag, seen.held.as_slice())?;
    add_untagged(alloc, &mut bag, seen.ring.as_slice())?;
    Ok(bag)
}

// Returns true exactly if two numbers of tokens add up to `tokens`.
fn add_up(one: usize, other: usize, tokens: u32) -> bool
    ensures { result ≡ nat_eq (one + other) tokens }
{
    other <= tokens as usize && one == tokens as usize - other
}

// Returns true exactly if the numbers, the credits and the turns are as a loop keeps them while
// `admitted` tokens are in it.
fn is_counted(turns: u32, tokens: u32, seen: &Seen, admitted: usize) -> bool
    requires { admitted ≡ length (seen_bag seen.now) }
    ensures { result ≡ is_counted turns tokens seen.now }
{
    let numbers = lead_to(seen.least, admitted, seen.next);
    let credits = add_up(seen.credits, admitted, tokens);
    let ring = are_in_turns(turns, seen.ring.as_slice());
    let held = are_in_turns(turns, seen.held.as_slice());
    numbers & (credits & (ring & held))
}

/// The admitted tokens in the order of their numbers, if the loop is orderly.
pub(crate) fn by_seen(
    alloc: Global,
    turns: u32,
    tokens: u32,
    seen: &Seen,
) -> Result<Option<List<Token>>, NoMemory>
    ensures { IfGiven result (λ pending. pending ≡ if_orderly (found_by turns tokens seen.now)) }
{
    let bag = bag_of(alloc, seen)?;
    if !is_counted(turns, tokens, seen, bag.len()) {
        return Ok(None);
    }
    in_order(alloc, bag.as_slice(), seen.least)
}
