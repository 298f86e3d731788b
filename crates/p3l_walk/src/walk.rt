// The outcome of an item at a node, and what is noted of it: one function a form, which call
// one another.

ghost use Rattle.p3l_base.specs.Cut.{IsLawfulCut, token_size};
ghost use Rattle.p3l_base.specs.declared.outcome.Outcome.TheVariants.{Value};
ghost use Rattle.p3l_skel.specs.Tree.{node_at, HasFittingLength, HasLength};
ghost use Rattle.p3l_skel.specs.Lawful.{AreLoopParts, IsChain, IsLawfulTree};
ghost use Rattle.p3l_skel.specs.Fold.{tree_fold};
ghost use Rattle.p3l_skel.specs.Item.{in_order, item, mapped, on_value, turned, turns_spent};
ghost use Rattle.p3l_walk.specs.Notes.{fold_notes, map_notes, noted_by, notes, notes_on, stage_notes, turn_notes};
ghost use Rattle.std.specs.List.{All};
ghost use Rattle.std.specs.Prelude.{◌≡◌, ◌<◌, ◌≤◌, ◌*◌, length, map, slice_index, true, IfOk, OnOk};
ghost use Rattle.p3l_base.specs.Memory.{IfGivenOr};

use crate::leaves::Leaves;
use p3l_base::{Cut, List, NoMemory, Outcome, Trap, TrapKind, Words, join};
use p3l_skel::element::{elements, gather};
use p3l_skel::outcome::{copied, is_done, paired, rescue};
use p3l_skel::{Form, Node, Tree};
use std::alloc::Global;

/// The outcome of a node on the words of an item.
#[cycle(item)]
pub fn item_outcome<L: Leaves>(
    alloc: Global,
    tree: &Tree,
    leaves: &L,
    tally: &mut L::Tally,
    node: u32,
    words: &Words,
) -> Result<Outcome, NoMemory>
    requires lawful { IsLawfulTree tree.now }
    requires served { L.tree leaves.now ≡ tree.now }
    requires there { node < length tree.now.nodes }
    requires fits { HasFittingLength tree.now node (length words.now) }
    ensures item { IfGivenOr result (λ outcome. outcome
        ≡ item tree.now (L.leaf leaves.now) node words.now) (L.may_want ≡ true) }
    ensures noted { OnOk result (tally.new
        ≡ noted_by L.noted tally.old
        (notes tree.now (L.leaf leaves.now) (L.steps leaves.now) node words.now)) }
{
    let Some(found) = tree.node(node) else {
        unreachable!();
    };
    match &found.form {
        Form::Seq => leaves.run(alloc, tally, node, words),
        Form::Comp => {
            let outcome = stages_outcome(alloc, tree, leaves, tally, found, words)?;
            rescue(alloc, tree, found, outcome)
        }
        Form::Pipe => stages_outcome(alloc, tree, leaves, tally, found, words),
        Form::Farm { .. } => item_outcome(alloc, tree, leaves, tally, found.part(0), words),
        Form::Map { cut, .. } => {
            map_outcome(alloc, tree, leaves, tally, found.part(0), cut, words)
        }
        Form::Reduce { elem, .. } => {
            let list = elements(alloc, words, *elem)?;
            fold_outcome(alloc, tree, leaves, tally, found.part(0), list.as_slice())
        }
        Form::Loop { turns, .. } => {
            loop_outcome(alloc, tree, leaves, tally, found, *turns, words)
        }
    }
}

/// Runs a node on the value of an outcome; a trap stays itself.
#[cycle(item)]
fn next_outcome<L: Leaves>(
    alloc: Global,
    tree: &Tree,
    leaves: &L,
    tally: &mut L::Tally,
    node: u32,
    outcome: Outcome,
) -> Result<Outcome, NoMemory>
    requires lawful { IsLawfulTree tree.now }
    requires served { L.tree leaves.now ≡ tree.now }
    requires there { node < length tree.now.nodes }
    requires fits { HasLength (node_at tree.now node).ins outcome }
    ensures item { IfGivenOr result (λ next. next
        ≡ on_value (item tree.now (L.leaf leaves.now) node) outcome) (L.may_want ≡ true) }
    ensures noted { OnOk result (tally.new
        ≡ noted_by L.noted tally.old
        (notes_on (notes tree.now (L.leaf leaves.now) (L.steps leaves.now) node) outcome)) }
{
    match outcome {
        Outcome::Value(words) => item_outcome(alloc, tree, leaves, tally, node, &words),
        Outcome::Trapped(trap) => Ok(Outcome::Trapped(trap)),
    }
}

/// Runs the stages of a comp or a pipe on words, one after the other.
#[cycle(item)]
fn stages_outcome<L: Leaves>(
    alloc: Global,
    tree: &Tree,
    leaves: &L,
    tally: &mut L::Tally,
    node: &Node,
    words: &Words,
) -> Result<Outcome, NoMemory>
    requires lawful { IsLawfulTree tree.now }
    requires served { L.tree leaves.now ≡ tree.now }
    requires chain { IsChain tree.now node.now.ins node.now.outs node.now.parts }
    requires preorder { All (λ part. slice_index node.now.parts 0 ≤ part) node.now.parts }
    requires fits { length words.now ≡ node.now.ins }
    ensures item { IfGivenOr result (λ outcome. outcome
        ≡ in_order (item tree.now (L.leaf leaves.now)) node.now.parts (Value words.now))
        (L.may_want ≡ true) }
    ensures noted { OnOk result (tally.new
        ≡ noted_by L.noted tally.old (stage_notes (item tree.now (L.leaf leaves.now))
        (notes tree.now (L.leaf leaves.now) (L.steps leaves.now)) node.now.parts
        (Value words.now))) }
{
    let mut outcome = Outcome::Value(copied(alloc, words)?);
    for stage in node.parts.as_slice() {
        outcome = next_outcome(alloc, tree, leaves, tally, *stage, outcome)?;
    }
    Ok(outcome)
}

/// Runs a map of this part on words: the elements in order, up to a trap.
#[cycle(item)]
fn map_outcome<L: Leaves>(
    alloc: Global,
    tree: &Tree,
    leaves: &L,
    tally: &mut L::Tally,
    part: u32,
    cut: &Cut,
    words: &Words,
) -> Result<Outcome, NoMemory>
    requires lawful { IsLawfulTree tree.now }
    requires served { L.tree leaves.now ≡ tree.now }
    requires there { part < length tree.now.nodes }
    requires cuts { IsLawfulCut cut.now (length words.now) (token_size cut.now.outs)
        (node_at tree.now part).ins (node_at tree.now part).outs }
    ensures item { IfGivenOr result (λ outcome. outcome
        ≡ mapped cut.now (item tree.now (L.leaf leaves.now) part) words.now) (L.may_want ≡ true) }
    ensures noted { OnOk result (tally.new
        ≡ noted_by L.noted tally.old (map_notes cut.now (item tree.now (L.leaf leaves.now) part)
        (notes tree.now (L.leaf leaves.now) (L.steps leaves.now) part) words.now)) }
{
    let mut results = List::new(alloc);
    for e in 0..cut.first as u64 * cut.second as u64 {
        let element = gather(alloc, cut, words, e)?;
        match item_outcome(alloc, tree, leaves, tally, part, &element)? {
            Outcome::Value(result) => results.push(result)?,
            Outcome::Trapped(trap) => return Ok(Outcome::Trapped(trap)),
        }
    }
    Ok(Outcome::Value(join(alloc, cut, &results)?))
}

/// The fold by halves of elements with this operator: the left half before the right one, up to a
/// trap.
#[cycle(item)]
fn fold_outcome<L: Leaves>(
    alloc: Global,
    tree: &Tree,
    leaves: &L,
    tally: &mut L::Tally,
    operator: u32,
    elements: &[Words],
) -> Result<Outcome, NoMemory>
    requires lawful { IsLawfulTree tree.now }
    requires served { L.tree leaves.now ≡ tree.now }
    requires there { operator < length tree.now.nodes }
    requires takes_two { (node_at tree.now operator).ins ≡ 2 * (node_at tree.now operator).outs }
    requires some { 1 ≤ length elements.now }
    requires sized { All (λ element. length element
        ≡ (node_at tree.now operator).outs) elements.now }
    ensures folded { IfGivenOr result (λ outcome. outcome
        ≡ tree_fold (item tree.now (L.leaf leaves.now) operator)
        (map (λ element. Value element) elements.now)) (L.may_want ≡ true) }
    ensures sized { IfOk result (λ outcome. HasLength (node_at tree.now operator).outs outcome) }
    ensures noted { OnOk result (tally.new
        ≡ noted_by L.noted tally.old (fold_notes (item tree.now (L.leaf leaves.now) operator)
        (notes tree.now (L.leaf leaves.now) (L.steps leaves.now) operator) elements.now)) }
{
    if elements.len() == 1 {
        return Ok(Outcome::Value(copied(alloc, &elements[0])?));
    }
    let (front, back) = elements.split_at(elements.len() / 2);
    let left = match fold_outcome(alloc, tree, leaves, tally, operator, front)? {
        Outcome::Value(left) => left,
        Outcome::Trapped(trap) => return Ok(Outcome::Trapped(trap)),
    };
    let right = fold_outcome(alloc, tree, leaves, tally, operator, back)?;
    let both = paired(alloc, Outcome::Value(left), right)?;
    next_outcome(alloc, tree, leaves, tally, operator, both)
}

/// Runs a loop with a limit on its turns on words.
#[cycle(item)]
fn loop_outcome<L: Leaves>(
    alloc: Global,
    tree: &Tree,
    leaves: &L,
    tally: &mut L::Tally,
    node: &Node,
    turns: u32,
    words: &Words,
) -> Result<Outcome, NoMemory>
    requires lawful { IsLawfulTree tree.now }
    requires served { L.tree leaves.now ≡ tree.now }
    requires parts { AreLoopParts tree.now node.now.ins node.now.outs (slice_index node.now.parts 0)
        (slice_index node.now.parts 1) }
    requires preorder { slice_index node.now.parts 0 ≤ slice_index node.now.parts 1 }
    requires fits { length words.now ≡ node.now.ins }
    ensures item { IfGivenOr result (λ outcome. outcome
        ≡ turned (item tree.now (L.leaf leaves.now) (slice_index node.now.parts 0))
        (item tree.now (L.leaf leaves.now) (slice_index node.now.parts 1))
        (turns_spent node.now.«module») turns words.now) (L.may_want ≡ true) }
    ensures noted { OnOk result (tally.new
        ≡ noted_by L.noted tally.old (turn_notes node.now.«module»
        (item tree.now (L.leaf leaves.now) (slice_index node.now.parts 0))
        (item tree.now (L.leaf leaves.now) (slice_index node.now.parts 1))
        (notes tree.now (L.leaf leaves.now) (L.steps leaves.now) (slice_index node.now.parts 0))
        (notes tree.now (L.leaf leaves.now) (L.steps leaves.now) (slice_index node.now.parts 1))
        0 turns words.now)) }
{
    let mut state = copied(alloc, words)?;
    for made in 0..turns {
        L::note_turn(tally, node.module, made + 1);
        state = match item_outcome(alloc, tree, leaves, tally, node.part(0), &state)? {
            Outcome::Value(next) => next,
            Outcome::Trapped(trap) => return Ok(Outcome::Trapped(trap)),
        };
        match item_outcome(alloc, tree, leaves, tally, node.part(1), &state)? {
            Outcome::Value(answer) if is_done(&answer) => return Ok(Outcome::Value(state)),
            Outcome::Value(_) => {}
            Outcome::Trapped(trap) => return Ok(Outcome::Trapped(trap)),
        }
    }
    Ok(Outcome::Trapped(Trap {
        kind: TrapKind::Turns,
        module: node.module,
    }))
}
