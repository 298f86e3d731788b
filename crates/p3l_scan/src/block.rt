// The steps of a plan on a block: the scan of it, or the merge of its halves.

ghost use Rattle.std.specs.Prelude.{◌≡◌, ◌≤◌, ◌<◌, ◌+◌, ◌*◌, ◌++◌, ℕ, length, true};
ghost use Rattle.p3l_base.specs.Memory.{IfGivenOr};
ghost use Rattle.p3l_skel.specs.Item.{elements, item};
ghost use Rattle.p3l_skel.specs.Tree.{HasLength};
ghost use Rattle.p3l_scan.specs.Scan.{in_words, merged, scan};
ghost use Rattle.p3l_scan.specs.Step.{HasElements, HasHalves, IsOperator, merged_halves};

use p3l_base::{NoMemory, Outcome, Words};
use p3l_skel::Units;
use p3l_skel::laws::keeps_words;
use std::alloc::Global;

/// Combines two elements.
fn combine<U: Units>(
    alloc: Global,
    units: &U,
    op: u32,
    elem: u32,
    left: &[i64],
    right: &[i64],
) -> Result<Outcome, NoMemory>
    requires operator { IsOperator (U.tree units.now) op elem }
    requires left { length left.now ≡ elem }
    requires right { length right.now ≡ elem }
    ensures combined { IfGivenOr result (λ outcome. outcome
        ≡ item (U.tree units.now) (U.leaf units.now) op (left.now ++ right.now))
        (U.may_want ≡ true) }
{
    let pair = Words::joined(alloc, left, right)?;
    units.run(alloc, op, &pair)
}

/// The folds of a first half, and then its last fold combined with each fold of the second half.
pub(crate) fn merge<U: Units>(
    alloc: Global,
    units: &U,
    op: u32,
    elem: u32,
    front: &[i64],
    back: &[i64],
) -> Result<Outcome, NoMemory>
    requires operator { IsOperator (U.tree units.now) op elem }
    requires front { HasElements elem front.now }
    requires back { HasElements elem back.now }
    ensures { IfGivenOr result (λ outcome. outcome
        ≡ in_words (merged (item (U.tree units.now) (U.leaf units.now) op)
        (elements elem front.now) (elements elem back.now))) (U.may_want ≡ true) }
{
    let size = elem as usize;
    let last = &front[front.len() - size..];
    let mut folds = front.to_vec(alloc)?;
    let mut rest = back;
    while rest.len() >= size {
        let (element, more) = rest.split_at(size);
        match combine(alloc, units, op, elem, last, element)? {
            Outcome::Value(fold) => folds.extend_from_slice(fold.as_slice())?,
            Outcome::Trapped(trap) => return Ok(Outcome::Trapped(trap)),
        }
        rest = more;
    }
    Ok(Outcome::Value(Words::from_vec(folds)))
}

/// The scan of a block.
pub(crate) fn scan<U: Units>(
    alloc: Global,
    units: &U,
    op: u32,
    elem: u32,
    block: &[i64],
) -> Result<Outcome, NoMemory>
    requires operator { IsOperator (U.tree units.now) op elem }
    requires block { HasElements elem block.now }
    ensures { IfGivenOr result (λ outcome. outcome
        ≡ in_words (scan (item (U.tree units.now) (U.leaf units.now) op)
        (elements elem block.now))) (U.may_want ≡ true) }
{
    let size = elem as usize;
    if block.len() == size {
        let copy = Words::from_slice(alloc, block)?;
        return Ok(Outcome::Value(copy));
    }
    keeps_words(units);
    let (front, back) = block.split_at(block.len() / size / 2 * size);
    let left = match scan(alloc, units, op, elem, front)? {
        Outcome::Value(left) => left,
        Outcome::Trapped(trap) => return Ok(Outcome::Trapped(trap)),
    };
    match scan(alloc, units, op, elem, back)? {
        Outcome::Value(right) => {
            merge(alloc, units, op, elem, left.as_slice(), right.as_slice())
        }
        Outcome::Trapped(trap) => Ok(Outcome::Trapped(trap)),
    }
}

/// The two halves of a block merged.
pub(crate) fn merge_halves<U: Units>(
    alloc: Global,
    units: &U,
    op: u32,
    elem: u32,
    block: &[i64],
) -> Result<Outcome, NoMemory>
    requires operator { IsOperator (U.tree units.now) op elem }
    requires block { HasHalves elem block.now }
    ensures { IfGivenOr result (λ outcome. outcome
        ≡ in_words (merged_halves (item (U.tree units.now) (U.leaf units.now) op)
        (elements elem block.now))) (U.may_want ≡ true) }
{
    let size = elem as usize;
    let (front, back) = block.split_at(block.len() / size / 2 * size);
    merge(alloc, units, op, elem, front, back)
}
