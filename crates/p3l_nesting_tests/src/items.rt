// The items of a tree, and what the plain program makes of them.

ghost use Rattle.std.specs.Prelude.{◌≡◌, ◌<◌, IsTrue, length};
ghost use Rattle.p3l_skel.specs.Tree.{HasFittingLength};

use p3l_base::{List, NoMemory, Outcome, Words};
use p3l_reference::item_outcome;
use p3l_skel::{Form, Tree};
use p3l_units::UnitTable;
use std::alloc::Global;
use std::process::Abort;

/// The words of all items, one after the other: odd ones, on which no body traps by itself, and a
/// 0 or a 2 at times, in the middle and at places of each kind in items of several words.
const WORDS: [i64; 96] = [
    1, 3, 5, 7, -1, 9, 11, -5, 13, 15, 17, 3, 19, 0, 21, -7, 23, 25, -9, 27, 29, 31, 33, 2, 35,
    -11, 37, 39, 41, 43, 45, -13, 47, 2, 0, 49, 51, 53, 55, 57, 0, 2, 59, 61, 63, 65, 2, 0, 67,
    -69, 71, 73, 75, -77, 79, 81, 83, 85, 87, 89, -91, 93, 95, 97, 99, 101, -103, 105, 107, 109,
    111, 113, 115, -117, 119, 121, 123, 125, 127, -129, 131, 133, 135, 137, 139, 141, 143, 145,
    -147, 149, 151, 153, 155, 157, 159, 161,
];

/// The most items of a tree.
const MOST_ITEMS: usize = 24;

/// An item, and what the plain program makes of it.
#[derive(Drop)]
pub struct Case {
    pub item: Words,
    pub outcome: Outcome,
}

// Returns true exactly if the root of a tree takes this number of words.
fn takes(tree: &Tree, len: usize) -> bool
    ensures there { IsTrue result → 0 < length tree.now.nodes }
    ensures fits { IsTrue result → HasFittingLength tree.now 0 len }
{
    let Some(root) = tree.node(0) else {
        return false;
    };
    match root.form {
        Form::Reduce {
            len: count,
            elem,
            ..
        } => { count >= 1 && len as u64 == count as u64 * elem as u64 }
        _ => len == root.ins as usize,
    }
}

/// An item and its outcome.
pub fn case_of(
    rt: &impl Abort,
    alloc: Global,
    units: &UnitTable<'_>,
    words: &[i64],
) -> Result<Case, NoMemory> {
    let item = Words::from_vec(words.to_vec(alloc)?);
    let tree = units.tree();
    assert!(rt; takes(tree, item.len()));
    let outcome = item_outcome(alloc, tree, units, 0, &item)?;
    Ok(Case { item, outcome })
}

/// The items of the tree that these units serve.
pub fn cases_of(
    rt: &impl Abort,
    alloc: Global,
    units: &UnitTable<'_>,
) -> Result<List<Case>, NoMemory> {
    let mut cases = List::new(alloc);
    let width = match units.tree().node(0) {
        Some(root) if root.ins > 0 => root.ins as usize,
        _ => 1,
    };
    for words in WORDS.as_slice().chunks_exact(width) {
        if cases.len() < MOST_ITEMS {
            cases.push(case_of(rt, alloc, units, words)?)?;
        }
    }
    Ok(cases)
}
