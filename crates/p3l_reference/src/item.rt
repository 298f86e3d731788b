// The outcome of a node on the words of an item, by a walk through its whole subtree.

ghost use Rattle.p3l_skel.specs.Tree.{HasFittingLength};
ghost use Rattle.p3l_skel.specs.Lawful.{IsLawfulTree};
ghost use Rattle.p3l_skel.specs.Item.{item};
ghost use Rattle.std.specs.Prelude.{◌≡◌, ◌<◌, length, true};
ghost use Rattle.p3l_base.specs.Memory.{IfGivenOr};

use crate::leaves::UnitLeaves;
use p3l_base::{NoMemory, Outcome, Words};
use p3l_skel::{Tree, Units};
use std::alloc::Global;

/// The outcome of a node on the words of an item, step by step by the definition.
pub fn item_outcome<U: Units>(
    alloc: Global,
    tree: &Tree,
    units: &U,
    node: u32,
    words: &Words,
) -> Result<Outcome, NoMemory>
    requires lawful { IsLawfulTree tree.now }
    requires served { U.tree units.now ≡ tree.now }
    requires there { node < length tree.now.nodes }
    requires fits { HasFittingLength tree.now node (length words.now) }
    ensures { IfGivenOr result (λ outcome. outcome
        ≡ item tree.now (U.leaf units.now) node words.now) (U.may_want ≡ true) }
{
    let leaves = UnitLeaves { units };
    p3l_walk::item_outcome(alloc, tree, &leaves, &mut (), node, words)
}
