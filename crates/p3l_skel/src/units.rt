// The nodes that run in one process.

ghost use Rattle.std.specs.Prelude.{◌≡◌, Bool, true};
ghost use Rattle.p3l_base.specs.Memory.{IfGivenOr};

use p3l_base::{NoMemory, Outcome, Words};
use std::alloc::Global;

/// The bodies of a tree's nodes that run in one process.
///
/// Contracts see of an object the tree that it serves, and what each `seq` module does with the
/// words of an item.
pub trait Units {
    ghost use Rattle.std.specs.Prelude.{ℕ, ℤ, List, length};
    ghost use Rattle.p3l_base.specs.declared.outcome.Outcome.{Outcome};
    ghost use Rattle.p3l_skel.specs.declared.tree.Tree.{Tree};
    ghost use Rattle.p3l_skel.specs.Tree.{IsUnit, HasFittingLength, GivesOuts};
    ghost use Rattle.p3l_skel.specs.Item.{item};

    /// The tree that the object serves.
    ghost tree: { Self → Tree };

    /// The outcome of an item's words in the `seq` module of a number.
    ghost leaf: { Self → ℕ → List ℤ → Outcome };

    /// True if `run` may say that memory ran out where no request was refused. Tables of compiled
    /// bodies never do.
    ghost may_want: { Bool };

    /// Runs a sequential node on the words of an item; a reduce node folds as many elements as
    /// the words hold.
    fn run(&self, alloc: Global, node: u32, words: &Words) -> Result<Outcome, NoMemory>
        requires sequential { IsUnit (tree self.now) node }
        requires fits { HasFittingLength (tree self.now) node (length words.now) }
        ensures { IfGivenOr result (λ outcome. outcome
            ≡ item (tree self.now) (leaf self.now) node words.now) (may_want ≡ true) };

    /// A value that a `seq` module gives has the out words of the module's nodes.
    ghost gives_outs: { (units : Self) → GivesOuts (tree units) (leaf units) };
}
