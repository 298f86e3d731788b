// The leaves of a tree, and the tally of a walk.

ghost use Rattle.std.specs.Prelude.{◌≡◌, ◌<◌, length, true, OnOk};
ghost use Rattle.p3l_base.specs.Memory.{IfGivenOr};

use p3l_base::{NoMemory, Outcome, Words};
use std::alloc::Global;

/// Runs the leaves of a tree, its `seq` nodes, and keeps a tally of the runs and turns of a walk.
///
/// Contracts see of an object the tree that it serves, what each `seq` module does with the words
/// of an item, and how a note changes a tally.
pub trait Leaves {
    ghost use Rattle.std.specs.Prelude.{Bool, ℕ, ℤ, List};
    ghost use Rattle.p3l_base.specs.declared.outcome.Outcome.{Outcome};
    ghost use Rattle.p3l_skel.specs.declared.tree.Form.TheVariants.{Seq};
    ghost use Rattle.p3l_skel.specs.declared.tree.Tree.{Tree};
    ghost use Rattle.p3l_skel.specs.Tree.{node_at, GivesOuts};
    ghost use Rattle.p3l_skel.specs.Item.{item};
    ghost use Rattle.p3l_skel.specs.Lawful.{IsLawfulTree};
    ghost use Rattle.p3l_walk.specs.Notes.{Note, ran, turn};

    /// The type of a tally.
    type Tally;

    /// The tree that the object serves.
    ghost tree: { Self → Tree };

    /// The outcome of an item's words in the `seq` module of a number.
    ghost leaf: { Self → ℕ → List ℤ → Outcome };

    /// The instructions of a run of the `seq` module of a number on an item's words.
    ghost steps: { Self → ℕ → List ℤ → ℕ };

    /// A tally after one more note.
    ghost noted: { Self.Tally → Note → Self.Tally };

    /// True if `run` may say that memory ran out where no request was refused.
    ghost may_want: { Bool };

    /// Runs a `seq` node on the words of an item, and notes the run. A trap becomes the rescue
    /// number of the node's module, if it has one.
    fn run(
        &self,
        alloc: Global,
        tally: &mut Self::Tally,
        node: u32,
        words: &Words,
    ) -> Result<Outcome, NoMemory>
        requires lawful { IsLawfulTree (tree self.now) }
        requires there { node < length (tree self.now).nodes }
        requires form { (node_at (tree self.now) node).form ≡ Seq }
        requires fits { length words.now ≡ (node_at (tree self.now) node).ins }
        ensures item { IfGivenOr result (λ outcome. outcome
            ≡ item (tree self.now) (leaf self.now) node words.now) (may_want ≡ true) }
        ensures noted { OnOk result (tally.new
            ≡ noted tally.old (ran (node_at (tree self.now) node).«module»
            (steps self.now (node_at (tree self.now) node).«module» words.now))) };

    /// Notes that a loop of a module began its turn of this number for an item, the first being 1.
    fn note_turn(tally: &mut Self::Tally, home: u32, number: u32)
        ensures { tally.new ≡ noted tally.old (turn home number) };

    /// A value that a `seq` module gives has the out words of the module's nodes.
    ghost gives_outs: { (leaves : Self) → GivesOuts (tree leaves) (leaf leaves) };
}
