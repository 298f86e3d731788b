// Laws of runs that are cut in two, each as the contract of a function that does nothing.

ghost use Rattle.std.specs.Prelude.{◌≡◌, ℕ, ℤ, List, ◌++◌, false};
ghost use Rattle.p3l_base.specs.declared.outcome.Outcome.{Outcome};
ghost use Rattle.p3l_skel.specs.declared.tree.Tree.{Tree};
ghost use Rattle.p3l_firing.specs.declared.net.Net.{Net};
ghost use Rattle.p3l_firing.specs.Cut.{AreFilled, after_run, run_with_earlier, with_earlier};
ghost use Rattle.p3l_firing.specs.Nodes.{Leaf};
ghost use Rattle.p3l_firing.specs.Run.{Course, run, run_from};
ghost use Rattle.p3l_firing.specs.State.{State, first_state, with_rest};
ghost use Rattle.p3l_firing.specs.Token.{has_trap};

/// A run may be cut after any of its picks: the run under all picks is that under the later ones from
/// the state after the earlier ones, with the firings and idle picks of both.
pub fn a_run_may_be_cut()
    ensures { (tree : Tree) (leaf : Leaf) (net : Net) (s : State) (a b : List ℕ)
        → run_from tree leaf net s (a ++ b)
        ≡ after_run (run_from tree leaf net s a)
        (run_from tree leaf net (run_from tree leaf net s a).state b) }
{}

/// Saved after some picks on some items, and resumed under others on others, a run is the unbroken
/// one on all items under all picks, where the source had an item at each pick of the first part.
pub fn saved_and_resumed_is_unbroken()
    ensures { (tree : Tree) (leaf : Leaf) (net : Net) (u w : List (List ℤ)) (a b : List ℕ)
        → AreFilled tree leaf net (first_state net u) a w
        → run tree leaf net (u ++ w) (a ++ b)
        ≡ after_run (run tree leaf net u a)
        (run_from tree leaf net (with_rest (run tree leaf net u a).state w) b) }
{}

/// A run doesn't depend on the outcomes emitted earlier, if none of them is a trap: it keeps them in
/// front of its own.
pub fn earlier_outcomes_change_nothing()
    ensures { (tree : Tree) (leaf : Leaf) (net : Net) (earlier : List Outcome) (s : State)
        (picks : List ℕ)
        → has_trap earlier ≡ false
        → run_from tree leaf net (with_earlier earlier s) picks
        ≡ run_with_earlier earlier (run_from tree leaf net s picks) }
{}
