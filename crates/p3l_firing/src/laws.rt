// Laws of all runs: each is the contract of a function that does nothing.

ghost use Rattle.std.specs.Prelude.{◌≡◌, ℕ, ℤ, suc, ◌+◌, ◌*◌, ◌<◌, ◌≤◌, List, [], ◌∷◌, ◌++◌, ◌⊎◌, Some, None, true, false, length};
ghost use Rattle.std.specs.List.{AllByRecursion};
ghost use Rattle.p3l_skel.specs.declared.tree.Tree.{Tree};
ghost use Rattle.p3l_skel.specs.declared.tree.Form.TheVariants.{Seq};
ghost use Rattle.p3l_skel.specs.Item.{meaning};
ghost use Rattle.p3l_skel.specs.Lawful.{IsLawfulTree};
ghost use Rattle.p3l_skel.specs.Numbers.{firings};
ghost use Rattle.p3l_skel.specs.Tree.{node_at, GivesOuts};
ghost use Rattle.p3l_firing.specs.declared.net.Net.{Net};
ghost use Rattle.p3l_firing.specs.NetInvariants.{Invariants, HaveInWords, HasInvariants};
ghost use Rattle.p3l_firing.specs.Choice.{Emptiest, Full, FirstDue, NoneDue};
ghost use Rattle.p3l_firing.specs.Examples.{HandValues};
ghost use Rattle.p3l_firing.specs.Fire.{IsStuck, can_fire, fire, is_ready};
ghost use Rattle.p3l_firing.specs.Nodes.{Leaf};
ghost use Rattle.p3l_firing.specs.Orderly.{CanGoOn, Emits, IsBalanced, left_from, outcomes_from};
ghost use Rattle.p3l_firing.specs.Outcomes.{IsPrefixOf};
ghost use Rattle.p3l_firing.specs.RoundRobin.{after, next_of, round_robin};
ghost use Rattle.p3l_firing.specs.Run.{Course, after_picks, picked, run, run_from};
ghost use Rattle.p3l_firing.specs.Single.{unit_net};
ghost use Rattle.p3l_firing.specs.State.{State, first_state};
ghost use Rattle.p3l_firing.specs.Token.{has_trap};
ghost use Rattle.p3l_firing.specs.Typed.{IsTyped, IsFitting};
ghost use Rattle.p3l_firing.specs.Ways.{Eyes, Knows, MayFire, Sees};
ghost use Rattle.p3l_firing.specs.kinds.Collect.{due_in};
ghost use Rattle.p3l_firing.specs.kinds.Emit.{emptiest};

/// An emit chooses the first of the channels with room that have the fewest tokens, and a collect
/// the first whose first token has the number that is expected.
pub fn channels_are_chosen()
    ensures emit { (net : Net) (s : State) (cs : List ℕ)
        → Emptiest net s cs (emptiest net s cs) ⊎ Full net s cs (emptiest net s cs) }
    ensures collect { (s : State) (n : ℕ) (cs : List ℕ)
        → FirstDue s n cs (due_in s n cs) ⊎ NoneDue s n cs (due_in s n cs) }
{}

/// The law of runs. A net with invariants continues from any orderly state under any picks: the
/// outcomes emitted at the end are a prefix of those emitted before, those to come and those of the
/// items not yet sent, up to the first trap, and they are all of them where nothing can fire. The
/// state at the end is again one to continue from, and balanced where the first was. The net fires
/// at most as often as its tokens could still need, and as an item takes for each item sent since.
/// The round robin ends where nothing can fire.
pub fn a_net_with_invariants_continues_from_any_orderly_state()
    ensures going { (tree : Tree) (leaf : Leaf) (net : Net) (firings : ℕ) (invariants : Invariants)
        (s : State) (picks : List ℕ)
        → HasInvariants tree leaf net firings invariants → CanGoOn invariants s
        → CanGoOn invariants (run_from tree leaf net s picks).state }
    ensures balanced { (tree : Tree) (leaf : Leaf) (net : Net) (firings : ℕ) (invariants : Invariants)
        (s : State) (picks : List ℕ)
        → HasInvariants tree leaf net firings invariants → invariants.orderly s ≡ true → IsBalanced invariants s
        → IsBalanced invariants (run_from tree leaf net s picks).state }
    ensures begins { (tree : Tree) (leaf : Leaf) (net : Net) (firings : ℕ) (invariants : Invariants)
        (s : State) (picks : List ℕ)
        → HasInvariants tree leaf net firings invariants → CanGoOn invariants s
        → IsPrefixOf (run_from tree leaf net s picks).state.emitted
        (outcomes_from tree leaf invariants s) }
    ensures finished { (tree : Tree) (leaf : Leaf) (net : Net) (firings : ℕ) (invariants : Invariants)
        (s : State) (picks : List ℕ)
        → HasInvariants tree leaf net firings invariants → CanGoOn invariants s
        → IsStuck tree net (run_from tree leaf net s picks).state
        → (run_from tree leaf net s picks).state.emitted ≡ outcomes_from tree leaf invariants s }
    ensures bounded { (tree : Tree) (leaf : Leaf) (net : Net) (firings : ℕ) (invariants : Invariants)
        (s : State) (picks : List ℕ)
        → HasInvariants tree leaf net firings invariants → invariants.orderly s ≡ true
        → ((run_from tree leaf net s picks).fired
        + invariants.owed (run_from tree leaf net s picks).state) + firings * s.sent
        ≤ invariants.owed s + firings * (run_from tree leaf net s picks).state.sent }
    ensures sent { (tree : Tree) (leaf : Leaf) (net : Net) (firings : ℕ) (invariants : Invariants)
        (s : State) (picks : List ℕ)
        → HasInvariants tree leaf net firings invariants → invariants.orderly s ≡ true
        → (run_from tree leaf net s picks).state.sent
        + length (run_from tree leaf net s picks).state.unsent ≡ s.sent + length s.unsent }
    ensures ends { (tree : Tree) (leaf : Leaf) (net : Net) (firings : ℕ) (invariants : Invariants)
        (s : State) (most from : ℕ)
        → HasInvariants tree leaf net firings invariants → invariants.orderly s ≡ true → from < length net.procs
        → invariants.owed s + firings * length s.unsent ≤ most
        → IsStuck tree net
        (run_from tree leaf net s (round_robin tree leaf net most s from)).state }
{}

/// From an orderly state in which no trap was emitted, a net with invariants emits a prefix of the
/// outcomes to come and those of the items not yet sent, up to the first trap, and all of them
/// where nothing can fire.
pub fn a_net_with_invariants_emits_what_is_left()
    ensures { (tree : Tree) (leaf : Leaf) (net : Net) (firings : ℕ) (invariants : Invariants) (s : State)
        (picks : List ℕ)
        → HasInvariants tree leaf net firings invariants → invariants.orderly s ≡ true
        → has_trap s.emitted ≡ false
        → Emits tree net (left_from tree leaf invariants s) s (run_from tree leaf net s picks).state }
{}

/// The law of runs at the first state, which is orderly. Of items that have the root's in words,
/// and any picks, the outcomes emitted are a prefix of the meaning, and all of it where nothing can
/// fire; no more items are sent than there are, and the net fires at most `firings` times for each
/// item sent. The round robin ends where nothing can fire.
pub fn a_net_with_invariants_means_its_items()
    ensures begins { (tree : Tree) (leaf : Leaf) (net : Net) (firings : ℕ) (invariants : Invariants)
        (items : List (List ℤ)) (picks : List ℕ)
        → HasInvariants tree leaf net firings invariants → HaveInWords tree items
        → IsPrefixOf (run tree leaf net items picks).state.emitted (meaning tree leaf items) }
    ensures finished { (tree : Tree) (leaf : Leaf) (net : Net) (firings : ℕ) (invariants : Invariants)
        (items : List (List ℤ)) (picks : List ℕ)
        → HasInvariants tree leaf net firings invariants → HaveInWords tree items
        → IsStuck tree net (run tree leaf net items picks).state
        → (run tree leaf net items picks).state.emitted ≡ meaning tree leaf items }
    ensures bounded { (tree : Tree) (leaf : Leaf) (net : Net) (firings : ℕ) (invariants : Invariants)
        (items : List (List ℤ)) (picks : List ℕ)
        → HasInvariants tree leaf net firings invariants → HaveInWords tree items
        → (run tree leaf net items picks).fired
        ≤ firings * (run tree leaf net items picks).state.sent }
    ensures sent { (tree : Tree) (leaf : Leaf) (net : Net) (firings : ℕ) (invariants : Invariants)
        (items : List (List ℤ)) (picks : List ℕ)
        → HasInvariants tree leaf net firings invariants → HaveInWords tree items
        → (run tree leaf net items picks).state.sent ≤ length items }
    ensures ends { (tree : Tree) (leaf : Leaf) (net : Net) (firings : ℕ) (invariants : Invariants)
        (items : List (List ℤ))
        → HasInvariants tree leaf net firings invariants → HaveInWords tree items → 0 < length net.procs
        → IsStuck tree net (run tree leaf net items
        (round_robin tree leaf net (firings * length items) (first_state net items) 0)).state }
{}

/// In a typed net every firing keeps the words, the tags and the room of all tokens: those in
/// channels are of their channel's width and no more than it holds, and those that a process keeps
/// fit it.
pub fn every_firing_keeps_words_and_tags()
    ensures first { (tree : Tree) (net : Net) (typed : IsTyped tree net) (items : List (List ℤ))
        → AllByRecursion (λ words. length words ≡ (node_at tree 0).ins) items
        → IsFitting tree net typed.widths (first_state net items) }
    ensures fired { (tree : Tree) (leaf : Leaf) (net : Net) (typed : IsTyped tree net) (s : State)
        (p : ℕ)
        → GivesOuts tree leaf → IsFitting tree net typed.widths s → can_fire tree net s p ≡ true
        → IsFitting tree net typed.widths (fire tree leaf net s p) }
    ensures ways { (tree : Tree) (leaf : Leaf) (net : Net) (typed : IsTyped tree net) (s t : State)
        (p : ℕ)
        → GivesOuts tree leaf → IsFitting tree net typed.widths s → MayFire tree leaf net s p t
        → IsFitting tree net typed.widths t }
{}

/// The firing by the table of kinds is one of the ways that are open to a process, and where any is
/// open the process is ready; and whoever knows more of the channels has all ways of one who knows
/// less.
pub fn ways_are_open()
    ensures table { (tree : Tree) (leaf : Leaf) (net : Net) (s : State) (p : ℕ)
        → can_fire tree net s p ≡ true → MayFire tree leaf net s p (fire tree leaf net s p) }
    ensures ready { (tree : Tree) (leaf : Leaf) (net : Net) (s t : State) (p : ℕ)
        → MayFire tree leaf net s p t → is_ready tree net s p ≡ true }
    ensures more { (tree : Tree) (leaf : Leaf) (net : Net) (e f : Eyes) (s t : State) (p : ℕ)
        → Knows e f → Sees tree leaf net e s p t → Sees tree leaf net f s p t }
{}

/// A run goes pick by pick, and so does the round robin, of which no pick is idle.
pub fn runs_go_pick_by_pick()
    ensures more { (tree : Tree) (leaf : Leaf) (net : Net) (c : Course) (picks : List ℕ) (p : ℕ)
        → after_picks tree leaf net c (picks ++ p ∷ [])
        ≡ picked tree leaf net (after_picks tree leaf net c picks) p }
    ensures next { (tree : Tree) (leaf : Leaf) (net : Net) (most : ℕ) (s : State) (from p : ℕ)
        → next_of tree net s from ≡ Some p
        → round_robin tree leaf net (suc most) s from
        ≡ p ∷ round_robin tree leaf net most (fire tree leaf net s p) (after net p) }
    ensures end { (tree : Tree) (leaf : Leaf) (net : Net) (most : ℕ) (s : State) (from : ℕ)
        → next_of tree net s from ≡ None → round_robin tree leaf net most s from ≡ [] }
    ensures busy { (tree : Tree) (leaf : Leaf) (net : Net) (items : List (List ℤ)) (most : ℕ)
        → (run tree leaf net items (round_robin tree leaf net most (first_state net items) 0)).idle
        ≡ 0 }
{}

/// The net of one unit is typed for each lawful tree whose root is a `seq` node.
pub fn the_net_of_one_unit_is_typed()
    ensures { (tree : Tree) (cap : ℕ) → 0 < cap → IsLawfulTree tree → 0 < length tree.nodes
        → (node_at tree 0).form ≡ Seq
        → IsTyped tree (unit_net cap) }
{}

/// The net of one unit has invariants: so all its runs mean their items, with as many firings for
/// an item as its tree has.
pub fn the_net_of_one_unit_has_invariants()
    ensures { (tree : Tree) (leaf : Leaf) (cap : ℕ) (counts : List ℕ) → 0 < cap
        → (node_at tree 0).form ≡ Seq
        → (invariants : Invariants) × HasInvariants tree leaf (unit_net cap) (firings tree counts) invariants }
{}

/// The nets that were set up by hand run as was worked out by hand.
pub fn gives_hand_values()
    ensures { HandValues }
{}
