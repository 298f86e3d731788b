// Laws of picks, each as the contract of a function that does nothing.

ghost use Rattle.std.specs.Prelude.{◌≡◌, ◌≢◌, ◌+◌, ◌*◌, ◌<◌, ◌≤◌, ◌⊎◌, ℕ, ℤ, suc, Bool, List, [], ◌∷◌, None, Some, true, length};
ghost use Rattle.p3l_base.specs.declared.outcome.Outcome.{Outcome};
ghost use Rattle.p3l_skel.specs.declared.tree.Tree.{Tree};
ghost use Rattle.p3l_firing.specs.declared.net.Net.{Net};
ghost use Rattle.p3l_firing.specs.NetInvariants.{Invariants, HasInvariants};
ghost use Rattle.p3l_firing.specs.Fire.{IsStuck, can_fire};
ghost use Rattle.p3l_firing.specs.Nodes.{Leaf};
ghost use Rattle.p3l_firing.specs.Run.{Course, course_from, picked, run_from};
ghost use Rattle.p3l_firing.specs.State.{State};
ghost use Rattle.p3l_net.specs.Machine.{Seen, can_step, ready_list};
ghost use Rattle.p3l_net.specs.Offered.{Follows, HasFilledInbox};
ghost use Rattle.p3l_sched.specs.declared.picker.Way.{Way};
ghost use Rattle.p3l_sched.specs.declared.picker.Way.TheVariants.{Reads};
ghost use Rattle.p3l_sched.specs.Course.{picks_from};
ghost use Rattle.p3l_sched.specs.Picker.{IsMade, IsPickedFrom, after_pick, pick_of, ready_of};

use p3l_net::laws::a_filled_machine_follows_the_run;

/// The picks for a run go one by one. They end where no process can fire, and where there is no
/// pick.
pub fn picks_go_one_by_one()
    ensures next { (tree : Tree) (leaf : Leaf) (net : Net) (most : ℕ) (way : Way) (c : Course)
        (p : ℕ)
        → ready_of (can_fire tree net c.state) (length net.procs) ≢ []
        → pick_of (can_fire tree net c.state) (length net.procs) way ≡ Some p
        → picks_from tree leaf net (suc most) way c
        ≡ p ∷ picks_from tree leaf net most (after_pick (length net.procs) way p)
        (picked tree leaf net c p) }
    ensures ended { (tree : Tree) (leaf : Leaf) (net : Net) (most : ℕ) (way : Way) (c : Course)
        → pick_of (can_fire tree net c.state) (length net.procs) way ≡ None
        → picks_from tree leaf net most way c ≡ [] }
    ensures stuck { (tree : Tree) (leaf : Leaf) (net : Net) (most : ℕ) (way : Way) (c : Course)
        → ready_of (can_fire tree net c.state) (length net.procs) ≡ []
        → picks_from tree leaf net most way c ≡ [] }
{}

/// A turn and a draw pick a process that can fire, if there is one, and the first of recorded
/// picks is read; a net where no listed process can fire is stuck.
pub fn picks_are_ready()
    ensures ready { (can : ℕ → Bool) (size : ℕ) (way : Way) (p : ℕ) → pick_of can size way ≡ Some p
        → IsPickedFrom can size way p }
    ensures stuck { (tree : Tree) (net : Net) (s : State)
        → ready_of (can_fire tree net s) (length net.procs) ≡ [] → IsStuck tree net s }
{}

/// A machine whose empty inbox is filled before each pick is picked for as the run on all the
/// items.
pub fn a_filled_machine_is_picked_for_as_its_run()
    ensures ready { (m : Seen) (outcomes : List Outcome) (rest : List (List ℤ)) (c : Course)
        → Follows m outcomes rest c → HasFilledInbox m rest
        → ready_of (can_fire m.tree m.net c.state) (length m.net.procs) ≡ ready_list m }
    ensures pick { (m : Seen) (outcomes : List Outcome) (rest : List (List ℤ)) (c : Course)
        (way : Way) → Follows m outcomes rest c → HasFilledInbox m rest
        → pick_of (can_fire m.tree m.net c.state) (length m.net.procs) way
        ≡ pick_of (can_step m) (length m.net.procs) way }
{
    a_filled_machine_follows_the_run();
}

/// Picks made by turns or by a generator lead from any orderly state of a net with invariants to
/// one where nothing can fire, if the bound of picks is at least that of the law of runs; a greater
/// bound makes no more picks.
pub fn picks_that_are_made_lead_to_the_end()
    ensures ends { (tree : Tree) (leaf : Leaf) (net : Net) (firings : ℕ) (invariants : Invariants) (s : State)
        (way : Way) (most : ℕ)
        → HasInvariants tree leaf net firings invariants → invariants.orderly s ≡ true
        → IsMade (length net.procs) way → invariants.owed s + firings * length s.unsent ≤ most
        → IsStuck tree net
        (run_from tree leaf net s (picks_from tree leaf net most way (course_from s))).state }
    ensures enough { (tree : Tree) (leaf : Leaf) (net : Net) (firings : ℕ) (invariants : Invariants)
        (s : State) (way : Way) (most more : ℕ)
        → HasInvariants tree leaf net firings invariants → invariants.orderly s ≡ true
        → IsMade (length net.procs) way → invariants.owed s + firings * length s.unsent ≤ most
        → picks_from tree leaf net (most + more) way (course_from s)
        ≡ picks_from tree leaf net most way (course_from s) }
{}

/// Recorded picks are read from any state until all were made or nothing can fire; a greater bound
/// reads no more.
pub fn recorded_picks_are_read_to_the_end()
    ensures ends { (tree : Tree) (leaf : Leaf) (net : Net) (s : State) (picks : List ℕ)
        → (picks_from tree leaf net (length picks) (Reads picks) (course_from s) ≡ picks)
        ⊎ IsStuck tree net
        (run_from tree leaf net s
        (picks_from tree leaf net (length picks) (Reads picks) (course_from s))).state }
    ensures enough { (tree : Tree) (leaf : Leaf) (net : Net) (s : State) (picks : List ℕ) (more : ℕ)
        → picks_from tree leaf net (length picks + more) (Reads picks) (course_from s)
        ≡ picks_from tree leaf net (length picks) (Reads picks) (course_from s) }
{}
