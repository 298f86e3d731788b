// Laws of the meaning and of counts, each on a call that does nothing.

ghost use Rattle.p3l_base.specs.declared.outcome.Outcome.{Outcome};
ghost use Rattle.std.specs.Prelude.{ℕ, List};
ghost use Rattle.p3l_base.specs.declared.outcome.Trap.{Trap};
ghost use Rattle.p3l_skel.specs.Lawful.{IsLawfulTree};
ghost use Rattle.p3l_skel.specs.Laws.{FoldsBySegments, CutsIntoSegments, PassesTraps, GoesByParts, KeepsWords, HasGreatestSegments};
ghost use Rattle.p3l_skel.specs.Examples.{HandValues};

use crate::tree::Tree;
use crate::units::Units;

/// The fold of the segments' folds is the fold of the whole, for every power of two of segments.
pub fn folds_by_segments()
    ensures { FoldsBySegments }
{}

/// A list is cut into as many segments as the power of two of its level says, and nothing is lost.
pub fn cuts_into_segments()
    ensures { (level : ℕ) (outcomes : List Outcome) → CutsIntoSegments level outcomes }
{}

/// A trap goes through a node, through stages and through the gathering of results.
pub fn passes_traps<U: Units>(_units: &U)
    ensures { (trap : Trap) → PassesTraps (U.tree _units.now) (U.leaf _units.now) trap }
{}

/// A node of a lawful tree makes of words what its form makes of what its parts do.
pub fn goes_by_parts<U: Units>(_units: &U)
    requires { IsLawfulTree (U.tree _units.now) }
    ensures { GoesByParts (U.tree _units.now) (U.leaf _units.now) }
{}

/// A value that a node of a lawful tree gives has the node's out words.
pub fn keeps_words<U: Units>(_units: &U)
    requires { IsLawfulTree (U.tree _units.now) }
    ensures { KeepsWords (U.tree _units.now) (U.leaf _units.now) }
{}

/// A reduce of a lawful tree may have as many segments as its most segments are, and no more.
pub fn has_greatest_segments(_tree: &Tree)
    requires { IsLawfulTree _tree.now }
    ensures { HasGreatestSegments _tree.now }
{}

/// The meaning gives the values that were worked out by hand.
pub fn gives_hand_values()
    ensures { HandValues }
{}
