//! The laws that positions matter to nothing but where a fault is said to be.
#![tactic(auto)]

ghost use Rattle.p3l_position_laws.specs.Alike.{PositionsAreNothing, BodiesMeanOne};
ghost use Rattle.p3l_position_laws.specs.Laws.{ProgramsSettle, BodiesStay};

/// A law of programs: without positions they come to what they come to with them.
pub fn programs_settle()
    ensures { ProgramsSettle }
{}

/// A law of checked bodies: without positions they do what they do with them.
pub fn bodies_stay()
    ensures { BodiesStay }
{}

/// A law of programs that are the same but for positions: both keep the rules, with the same tree and the same bodies
/// but for positions, or neither, with the same fault.
pub fn positions_are_nothing()
    ensures { PositionsAreNothing }
{}

/// A law of trees with bodies: where the bodies are the same but for positions, so is what the tree makes of items.
pub fn bodies_mean_one()
    ensures { BodiesMeanOne }
{}
