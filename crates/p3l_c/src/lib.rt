//! C functions of bodies: each does what its body means.
#![tactic(auto)]

ghost use Rattle.p3l_c.specs.Condition.{CMeans};
ghost use Rattle.p3l_c.specs.Nesting.{LinesAreFlat};
ghost use Rattle.p3l_c.specs.Temps.{TempsAreDeclared};
ghost use Rattle.p3l_c.specs.Checked.{CheckedWrites};

/// A law of C functions: on all words, the function of a body has no undefined behaviour, ends, and
/// gives the meaning of the body.
pub fn c_means()
    ensures { CMeans }
{}

/// A law of lines: they use only the temps that their statements count.
pub fn temps_are_declared()
    ensures { TempsAreDeclared }
{}

/// A law of lines: no expression nests more brackets than every C11 compiler takes.
pub fn lines_are_flat()
    ensures { LinesAreFlat }
{}

/// A law of checked bodies: each can be written as C.
pub fn checked_writes()
    ensures { CheckedWrites }
{}
