// Laws of the functions of all bodies.

ghost use Rattle.p3l_c_print.specs.Laws.{IdentifiersAreDistinct};

/// A law of identifiers: those of a body's variables differ, and each has at most 63 characters, by
/// which every C11 compiler tells identifiers apart.
pub fn identifiers_are_distinct()
    ensures { IdentifiersAreDistinct }
{}
