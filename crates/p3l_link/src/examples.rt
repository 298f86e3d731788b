// Nets by hand.

ghost use Rattle.p3l_link.specs.Examples.{HandValues};

/// The nets that were worked out by hand are those of the definition.
pub fn gives_hand_values()
    ensures { HandValues }
{}
