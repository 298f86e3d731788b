// Laws of every exported program.

ghost use Rattle.p3l_export.specs.Laws.{EveryCapacityIsInRange, EveryExportedNetIsTyped};

/// The channels of an exported program hold at least a token and at most as many as the machine's
/// limit, where those of the net do.
pub fn capacities_are_in_range()
    ensures { EveryCapacityIsInRange }
{}

/// The net of an exported program is typed for its tree, where the linked one is: its channels hold
/// at least as many tokens.
pub fn exported_nets_are_typed()
    ensures { EveryExportedNetIsTyped }
{}
