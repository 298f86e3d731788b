// The network that the words and the files determine.

ghost use Rattle.p3l_program.specs.Determined.{EveryProgramHasOneNetwork};

/// The words and the texts of a program and of its costs determine the network: whatever files hold
/// them make the same one.
pub fn every_program_has_one_network()
    ensures { EveryProgramHasOneNetwork }
{}
