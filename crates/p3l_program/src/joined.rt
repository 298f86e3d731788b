// Runs on blocks of a stream, whose texts are put together.

ghost use Rattle.p3l_program.specs.Joined.{BlocksJoin};

/// The stream may be cut between lines and its blocks be run apart: where all lines of the first are
/// accepted and none of its items traps, the text of the whole run is that of the first block's and
/// then that of the others'.
pub fn blocks_join()
    ensures { BlocksJoin }
{}
