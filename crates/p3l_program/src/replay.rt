// Runs of the picks that `time` leaves.

ghost use Rattle.p3l_program.specs.Replay.{EveryTimedRunIsReplayed};

/// The picks that a run in virtual time left are a schedule, and under it `run` ends alike on the same
/// input: with the same text, the same end and the same numbers.
pub fn every_timed_run_is_replayed()
    ensures { EveryTimedRunIsReplayed }
{}
