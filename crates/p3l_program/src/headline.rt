// The first promise, on a page: what it comes to in the terms of the libraries below.

ghost use Rattle.p3l_program.specs.Headline.{EveryRunMeansItsProgram, EveryScheduleWritesTheSame};

use p3l_opts::one_command_at_most;

/// The results of a run are what its program means: `run` writes a line for each item of the input,
/// in order, whatever the schedule; if it ends early, the lines of the first items.
pub fn every_run_means_its_program()
    ensures { EveryRunMeansItsProgram }
{
    one_command_at_most();
}

/// Results don't depend on the schedule: whatever any run of a program on an input writes begins what
/// a run of status 0 writes, and is all of it with status 0.
pub fn every_schedule_writes_the_same()
    ensures { EveryScheduleWritesTheSame }
{}
