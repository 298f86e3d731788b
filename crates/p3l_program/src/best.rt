// The promise on worker counts, on a page: what it comes to in the terms of the libraries below.

ghost use Rattle.p3l_program.specs.Best.{EveryExplanationIsTheBest};

use p3l_opts::one_command_at_most;

/// The counts that `explain` writes with status 0 fit the processors; of all that fit, none have a
/// smaller service time, and none with an equal one have fewer processes.
pub fn every_explanation_is_the_best()
    ensures { EveryExplanationIsTheBest }
{
    one_command_at_most();
}
