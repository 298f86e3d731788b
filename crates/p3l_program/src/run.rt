// The command `run`: a program of a file, run on the input under a schedule.

ghost use Rattle.std.specs.Prelude.{◌≤◌, ◌⊎◌};
ghost use Rattle.std.specs.Option.{option_to_list};
ghost use Rattle.p3l_io.specs.Change.{HasSameContent, change};
ghost use Rattle.p3l_program.specs.Origin.{built};
ghost use Rattle.p3l_program.specs.Run.{IsRunExpected, RunsOver};
ghost use Rattle.p3l_program.specs.Saved.{KeepsFiles};
ghost use Rattle.p3l_program.specs.World.{world};
ghost use Rattle.p3l_program.specs.Wants.{Wants};

use crate::plan::load_network;
use crate::running::run_network;
use p3l_base::Name;
use p3l_io::{Files, Sink, Source};
use p3l_opts::{Build, Sched};
use p3l_report::Verdict;
use std::alloc::Global;

/// Runs the program of a file on the input; its trace goes to the file of a name, if there is one,
/// and its numbers are to be reported or not.
pub fn run<F: Files, S: Source, K: Sink>(
    alloc: Global,
    build: Build,
    request: Sched,
    trace: Option<Name>,
    reported: bool,
    files: &mut F,
    input: &mut S,
    out: &mut K,
) -> Verdict
    requires processors { (1 ≤ build.processors) × (build.processors ≤ 512) }
    requires capacity { (1 ≤ build.capacity) × (build.capacity ≤ 1024) }
    ensures expected { IsRunExpected
        (world (change (F.observed files.old) (F.observed files.new))
        (change (S.observed input.old) (S.observed input.new))
        (change (K.observed out.old) (K.observed out.new))) (built build) request trace reported
        result }
    ensures kept { KeepsFiles (change (F.observed files.old) (F.observed files.new))
        (option_to_list trace) result }
    ensures over { HasSameContent (change (F.observed files.old) (F.observed files.new))
        ⊎ RunsOver (world (change (F.observed files.old) (F.observed files.new))
        (change (S.observed input.old) (S.observed input.new))
        (change (K.observed out.old) (K.observed out.new))) (built build) request }
    ensures wants { Wants F.may_want result }
{
    match load_network(alloc, build, files) {
        Err(verdict) => verdict,
        Ok(loaded) => run_network(alloc, loaded, request, trace, reported, files, input, out),
    }
}
