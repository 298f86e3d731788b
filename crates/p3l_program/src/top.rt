// The top call: from the words of the command line to the status.

ghost use Rattle.std.specs.Prelude.{◌⊎◌};
ghost use Rattle.p3l_io.specs.Change.{change};
ghost use Rattle.p3l_opts.specs.Command.{texts_of};
ghost use Rattle.p3l_program.specs.Answer.{Answers, IsExpected};
ghost use Rattle.p3l_program.specs.Top.{Promises};
ghost use Rattle.p3l_program.specs.World.{world};
ghost use Rattle.p3l_program.specs.Wants.{SavesLong, Wants};

use crate::advise::advise;
use crate::certify::certify;
use crate::check::check;
use crate::check_trace::check_trace;
use crate::compile::compile;
use crate::exec::exec;
use crate::explain::explain;
use crate::export::export;
use crate::fmt::fmt;
use crate::generated::run_generated;
use crate::graph::graph;
use crate::migrate::migrate;
use crate::profile::profile;
use crate::resume::resume;
use crate::rewrite::rewrite;
use crate::run::run;
use crate::save_state::save_state;
use crate::scan::scan;
use crate::time::time;
use crate::verify::verify_cert;
use p3l_io::{Files, Sink, Source};
use p3l_opts::{Command, OptsRefusal, one_command_at_most, parse};
use p3l_report::{Refusal, Status, Verdict, put_no_memory, put_report, report_of};
use std::alloc::Global;

/// Does what the words request, up to the lines on the standard error.
fn perform<F: Files, S: Source, K: Sink>(
    alloc: Global,
    words: &[&str],
    files: &mut F,
    input: &mut S,
    out: &mut K,
) -> Verdict
    ensures expected { IsExpected (texts_of words.now)
        (world (change (F.observed files.old) (F.observed files.new))
        (change (S.observed input.old) (S.observed input.new))
        (change (K.observed out.old) (K.observed out.new))) result }
    ensures wants { Wants F.may_want result
        ⊎ SavesLong (texts_of words.now) (F.observed files.old).content }
{
    match parse(alloc, words) {
        Err(OptsRefusal::Usage) => Verdict::Refused(Refusal::Usage),
        Err(OptsRefusal::NoMemory) => Verdict::NoMemory,
        Ok(Command::Check { program }) => check(alloc, program, files, out),
        Ok(Command::Fmt { program }) => fmt(alloc, program, files, out),
        Ok(Command::Explain { build, cert }) => match cert {
            None => explain(alloc, build, files, out),
            Some(name) => certify(alloc, build, name, files, out),
        },
        Ok(Command::Advise { build, processes }) => advise(alloc, build, processes, files, out),
        Ok(Command::Compile { build, output }) => compile(alloc, build, output, files),
        Ok(Command::Migrate { image, output }) => migrate(alloc, image, output, files),
        Ok(Command::Export { exported, output }) => export(alloc, exported, output, files),
        Ok(Command::Graph { build }) => graph(alloc, build, files, out),
        Ok(
            Command::Run {
                build,
                schedule,
                trace,
                stats,
            },
        ) => run(alloc, build, schedule, trace, stats, files, input, out),
        Ok(
            Command::VerifyCert {
                program,
                cert,
                costs,
            },
        ) => verify_cert(alloc, program, cert, costs, files, out),
        Ok(
            Command::Exec {
                image,
                schedule,
                trace,
                stats,
            },
        ) => exec(alloc, image, schedule, trace, stats, files, input, out),
        Ok(Command::CheckTrace { build, trace }) => {
            check_trace(alloc, build, trace, files, input, out)
        }
        Ok(
            Command::Gen {
                number,
                processors,
                items,
                schedule,
                save,
            },
        ) => run_generated(alloc, number, processors, items, schedule, save, files, out),
        Ok(
            Command::Rewrite {
                program,
                processors,
                costs,
            },
        ) => rewrite(alloc, program, processors, costs, files, out),
        Ok(Command::Profile { program }) => profile(alloc, program, files, input, out),
        Ok(Command::Time { build, picks }) => time(alloc, build, picks, files, input, out),
        Ok(
            Command::Scan {
                program,
                segments,
                schedule,
                capacity,
                stats,
            },
        ) => scan(
            alloc, program, segments, schedule, capacity, stats, files, input, out,
        ),
        Ok(
            Command::Save {
                build,
                picks,
                output,
            },
        ) => save_state(alloc, build, picks, output, files, input, out),
        Ok(
            Command::Resume {
                snapshot,
                schedule,
                stats,
            },
        ) => resume(alloc, snapshot, schedule, stats, files, input, out),
    }
}

/// Does what the words request, and puts the lines that are expected on the standard error.
fn answer<F: Files, S: Source, K: Sink, E: Sink>(
    alloc: Global,
    words: &[&str],
    files: &mut F,
    input: &mut S,
    out: &mut K,
    err: &mut E,
) -> Status
    ensures answers { Answers F.may_want (texts_of words.now)
        (world (change (F.observed files.old) (F.observed files.new))
        (change (S.observed input.old) (S.observed input.new))
        (change (K.observed out.old) (K.observed out.new)))
        (change (E.observed err.old) (E.observed err.new)) result.0 }
{
    let verdict = perform(alloc, words, files, input, out);
    match report_of(alloc, &verdict) {
        Ok(report) => {
            put_report(err, &report);
            verdict.status()
        }
        Err(_) => {
            put_no_memory(err);
            Verdict::NoMemory.status()
        }
    }
}

/// The program: does what the words request with the files, the input, the output and the standard
/// error, and gives the status that it ends with. What it promises of these, clause by clause, is
/// `Promises`.
pub fn top<F: Files, S: Source, K: Sink, E: Sink>(
    alloc: Global,
    words: &[&str],
    files: &mut F,
    input: &mut S,
    out: &mut K,
    err: &mut E,
) -> Status
    ensures { Promises F.may_want (texts_of words.now)
        (world (change (F.observed files.old) (F.observed files.new))
        (change (S.observed input.old) (S.observed input.new))
        (change (K.observed out.old) (K.observed out.new)))
        (change (E.observed err.old) (E.observed err.new)) result.0 }
{
    one_command_at_most();
    answer(alloc, words, files, input, out, err)
}
