// The command `advise`: what numbers of processors buy for a program, or the processes of its nodes.

ghost use Rattle.std.specs.Prelude.{◌≤◌};
ghost use Rattle.p3l_io.specs.Change.{HasSameContent, change};
ghost use Rattle.p3l_program.specs.Advise.{IsAdvised, IsListed, IsRequested};
ghost use Rattle.p3l_program.specs.Stage.{build_stages};
ghost use Rattle.p3l_program.specs.Text.{IsTextExpected};
ghost use Rattle.p3l_program.specs.Wants.{Wants};

use crate::plan::{allot, load_network};
use crate::text::write_text;
use p3l_advise::advice_text;
use p3l_graph::processes_text;
use p3l_io::{Files, Sink};
use p3l_opts::Build;
use p3l_report::Verdict;
use std::alloc::Global;

/// Writes what each number of processors up to the given one buys for the program of a file.
fn write_advice<F: Files, K: Sink>(
    alloc: Global,
    build: Build,
    files: &mut F,
    out: &mut K,
) -> Verdict
    requires processors { (1 ≤ build.processors) × (build.processors ≤ 512) }
    ensures expected { IsTextExpected (change (F.observed files.old) (F.observed files.new))
        (change (K.observed out.old) (K.observed out.new)) (build_stages build)
        (IsAdvised (F.observed files.old).content build) result }
    ensures same_files { HasSameContent (change (F.observed files.old) (F.observed files.new)) }
    ensures wants { Wants F.may_want result }
{
    let processors = build.processors;
    match allot(alloc, build, files) {
        Err(verdict) => verdict,
        Ok(loaded) => {
            let tree = &loaded.program.tree;
            match advice_text(alloc, tree, &loaded.costs, processors) {
                Err(_) => Verdict::NoMemory,
                Ok(text) => write_text(text.as_slice(), out),
            }
        }
    }
}

/// Writes the processes of each node of the network that is built for the program of a file.
fn list_processes<F: Files, K: Sink>(
    alloc: Global,
    build: Build,
    files: &mut F,
    out: &mut K,
) -> Verdict
    requires processors { (1 ≤ build.processors) × (build.processors ≤ 512) }
    requires capacity { (1 ≤ build.capacity) × (build.capacity ≤ 1024) }
    ensures expected { IsTextExpected (change (F.observed files.old) (F.observed files.new))
        (change (K.observed out.old) (K.observed out.new)) (build_stages build)
        (IsListed (F.observed files.old).content build) result }
    ensures same_files { HasSameContent (change (F.observed files.old) (F.observed files.new)) }
    ensures wants { Wants F.may_want result }
{
    match load_network(alloc, build, files) {
        Err(verdict) => verdict,
        Ok(loaded) => match processes_text(alloc, &loaded.tree, &loaded.net) {
            Err(_) => Verdict::NoMemory,
            Ok(text) => write_text(text.as_slice(), out),
        },
    }
}

/// Writes what processors buy for the program of a file, or the processes of each node in its place.
pub fn advise<F: Files, K: Sink>(
    alloc: Global,
    build: Build,
    processes: bool,
    files: &mut F,
    out: &mut K,
) -> Verdict
    requires processors { (1 ≤ build.processors) × (build.processors ≤ 512) }
    requires capacity { (1 ≤ build.capacity) × (build.capacity ≤ 1024) }
    ensures expected { IsTextExpected (change (F.observed files.old) (F.observed files.new))
        (change (K.observed out.old) (K.observed out.new)) (build_stages build)
        (IsRequested (F.observed files.old).content build processes) result }
    ensures same_files { HasSameContent (change (F.observed files.old) (F.observed files.new)) }
    ensures wants { Wants F.may_want result }
{
    if processes {
        list_processes(alloc, build, files, out)
    } else {
        write_advice(alloc, build, files, out)
    }
}
