// The command `explain`: the counts that are chosen for a program, and what they come to.

ghost use Rattle.std.specs.Prelude.{◌≤◌};
ghost use Rattle.p3l_io.specs.Change.{HasSameContent, change};
ghost use Rattle.p3l_program.specs.Text.{IsTextExpected};
ghost use Rattle.p3l_program.specs.Explain.{IsExplained};
ghost use Rattle.p3l_program.specs.Stage.{build_stages};
ghost use Rattle.p3l_program.specs.Wants.{Wants};

use crate::plan::allot;
use crate::text::write_text;
use p3l_alloc::allocation_text;
use p3l_io::{Files, Sink};
use p3l_opts::Build;
use p3l_report::Verdict;
use std::alloc::Global;

/// Writes the counts that are chosen for the program of a file.
pub fn explain<F: Files, K: Sink>(
    alloc: Global,
    build: Build,
    files: &mut F,
    out: &mut K,
) -> Verdict
    requires processors { (1 ≤ build.processors) × (build.processors ≤ 512) }
    ensures expected { IsTextExpected (change (F.observed files.old) (F.observed files.new))
        (change (K.observed out.old) (K.observed out.new)) (build_stages build)
        (IsExplained (F.observed files.old).content build) result }
    ensures same_files { HasSameContent (change (F.observed files.old) (F.observed files.new)) }
    ensures wants { Wants F.may_want result }
{
    let processors = build.processors;
    match allot(alloc, build, files) {
        Err(verdict) => verdict,
        Ok(loaded) => {
            let tree = &loaded.program.tree;
            match allocation_text(alloc, tree, &loaded.costs, processors, &loaded.choice) {
                Err(_) => Verdict::NoMemory,
                Ok(text) => write_text(text.as_slice(), out),
            }
        }
    }
}
