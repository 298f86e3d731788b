// The command `graph`: the picture of the network that is built for a program.

ghost use Rattle.std.specs.Prelude.{◌≤◌};
ghost use Rattle.p3l_io.specs.Change.{HasSameContent, change};
ghost use Rattle.p3l_program.specs.Graph.{IsDrawn};
ghost use Rattle.p3l_program.specs.Stage.{build_stages};
ghost use Rattle.p3l_program.specs.Text.{IsTextExpected};
ghost use Rattle.p3l_program.specs.Wants.{Wants};

use crate::plan::load_network;
use crate::text::write_text;
use p3l_graph::graph_text;
use p3l_io::{Files, Sink};
use p3l_opts::Build;
use p3l_report::Verdict;
use std::alloc::Global;

/// Writes the picture of the network that is built for the program of a file.
pub fn graph<F: Files, K: Sink>(alloc: Global, build: Build, files: &mut F, out: &mut K) -> Verdict
    requires processors { (1 ≤ build.processors) × (build.processors ≤ 512) }
    requires capacity { (1 ≤ build.capacity) × (build.capacity ≤ 1024) }
    ensures expected { IsTextExpected (change (F.observed files.old) (F.observed files.new))
        (change (K.observed out.old) (K.observed out.new)) (build_stages build)
        (IsDrawn (F.observed files.old).content build) result }
    ensures same_files { HasSameContent (change (F.observed files.old) (F.observed files.new)) }
    ensures wants { Wants F.may_want result }
{
    match load_network(alloc, build, files) {
        Err(verdict) => verdict,
        Ok(loaded) => match graph_text(alloc, &loaded.tree, &loaded.net) {
            Err(_) => Verdict::NoMemory,
            Ok(text) => write_text(text.as_slice(), out),
        },
    }
}
