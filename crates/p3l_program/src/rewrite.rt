// The command `rewrite`: a program with the same meaning and no greater service time.

ghost use Rattle.std.specs.Prelude.{◌≤◌, IfOk, OnErr, ◌⊎◌};
ghost use Rattle.p3l_base.specs.Memory.{Refused};
ghost use Rattle.p3l_ast.specs.Tree.{program_tree};
ghost use Rattle.p3l_io.specs.Change.{HasSameContent, change};
ghost use Rattle.p3l_rewrite.specs.Rewriting.{MayBeRewritten};
ghost use Rattle.p3l_rewrite.specs.Serving.{MayBeMany};
ghost use Rattle.p3l_program.specs.Rewrite.{IsBestText, IsRewritten};
ghost use Rattle.p3l_program.specs.Source.{plain_build};
ghost use Rattle.p3l_program.specs.Stage.{build_stages};
ghost use Rattle.p3l_program.specs.Text.{IsTextExpected};
ghost use Rattle.p3l_program.specs.Wants.{Wants};

use crate::source::{Priced, load_priced};
use crate::text::write_text;
use p3l_base::{List, Name, NoMemory};
use p3l_io::{Files, Sink};
use p3l_opts::Build;
use p3l_print::print;
use p3l_report::Verdict;
use std::alloc::Global;

/// The canonical text of the best way to write a program.
fn best_text(alloc: Global, priced: &Priced, processors: u32) -> Result<List<u8>, NoMemory>
    requires { MayBeRewritten (program_tree priced.now.program) priced.now.costs processors }
    ensures best { IfOk result
        (IsBestText (program_tree priced.now.program) priced.now.costs processors) }
    ensures wants { OnErr result (Refused ⊎ MayBeMany (program_tree priced.now.program)) }
{
    let best = p3l_rewrite::rewrite(alloc, &priced.program, &priced.costs, processors)?;
    print(alloc, &best.program)
}

/// Writes the best way to write the program of a file.
pub fn rewrite<F: Files, K: Sink>(
    alloc: Global,
    program: Name,
    processors: u32,
    costs: Option<Name>,
    files: &mut F,
    out: &mut K,
) -> Verdict
    requires processors { (1 ≤ processors) × (processors ≤ 512) }
    ensures expected { IsTextExpected (change (F.observed files.old) (F.observed files.new))
        (change (K.observed out.old) (K.observed out.new))
        (build_stages (plain_build program processors costs))
        (IsRewritten (F.observed files.old).content (plain_build program processors costs)) result }
    ensures same_files { HasSameContent (change (F.observed files.old) (F.observed files.new)) }
    ensures wants { Wants F.may_want result }
{
    let build = Build {
        program,
        processors,
        costs,
        capacity: 4,
    };
    match load_priced(alloc, build, files) {
        Err(verdict) => verdict,
        Ok(priced) => match best_text(alloc, &priced, processors) {
            Err(_) => Verdict::NoMemory,
            Ok(text) => write_text(text.as_slice(), out),
        },
    }
}
