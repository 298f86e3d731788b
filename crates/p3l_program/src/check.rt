// The command `check`: whether a program keeps all rules, and how large it is.

ghost use Rattle.std.specs.Prelude.{◌≡◌, length, string_bytes};
ghost use Rattle.p3l_base.specs.Memory.{IfGiven};
ghost use Rattle.p3l_io.specs.Change.{HasSameContent, change};
ghost use Rattle.p3l_program.specs.Check.{IsCounted, ok_line};
ghost use Rattle.p3l_program.specs.Text.{IsTextExpected};
ghost use Rattle.p3l_program.specs.Stage.{program_stages};
ghost use Rattle.p3l_program.specs.Wants.{Wants};

use crate::plan::load_program;
use crate::text::write_text;
use p3l_base::{Name, NoMemory};
use p3l_io::{Files, Sink};
use p3l_report::Verdict;
use p3l_skel::Tree;
use std::alloc::Global;

/// The line of a program that keeps all rules.
fn ok_line(alloc: Global, tree: &Tree) -> Result<String, NoMemory>
    ensures { IfGiven result (λ line. string_bytes line
        ≡ ok_line (length tree.now.modules) (length tree.now.nodes)) }
{
    let modules = tree.modules.len();
    let instances = tree.nodes.len();
    Ok(format!(in alloc; "ok: {modules} modules, {instances} instances\n")?)
}

/// Writes how many modules and instances the program of the file of this name has.
pub fn check<F: Files, K: Sink>(alloc: Global, name: Name, files: &mut F, out: &mut K) -> Verdict
    ensures expected { IsTextExpected (change (F.observed files.old) (F.observed files.new))
        (change (K.observed out.old) (K.observed out.new)) (program_stages name)
        (IsCounted (F.observed files.old).content name) result }
    ensures same_files { HasSameContent (change (F.observed files.old) (F.observed files.new)) }
    ensures wants { Wants F.may_want result }
{
    match load_program(alloc, name, files) {
        Err(verdict) => verdict,
        Ok(program) => match ok_line(alloc, &program.tree) {
            Err(_) => Verdict::NoMemory,
            Ok(line) => write_text(line.as_str().as_bytes(), out),
        },
    }
}
