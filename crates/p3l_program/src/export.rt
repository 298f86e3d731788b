// The command `export`: a program as a C file that runs on many processors.

ghost use Rattle.std.specs.Prelude.{◌≡◌, ◌∷◌, ◌≤◌, ◌⊎◌, [], IfOk, OnErr};
ghost use Rattle.p3l_ast.specs.Tree.{program_tree};
ghost use Rattle.p3l_base.specs.Memory.{Refused};
ghost use Rattle.p3l_io.specs.Change.{change};
ghost use Rattle.p3l_export.specs.Export.{IsCapacity};
ghost use Rattle.p3l_rewrite.specs.Serving.{MayBeMany};
ghost use Rattle.p3l_program.specs.Export.{IsExportOf, IsProgramText, MayBeExported, build_of};
ghost use Rattle.p3l_program.specs.Saved.{IsFileExpected, KeepsFiles};
ghost use Rattle.p3l_program.specs.Stage.{build_stages};
ghost use Rattle.p3l_program.specs.Wants.{Wants};

use crate::save::save;
use crate::source::{Priced, load_priced};
use p3l_base::{List, Name, NoMemory};
use p3l_c_print::bodies::bodies_text;
use p3l_check::resolve;
use p3l_export::{ENGINE, HEAD, export_program};
use p3l_io::Files;
use p3l_opts::{Build, Exported};
use p3l_report::{Finish, Verdict};
use std::alloc::Global;

/// The text in C of a program under a capacity, or under capacities that are chosen. The program is
/// resolved once more, for its bodies.
fn program_text(alloc: Global, priced: &Priced, capacity: Option<u32>) -> Result<List<u8>, NoMemory>
    requires ready { MayBeExported priced.now }
    requires capacity { IsCapacity capacity }
    ensures text { IfOk result (IsProgramText priced.now capacity) }
    ensures wants { OnErr result (Refused ⊎ MayBeMany (program_tree priced.now.program)) }
{
    let Ok(resolved) = resolve(alloc, &priced.program) else {
        return Err(NoMemory);
    };
    let bodies = bodies_text(alloc, &resolved.tree, resolved.seqs.as_slice())?;
    export_program(
        alloc,
        &priced.tree,
        &priced.counts,
        &priced.costs,
        capacity,
        HEAD,
        bodies.as_slice(),
        ENGINE,
    )
}

/// Writes the C file of the program of a file, with the counts that are chosen for it, to the file of
/// another name.
pub fn export<F: Files>(alloc: Global, exported: Exported, name: Name, files: &mut F) -> Verdict
    requires processors { (1 ≤ exported.processors) × (exported.processors ≤ 512) }
    requires capacity { IsCapacity exported.capacity }
    ensures expected { IsFileExpected (change (F.observed files.old) (F.observed files.new))
        (build_stages (build_of exported)) name (IsExportOf (F.observed files.old).content exported)
        result }
    ensures kept { KeepsFiles (change (F.observed files.old) (F.observed files.new)) (name ∷ [])
        result }
    ensures wants { Wants F.may_want result }
{
    let capacity = exported.capacity;
    let build = Build {
        program: exported.program,
        processors: exported.processors,
        costs: exported.costs,
        capacity: 4,
    };
    let priced = match load_priced(alloc, build, files) {
        Ok(priced) => priced,
        Err(verdict) => return verdict,
    };
    let Ok(text) = program_text(alloc, &priced, capacity) else {
        return Verdict::NoMemory;
    };
    match save(alloc, &name, text.as_slice(), files) {
        Ok(()) => Verdict::Ended(Finish::Done, None),
        Err(verdict) => verdict,
    }
}
