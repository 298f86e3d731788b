// The command `compile`: the image of a program, written to a file.

ghost use Rattle.std.specs.Prelude.{◌≡◌, ◌∷◌, ◌≤◌, []};
ghost use Rattle.p3l_io.specs.Change.{change};
ghost use Rattle.p3l_program.specs.Compile.{IsImageOf};
ghost use Rattle.p3l_program.specs.Saved.{IsFileExpected, KeepsFiles};
ghost use Rattle.p3l_program.specs.Stage.{build_stages};
ghost use Rattle.p3l_program.specs.Wants.{Wants};

use crate::plan::{Accepted, Allotted, allot};
use crate::save::save;
use p3l_base::Name;
use p3l_io::Files;
use p3l_load::image_text;
use p3l_opts::Build;
use p3l_report::{Finish, Verdict};
use std::alloc::Global;

/// Writes the image of the program of a file, with the counts that are chosen for it, to the file of
/// another name.
pub fn compile<F: Files>(alloc: Global, build: Build, name: Name, files: &mut F) -> Verdict
    requires processors { (1 ≤ build.processors) × (build.processors ≤ 512) }
    requires capacity { (1 ≤ build.capacity) × (build.capacity ≤ 1024) }
    ensures expected { IsFileExpected (change (F.observed files.old) (F.observed files.new))
        (build_stages build) name (IsImageOf (F.observed files.old).content build) result }
    ensures kept { KeepsFiles (change (F.observed files.old) (F.observed files.new)) (name ∷ [])
        result }
    ensures wants { Wants F.may_want result }
{
    let capacity = build.capacity;
    let Allotted {
        program,
        choice,
        ..
    } = match allot(alloc, build, files) {
        Ok(loaded) => loaded,
        Err(verdict) => return verdict,
    };
    let Accepted { tree, codes } = program;
    let Ok(image) = image_text(alloc, tree, choice.counts, codes.as_slice(), capacity) else {
        return Verdict::NoMemory;
    };
    match save(alloc, &name, image.as_slice(), files) {
        Ok(()) => Verdict::Ended(Finish::Done, None),
        Err(verdict) => verdict,
    }
}
