// The writing of a file of a command.

ghost use Rattle.std.specs.Prelude.{IfErr};
ghost use Rattle.p3l_io.specs.Change.{change};
ghost use Rattle.p3l_program.specs.Saved.{HasSave};
ghost use Rattle.p3l_program.specs.Wants.{Wants};

use p3l_base::Name;
use p3l_io::{Files, WriteFault};
use p3l_report::Verdict;
use std::alloc::Global;

/// Writes the bytes to the file of this name; where they can't be written the command ends.
pub fn save<F: Files>(
    alloc: Global,
    name: &Name,
    bytes: &[u8],
    files: &mut F,
) -> Result<(), Verdict>
    ensures saved { HasSave (change (F.observed files.old) (F.observed files.new)) name.now
        bytes.now result }
    ensures wants { IfErr result (Wants F.may_want) }
{
    match files.write(alloc, name.as_str(), bytes) {
        Ok(()) => Ok(()),
        Err(WriteFault::Failed) => Err(Verdict::WriteFault),
        Err(WriteFault::NoMemory) => Err(Verdict::NoMemory),
    }
}
