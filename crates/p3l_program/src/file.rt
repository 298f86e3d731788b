// The text of a file.

ghost use Rattle.std.specs.Prelude.{◌≡◌, ◌≤◌, ◌<◌, ◌^◌, IfOk, IfErr, OnOk};
ghost use Rattle.p3l_io.specs.Change.{HasSameContent, change};
ghost use Rattle.p3l_program.specs.File.{HasText};
ghost use Rattle.p3l_program.specs.Load.{IsUnreadable, file_verdict};
ghost use Rattle.p3l_program.specs.Wants.{Wants};

use p3l_base::{List, Name};
use p3l_io::{FileFault, Files};
use p3l_report::{Refusal, Verdict};
use std::alloc::Global;

/// The most bytes of a file of a program, and of one of costs.
pub const TEXT_LIMIT: u64 = 1_048_576;

/// Why a file of this name gives no text.
#[derive(Drop)]
pub enum FileRefusal {
    /// It could not be read.
    Fault(Name),
    /// It is longer than its limit.
    TooLong(Name),
    NoMemory,
}

impl From<FileRefusal> for Verdict {
    ghost from_gives = { λ refusal v. v ≡ file_verdict refusal };

    fn from(refusal: FileRefusal) -> Verdict {
        match refusal {
            FileRefusal::Fault(name) => Verdict::Refused(Refusal::FileFault(name)),
            FileRefusal::TooLong(name) => Verdict::Refused(Refusal::FileTooLong(name)),
            FileRefusal::NoMemory => Verdict::NoMemory,
        }
    }
}

/// The text of the file of this name, of this number of bytes at most, or why there is none.
pub fn find_text<F: Files>(
    alloc: Global,
    name: Name,
    limit: u64,
    files: &mut F,
) -> Result<List<u8>, FileRefusal>
    ensures found { IfOk result (λ text. HasText (F.observed files.old).content limit name text) }
    ensures unchanged { OnOk result (F.observed files.new ≡ F.observed files.old) }
    ensures refused { IfErr result
        (λ refusal. IsUnreadable (change (F.observed files.old) (F.observed files.new)) limit name
        refusal) }
    ensures same_files { HasSameContent (change (F.observed files.old) (F.observed files.new)) }
    ensures wants { IfErr result (λ refusal. Wants F.may_want (file_verdict refusal)) }
{
    match files.read(alloc, name.as_str(), limit) {
        Ok(text) => Ok(text),
        Err(FileFault::Failed) => Err(FileRefusal::Fault(name)),
        Err(FileFault::TooLong) => Err(FileRefusal::TooLong(name)),
        Err(FileFault::NoMemory) => Err(FileRefusal::NoMemory),
    }
}
