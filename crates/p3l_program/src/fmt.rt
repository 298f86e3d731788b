// The command `fmt`: the canonical text of a program, from its file to the output.

ghost use Rattle.std.specs.Prelude.{◌≤◌, length, IfOk, IfErr};
ghost use Rattle.p3l_io.specs.Change.{HasSameContent, change};
ghost use Rattle.p3l_program.specs.Text.{IsTextExpected};
ghost use Rattle.p3l_program.specs.File.{text_limit};
ghost use Rattle.p3l_program.specs.Fmt.{HasNoCanonical, IsCanonicalOf, IsFormatted, fmt_stages};
ghost use Rattle.p3l_program.specs.Wants.{Wants};

use crate::file::{TEXT_LIMIT, find_text};
use crate::text::write_text;
use p3l_ast::SourceRefusal;
use p3l_base::{List, Name};
use p3l_io::{Files, Sink};
use p3l_print::print;
use p3l_reader::read;
use p3l_report::{Refusal, Verdict};
use std::alloc::Global;

/// The canonical text of the program that a text spells.
fn canonical_of(alloc: Global, text: &[u8]) -> Result<List<u8>, SourceRefusal>
    requires { length text.now ≤ text_limit }
    ensures ok { IfOk result (λ canonical. IsCanonicalOf text.now canonical) }
    ensures refused { IfErr result (λ refusal. HasNoCanonical text.now refusal) }
{
    match read(alloc, text) {
        Err(refusal) => Err(refusal),
        Ok(program) => Ok(print(alloc, &program)?),
    }
}

/// Writes the canonical text of the program of the file of this name.
pub fn fmt<F: Files, K: Sink>(alloc: Global, name: Name, files: &mut F, out: &mut K) -> Verdict
    ensures expected { IsTextExpected (change (F.observed files.old) (F.observed files.new))
        (change (K.observed out.old) (K.observed out.new)) (fmt_stages name)
        (IsFormatted (F.observed files.old).content name) result }
    ensures same_files { HasSameContent (change (F.observed files.old) (F.observed files.new)) }
    ensures wants { Wants F.may_want result }
{
    match find_text(alloc, name, TEXT_LIMIT, files) {
        Err(refusal) => Verdict::from(refusal),
        Ok(text) => match canonical_of(alloc, text.as_slice()) {
            Err(SourceRefusal::At { fault, pos }) => {
                Verdict::Refused(Refusal::Source { fault, pos })
            }
            Err(SourceRefusal::NoMemory) => Verdict::NoMemory,
            Ok(canonical) => write_text(canonical.as_slice(), out),
        },
    }
}
