//! The laws that join printing and reading: what was printed is read as the same program, and is its own canonical
//! text.
#![tactic(auto)]

ghost use Rattle.std.specs.Prelude.{◌≡◌, ◌≤◌, length, IfOk, IfErr};
ghost use Rattle.p3l_base.specs.Memory.{Refused};
ghost use Rattle.p3l_ast.specs.Tree.{program_tree};
ghost use Rattle.p3l_ast.specs.Unplaced.{program_unplaced};
ghost use Rattle.p3l_ast.specs.declared.refusal.SourceRefusal.TheVariants.{NoMemory};
ghost use Rattle.p3l_print.specs.Program.{canonical, HasText};
ghost use Rattle.p3l_text_laws.specs.Canonical.{CanonicalTextsStay};

use p3l_ast::{Program, SourceRefusal};
use p3l_print::print;
use p3l_reader::read;
use std::alloc::Global;

/// Reads the canonical text of a program. If the program has a text and its canonical one is
/// within the limit of a source text, this is the same program but for positions; it fails
/// only if memory runs out.
pub fn read_printed(alloc: Global, program: &Program) -> Result<Program, SourceRefusal>
    requires spelled { HasText (program_tree program.now) }
    requires short { length (canonical (program_tree program.now)) ≤ 1048576 }
    ensures same { IfOk result (λ again. program_unplaced (program_tree again)
        ≡ program_unplaced (program_tree program.now)) }
    ensures refused { IfErr result (λ refusal. (refusal ≡ NoMemory) × Refused) }
{
    let text = print(alloc, program)?;
    read(alloc, text.as_slice())
}

/// A law of texts: what spells a program but for positions is read as one with the same canonical text. So a canonical text
/// that is read and printed stays what it was.
pub fn canonical_texts_stay()
    ensures { CanonicalTextsStay }
{}
