// Programs.

ghost use Rattle.std.specs.Prelude.{◌≡◌, ℕ, List, IfOk};
ghost use Rattle.p3l_base.specs.Memory.{IfGiven};
ghost use Rattle.p3l_ast.specs.Tree.{entry_tree, program_tree};
ghost use Rattle.p3l_print.specs.Program.{entry_text, canonical, IsTextOf};

use crate::printer::{Print, Printer};
use p3l_ast::{Entry, Program};
use p3l_base::{List, NoMemory};
use std::alloc::Global;

impl Print for Entry {
    ghost text = { λ entry. entry_text (entry_tree entry) };

    fn print_on(&self, printer: &mut Printer) -> Result<(), NoMemory> {
        match self {
            Entry::Constant(spot, value) => {
                printer.put(b"const ")?;
                printer.name(&spot.name)?;
                printer.put(b" = ")?;
                printer.decimal(*value)?;
                printer.put(b";\n")
            }
            Entry::Module(module) => printer.module(module),
        }
    }
}

/// The canonical text of a program: entries separated by empty lines, parentheses exactly where the
/// grouping needs them, and one way to separate all other tokens.
#[tactic(auto, using(crate::proofs::Entries::entries_text))]
pub fn print(alloc: Global, program: &Program) -> Result<List<u8>, NoMemory>
    ensures canonical { IfGiven result (λ text. text ≡ canonical (program_tree program.now)) }

    // If some text spells the program, the canonical text spells it too.
    ensures spells { IfOk result (λ text. (other : List ℕ)
        → IsTextOf other (program_tree program.now) → IsTextOf text (program_tree program.now)) }
{
    let mut printer = Printer::new(alloc);
    printer.separated(b"\n", program.entries.as_slice())?;
    Ok(printer.finish())
}
