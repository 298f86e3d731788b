// Copies of programs.

ghost use Rattle.std.specs.Prelude.{◌≡◌, ◌++◌, map};
ghost use Rattle.p3l_base.specs.Memory.{IfGiven, OnGiven};
ghost use Rattle.p3l_ast.specs.Tree.{entry_tree, program_tree};

use crate::copied::Copied;
use crate::module::module;
use p3l_ast::{Entry, Program};
use p3l_base::{List, NoMemory};
use std::alloc::Global;

/// A copy of an entry.
pub fn entry(alloc: Global, own: &Entry) -> Result<Entry, NoMemory>
    ensures { IfGiven result (λ copy. entry_tree copy ≡ entry_tree own.now) }
{
    match own {
        Entry::Constant(spot, value) => Ok(Entry::Constant(spot.copied(alloc)?, *value)),
        Entry::Module(own) => Ok(Entry::Module(module(alloc, own)?)),
    }
}

/// Puts copies of entries after others.
pub fn put_entries(alloc: Global, entries: &mut List<Entry>, own: &[Entry]) -> Result<(), NoMemory>
    ensures { OnGiven result (map entry_tree entries.new
        ≡ map entry_tree entries.old ++ map entry_tree own.now) }
{
    for own in own {
        entries.push(entry(alloc, own)?)?;
    }
    Ok(())
}

/// A copy of a program.
pub fn program(alloc: Global, own: &Program) -> Result<Program, NoMemory>
    ensures { IfGiven result (λ copy. program_tree copy ≡ program_tree own.now) }
{
    let mut entries = List::new(alloc);
    put_entries(alloc, &mut entries, own.entries.as_slice())?;
    Ok(Program {
        entries,
        end: own.end,
    })
}
