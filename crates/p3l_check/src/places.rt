// The names that entries define, and where they are defined.

ghost use Rattle.std.specs.Prelude.{◌≡◌, map};
ghost use Rattle.p3l_base.specs.Memory.{IfGiven};
ghost use Rattle.p3l_ast.specs.Tree.{entry_tree};
ghost use Rattle.p3l_check.specs.Places.{entry_spot, defined_from, ArePlaces};

use indexmap::IndexMap;
use p3l_ast::{Entry, Spot};
use p3l_base::{Name, NoMemory};
use std::alloc::Global;
use std::marker::Model;

/// The names that the entries of a program define, each with the place of its last entry.
#[derive(Drop)]
pub struct Places {
    last: IndexMap<Name, usize>,
}

impl Model for Places {
    ghost use Rattle.std.specs.Prelude.{List, ℕ};

    ghost Value = { List (List ℕ × ℕ) };

    ghost view = { λ it. it.last.entries };
}

/// The name that an entry defines.
pub fn spot_of(entry: &Entry) -> &Spot
    ensures { result.now ≡ entry_spot (entry_tree entry.now) }
{
    match entry {
        Entry::Constant(spot, _) => spot,
        Entry::Module(module) => &module.at,
    }
}

impl Places {
    /// The places of the names of entries.
    pub fn of(alloc: Global, entries: &[Entry]) -> Result<Places, NoMemory>
        ensures { IfGiven result (ArePlaces (map entry_tree entries.now)) }
    {
        let mut last = IndexMap::new(alloc);
        for (place, entry) in entries.iter().enumerate() {
            let name = Name::from_text(alloc, spot_of(entry).name.as_str())?;
            last.insert(name, place)?;
        }
        Ok(Places { last })
    }

    /// True if a name is defined at a place or after it.
    pub fn is_defined_from(&self, from: usize, name: &Name) -> bool
        ensures { result ≡ defined_from self.now from name.now }
    {
        match self.last.get(name) {
            Some(last) => from <= *last,
            None => false,
        }
    }
}
