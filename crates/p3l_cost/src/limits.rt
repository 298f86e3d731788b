// The greatest numbers of the entries of a table.

ghost use Rattle.std.specs.Prelude.{◌≡◌, ◌<◌, ◌^◌, List, [], ℕ, Some, None, bytes_eq, if◌then◌else◌, length};
ghost use Rattle.p3l_base.specs.Memory.{IfGiven, OnGiven};
ghost use Rattle.std.specs.Map.{lookup};
ghost use Rattle.std.specs.Option.{option_or};
ghost use Rattle.p3l_cost.specs.File.{limit_of, most_of};

use crate::costs::turns_or;
use crate::section::Section;
use indexmap::IndexMap;
use p3l_base::limits::MOST_COST;
use p3l_base::{Name, NoMemory};
use p3l_skel::{Node, Tree};
use std::alloc::Global;
use std::marker::Model;

/// The modules that a table speaks of, by name, each with the greatest number of its entry.
#[derive(Drop)]
pub(crate) struct Limits {
    greatest: IndexMap<Name, u32>,
}

impl Model for Limits {
    ghost use Rattle.std.specs.Prelude.{List, ℕ};

    ghost Value = { List (List ℕ × ℕ) };

    ghost view = { λ it. it.greatest.entries };
}

impl Limits {
    /// No modules.
    fn new(alloc: Global) -> Limits
        ensures { result ≡ [] }
    {
        Limits {
            greatest: IndexMap::new(alloc),
        }
    }

    /// The greatest number of the entry of a name, if a module has it.
    pub(crate) fn get(&self, name: &Name) -> Option<u32>
        ensures { result ≡ lookup (bytes_eq name.now) self.now }
    {
        self.greatest.get(name).copied()
    }

    /// Adds a module, if there is none of its name.
    fn add(&mut self, alloc: Global, name: &Name, most: u32) -> Result<(), NoMemory>
        ensures { OnGiven result ((other : List ℕ) → lookup (bytes_eq other) self.new
            ≡ option_or (lookup (bytes_eq other) self.old)
            (if bytes_eq other name.now then Some most else None)) }
    {
        if self.get(name).is_some() {
            return Ok(());
        }
        let name = Name::from_text(alloc, name.as_str())?;
        self.greatest.insert(name, most)?;
        Ok(())
    }
}

/// The greatest number of the entry of a module.
fn most_of(section: Section, nodes: &[Node], home: u32) -> u32
    ensures { result ≡ most_of section nodes.now home }
{
    match section {
        Section::Ticks => MOST_COST,
        Section::Turns => turns_or(nodes, home, MOST_COST),
    }
}

/// The modules that a table speaks of.
pub(crate) fn limits_of(alloc: Global, tree: &Tree, section: Section) -> Result<Limits, NoMemory>
    requires few { length tree.now.modules < 2 ^ 32 }
    ensures { IfGiven result (λ limits. (name : List ℕ)
        → lookup (bytes_eq name) limits ≡ limit_of tree.now section name) }
{
    let mut limits = Limits::new(alloc);
    for (home, module) in tree.modules.as_slice().iter().enumerate() {
        if section.speaks_of(module.kind) {
            let most = most_of(section, tree.nodes.as_slice(), home as u32);
            limits.add(alloc, &module.name, most)?;
        }
    }
    Ok(limits)
}
