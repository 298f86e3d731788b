// The places of a module's ports in its token.

ghost use Rattle.std.specs.Prelude.{◌≡◌, [], ℕ, List, bytes_eq, option_copied};
ghost use Rattle.p3l_base.specs.Memory.{IfGiven, OnGiven};
ghost use Rattle.std.specs.Map.{lookup};
ghost use Rattle.p3l_calls.specs.Port.{AreSized};
ghost use Rattle.p3l_calls.specs.Located.{added, located};

use indexmap::IndexMap;
use p3l_base::{List, Name, NoMemory};
use p3l_body::Var;
use p3l_types::{Shape, words_of};
use std::alloc::Global;
use std::marker::Model;

/// A port: its first word in the module's token, and its shape.
#[derive(Debug, Drop)]
pub struct Located {
    pub start: u32,
    pub shape: Shape,
}

/// A port of this shape that starts at a word.
fn located_at(alloc: Global, start: u32, shape: &Shape) -> Result<Located, NoMemory>
    ensures { IfGiven result (λ port. port ≡ record { start = start; shape = shape.now }) }
{
    let sizes = List::from_vec(shape.sizes.as_slice().to_vec(alloc)?);
    Ok(Located {
        start,
        shape: Shape { sizes },
    })
}

/// Ports by their names, which contracts see as a list in the order in which they were entered.
#[derive(Drop)]
pub struct PortTable {
    ports: IndexMap<Name, Located>,
}

impl Model for PortTable {
    ghost use Rattle.p3l_calls.specs.Located.{Locations};

    ghost Value = { Locations };

    ghost view = { λ it. it.ports.entries };
}

impl PortTable {
    /// No ports.
    pub fn new(alloc: Global) -> PortTable
        ensures { result ≡ [] }
    {
        PortTable {
            ports: IndexMap::new(alloc),
        }
    }

    /// Enters a port that starts at a word, if its name is not there yet.
    pub fn add(&mut self, alloc: Global, start: u32, var: &Var) -> Result<(), NoMemory>
        ensures { OnGiven result (self.new
            ≡ added self.old var.now.name (record { start = start; shape = var.now.shape })) }
    {
        if self.ports.get(&var.name).is_some() {
            return Ok(());
        }
        let name = Name::from_text(alloc, var.name.as_str())?;
        let port = located_at(alloc, start, &var.shape)?;
        self.ports.insert(name, port)?;
        Ok(())
    }

    /// The port of a name.
    pub fn get(&self, name: &Name) -> Option<&Located>
        ensures { option_copied result ≡ lookup (bytes_eq name.now) self.now }
    {
        self.ports.get(name)
    }
}

/// The table of the ports of a module, the first of which starts at word 0.
pub fn locate(alloc: Global, vars: &[Var]) -> Result<PortTable, NoMemory>
    requires { AreSized vars.now }
    ensures { IfGiven result (λ table. (name : List ℕ)
        → lookup (bytes_eq name) table ≡ located vars.now name) }
{
    let mut table = PortTable::new(alloc);
    let mut start = 0;
    for var in vars {
        table.add(alloc, start, var)?;
        start += words_of(&var.shape);
    }
    Ok(table)
}
