// The meanings of the names of a body, and the places of their words in the memory.

ghost use Rattle.std.specs.Prelude.{◌≡◌, ◌+◌, ◌≤◌, [], ◌∷◌, ◌++◌, None, IfOk, bytes_eq};
ghost use Rattle.p3l_base.specs.Memory.{IfGiven, OnGiven};
ghost use Rattle.std.specs.List.{AllByRecursion};
ghost use Rattle.std.specs.Map.{lookup};
ghost use Rattle.std.specs.Option.{option_copied};
ghost use Rattle.p3l_compile.specs.Scope.{found, constant_of, slot_at, slots_from};
ghost use Rattle.p3l_compile.specs.Condition.{total, AreFresh, IsArray};
ghost use Rattle.p3l_compile.specs.Phrase.{sizes_in};

use indexmap::IndexMap;
use p3l_base::{List, Name, NoMemory};
use p3l_body::Var;
use p3l_types::{Consts, words_of};
use std::alloc::Global;
use std::marker::Model;

/// The place of the words of a variable: its sizes (the outermost first; a scalar has none), the slot
/// of its first word, and how many words it has.
#[derive(Debug, Drop)]
pub struct Slot {
    pub sizes: List<u32>,
    pub base: u32,
    pub words: u32,
}

/// The names of a body, which contracts see as its variables with their slots, and the constants
/// before it.
#[derive(Drop)]
pub struct Scope<'c> {
    slots: IndexMap<Name, Slot>,
    consts: &'c Consts,
}

impl<'c> Model for Scope<'c> {
    ghost use Rattle.p3l_compile.specs.Scope.{Names};

    ghost Value = { Names };

    ghost view = { λ it. record { slots = it.slots.entries; constants = it.consts.now } };
}

impl<'c> Scope<'c> {
    /// No variables, and the constants before a body.
    pub fn new(alloc: Global, consts: &'c Consts) -> Scope<'c>
        ensures { result ≡ record { slots = []; constants = consts.now } }
    {
        Scope {
            slots: IndexMap::new(alloc),
            consts,
        }
    }

    // Adds a variable whose name is not there yet.
    fn add(&mut self, name: Name, slot: Slot) -> Result<(), NoMemory>
        requires { lookup (bytes_eq name) self.old.slots ≡ None }
        ensures { OnGiven result (self.new
            ≡ record self.old { slots = self.old.slots ++ (name, slot) ∷ [] }) }
    {
        self.slots.insert(name, slot)?;
        Ok(())
    }

    /// Adds variables that lie one after the other from a slot on; gives the slot after them.
    pub fn enter(&mut self, alloc: Global, from: u32, vars: &[Var]) -> Result<u32, NoMemory>
        requires fresh { AreFresh self.old.slots from vars.now }
        requires arrays { AllByRecursion IsArray vars.now }
        requires room { from + total vars.now ≤ 196608 }
        ensures entered { OnGiven result (self.new
            ≡ record self.old { slots = self.old.slots ++ slots_from from vars.now }) }
        ensures after { IfOk result (λ after. after ≡ from + total vars.now) }
    {
        let mut base = from;
        for var in vars {
            let slot = slot_of(alloc, base, var)?;
            base += slot.words;
            self.add(Name::from_text(alloc, var.name.as_str())?, slot)?;
        }
        Ok(base)
    }

    /// The variable of a name.
    pub fn slot(&self, name: &Name) -> Option<&Slot>
        ensures { option_copied result ≡ found self.now name.now }
    {
        self.slots.get(name)
    }

    /// The number of a constant, and 0 where the name is none.
    pub fn constant(&self, name: &Name) -> i64
        ensures { result ≡ constant_of self.now name.now }
    {
        match self.consts.get(name) {
            Some(value) => value,
            None => 0,
        }
    }

    /// The sizes of a variable, none for a scalar or a constant.
    pub fn sizes(&self, name: &Name) -> &[u32]
        ensures { result.now ≡ sizes_in (found self.now name.now) }
    {
        match self.slot(name) {
            Some(slot) => slot.sizes.as_slice(),
            None => &[],
        }
    }
}

// The place of the words of a variable that stands at a slot.
fn slot_of(alloc: Global, base: u32, var: &Var) -> Result<Slot, NoMemory>
    requires { IsArray var.now }
    ensures { IfGiven result (λ slot. slot ≡ slot_at base var.now) }
{
    Ok(Slot {
        sizes: List::from_vec(var.shape.sizes.as_slice().to_vec(alloc)?),
        base,
        words: words_of(&var.shape),
    })
}
