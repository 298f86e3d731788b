// The greatest numbers of each module so far.

ghost use Rattle.std.specs.Prelude.{◌≡◌, slice_index};
ghost use Rattle.p3l_base.specs.Memory.{IfGiven};
ghost use Rattle.p3l_profile.specs.Greatest.{none_noted, noted};
ghost use Rattle.p3l_profile.specs.Notes.{ran, turn};

use p3l_base::NoMemory;
use std::alloc::Global;
use std::marker::Model;

/// The greatest number of instructions of a run of each module's code, and the greatest number of
/// turns of each loop module for an item.
#[derive(Debug, Drop)]
pub struct Highs {
    work: Vec<u64>,
    took: Vec<u32>,
}

impl Model for Highs {
    ghost use Rattle.p3l_profile.specs.Greatest.{Greatest};

    ghost Value = { Greatest };

    ghost view = { λ it. record { work = it.work.items; took = it.took.items } };
}

impl Highs {
    /// Those of `modules` modules of which nothing was run: no work, and one turn.
    pub fn new(alloc: Global, modules: usize) -> Result<Highs, NoMemory>
        ensures { IfGiven result (λ highs. highs ≡ none_noted modules) }
    {
        let work = vec![in alloc; 0; modules]?;
        let took = vec![in alloc; 1; modules]?;
        Ok(Highs { work, took })
    }

    /// Notes a run of a module's code of `steps` instructions, where the module is there.
    #[tactic(auto, using(crate::proofs::Room::run_past))]
    pub fn note_run(&mut self, home: u32, steps: u64)
        ensures { self.new ≡ noted self.old (ran home steps) }
    {
        let place = home as usize;
        if place < self.work.len() {
            self.work[place] = self.work[place].max(steps);
        }
    }

    /// Notes that a loop of a module began its turn of this number for an item, where the module
    /// is there.
    #[tactic(auto, using(crate::proofs::Room::turn_past))]
    pub fn note_turn(&mut self, home: u32, number: u32)
        ensures { self.new ≡ noted self.old (turn home number) }
    {
        let place = home as usize;
        if place < self.took.len() {
            self.took[place] = self.took[place].max(number);
        }
    }

    /// The greatest number of instructions of a module, and 0 for one that isn't there.
    pub fn work(&self, home: usize) -> u64
        ensures { result ≡ slice_index self.now.work home }
    {
        self.work.get(home).copied().unwrap_or(0)
    }

    /// The greatest number of turns of a module, and 0 for one that isn't there.
    pub fn took(&self, home: usize) -> u32
        ensures { result ≡ slice_index self.now.took home }
    {
        self.took.get(home).copied().unwrap_or(0)
    }
}
