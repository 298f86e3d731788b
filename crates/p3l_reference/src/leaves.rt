// Units run the leaves of a walk, of which nothing is noted.

use p3l_base::{NoMemory, Outcome, Words};
use p3l_skel::Units;
use p3l_walk::Leaves;
use std::alloc::Global;

/// Units that are asked for `seq` nodes alone.
#[derive(Drop)]
pub struct UnitLeaves<'u, U> {
    pub units: &'u U,
}

impl<'u, U: Units> Leaves for UnitLeaves<'u, U> {
    ghost use Rattle.std.specs.Prelude.{◌≡◌};

    type Tally = ();

    ghost tree = { λ it. U.tree it.units.now };

    ghost leaf = { λ it. U.leaf it.units.now };

    ghost steps = { λ it home words. 0 };

    ghost noted = { λ tally note. tally };

    ghost may_want = { U.may_want };

    ghost gives_outs = { λ it. U.gives_outs it.units.now };

    fn run(
        &self,
        alloc: Global,
        _tally: &mut (),
        node: u32,
        words: &Words,
    ) -> Result<Outcome, NoMemory> {
        self.units.run(alloc, node, words)
    }

    fn note_turn(_tally: &mut (), _home: u32, _number: u32)
        ensures { _tally.new ≡ _tally.old }
    {}
}
