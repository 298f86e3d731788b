// Tables of units run the leaves of a walk, of which nothing is noted.

use crate::table::UnitTable;
use p3l_base::{NoMemory, Outcome, Words};
use p3l_skel::outcome::rescue;
use p3l_walk::Leaves;
use std::alloc::Global;

impl<'t> Leaves for UnitTable<'t> {
    ghost use Rattle.std.specs.Prelude.{◌≡◌, false};
    ghost use Rattle.p3l_units.specs.Table.{leaf};
    ghost use Rattle.p3l_units.specs.laws.Leaf.{gives_outs};

    type Tally = ();

    ghost tree = { λ table. table.tree };

    ghost leaf = { leaf };

    ghost steps = { λ table home words. 0 };

    ghost noted = { λ tally note. tally };

    ghost may_want = { false };

    ghost gives_outs = { gives_outs };

    fn run(
        &self,
        alloc: Global,
        _tally: &mut (),
        node: u32,
        words: &Words,
    ) -> Result<Outcome, NoMemory> {
        let tree = self.tree();
        let Some(found) = tree.node(node) else {
            unreachable!();
        };
        let outcome = self.run_body(alloc, node, words)?;
        rescue(alloc, tree, found, outcome)
    }

    fn note_turn(_tally: &mut (), _home: u32, _number: u32)
        ensures { _tally.new ≡ _tally.old }
    {}
}
