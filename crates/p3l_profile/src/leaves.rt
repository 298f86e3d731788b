// Bodies run the leaves of a walk, of which the greatest numbers are kept.

use crate::bodies::Bodies;
use crate::highs::Highs;
use p3l_base::{NoMemory, Outcome, Words};
use p3l_code::Counted;
use p3l_skel::outcome::rescue;
use p3l_walk::Leaves;
use std::alloc::Global;

impl<'t> Leaves for Bodies<'t> {
    ghost use Rattle.std.specs.Prelude.{◌≡◌, false};
    ghost use Rattle.p3l_units.specs.Table.{leaf};
    ghost use Rattle.p3l_units.specs.laws.Leaf.{gives_outs};
    ghost use Rattle.p3l_profile.specs.Greatest.{noted};
    ghost use Rattle.p3l_profile.specs.Notes.{steps_at, turn};

    type Tally = Highs;

    ghost tree = { λ bodies. bodies.tree };

    ghost leaf = { leaf };

    ghost steps = { steps_at };

    ghost noted = { noted };

    ghost may_want = { false };

    ghost gives_outs = { gives_outs };

    fn run(
        &self,
        alloc: Global,
        tally: &mut Highs,
        node: u32,
        words: &Words,
    ) -> Result<Outcome, NoMemory> {
        let tree = self.tree();
        let Some(found) = tree.node(node) else {
            unreachable!();
        };
        let Counted { outcome, steps } = self.run_counted(alloc, node, words)?;
        tally.note_run(found.module, steps);
        rescue(alloc, tree, found, outcome)
    }

    fn note_turn(tally: &mut Highs, home: u32, number: u32)
        ensures { tally.new ≡ noted tally.old (turn home number) }
    {
        tally.note_turn(home, number);
    }
}
