// Tables of units run the sequential nodes of a tree.

use crate::table::UnitTable;
use p3l_base::{NoMemory, Outcome, Words};
use p3l_skel::Units;
use p3l_walk::item_outcome;
use std::alloc::Global;

impl<'t> Units for UnitTable<'t> {
    ghost use Rattle.std.specs.Prelude.{false};
    ghost use Rattle.p3l_units.specs.Table.{leaf};
    ghost use Rattle.p3l_units.specs.laws.Leaf.{gives_outs};

    ghost tree = { λ table. table.tree };

    ghost leaf = { leaf };

    ghost may_want = { false };

    ghost gives_outs = { gives_outs };

    /// The commonest node by itself, so that its outcome isn't moved from call to call.
    #[inline(always)]
    fn run(&self, alloc: Global, node: u32, words: &Words) -> Result<Outcome, NoMemory> {
        match self.bare_code(node) {
            Some((code, module)) => code.run(alloc, module, words),
            None => item_outcome(alloc, self.tree(), self, &mut (), node, words),
        }
    }
}
