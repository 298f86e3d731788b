// The text that advises on the number of processors.

ghost use Rattle.std.specs.Prelude.{◌≡◌, ◌≤◌, IfOk, IfErr};
ghost use Rattle.p3l_base.specs.Limits.{most_processors};
ghost use Rattle.p3l_skel.specs.Lawful.{IsLawfulTree};
ghost use Rattle.p3l_cost.specs.Costs.{AreCostsOf};
ghost use Rattle.p3l_alloc.specs.Chosen.{IsRefused};
ghost use Rattle.p3l_advise.specs.Advice.{IsAdvice};

use crate::falls::put_falls;
use crate::help::put_help;
use crate::lines::put_tree;
use p3l_alloc::table::table;
use p3l_alloc::{AllocRefusal, choose_within, least_procs};
use p3l_base::List;
use p3l_cost::Costs;
use p3l_skel::Tree;
use std::alloc::Global;

/// The text that advises on up to this number of processors.
///
/// First comes a line `processors P used U service T speed-up S` for each number at which the best
/// service time falls. The speed-up is over the least number that fits, with two digits, rounded
/// down. Then comes the tree with the counts that are chosen for all processors: for each node that
/// has processes of its own a line `NAME KIND count C service T`, two blanks a level. The first
/// stage that has the service time of the whole is marked by ` bottleneck: ` and the part of its
/// time that makes it so. The last lines are the changes that would help.
pub fn advice_text(
    alloc: Global,
    tree: &Tree,
    costs: &Costs,
    processors: u32,
) -> Result<List<u8>, AllocRefusal>
    requires tree { IsLawfulTree tree.now }
    requires costs { AreCostsOf tree.now costs.now }
    requires some { 1 ≤ processors }
    requires few { processors ≤ most_processors }
    ensures text { IfOk result (IsAdvice tree.now costs.now processors) }
    ensures refused { IfErr result (IsRefused tree.now processors) }
{
    let rows = table(alloc, tree, costs, processors)?;
    let rows = rows.as_slice();
    let choice = choose_within(alloc, tree, costs, rows, processors, processors)?;
    let least = least_procs(tree) as u32;
    let mut text = String::new(alloc);
    put_falls(alloc, &mut text, tree, costs, rows, processors, least)?;
    put_tree(alloc, &mut text, tree, costs, &choice.counts)?;
    put_help(
        alloc,
        &mut text,
        tree,
        costs,
        &choice.counts,
        processors,
        choice.used,
    )?;
    Ok(List::from_vec(text.into_bytes()))
}
