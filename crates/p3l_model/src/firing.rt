// Counts of the firings of a tree's processes.

ghost use Rattle.std.specs.Prelude.{◌≡◌, ◌≤◌};
ghost use Rattle.p3l_skel.specs.Counts.{HasLawfulCounts, count_of};
ghost use Rattle.p3l_skel.specs.Lawful.{IsLawfulTree};
ghost use Rattle.p3l_skel.specs.Numbers.{joined_firings, firings, firings_by};
ghost use Rattle.p3l_skel.specs.Work.{capped};

use crate::workers::workers;
use p3l_skel::counts::outside_parts;
use p3l_skel::tree::NESTING;
use p3l_skel::work::{Joining, capped, firings_over};
use p3l_skel::{Counts, Tree};

/// The most firings of the whole network for one item, those of the source and the sink among
/// them.
pub fn firings(tree: &Tree, counts: &Counts) -> u64
    requires tree { IsLawfulTree tree.now }
    requires counts { HasLawfulCounts tree.now counts.now.list }
    ensures number { result ≡ firings tree.now counts.now.list }
    ensures small { result ≤ 134217730 }
{
    firings_from(tree, counts, NESTING, 0) + 2
}

// The firings of a node and of `levels` levels below it for one item, as far as they count.
fn firings_from(tree: &Tree, counts: &Counts, levels: u32, number: u32) -> u64
    ensures { result
        ≡ capped (firings_by joined_firings tree.now (count_of tree.now counts.now.list)
        levels number) }
{
    if levels == 0 {
        return 1;
    }
    let Some(node) = tree.node(number) else {
        return 0;
    };
    let mut inner = 0;
    for part in outside_parts(node) {
        inner = capped(inner + firings_from(tree, counts, levels - 1, *part));
    }
    let segments = workers(tree, counts, number);
    firings_over(&node.form, Joining::Tree, segments, inner)
}
