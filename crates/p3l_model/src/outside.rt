// The nodes outside units.

ghost use Rattle.std.specs.Prelude.{◌↔◌, IsTrue};
ghost use Rattle.std.specs.List.{Contains};
ghost use Rattle.p3l_skel.specs.Counts.{outside, outside_from};

use p3l_skel::Tree;
use p3l_skel::counts::outside_parts;
use p3l_skel::tree::NESTING;

/// Returns true exactly if a node is outside units, so that it has processes of its own: the root
/// does, and what doesn't lie below a comp or a reduce or in a loop's condition.
pub fn is_outside(tree: &Tree, node: u32) -> bool
    ensures { IsTrue result ↔ Contains (outside tree.now) node }
{
    is_outside_from(tree, NESTING, 0, node)
}

// Returns true exactly if a node is `number` or is outside units below it.
fn is_outside_from(tree: &Tree, levels: u32, number: u32, wanted: u32) -> bool
    ensures { IsTrue result ↔ Contains (outside_from tree.now levels number) wanted }
{
    if number == wanted {
        return true;
    }
    if levels == 0 {
        return false;
    }
    let Some(node) = tree.node(number) else {
        return false;
    };
    for part in outside_parts(node) {
        if is_outside_from(tree, levels - 1, *part, wanted) {
            return true;
        }
    }
    false
}
