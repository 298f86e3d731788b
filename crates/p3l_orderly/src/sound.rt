// Tests that a snapshot of a machine is a state in which a run of a linked net can be.

ghost use Rattle.std.specs.Prelude.{◌↔◌, ◌≤◌, IsTrue};
ghost use Rattle.p3l_base.specs.Limits.{most_processes};
ghost use Rattle.p3l_base.specs.Memory.{IfGiven};
ghost use Rattle.p3l_skel.specs.Counts.{HasLawfulCounts};
ghost use Rattle.p3l_skel.specs.Lawful.{IsLawfulTree};
ghost use Rattle.p3l_skel.specs.Numbers.{procs};
ghost use Rattle.p3l_firing.specs.Nodes.{Leaf};
ghost use Rattle.p3l_orderly.specs.Sound.{IsSound};

use crate::root::is_orderly;
use p3l_base::NoMemory;
use p3l_firing::Net;
use p3l_fitting::is_fitting;
use p3l_net::Shot;
use p3l_skel::{Counts, Tree};
use std::alloc::Global;

/// Returns true exactly if a run of the net of a tree under these counts can go on from what was
/// saved: it fits the net, the root is orderly, and each item sent was emitted or is still in the
/// net. It is so whatever the `seq` modules make of words. The net is the linked one: of another the
/// places of loops are not where they are surveyed.
pub fn is_sound(
    alloc: Global,
    tree: &Tree,
    counts: &Counts,
    net: &Net,
    shot: &Shot,
) -> Result<bool, NoMemory>
    requires tree { IsLawfulTree tree.now }
    requires counts { HasLawfulCounts tree.now counts.now.list }
    requires procs { procs tree.now counts.now.list 0 ≤ most_processes }
    ensures { IfGiven result (λ yes. (leaf : Leaf) → IsTrue yes
        ↔ IsSound (record { tree = tree.now; leaf = leaf }) counts.now.list net.now shot.now) }
{
    let fits = is_fitting(alloc, tree, counts, net, shot)?;
    if !fits {
        return Ok(false);
    }
    is_orderly(alloc, tree, counts, shot)
}
