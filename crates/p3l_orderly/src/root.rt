// Tests that a snapshot of a machine is a state in which a run of a linked net can be.

ghost use Rattle.std.specs.Prelude.{◌≡◌, ◌↔◌, ◌+◌, ◌≤◌, length, IsTrue};
ghost use Rattle.p3l_base.specs.Memory.{IfGiven};
ghost use Rattle.std.specs.Option.{option_to_list};
ghost use Rattle.p3l_base.specs.Limits.{most_processes};
ghost use Rattle.p3l_skel.specs.Counts.{HasLawfulCounts, count_of};
ghost use Rattle.p3l_skel.specs.Lawful.{IsLawfulTree};
ghost use Rattle.p3l_skel.specs.Numbers.{procs};
ghost use Rattle.p3l_skel.specs.Tree.{nesting};
ghost use Rattle.p3l_firing.specs.NetInvariants.{HaveInWords};
ghost use Rattle.p3l_firing.specs.Nodes.{Leaf};
ghost use Rattle.p3l_firing.specs.Shot.{HaveFewTags, state_of};
ghost use Rattle.p3l_firing.specs.declared.net.Net.{Net};
ghost use Rattle.p3l_template.specs.Finding.{if_orderly};
ghost use Rattle.p3l_link.specs.Net.{root_base};
ghost use Rattle.p3l_orderly.specs.Root.{IsOrderlyShot};
ghost use Rattle.p3l_orderly.specs.Walked.{walk_found};

use crate::walk::find_in;
use p3l_base::{List, NoMemory, Words};
use p3l_firing::Token;
use p3l_net::Shot;
use p3l_skel::tree::NESTING;
use p3l_skel::{Counts, Tree};
use p3l_template::Site;
use std::alloc::Global;

// The tokens pending in the root, without their outcomes, if it is orderly.
fn root_pending(
    alloc: Global,
    tree: &Tree,
    counts: &Counts,
    shot: &Shot,
) -> Result<Option<List<Token>>, NoMemory>
    requires tree { IsLawfulTree tree.now }
    requires counts { HasLawfulCounts tree.now counts.now.list }
    requires procs { procs tree.now counts.now.list 0 ≤ most_processes }
    requires few { HaveFewTags shot.now }
    ensures { IfGiven result (λ pending. pending
        ≡ if_orderly (walk_found tree.now (count_of tree.now counts.now.list) nesting 0 root_base
        (state_of shot.now))) }
{
    let root = Site {
        input: 0,
        output: 1,
        proc: 2,
        chan: 2,
    };
    match find_in(alloc, tree, counts, NESTING, 0, shot, &root)? {
        Some(found) => Ok(Some(found.pending)),
        None => Ok(None),
    }
}

// Returns true exactly if the item of an inbox has the root's in words.
fn fits_root(tree: &Tree, inbox: &Option<Words>) -> bool
    ensures { IsTrue result ↔ HaveInWords tree.now (option_to_list inbox.now) }
{
    let Some(words) = inbox else {
        return true;
    };
    match tree.node(0) {
        Some(root) => words.len() == root.ins as usize,
        None => words.len() == 0,
    }
}

// Returns true exactly if each item sent was emitted, or waits after the root, is pending in it or
// waits before it.
fn is_balanced(shot: &Shot, pending: usize) -> bool
    ensures { IsTrue result
        ↔ (shot.now.sent
        ≡ shot.now.emitted
        + (length ((state_of shot.now).tokens 1)
        + (pending + length ((state_of shot.now).tokens 0)))) }
{
    let after = shot.tokens(1).len() as u128;
    let before = shot.tokens(0).len() as u128;
    shot.sent as u128 == shot.emitted as u128 + (after + (pending as u128 + before))
}

/// Returns true exactly if a run of the net of a tree under these counts can be in a state that
/// was saved: the root is orderly, the item in the inbox has its in words, and each item sent was
/// emitted or is still in the net. It is so whatever the `seq` modules make of words.
pub fn is_orderly(
    alloc: Global,
    tree: &Tree,
    counts: &Counts,
    shot: &Shot,
) -> Result<bool, NoMemory>
    requires tree { IsLawfulTree tree.now }
    requires counts { HasLawfulCounts tree.now counts.now.list }
    requires procs { procs tree.now counts.now.list 0 ≤ most_processes }
    requires tags { HaveFewTags shot.now }
    ensures { IfGiven result (λ yes. (leaf : Leaf) (net : Net)
        → length shot.now.chans ≡ length net.chans → IsTrue yes
        ↔ IsOrderlyShot (record { tree = tree.now; leaf = leaf }) counts.now.list net
        shot.now) }
{
    if !fits_root(tree, &shot.inbox) {
        return Ok(false);
    }
    match root_pending(alloc, tree, counts, shot)? {
        Some(pending) => Ok(is_balanced(shot, pending.len())),
        None => Ok(false),
    }
}
