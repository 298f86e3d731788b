// Tests that a snapshot of a machine fits a linked net.

ghost use Rattle.std.specs.Prelude.{◌≡◌, ◌↔◌, ◌≤◌, IsTrue, IfSome, length};
ghost use Rattle.p3l_base.specs.Limits.{most_processes};
ghost use Rattle.p3l_base.specs.Memory.{IfGiven};
ghost use Rattle.p3l_skel.specs.Counts.{HasLawfulCounts};
ghost use Rattle.p3l_skel.specs.Lawful.{IsLawfulTree};
ghost use Rattle.p3l_skel.specs.Numbers.{procs};
ghost use Rattle.p3l_skel.specs.Tree.{node_at};
ghost use Rattle.p3l_net.specs.Fitting.{Fitting};
ghost use Rattle.p3l_fitting.specs.Decided.{AllFits};
ghost use Rattle.p3l_fitting.specs.Survey.{linked_loops, linked_widths};

use crate::channels::queues_fit;
use crate::loops::loops_fit;
use crate::owns::owns_fit;
use crate::survey::Survey;
use crate::walk::surveyed;
use p3l_base::{NoMemory, Words};
use p3l_firing::Net;
use p3l_net::Shot;
use p3l_skel::{Counts, Tree};
use std::alloc::Global;

/// Returns true exactly if an item in an inbox has the root's in words.
fn inbox_fits(tree: &Tree, inbox: &Option<Words>) -> bool
    ensures { IsTrue result ↔ IfSome inbox.now (λ item. length item
        ≡ (node_at tree.now 0).ins) }
{
    match inbox {
        Some(item) => item.len() == ins_of_root(tree),
        None => true,
    }
}

/// The count of words that the root takes.
fn ins_of_root(tree: &Tree) -> usize
    ensures { result ≡ (node_at tree.now 0).ins }
{
    match tree.node(0) {
        Some(root) => root.ins as usize,
        None => 0,
    }
}

/// Returns true exactly if a shot fits a net that has what was surveyed.
fn fits_survey(tree: &Tree, net: &Net, survey: &Survey, shot: &Shot) -> bool
    ensures { IsTrue result
        ↔ AllFits tree.now net.now survey.now.widths survey.now.loops shot.now }
{
    let row = survey.widths.as_slice();
    shot.chans.len() == net.chans.len()
        && shot.owns.len() == net.procs.len()
        && shot.is_countable()
        && inbox_fits(tree, &shot.inbox)
        && queues_fit(tree, net, row, shot)
        && owns_fit(tree, net, row, shot)
        && loops_fit(tree, net, row, shot, survey.loops.as_slice())
}

/// Returns true exactly if a shot fits the net that was linked for a tree under these counts, as
/// every state of a run does, but for the order of tokens: there is a list for each channel, no
/// longer than its capacity, and what each process keeps; each token has the words and the tags of
/// its place, and a trap names a module; what was counted is below 2^63; each process holds no
/// more than it may; each loop has as many credits as its tokens leave.
pub fn is_fitting(
    alloc: Global,
    tree: &Tree,
    counts: &Counts,
    net: &Net,
    shot: &Shot,
) -> Result<bool, NoMemory>
    requires tree { IsLawfulTree tree.now }
    requires counts { HasLawfulCounts tree.now counts.now.list }
    requires procs { procs tree.now counts.now.list 0 ≤ most_processes }
    ensures { IfGiven result (λ yes. IsTrue yes ↔ Fitting tree.now net.now
        (linked_widths tree.now counts.now.list) (linked_loops tree.now counts.now.list)
        shot.now) }
{
    let survey = surveyed(alloc, tree, counts)?;
    Ok(fits_survey(tree, net, &survey, shot))
}
