// Tests of the saved local states of processes.

ghost use Rattle.std.specs.Prelude.{◌≡◌, ◌↔◌, ◌≢◌, ◌≤◌, ◌<◌, ℕ, [], IsTrue, Some, length, slice_get};
ghost use Rattle.p3l_firing.specs.declared.process.Proc.{Proc as TheProc};
ghost use Rattle.p3l_firing.specs.declared.process.ProcKind.TheVariants as kinds;
ghost use Rattle.p3l_firing.specs.Shot.{own_saved_at};
ghost use Rattle.p3l_fitting.specs.Decided.{HeldFits, OwnFits};

use crate::numbers::{channel, last_element, part, room};
use crate::tokens::{are_credits, tokens_fit};
use p3l_firing::{Net, Proc, ProcKind};
use p3l_net::{Own, Shot};
use p3l_skel::Tree;
use p3l_template::Width;
use p3l_template::width::{outs_width, width_at};

/// Returns true exactly if at most `most` tokens are held, all of this width.
fn held_fits(tree: &Tree, width: Width, most: u64, own: &Own) -> bool
    ensures { IsTrue result ↔ HeldFits tree.now width most own.now }
{
    own.held.len() as u64 <= most && tokens_fit(tree, width, own.held.as_slice())
}

/// Returns true exactly if a number is below a limit, if a token is held.
fn number_fits(own: &Own, limit: u64) -> bool
    ensures { IsTrue result ↔ (own.now.held ≢ [] → own.now.number < limit) }
{
    own.held.is_empty() || own.number < limit
}

/// Tests the saved local state of a scatter.
#[tactic(auto, unfolding(crate::specs::Decided::OwnFits))]
fn scatter_fits(tree: &Tree, net: &Net, row: &[Width], shot: &Shot, q: &Proc, own: &Own) -> bool
    ensures { IsTrue result
        ↔ OwnFits kinds.Scatter tree.now net.now row.now shot.now q.now own.now }
{
    let width = width_at(row, channel(&q.ins, 0) as usize);
    held_fits(tree, width, 1, own) && number_fits(own, last_element(tree, q.node) + 1)
}

/// Tests the saved local state of a gather.
#[tactic(auto, unfolding(crate::specs::Decided::OwnFits))]
fn gather_fits(tree: &Tree, net: &Net, row: &[Width], shot: &Shot, q: &Proc, own: &Own) -> bool
    ensures { IsTrue result
        ↔ OwnFits kinds.Gather tree.now net.now row.now shot.now q.now own.now }
{
    let tags = width_at(row, channel(&q.outs, 0) as usize).tags;
    let width = outs_width(tree, part(tree, q.node, 0), tags);
    held_fits(tree, width, last_element(tree, q.node) + 1, own)
}

/// Tests the saved local state of a split.
#[tactic(auto, unfolding(crate::specs::Decided::OwnFits))]
fn split_fits(tree: &Tree, net: &Net, row: &[Width], shot: &Shot, q: &Proc, own: &Own) -> bool
    ensures { IsTrue result
        ↔ OwnFits kinds.Split tree.now net.now row.now shot.now q.now own.now }
{
    let width = width_at(row, channel(&q.ins, 0) as usize);
    held_fits(tree, width, 1, own) && number_fits(own, q.outs.len() as u64)
}

/// Tests the saved local state of a process that folds the outcomes of segments.
#[tactic(auto, unfolding(crate::specs::Decided::OwnFits))]
fn fold_gather_fits(tree: &Tree, net: &Net, row: &[Width], shot: &Shot, q: &Proc, own: &Own) -> bool
    ensures { IsTrue result
        ↔ OwnFits kinds.FoldGather tree.now net.now row.now shot.now q.now own.now }
{
    let tags = width_at(row, channel(&q.outs, 0) as usize).tags;
    held_fits(
        tree,
        outs_width(tree, q.node, tags),
        q.ins.len() as u64,
        own,
    )
}

/// Tests the saved local state of a head, and the credits of its loop.
#[tactic(auto, unfolding(crate::specs::Decided::OwnFits))]
fn head_fits(tree: &Tree, net: &Net, row: &[Width], shot: &Shot, q: &Proc, own: &Own) -> bool
    ensures { IsTrue result
        ↔ OwnFits kinds.Head tree.now net.now row.now shot.now q.now own.now }
{
    own.held.is_empty() && are_credits(shot.tokens(channel(&q.ins, 2) as usize))
}

/// Tests the saved local state of a tail.
#[tactic(auto, unfolding(crate::specs::Decided::OwnFits))]
fn tail_fits(tree: &Tree, net: &Net, row: &[Width], shot: &Shot, q: &Proc, own: &Own) -> bool
    ensures { IsTrue result
        ↔ OwnFits kinds.Tail tree.now net.now row.now shot.now q.now own.now }
{
    let width = width_at(row, channel(&q.ins, 0) as usize);
    held_fits(tree, width, room(net, channel(&q.outs, 2)) as u64, own)
}

/// Returns true exactly if what is saved of a process fits its kind.
#[tactic(auto, unfolding(crate::specs::Decided::OwnFits))]
fn own_fits(tree: &Tree, net: &Net, row: &[Width], shot: &Shot, q: &Proc, own: &Own) -> bool
    ensures { IsTrue result ↔ OwnFits q.now.kind tree.now net.now row.now shot.now q.now own.now }
{
    match q.kind {
        ProcKind::Source
        | ProcKind::Sink
        | ProcKind::Run
        | ProcKind::Emit
        | ProcKind::Collect
        | ProcKind::Join => own.held.is_empty(),
        ProcKind::Scatter => scatter_fits(tree, net, row, shot, q, own),
        ProcKind::Gather => gather_fits(tree, net, row, shot, q, own),
        ProcKind::Split => split_fits(tree, net, row, shot, q, own),
        ProcKind::FoldGather => fold_gather_fits(tree, net, row, shot, q, own),
        ProcKind::Head => head_fits(tree, net, row, shot, q, own),
        ProcKind::Tail => tail_fits(tree, net, row, shot, q, own),
    }
}

/// Returns true exactly if what is saved of each process fits its kind.
pub(crate) fn owns_fit(tree: &Tree, net: &Net, row: &[Width], shot: &Shot) -> bool
    requires { length shot.now.owns ≡ length net.now.procs }
    ensures { IsTrue result ↔ ((p : ℕ) (q : TheProc) → slice_get net.now.procs p ≡ Some q
        → OwnFits q.kind tree.now net.now row.now shot.now q (own_saved_at shot.now p)) }
{
    let owns = shot.owns.as_slice();
    for (p, q) in net.procs.as_slice().iter().enumerate() {
        if !own_fits(tree, net, row, shot, q, &owns[p]) {
            return false;
        }
    }
    true
}
