// Tests of the saved tokens of channels.

ghost use Rattle.std.specs.Prelude.{◌≡◌, ◌↔◌, IsTrue, EachIndex};
ghost use Rattle.p3l_firing.specs.State.{chan_at};
ghost use Rattle.p3l_firing.specs.Shot.{saved_at};
ghost use Rattle.p3l_fitting.specs.Decided.{QueueFits};
ghost use Rattle.p3l_template.specs.Width.{width_at};

use crate::tokens::tokens_fit;
use p3l_firing::{Chan, Net};
use p3l_net::{SavedToken, Shot};
use p3l_skel::Tree;
use p3l_template::Width;
use p3l_template::width::width_at;

/// Returns true exactly if a channel has room for its tokens, and they have its width.
fn queue_fits(tree: &Tree, chan: Chan, width: Width, saved: &[SavedToken]) -> bool
    ensures { IsTrue result ↔ QueueFits tree.now chan width saved.now }
{
    saved.len() <= chan.cap as usize && tokens_fit(tree, width, saved)
}

/// Returns true exactly if all channels have room for their tokens, and these have the widths of
/// their channels.
pub(crate) fn queues_fit(tree: &Tree, net: &Net, row: &[Width], shot: &Shot) -> bool
    ensures { IsTrue result ↔ EachIndex net.now.chans (λ c.
        QueueFits tree.now (chan_at net.now c) (width_at row.now c) (saved_at shot.now c)) }
{
    for (c, chan) in net.chans.as_slice().iter().enumerate() {
        if !queue_fits(tree, *chan, width_at(row, c), shot.tokens(c)) {
            return false;
        }
    }
    true
}
