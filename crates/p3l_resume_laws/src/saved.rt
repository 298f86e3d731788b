// Laws of what was saved of machines that run linked nets.

ghost use Rattle.p3l_resume_laws.specs.Saved.{EveryBalancedShotIsBalanced, EveryFittingShotCanBeRestored, EveryFittingShotCanBeWritten, EveryOrderlyShotCanResume};

use crate::widths::every_linked_net_carries_its_widths;
use p3l_resume::ranges::what_has_few_items_can_be_written;

/// A machine can be restored from a shot that fits a linked net; and if its root is orderly, a run
/// can continue from there. If each item sent was emitted or is still in the net, it is so in the
/// restored state.
pub fn what_fits_can_be_resumed()
    ensures restored { EveryFittingShotCanBeRestored }
    ensures resumes { EveryOrderlyShotCanResume }
    ensures balanced { EveryBalancedShotIsBalanced }
{
    every_linked_net_carries_its_widths();
}

/// A shot that fits a linked net can be written, with an image of few bytes: its channels have room
/// for few tokens, each of few words and tags, and its processes hold no more than they may.
pub fn what_fits_can_be_written()
    ensures { EveryFittingShotCanBeWritten }
{
    every_linked_net_carries_its_widths();
    what_has_few_items_can_be_written();
}
