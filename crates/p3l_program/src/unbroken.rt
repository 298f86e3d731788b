// Runs of `resume` on the snapshots that `save` leaves.

ghost use Rattle.p3l_program.specs.Unbroken.{EveryResumedRunIsUnbroken, EverySnapshotIsResumed};

use p3l_image::coding::image_begins_no_other;
use p3l_link::laws::every_linked_net_has_invariants;
use p3l_net::laws::a_restored_machine_goes_on_unbroken;
use p3l_resume::coding::snapshot_begins_no_other;
use p3l_run::laws::laws;

/// A snapshot that a run left is never refused where it is resumed: its bytes are a snapshot, with an
/// image that can be run, and a run of it can be in the state that was saved.
pub fn every_snapshot_is_resumed()
    ensures { EverySnapshotIsResumed }
{}

/// A run that was saved and resumed is unbroken: both parts together write what the network emits on
/// the items of both under the picks of both, and fire no more often than is said of all items sent.
pub fn every_resumed_run_is_unbroken()
    ensures { EveryResumedRunIsUnbroken }
{
    laws();
    every_linked_net_has_invariants();
    snapshot_begins_no_other();
    image_begins_no_other();
    a_restored_machine_goes_on_unbroken();
}
