// Laws of every run of a network.

ghost use Rattle.p3l_run.specs.Laws.{Laws, OnlyRecordedPicksStop};
ghost use Rattle.p3l_run.specs.Network.{IsSound, Network};

use p3l_net::laws as net;
use p3l_sched::laws as sched;

/// The laws of all runs, at one network.
pub fn laws()
    ensures { (n : Network) → IsSound n → Laws n }
{
    net::a_filled_machine_follows_the_run();
    net::counts_rise_by_one_at_most();
    net::runs_go_pick_by_pick();
    sched::a_filled_machine_is_picked_for_as_its_run();
    sched::picks_are_ready();
    sched::picks_go_one_by_one();
}

/// A law of the runs of sound networks: one of which the picks are made by turns or by a seed ends
/// where no process can fire, and one under recorded picks there or at the end of these.
pub fn only_recorded_picks_stop()
    ensures { OnlyRecordedPicksStop }
{}
