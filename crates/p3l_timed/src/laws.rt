// Laws of every timed run, each as the contract of a function that does nothing.

ghost use Rattle.std.specs.Prelude.{◌<◌, ◌≤◌, ◌*◌, ◌^◌, ℕ, slice_index};
ghost use Rattle.p3l_timed.specs.Follow.{FilledIsInTime, FiringKeepsTime, OfferKeepsTime, StartsInTime};
ghost use Rattle.p3l_timed.specs.Laws.{EveryFinishIsWithinBusy, EveryTimedRunIsARun};
ghost use Rattle.p3l_timed.specs.Price.{EverySmallPriceCounts, price_at};

use crate::timer::Timer;

/// The picks of a timed run are those of a run of the net, as the picks of any schedule are: each
/// of them fires, and they end where nothing can fire.
pub fn a_timed_run_is_a_run()
    ensures { EveryTimedRunIsARun }
{}

/// A timed run ends no sooner than any of its processes was busy in all, and no later than all of
/// them were together.
pub fn a_finish_is_between_one_and_all()
    ensures { EveryFinishIsWithinBusy }
{}

/// Prices below 2^48 are counted in full.
pub fn small_prices_are_counted_in_full()
    ensures { EverySmallPriceCounts }
{}

/// The moment of a timer, and the time that each process was busy, are at most 2^48 ticks for each
/// firing, since every price that it counts is below that. So its sums never wrap.
pub fn a_moment_is_bounded_by_firings(_timer: &Timer)
    ensures price { (p : ℕ) → price_at _timer.now.prices p < 2 ^ 48 }
    ensures moment { _timer.now.moment ≤ _timer.now.fired * 2 ^ 48 }
    ensures busy { (p : ℕ) → slice_index _timer.now.busy p ≤ _timer.now.fired * 2 ^ 48 }
{
    _timer.look();
}

/// A timer beside a machine whose empty inbox is filled before each pick, for as long as items are
/// left, goes as the timed run on all the items: they start so, an offer leaves them there, they
/// name the same process as the next, and its firing leads both on.
pub fn a_filled_machine_follows_the_timed_run()
    ensures starts { StartsInTime }
    ensures offered { OfferKeepsTime }
    ensures filled { FilledIsInTime }
    ensures fired { FiringKeepsTime }
{}
