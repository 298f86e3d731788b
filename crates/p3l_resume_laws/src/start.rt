// Laws of runs that go on from what was saved of linked nets.

ghost use Rattle.p3l_resume_laws.specs.Start.{EveryFittingShotHasFewTokens, EveryItemHasFewFirings, EveryOrderlyShotGoesOn, EveryResumedRunCanBeCounted};

/// A run can go on from a shot that fits a linked net with an orderly root, for any later items: a
/// machine can be restored from it, it begins orderly, and the outcomes to come are those of channel 1,
/// the root's pending ones, and those of channel 0 and of the item in the inbox. For each token in the
/// net it fires at most as often as for an item.
pub fn every_orderly_shot_goes_on()
    ensures { EveryOrderlyShotGoesOn }
{}

/// The firings of such a run can be counted in 63 bits, where the net has at most 4,096 processes, its
/// channels have room for at most 1,024 tokens, and no more items come than an input can have: few
/// tokens were saved, and the net fires few times for each of them and for each item.
pub fn every_resumed_run_can_be_counted()
    ensures firings { EveryItemHasFewFirings }
    ensures tokens { EveryFittingShotHasFewTokens }
    ensures counted { EveryResumedRunCanBeCounted }
{}
