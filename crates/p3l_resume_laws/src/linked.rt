// Laws of linked nets from any state in which a run of one can be.

ghost use Rattle.p3l_resume_laws.specs.Linked.{BothPartsAreBounded, EveryRestCanResume, EveryResumedRunEmitsWhatIsLeft, EveryResumedRunEnds, EveryRunCanResume, EveryRunStaysBalanced, EveryStartCanResume, EveryStartIsBalanced, ResumedFiringsAreBounded};

/// Each state that a run of a linked net reaches without a trap, under any picks, can be resumed: the
/// root is orderly, and each token fits its place. Each item that was sent was emitted, or is still
/// in the net. More items may come after those not yet sent.
pub fn every_run_can_be_resumed()
    ensures starts { EveryStartCanResume }
    ensures starts_balanced { EveryStartIsBalanced }
    ensures runs { EveryRunCanResume }
    ensures runs_balanced { EveryRunStaysBalanced }
    ensures rest { EveryRestCanResume }
{}

/// A resumed run of a linked net emits, under any picks, a prefix of the outcomes of channel 1, the
/// root's pending ones, and those of channel 0 and of the items not yet sent, up to the first trap,
/// and all of them where nothing can fire.
pub fn every_resumed_run_emits_what_is_left()
    ensures { EveryResumedRunEmitsWhatIsLeft }
{}

/// A resumed run of a linked net fires at most `firings` times for each token and item that is
/// left, and comes to an end by turns and by draws. A run that was saved and its resumed part
/// together fire at most `firings` times for each item sent.
pub fn resumed_firings_are_bounded()
    ensures resumed { ResumedFiringsAreBounded }
    ensures ends { EveryResumedRunEnds }
    ensures both { BothPartsAreBounded }
{}
