// Laws of the snapshots of machines that run linked nets.

ghost use Rattle.p3l_resume_laws.specs.Kept.{EverySavedShotIsSound};
ghost use Rattle.p3l_resume_laws.specs.Loops.{EveryLoopIsThere};
ghost use Rattle.p3l_resume_laws.specs.Traps.{EveryTableNamesModules};

/// A snapshot is sound under any picks, if its machine was started on a linked net and fired with units
/// whose traps name modules of its tree: it fits the net and its loops, the root is orderly, and each
/// item that was sent was emitted or is still in the net. So it is never refused when it is resumed.
pub fn every_saved_shot_is_sound()
    ensures { EverySavedShotIsSound }
{}

/// A linked net has a loop at each place that is surveyed for one; so the test of a snapshot passes over
/// none.
pub fn every_loop_is_there()
    ensures { EveryLoopIsThere }
{}

/// The traps of a table of units name modules of its tree: each that of the module that ran.
pub fn every_table_names_modules()
    ensures { EveryTableNamesModules }
{}
