// Laws of what is noted, each on a call that does nothing.

ghost use Rattle.p3l_profile.specs.Law.{HasTheGreatest};

/// The cost file of what was noted, run by run and turn by turn, has of each `seq` module the most
/// instructions of a run, and of each loop module the most turns for an item.
pub fn a_profile_has_the_greatest()
    ensures { HasTheGreatest }
{}
