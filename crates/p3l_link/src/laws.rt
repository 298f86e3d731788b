// Laws of all linked nets: each is the contract of a function that does nothing.

ghost use Rattle.p3l_link.specs.Laws.{EveryFiringKeepsFitting, EveryFiringKeepsTheList, EveryNetHasInvariants, EveryNodeDoesWhatItMeans, EveryPlacedNodeIsAPart, EveryRootIsAPart, EveryRunBeginsFitting, EveryRunBeginsOrderly, EveryRunBeginsTheMeaning, EveryWayKeepsTheList, FiringsAreBounded, OwedIsBoundedByTokens, RoundRobinEnds, StuckMeansEmpty, StuckMeansFinished};

/// A node of a lawful tree that is placed in a net with all that is below it is a lawful part of
/// that net, whatever else is in it; and it makes of words what the language says, and fires as
/// often as is said of the tree.
pub fn every_placed_node_is_a_part()
    ensures placed { EveryPlacedNodeIsAPart }
    ensures means { EveryNodeDoesWhatItMeans }
    ensures root { EveryRootIsAPart }
{}

/// A linked net has the invariants of its root, so that every law over all picks of such a net
/// holds of it.
pub fn every_linked_net_has_invariants()
    ensures { EveryNetHasInvariants }
{}

/// A run begins orderly, and every firing keeps the order and the whole list of what was emitted
/// and what is to come, and takes from the outstanding firings. In a typed net every token has
/// the words of its place, at first and after every firing.
pub fn every_firing_keeps_the_list()
    ensures begins { EveryRunBeginsOrderly }
    ensures step { EveryFiringKeepsTheList }
    ensures way { EveryWayKeepsTheList }
    ensures first_words { EveryRunBeginsFitting }
    ensures words { EveryFiringKeepsFitting }
{}

/// Under every schedule, the outcomes that a linked net has emitted are a prefix of the meaning of
/// the items.
pub fn every_run_begins_the_meaning()
    ensures { EveryRunBeginsTheMeaning }
{}

/// A net in which nothing can fire has emitted the whole meaning: either it ended with a trap, or
/// nothing is left in the net. The round robin comes to such an end.
pub fn stuck_means_finished()
    ensures state { StuckMeansEmpty }
    ensures run { StuckMeansFinished }
    ensures ends { RoundRobinEnds }
{}

/// The firings of a run, and those that its tokens can still need, are at most the stated number
/// for each item sent; and the outstanding firings are at most that number for each token in the
/// net.
pub fn firings_are_bounded()
    ensures run { FiringsAreBounded }
    ensures tokens { OwedIsBoundedByTokens }
{}
