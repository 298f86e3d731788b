//! Laws of runs on several ranks that share no memory, each of which learns of the other ranks'
//! firings late. Each law is the contract of a function that does nothing.
#![tactic(auto)]

ghost use Rattle.p3l_spread_laws.specs.Examples.{FarmValues, LoopValues, WireValues};
ghost use Rattle.p3l_spread_laws.specs.Laws.{DeliveredMeansQuiet, EveryLinkedSpreadRunMeansItsItems, EveryLinkedDistributedRunMeansItsItems, EverySpreadRunFits, EverySpreadRunMeansItsItems, EveryStepStaysSound, EveryTypedNetBegins, EveryViewIsTrue, EveryWayCanBeTaken, EveryWireCanTake, EveryDistributedRunIsSpread, IdleMeansQuiet, QuietMeansStuck};

/// A rank's view of its channels is true at every step. Each way to fire by a view is a way of the
/// whole net, and can be taken. Once all messages have arrived and no rank can fire by its view,
/// nothing can fire in the whole net.
pub fn views_are_sound()
    ensures begins { EveryTypedNetBegins }
    ensures sound { EveryStepStaysSound }
    ensures ways { EveryViewIsTrue }
    ensures taken { EveryWayCanBeTaken }
    ensures delivered { DeliveredMeansQuiet }
    ensures quiet { QuietMeansStuck }
{}

/// A spread run of a net with invariants emits a prefix of the items' meaning, however late
/// messages come, and its firings have the same bound as those of any run. The prefix is the whole
/// meaning once as many outcomes were emitted as there are items, once a trap was emitted, and once
/// the net is quiet.
pub fn spread_runs_mean_their_items()
    ensures has_invariants { EverySpreadRunMeansItsItems }
    ensures linked { EveryLinkedSpreadRunMeansItsItems }
    ensures words { EverySpreadRunFits }
{}

/// A run with its messages is a spread run: each token of a channel is in its reader's buffer or in
/// flight, and the room of each token that was taken is in its writer's credit or on its way back.
pub fn distributed_runs_are_spread_runs()
    ensures spread { EveryDistributedRunIsSpread }
    ensures taken { EveryWireCanTake }
    ensures idle { IdleMeansQuiet }
    ensures linked { EveryLinkedDistributedRunMeansItsItems }
{}

/// Steps of small nets that were worked out by hand are those of the definitions.
pub fn gives_hand_values()
    ensures farm { FarmValues }
    ensures loops { LoopValues }
    ensures wires { WireValues }
{}
