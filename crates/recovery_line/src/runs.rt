//! Laws of every run of steps from a world with which one may begin.

ghost use Rattle.recovery_line.specs.Laws.{LineIsSound, LineCovers, LineNeverFallsBack};
ghost use Rattle.recovery_line.specs.Laws.{CommitsWhileHeld, StaysCommitted, HoldersAreNamed};
ghost use Rattle.recovery_line.specs.Laws.{EndedIsOver, StaysOver, OverStaysOut};
ghost use Rattle.recovery_line.specs.Laws.{TakersAreNeeded, NoSmallerSet, NoSmallerDecision};
ghost use Rattle.recovery_line.specs.Laws.{AsksAsReceived, DecidesForTheNeeded};
ghost use Rattle.recovery_line.specs.Laws.{AsksForNeeds, TakesWhereNeeded, ReachesADecision};

/// After every run of steps, at every moment of the step after it:
///
/// - The line is sound: nobody received what its producer would have to put again, and whatever is
///   still to be received or released stands in a log.
/// - It covers what was released, and so do the permanent images.
/// - It never falls back: no line that is possible later has a lower count.
/// - An instance becomes committed only while all whom its decision names hold it. As long as a
///   node holds its image it stays committed, until that image is permanent there. Whoever holds
///   it is named.
/// - Ended is answered only for an instance that is over, what is over stays over, and no image
///   becomes permanent whose instance was over.
/// - No smaller set of takers would do: each is needed by the initiator or by an earlier one, and
///   without one of them the line would have an orphan; so it is of those whom a decision names.
///   What is asked for was received by an image of the instance, one that is held as the Ask is
///   sent. A node takes an image only for such an Ask, which its permanent image doesn't meet.
pub fn every_run_law()
    // No orphan, nothing lost, on local channels too, and an output's log begins no later than its outlet ends.
    ensures line_is_sound { LineIsSound }
    // What was released is within the effective images and within the permanent ones.
    ensures line_covers { LineCovers }
    // No line that is possible at any later moment has a lower count, and outlets only grow.
    ensures line_never_falls_back { LineNeverFallsBack }
    // An instance becomes committed only while every node that the decision names holds it.
    ensures commits_while_held { CommitsWhileHeld }
    // A committed image that a node holds stays held and committed, until it is the node's permanent one.
    ensures stays_committed { StaysCommitted }
    // Whoever holds an image of a committed instance is named by the decision.
    ensures holders_are_named { HoldersAreNamed }
    // Ended is answered, and under way, only for an instance that is over.
    ensures ended_is_over { EndedIsOver }
    ensures stays_over { StaysOver }
    // A permanent image stays, or is replaced by one held for an instance that wasn't over.
    ensures over_stays_out { OverStaysOut }
    // Each taker has a channel of which the initiator's image, or that of a taker whose Took came earlier, received more than
    // the taker's permanent image has put.
    ensures takers_are_needed { TakersAreNeeded }
    // While answers are collected, and at the decision: the line in which the initiator takes its image and one of the takers
    // doesn't has an orphan.
    ensures no_smaller_set { NoSmallerSet }
    ensures no_smaller_decision { NoSmallerDecision }
    // Whom a new decision names were takers of the instance, which was live before, and each was needed by the initiator or by
    // one that took part before it.
    ensures decides_for_the_needed { DecidesForTheNeeded }
    // An Ask that is in flight behind a step was so before it, or its count was received by an image of its instance that is held
    // then.
    ensures asks_as_received { AsksAsReceived }
    // The count of an Ask was received, at some world on the way, by an image of that live instance that its initiator or one of
    // its takers held.
    ensures asks_for_needs { AsksForNeeds }
    // A node takes an image of another's instance only for an Ask in flight that its permanent image doesn't meet and its new one
    // does; while the instance is live, one of its images needs that now.
    ensures takes_where_needed { TakesWhereNeeded }
{}

/// A run does reach a decision that names another node: the steps don't rule each other out.
pub fn reachable_decision_law()
    ensures { ReachesADecision }
{}
