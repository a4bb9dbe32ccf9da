//! What a seat knows of a history, the rule that a journal's table keeps, and the steps on it.

use atomic_table::{Join, Play, Split, TableRule};
use run_log::Line;
use std::collections::LinkedList;

/// What a seat knows, for proofs alone: no value of it is made.
pub struct View {
    /// The history that it was shown last; at the journal's own seat the whole.
    pub lines: LinkedList<Line>,
    /// What a reader was shown that the journal's seat took in last.
    pub seen: LinkedList<Line>,
}

/// The rule: the journal's own seat knows the whole history, and each other one a beginning of it.
pub struct Growing;

impl TableRule<Vec<Line>, View, ()> for Growing {
    ghost use Rattle.journal.specs.Rules.{HoldsOfJournal, nothing_seen};

    ghost holds = { λ key table. HoldsOfJournal table };

    ghost first = { λ key. nothing_seen };
}

/// The step by which a longer history is written.
pub struct Writing;

impl Play<Vec<Line>, View> for Writing {
    ghost use Rattle.journal.specs.Rules.{HasWritten};

    ghost then = { λ step before found after. HasWritten step.said before.0 after.0 };
}

/// The step by which what a reader was shown is found to begin the history.
pub struct Recalling;

impl Play<Vec<Line>, View> for Recalling {
    ghost use Rattle.journal.specs.Rules.{HasRecalled};

    ghost then = { λ step before found after. HasRecalled before.0 after.0 };
}

/// The journal's seat makes one that was shown all of the history.
pub struct Dealing;

impl Split<View> for Dealing {
    ghost use Rattle.journal.specs.Rules.{reader_of, writer_of};

    ghost left = { writer_of };

    ghost right = { reader_of };
}

/// The journal's seat takes in what a reader was shown.
pub struct TakingIn;

impl Join<View> for TakingIn {
    ghost use Rattle.journal.specs.Rules.{nothing_seen, taken_in};

    ghost both = { taken_in };

    ghost spent = { nothing_seen };
}
