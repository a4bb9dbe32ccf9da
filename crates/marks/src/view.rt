//! What a seat knows of the marks, the rule that the table of marks keeps, and the steps on it.

use atomic_table::{Play, Split, TableRule};
use std::collections::LinkedList;

/// What a seat knows, for proofs alone: no value of it is made.
pub struct View {
    /// The seat's node; none is the driver's, or that of a seat that only reads.
    pub node: Option<u8>,
    /// How many seats of nodes it has dealt; only the driver's seat deals.
    pub dealt: u64,
    /// The numbers that it knows to have been raised, in order, for each channel.
    pub known: LinkedList<LinkedList<u64>>,
}

/// The rule: the word of a channel is the greatest of all numbers raised for it, and only the seat of the owner raises it.
pub struct Rising;

impl TableRule<(), View, Vec<Option<u8>>> for Rising {
    ghost use Rattle.marks.specs.Rules.{HoldsOfMarks, first_view};

    ghost holds = { λ owners table. HoldsOfMarks owners.items table };

    ghost first = { λ owners. first_view owners.items };
}

/// The step of a raise.
pub struct Raising;

impl Play<(), View> for Raising {
    ghost use Rattle.marks.specs.Known.{HasRaised};

    ghost then = { λ step before found after. HasRaised before.0 step.word step.first after.0 };
}

/// The step of a read.
pub struct Reading;

impl Play<(), View> for Reading {
    ghost use Rattle.marks.specs.Known.{HasRead};

    ghost then = { λ step before found after. HasRead before.0 step.word found after.0 };
}

/// A seat comes that only reads. It knows what the driver's knew at first.
pub struct Entering;

impl Play<(), View> for Entering {
    ghost use Rattle.std.specs.Prelude.{◌≡◌};

    ghost then = { λ step before found after. after.0 ≡ before.0 };
}

/// The driver's seat deals the seat of the next node.
pub struct Dealing;

impl Split<View> for Dealing {
    ghost use Rattle.marks.specs.Rules.{dealer, dealt};

    ghost left = { dealer };

    ghost right = { dealt };
}
