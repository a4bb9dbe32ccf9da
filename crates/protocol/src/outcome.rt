//! How an event that puts its node's record comes out.
ghost use Rattle.std.specs.Prelude.{◌≡◌};
ghost use Rattle.protocol.specs.Node.Plans.{refusal_number};

/// Why an event of a node isn't made that could happen. Nothing is changed then.
#[derive(Clone, Copy, Debug, PartialEq, Eq)]
pub enum Refusal {
    /// The record would be longer than its cell has room for (22).
    TooLarge,
    /// A number or an epoch would pass 2^63 - 1 (44).
    Spent,
}

impl Refusal {
    /// Its number.
    pub fn number(self) -> u8
        ensures { result ≡ refusal_number self }
    {
        match self {
            Refusal::TooLarge => 22,
            Refusal::Spent => 44,
        }
    }
}

/// What came of an event of a node that puts its record.
#[derive(Clone, Copy, Debug, PartialEq, Eq)]
pub enum Outcome {
    /// The event can't happen here now. Nothing is changed.
    NotDue,
    /// It was made, and the record is stored.
    Made,
    /// Nothing is changed.
    Refused(Refusal),
    /// The device failed, and the node is down.
    Failed,
}
