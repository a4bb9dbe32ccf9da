// Rules for packets that are still to be sent.
ghost use Rattle.std.specs.Prelude.{◌≡◌, ◌+◌, min};
ghost use Rattle.wire.specs.Rules.{capped, changed};

use kahn_net::MAX_COUNT;

/// What a rule makes of its packet.
#[derive(Clone, Copy, Debug, PartialEq, Eq)]
pub enum Change {
    /// It isn't put in flight.
    Lose,
    /// It is put in flight once more, if it is put in flight at all.
    Repeat,
    /// It is due so many rounds later.
    Delay(u64),
}

/// What becomes of the `nth` packet from one node to another, counted from 1.
#[derive(Clone, Copy, Debug, PartialEq, Eq)]
pub struct Rule {
    /// The node that sends the packet.
    pub from: u8,
    /// The node that it is for.
    pub to: u8,
    /// Which packet from the one to the other it is, from 1.
    pub nth: u64,
    /// What becomes of it.
    pub change: Change,
}

/// How often a packet is put in flight, and how many rounds later than it is sent it is due.
#[derive(Clone, Copy, Debug, PartialEq, Eq)]
pub struct Fate {
    pub copies: u64,
    pub delay: u64,
}

// A sum that stops at the last number.
pub(crate) fn capped_sum(one: u64, other: u64) -> u64
    ensures { result ≡ capped (one + other) }
{
    one.saturating_add(other).min(MAX_COUNT)
}

// What becomes of a packet by one rule more for it.
pub(crate) fn changed_by(fate: Fate, change: Change) -> Fate
    ensures { result ≡ changed fate change }
{
    match change {
        Change::Lose => Fate {
            copies: 0,
            delay: fate.delay,
        },
        Change::Repeat if fate.copies == 0 => fate,
        Change::Repeat => Fate {
            copies: capped_sum(fate.copies, 1),
            delay: fate.delay,
        },
        Change::Delay(rounds) => Fate {
            copies: fate.copies,
            delay: capped_sum(fate.delay, rounds),
        },
    }
}
