// What a seat is answered.

use thiserror::Error;
use world::{Event, Reply};

/// What a node's turn is answered: the reply of its event, or why it made none.
#[derive(Drop)]
pub enum TurnAnswer {
    Reply(Reply),
    /// To let its turn pass is all that the node could do, and it has done so in this round.
    Nothing,
    /// The script's next line is of an earlier round, and comes first.
    Late,
    /// A process of the node was held at a put since this channel needed more room, which it has now.
    Widened(u8),
    /// The run is stopped: no turn and no line of the script makes an event any more, but a job that is out may come back.
    Stopped,
}

/// What the driver is answered, who goes through the script: the reply of a line's event, or why it made none.
#[derive(Drop)]
pub enum FaultAnswer {
    Reply(Reply),
    /// The next line of the script isn't due yet.
    NotYet,
    /// The script has no line left.
    NoMore,
    /// The run is stopped, as for a turn.
    Stopped,
}

/// Why a call is refused. It leaves no event and no count.
#[derive(Clone, Copy, Debug, PartialEq, Eq, Error)]
pub enum HubFault {
    /// Want of memory (1).
    #[error("no memory")]
    NoMemory,
    /// A count would pass 2^63 - 1 (44).
    #[error("a count would pass 2^63 - 1")]
    PastNumber,
}

/// A call that is refused, with the event that it was to make.
#[derive(Drop)]
pub struct HeldBack {
    pub event: Event,
    pub fault: HubFault,
}

impl HubFault {
    ghost use Rattle.std.specs.Prelude.{◌≡◌};
    ghost use Rattle.run_log.specs.Answers.{fault_number};

    /// The refusal's number.
    pub fn number(&self) -> u8
        ensures { result ≡ fault_number self.now }
    {
        match self {
            HubFault::NoMemory => 1,
            HubFault::PastNumber => 44,
        }
    }
}
