//! What turn-taking remembers of a node's round.
ghost use Rattle.std.specs.Prelude.{◌≡◌};
ghost use Rattle.protocol.specs.World.Turns.{no_turns, turns_of, count_grant, count_start, count_send, count_idle};

use crate::limits::MAX_GRANTS;

/// What a node has done in this round.
#[derive(Clone, Copy, Debug, PartialEq, Eq)]
pub struct RoundTurns {
    /// The round of which this is remembered.
    pub round: u64,
    /// How many jobs were granted: 64 at most are counted.
    pub granted: u8,
    /// A checkpoint was begun, or its beginning was refused or failed.
    pub started: bool,
    /// It has sent.
    pub sent: bool,
    /// A tentative image was held when it sent last.
    pub sent_holding: bool,
    pub idled: bool,
}

impl RoundTurns {
    /// Nothing yet in this round.
    pub fn new(round: u64) -> RoundTurns
        ensures { result ≡ no_turns round }
    {
        RoundTurns {
            round,
            granted: 0,
            started: false,
            sent: false,
            sent_holding: false,
            idled: false,
        }
    }

    /// What is remembered of this round: nothing, where it is of an earlier one.
    pub fn of(self, round: u64) -> RoundTurns
        ensures { result ≡ turns_of round self }
    {
        if self.round == round {
            self
        } else {
            RoundTurns::new(round)
        }
    }

    /// One job more was granted.
    pub fn with_grant(self) -> RoundTurns
        ensures { result ≡ count_grant self }
    {
        let mut turns = self;
        if turns.granted < MAX_GRANTS {
            turns.granted += 1;
        }
        turns
    }

    /// A checkpoint was begun, or its beginning was refused or failed.
    pub fn with_start(self) -> RoundTurns
        ensures { result ≡ count_start self }
    {
        let mut turns = self;
        turns.started = true;
        turns
    }

    /// The node has sent, while it held a tentative image or not.
    pub fn with_send(self, holding: bool) -> RoundTurns
        ensures { result ≡ count_send holding self }
    {
        let mut turns = self;
        turns.sent = true;
        turns.sent_holding = holding;
        turns
    }

    /// The node let its turn pass.
    pub fn with_idle(self) -> RoundTurns
        ensures { result ≡ count_idle self }
    {
        let mut turns = self;
        turns.idled = true;
        turns
    }
}
