//! How long a failing device keeps its node down.
ghost use Rattle.std.specs.Prelude.{◌≡◌};
ghost use Rattle.protocol.specs.Node.Common.{round_later};
ghost use Rattle.protocol.specs.Node.ArmedRestarts.{rounds_at};

use kahn_net::MAX_COUNT;
use protocol::ArmedRestart;

/// The round that comes so many later. The last one is the greatest number.
pub fn round_later(round: u64, rounds: u64) -> u64
    ensures { result ≡ round_later round rounds }
{
    round.saturating_add(rounds).min(MAX_COUNT)
}

// For how many rounds the failure of this call keeps the node down: of several faults armed for one call the first counts, and
// a failure that nobody armed takes one round.
pub(crate) fn rounds_at(armed: &[ArmedRestart], call: u64) -> u64
    ensures { result ≡ rounds_at armed.now call }
{
    for restart in armed {
        if restart.call == call {
            return restart.rounds;
        }
    }
    1
}
