//! How a run goes.

ghost use Rattle.std.specs.Prelude.{◌≡◌, None, false};
ghost use Rattle.protocol.specs.declared.limits.TheConstants.{DEFAULT_ROOM};

use world::DEFAULT_ROOM;

/// The rounds of a run for which no number is given.
pub const DEFAULT_ROUNDS: u64 = 1_000;

/// How a run goes, and where it ends.
#[derive(Clone, Copy, Debug, PartialEq, Eq)]
pub struct Settings {
    /// It ends after so many rounds, complete or not.
    pub rounds: u64,
    /// It ends where each output has so many items.
    pub items: Option<u64>,
    /// How many items a channel retains at most at first, from `MIN_ROOM` to 57,344. Any other number is taken for the nearest of
    /// these.
    pub room: u64,
    /// Each node has a thread of its own. Else one thread takes the turns of all.
    pub threads: bool,
    /// What happens is kept. Else the history of the run comes back empty.
    pub history: bool,
}

impl Settings {
    /// 1,000 rounds, a room of 4,096 items, turns on one thread, and no history.
    pub fn new() -> Settings
        ensures rounds { result.rounds ≡ DEFAULT_ROUNDS }
        ensures room { result.room ≡ DEFAULT_ROOM }
        ensures others { (result.items ≡ None) × (result.threads ≡ false) × (result.history ≡ false) }
    {
        Settings {
            rounds: DEFAULT_ROUNDS,
            items: None,
            room: DEFAULT_ROOM as u64,
            threads: false,
            history: false,
        }
    }
}
