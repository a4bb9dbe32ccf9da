//! What the command line asks for.

ghost use Rattle.std.specs.Prelude.{◌≡◌, None, false, is_some};
ghost use Rattle.protocol.specs.declared.limits.TheConstants.{DEFAULT_ROOM};
ghost use Rattle.kahn_program.specs.Asked.{rounds_of, settings_of};

use cobaltmidge::{DEFAULT_ROOM, DEFAULT_ROUNDS, Settings};

/// The most rounds of a run that may be asked for.
pub const MAX_ROUNDS: u64 = 1_000_000;

/// The most items of each output that may be asked for.
pub const MAX_ITEMS: u64 = 1_000_000;

/// The greatest number of an approximation that may be asked for.
pub const MAX_APPROXIMATION: u64 = 10_000;

/// What the command line asks for.
#[derive(Debug, Drop)]
pub struct Options {
    /// The file of the network's text.
    pub net: String,
    /// The file of the inputs' text.
    pub inputs: String,
    /// The file of the failure script, if a run has one.
    pub script: Option<String>,
    /// The folder in which what left outlasts the run, if there is one.
    pub state: Option<String>,
    /// What is kept in that folder outlasts a loss of power too.
    pub sync: bool,
    /// A run ends after so many rounds, complete or not. Where none are asked for it has `DEFAULT_ROUNDS`, and with a folder `MAX_ROUNDS`.
    pub rounds: Option<u64>,
    /// A run ends where each output has so many items.
    pub items: Option<u64>,
    /// How many items a channel of a run retains at most at first, from `MIN_ROOM` to `MAX_RETAINED_ITEMS`. Any other number is taken
    /// for the nearest of these.
    pub room: u64,
    /// A run takes turns on one thread. Else each node has a thread of its own.
    pub plain: bool,
    /// The approximation that is printed in place of a run.
    pub approx: Option<u64>,
    /// Where a text is refused, a second line says at which column, and in words.
    pub explain: bool,
    /// The file into which what happens in a run is written, if it is.
    pub history: Option<String>,
    /// Nothing says how far a run has come.
    pub quiet: bool,
}

impl Options {
    /// What the names of the two files alone ask for.
    pub fn new(net: String, inputs: String) -> Self
        ensures names { (result.net ≡ net) × (result.inputs ≡ inputs) }
        ensures room { result.room ≡ DEFAULT_ROOM }
        ensures others { (result.script ≡ None) × (result.state ≡ None) × (result.sync ≡ false) × (result.items ≡ None) × (result.plain ≡ false)
            × (result.rounds ≡ None) × (result.approx ≡ None) × (result.explain ≡ false) × (result.history ≡ None) × (result.quiet ≡ false) }
    {
        Options {
            net,
            inputs,
            script: None,
            state: None,
            sync: false,
            rounds: None,
            items: None,
            room: DEFAULT_ROOM as u64,
            plain: false,
            approx: None,
            explain: false,
            history: None,
            quiet: false,
        }
    }

    // The rounds after which a run ends. One with a folder may go on as long as may be asked for: what it comes to isn't lost.
    fn rounds(&self) -> u64
        ensures { result ≡ rounds_of self.now.rounds (is_some self.now.state) }
    {
        match (self.rounds, &self.state) {
            (Some(rounds), _) => rounds,
            (None, Some(_)) => MAX_ROUNDS,
            (None, None) => DEFAULT_ROUNDS,
        }
    }

    /// How a run goes by them.
    pub(crate) fn settings(&self) -> Settings
        ensures { result ≡ settings_of self.now }
    {
        Settings {
            rounds: self.rounds(),
            items: self.items,
            room: self.room,
            threads: !self.plain,
            history: self.history.is_some(),
        }
    }
}
