// The names that a command line gives.

use std::alloc::{AllocError, Global};

/// The names that a command line gives.
#[derive(Debug, Drop)]
pub struct Names {
    /// The file of the network's text.
    pub net: String,
    /// The file of the inputs' text.
    pub inputs: String,
    /// The file of the failure script, if a run has one.
    pub script: Option<String>,
    /// The file into which what happens is written, if it is.
    pub history: Option<String>,
    /// The folder in which what left outlasts the run, if there is one.
    pub state: Option<String>,
    /// What is kept in that folder outlasts a loss of power too.
    pub sync: bool,
}

/// What the texts of a run have to be before anything is made or written.
pub trait Judge {
    ghost use Rattle.std.specs.Prelude.{◌≡◌, IfOk, IsTrue, false};
    ghost use Rattle.run_files.specs.Rules.{Given, grown_from};

    /// These texts are accepted.
    ghost accepts: { Given → Type 0 };

    /// They are those of the run for which it judges.
    ghost judges: { Self → Given → Type 0 };

    /// Whether the run's inputs have grown from this text of inputs, which its folder has.
    fn has_grown(&self, alloc: Global, kept: &Vec<u8>) -> Result<bool, AllocError>
        ensures grown { IfOk result (λ grown. IsTrue grown
            → (given : Given) → judges self.now given → accepts (grown_from kept.now.items given)) }
        ensures changed { IfOk result (λ grown. grown ≡ false
            → (given : Given) → judges self.now given → ¬ (accepts (grown_from kept.now.items given))) };
}
