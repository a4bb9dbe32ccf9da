//! The program behind `kahnrun --stream`: items come in as they arrive, and each item is printed as it leaves.
#![tactic(auto)]

mod failure;
mod on_host;
mod program;

pub use failure::StreamFailure;
pub use on_host::run_on_host;
pub use program::main_of;
