//! The program that tells what a folder holds: `kahnrun --status FOLDER`.
#![tactic(auto)]

mod command;
mod flags;
mod on_host;
mod options;
mod program;

pub use flags::asks_for_status;
pub use on_host::status_on_host;
pub use options::{StatusOptions, status_options};
pub use program::main_of;
