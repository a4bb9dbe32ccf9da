//! The words of a command line that asks for items as they come: `kahnrun --stream`.
#![tactic(auto)]

mod command;
mod flags;
mod options;
mod sources;

pub use command::{LEAST_ROOM, MOST_ROOM, VERSION};
pub use flags::asks_for_stream;
pub use options::{StreamOptions, stream_options};
pub use sources::InputSource;
