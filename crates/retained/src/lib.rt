//! The items of a channel that may still be asked for: a log, from its base to its end.
#![tactic(auto)]

mod fault;
mod log;

pub use fault::LogFault;
pub use log::{Log, MAX_LOG_ITEMS};
