//! What happened in a run, as a text: a line for each event, with who made it and what was answered.
#![tactic(auto)]

mod entry;
mod event;
mod header;
mod reply;
mod writing;

pub use writing::write_history;
