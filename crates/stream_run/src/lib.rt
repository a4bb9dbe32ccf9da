//! A network at work between the streams outside of it: items are taken from there as they come, and what leaves is put out as it leaves.
//!
//! `Outside` is what lies there, as files and pipes, or lists of a program's own. `stream` runs a network until each of its inputs has come
//! to its end and nothing is left to do.
#![tactic(auto)]

mod asked;
mod stopped;
mod streaming;

pub use stopped::Stopped;
pub use streaming::stream;
