//! A network at work on a host: its items come from the host's sources, and each item that leaves is a line of standard output.
#![tactic(auto)]

mod running;

pub use running::run_streams;
