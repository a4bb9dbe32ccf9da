//! What came on a network's inputs: for clauses whole lists, and in memory only what may still be asked for.
#![tactic(auto)]

mod inputs;
mod list;

pub use inputs::Arrived;
