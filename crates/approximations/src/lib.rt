//! The approximations of a network's histories, each from the one before: every process goes on from where it stood,
//! on what was added to its inputs since.
#![tactic(auto)]

mod adding;
mod advance;
mod approximation;
mod at_hand;
mod progress;
mod round;

pub use approximation::approximate;
