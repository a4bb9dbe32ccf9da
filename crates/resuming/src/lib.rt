//! Worlds that begin where the processes of a network were run again.
#![tactic(auto)]

mod beginning;
mod catching_up;
mod copying;
mod disks;
mod laws;
mod shares;

pub use beginning::{NotResumed, resume};
pub use catching_up::{Behind, CaughtUp, IDLE_SWEEPS, catch_up};
pub use laws::resuming_law;
