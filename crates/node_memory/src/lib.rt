//! What a node has in memory while it runs, and what happens there alone: jobs are granted and their turns taken in, items come from
//! other nodes and leave for outlets, and what is due is said.
//!
//! Nothing here knows of the node's store. A record is only lent, to say what is kept for good.
#![tactic(auto)]

mod choosing;
mod delivering;
mod granting;
mod installing;
mod popping;
mod running;
mod sending;
mod sharing;
mod stance;
mod telling;

pub use running::Running;
pub use sharing::share_law;
pub use telling::add_verdicts;
