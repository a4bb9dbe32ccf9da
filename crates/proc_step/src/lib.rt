//! A process's turn: as many of its acts as the items at hand and the room allow. Any thread may
//! make it, outside every lock.
#![tactic(auto)]

mod comparing;
mod job;
mod machine;
mod next;
mod outcome;
mod room;
mod stack;

pub use job::{Done, Job, JobFault};
pub use kahn_net::{Mode, Place, ProcState};
pub use next::{NextAct, next_act};
