//! What a node has in memory that has begun a checkpoint of several nodes, while answers are missing, and what it tells
//! others of that.
#![tactic(auto)]

mod hearing;
mod initiator;

pub use ckpt_core::query;
pub use hearing::{TookAnswer, answer_to_took, loses, may_decide, names, verdict_of};
pub use initiator::{Answer, Asked, Initiator, commit_to};
