//! What a node has in memory that comes back to its permanent image: after a crash, once a verdict came in doubt, or where
//! another node restored an image behind which this one is ahead.
#![tactic(auto)]

mod restoring;
mod undoing;

pub use restoring::{Recovery, Restored, recover, restore};
pub use undoing::{UndoneAnswer, answer_to_undone, note_epoch, set_back};
