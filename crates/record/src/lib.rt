//! What a node keeps on its stable storage: images of its processes and channels, and the record that holds them.
#![tactic(auto)]

mod image;
mod record;

pub use image::{End, Image, SavedEnd, SavedProcess};
pub use record::{Decision, MAX_DECISIONS, Record, Tentative};
