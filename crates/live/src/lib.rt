//! A network at work, a step at a time: a program hands it items as they come, and takes the items that leave.
//!
//! Nothing is known beforehand of what comes. Whatever comes, and wherever nodes crash, what has left is right on the inputs so far,
//! and so on all later ones.
#![tactic(auto)]

mod live;
mod waiting;

pub use live::{Live, Pause};
