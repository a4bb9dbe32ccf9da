//! A link between two nodes over a network that loses, repeats and reorders: the windows of its two ends, and its law.
//!
//! A `SendWindow` says which positions of a channel are due to be sent. A `RecvWindow` says what becomes of an item that
//! comes. Items that overtook others lie in it until their turn comes; making one takes memory, and no other call does.
#![tactic(auto)]

mod laws;
mod receiving;
mod sending;

pub use laws::link_law;
pub use receiving::{Ack, Arrival, RecvWindow};
pub use sending::{LARGEST_WINDOW, SendWindow};
