//! The network between nodes: packets in flight, in the order in which they were sent, each with the round in which it is
//! due, and the rules that were armed for packets still to be sent.
//!
//! A packet that is sent goes last in the queue of the node that it is for. From there it is lost, repeated or delayed
//! by its place; one that comes to the node is lost too. Nothing is in flight that wasn't sent.
#![tactic(auto)]

mod bytes;
mod direct;
mod laws;
mod queue;
mod rule;
mod rules;
mod sending;
mod staging;
mod wire;

pub use bytes::{Bytes, PacketBytes};
pub use laws::nothing_is_made_up;
pub use queue::{Flight, NODES};
pub use rule::{Change, Rule};
pub use sending::Sending;
pub use staging::Batch;
pub use wire::Wire;
