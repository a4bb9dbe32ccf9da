//! A node with its outlets, and each event at it: what it does, which is next, and whether anything is left to do.
//!
//! `Station::act` is one event of the station's node, `Station::pick` the one that is next. A station is lent what all nodes
//! of its world have in common: the network and its inputs, what is in flight between them, the round, and the room of each
//! channel.
#![tactic(auto)]

mod acting;
mod checkpoints;
mod delivering;
mod event;
mod lent;
mod network;
mod output;
mod picking;
mod quiet;
mod recovering;
mod releasing;
mod stance;
mod station;
mod still;
mod turning;

pub use event::{Event, Refused, Reply};
pub use lent::Lent;
pub use node::{Mode, Node, NodeState, is_here, next_after, node_count, opening_record};
pub use output::Output;
pub use station::Station;
pub use still::kept_for_good;
