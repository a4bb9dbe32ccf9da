//! Where a network's processes are: which channels have an end on a node, and which names in a packet are right.
#![tactic(auto)]

mod addresses;
mod ends;
mod nodes;

pub use addresses::names_right;
pub use ends::{consumer_node, producer_node};
pub use nodes::{is_here, is_incoming, is_outgoing, node_count};
