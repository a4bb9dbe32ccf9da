//! The coordination of checkpoints between nodes, as an abstract machine of records, packets and
//! steps, and the laws of every run of it. The functions do nothing: that their contracts are
//! proved is what they are for.
//!
//! The idea, in which only those nodes take part in a checkpoint that have to, is that of Koo and
//! Toueg, "Checkpointing and rollback-recovery for distributed systems" (1987).
#![tactic(auto)]

mod one_node;
mod record_changes;
mod runs;
mod steps;

pub use one_node::{node_law, node_line_law, node_opening_law, node_packet_law, node_sound_law};
pub use record_changes::record_law;
pub use runs::{every_run_law, reachable_decision_law};
pub use steps::{consistency_law, move_law, packet_law};
