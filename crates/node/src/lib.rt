//! A node: what it has, the store that keeps its record over a crash, and its events.
//!
//! A node that is down has no more than what its store's cell holds; recovered, it runs from its permanent image.
#![tactic(auto)]

mod checkpoint;
mod doubt;
mod hearing;
mod mode;
mod node;
mod opening;
mod plan;
mod preparing;
mod recover;
mod restart;
mod state;

pub use decide_core::may_decide;
pub use layout::{is_here, node_count};
pub use mode::Mode;
pub use node::Node;
pub use node_memory::{Running, share_law};
pub use opening::opening_record;
pub use plan::{Plan, Prospect, Said};
pub use protocol::{ArmedRestart, Delivery, MAX_JOB_ITEMS, Outcome, Refusal};
pub use restart::round_later;
pub use state::{NodeState, is_of_channel, next_after};
