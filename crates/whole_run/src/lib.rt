//! A run of a network as one relation, and one law over it. There is no code: the function does nothing, and that its contract is
//! proved is what it is for.
#![tactic(auto)]

mod laws;
mod meeting;

pub use laws::{history_law, one_run_law, short_run_law, whole_run_law};
pub use meeting::{crash_law, event_law, new_law, resumed_law, stop_law};
