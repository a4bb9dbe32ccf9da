//! Networks of deterministic processes, by number, and what they mean.
//!
//! After Kahn, "The semantics of a simple language for parallel programming" (1974): a network means the histories of
//! its channels. `specs/` has the meaning and the rules of a valid network, `specs/Laws/` what follows from them.
#![tactic(auto)]

mod history;
mod limits;
mod program;
mod same;
mod state;

pub use history::History;
pub use limits::{
    MAX_CHANNELS, MAX_COUNT, MAX_HISTORY_ITEMS, MAX_NESTED_TIMES, MAX_NODES, MAX_PROCESSES,
    MAX_REPEATS, MAX_TIMES, MAX_UNITS, MAX_VARIABLES,
};
pub use program::{Channel, Expr, Link, Operator, Port, Process, Program, Statement};
pub use same::is_same_process;
pub use state::{Mode, Place, ProcState};
