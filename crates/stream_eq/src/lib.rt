//! Kahn's equations of a network, solved plainly: the approximations of its histories, and whether
//! histories are a solution.
#![tactic(auto)]

mod approximation;
mod evaluate;
mod fault;
mod freed;
mod histories;
mod laws;
mod process;
mod round;
mod solution;
mod unread;

pub use approximation::approx;
pub use evaluate::{is_zero, operate, set_variable, value};
pub use fault::Fault;
pub use freed::Freed;
pub use histories::{Histories, are_same, are_short};
pub use laws::{
    agreement_law, growth_law, least_solution_law, monotone_law, one_item_law, standing_law,
    well_founded_law,
};
pub use solution::is_solution;
pub use unread::{Unread, all_unread, take_item};
