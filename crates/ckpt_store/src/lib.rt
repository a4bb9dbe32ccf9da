//! One record in one cell with slots, changed whole or not at all, by at most one put a call.
#![tactic(auto)]

mod changing;
mod deciding;
mod fault;
mod known;
mod loading;
mod moving;
mod putting;
mod refusing;
mod store;
mod testing;
mod undo;

pub use fault::StoreFault;
pub use store::{Refused, Store};
pub use testing::is_like;
