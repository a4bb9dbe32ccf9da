//! Checked networks: a text's names resolved to numbers, validity kept in the types, and the items for their inputs.
#![tactic(auto)]

mod binding;
mod checks;
mod declared;
mod ends;
mod fault;
mod inputs;
mod join;
mod limits;
mod lookup;
mod names;
mod net;
mod resolve;

pub use binding::bind;
pub use checks::check;
pub use fault::NetFault;
pub use inputs::{Inputs, fits};
pub use net::Net;
