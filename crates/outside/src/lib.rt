//! What lies outside of a network that works on streams: from where its items come, and to where those go that leave it.
#![tactic(auto)]

mod departure;
mod outside;

pub use departure::Departure;
pub use outside::Outside;
