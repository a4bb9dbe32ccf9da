//! The streams of a network on its host: items are read from files and pipes as they come, and each that leaves is printed.
#![tactic(auto)]

mod fault;
mod form;
mod port;
mod ports;
mod reader;
mod speaking;

pub use fault::{BadItem, PortFault};
pub use form::Form;
pub use port::Port;
pub use ports::{Fixed, Ports};
pub use reader::Reader;
