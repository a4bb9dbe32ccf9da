//! Reading the items of a stream from bytes that come in pieces.
#![tactic(auto)]

mod fault;
mod laws;
mod reader;
mod token;

pub use fault::ItemFault;
pub use laws::reading_law;
pub use reader::ItemReader;
