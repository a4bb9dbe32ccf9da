//! Items as bytes: eight bytes each, in two's complement, the least significant byte first.
#![tactic(auto)]

mod laws;
mod reader;
mod writing;

pub use laws::item_bytes_law;
pub use reader::ByteReader;
pub use writing::write_item;
