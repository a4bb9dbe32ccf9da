//! An output's items as lines of text in a file, which a later run goes on with.
//!
//! A run starts at the beginning each time. What leaves of it is compared with the items that the output's file holds
//! from earlier runs, and only what the file lacks is appended. `read_items` reads what such a file holds, also one that
//! was cut off in the middle of a line. `ResumedOutlet` is the outlet over it.
#![tactic(auto)]

mod fault;
mod laws;
mod line_block;
mod reading;
mod resumed;

pub use fault::LinesFault;
pub use host::{HostLines, LineFile, LinesAsked};
pub use laws::{beginning_law, kill_law, reading_law};
pub use reading::{HeldItems, read_items};
pub use resumed::ResumedOutlet;

/// So many bytes of lines are kept in memory at most, before they are put to the file.
pub const BLOCK_BYTES: usize = 8192;
