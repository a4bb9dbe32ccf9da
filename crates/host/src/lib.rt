//! What a program asks of its host, behind a trait with a log: files, folders, locks, and what is printed.
//!
//! No contract can say what a file holds. So a `Host` has a log of what it was asked, each request with its answer, and a contract
//! speaks of that log: what was asked, in which order, and what was never asked. `StdHost` is the host that a program runs on. That
//! each of its calls makes the call of the system that it notes is read, and not proved.
#![tactic(auto)]

mod asked;
mod fault;
mod host;
mod host_lines;
mod line_file;
mod pieces;
mod raw_file;
mod std_file;
mod std_host;

pub use asked::{Asked, Noted};
pub use fault::HostFault;
pub use host::{Host, MAX_PIECE_BYTES, Standing};
pub use host_lines::HostLines;
pub use line_file::{LineFile, LinesAsked};
pub use pieces::take_piece;
pub use raw_file::{RawFile, put_all};
pub use std_file::StdFile;
pub use std_host::{HeldLock, MadeFile, StdHost, StdSource};
