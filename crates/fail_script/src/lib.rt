//! Failure scripts: which packets are lost, repeated or late, which nodes crash, and which device calls fail.
#![tactic(auto)]

mod act;
mod fault;
mod limits;
mod numbers;
mod reading;
mod script;
mod words;

pub use act::{Act, Script, ScriptLine};
pub use fault::ScriptFault;
pub use limits::{MAX_COUNT, MAX_FILL, MAX_ROUND, MAX_ROUNDS, MAX_SCRIPT_BYTES};
pub use script::parse_script;
