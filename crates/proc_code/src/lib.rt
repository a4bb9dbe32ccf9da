//! A process as code: instructions one after another, with jumps by index, so that a turn costs what its acts cost.
#![tactic(auto)]

mod code;
mod compiling;
mod emitting;
mod fault;
mod instruction;
mod laws;

pub use code::Code;
pub use compiling::{compile, compile_all};
pub use fault::Fault;
pub use instruction::{Destination, Instruction, Operand, Site, SiteAct};
pub use laws::code_law;
