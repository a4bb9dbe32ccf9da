//! Marks of progress: for each output of a network a number that only rises.
//!
//! `Opened::new` makes the marks of a network at 0, and `Opened::named` hands out their seats: one for each node, which alone
//! raises the outputs of its node, and one for a driver, which raises none. `Marks::reader` gives further seats that raise none.
//! Each seat reads every mark. A raise and a read take no memory, refuse nothing and wait for nobody, so a thread tells the
//! others how far an output has come without holding any of them up.
#![tactic(auto)]

mod marks;
mod owners;
mod seat;
mod view;

pub use marks::{Marks, Opened};
pub use seat::{MarksName, Seat};
