//! A disk and outlets of one's own, as an outsider would write them over the one crate `cobaltmidge`, and a world over them. What is shown here
//! is that such a disk is a `Disk`, that such an outlet is an `Outlet`, and that the calls of a world may be made over them. The program
//! `embedded_cases` runs it.
#![tactic(auto)]

mod counting;
mod ledger;
mod own;

pub use counting::CountingDisk;
pub use ledger::{Ledger, Weakness};
pub use own::{LastingWorld, OwnDisk, OwnWorld, SECTORS, open};
