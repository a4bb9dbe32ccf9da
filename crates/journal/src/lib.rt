//! What those who take part in a run have seen of its history.
//!
//! A history lies under a lock, and grows. Whoever is answered by a call under this lock keeps a `Reader`, and the call shows it the history
//! (`Journal::show`). So a reader has seen a beginning of the history of this very run, and what it saw stays one: `Journal::recall` says so
//! at the end. Both exist for proofs: a reader has no bytes, and a journal has one word.
#![tactic(auto)]

mod journal;
mod view;

pub use journal::{Journal, Reader};
