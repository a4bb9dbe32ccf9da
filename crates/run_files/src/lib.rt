//! The files of a run: the texts that it reads, the folder in which what left outlasts it, and the file into which what happens is written.
//!
//! `rule` of `specs/Rules` says of each request what has to stand in the host's log before it. Every function here keeps these rules,
//! whatever the host answers (`GoesOn`): nothing is removed or renamed that this run didn't make, nothing is made, written or locked before
//! all texts are read and accepted and the names that are written are told apart, and a file of the folder is opened only under its lock, once
//! both texts of the folder were found to be the run's.
#![tactic(auto)]

mod asking;
mod fault;
mod folder;
mod happened;
mod held_file;
mod names;
mod places;
mod words;

pub use asking::{read, say, tell};
pub use fault::{FilesFault, Refused};
pub use folder::{FolderTexts, OpenFolder, give_back, let_go, open_folder};
pub use happened::{HistoryFile, drop_history, finish_history, open_history};
pub use held_file::{HeldFile, OpenedName};
pub use names::{Judge, Names};
pub use places::tell_apart;
