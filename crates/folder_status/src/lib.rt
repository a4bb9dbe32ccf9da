//! What a folder holds in which a run keeps what leaves: told to who looks at it, also while a run is at work there.
//!
//! `status_of` reads the folder's files and asks nothing else of the host. It runs the processes of the folder's network again, alone, as
//! far as the files go and a little further. So it says whether anything is missing, and whether a file holds what the network doesn't put.
#![tactic(auto)]

mod again;
mod comparing;
mod ending;
mod fault;
mod kept;
mod limits;
mod reading;
mod status;
mod text;
mod texts;
mod verdict;

pub use ending::Ending;
pub use fault::{StatusFault, StatusRefused};
pub use kept::KeptOutput;
pub use reading::{FolderRead, read_folder};
pub use status::{FolderStatus, status_of};
pub use text::status_text;
