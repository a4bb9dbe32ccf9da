//! The program behind `kahnrun`: its command line, the texts that it reads, and what it prints.
#![tactic(auto)]

mod approximating;
mod asked;
mod explaining;
mod failure;
mod keeper;
mod kept_files;
mod network_run;
mod on_host;
mod printing;
mod program;
mod progress;
mod reading;
mod reporting;
mod words;

pub use asked::{MAX_APPROXIMATION, MAX_ITEMS, MAX_ROUNDS, Options};
pub use cobaltmidge::{Accepted, DEFAULT_ROUNDS, NoWatch, RunWatch, TurnWatch};
pub use explaining::{ending, explanation};
pub use failure::{Failure, Source};
pub use kept_files::{FILE_FAILED, ITEM_DIFFERS, OTHER_STATE};
pub use on_host::run_on_host;
pub use printing::print_failure;
pub use program::main_of;
pub use reading::{read_inputs, read_net, read_script};
pub use reporting::{Stream, report};
pub use words::{not_text, options};
