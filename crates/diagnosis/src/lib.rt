//! Where and why a text is refused, for who wrote it: the words behind a refusal's line, the line of the text and a mark under the column.
//!
//! It is for humans: no clause says what the words are. What refuses a text is `net_text`, `net_check` and `fail_script`; this goes through
//! the text once more, finds the place, and tells what stands there and what was expected.
#![tactic(auto)]

mod declared;
mod explanation;
mod grammar;
mod items;
mod limits;
mod net;
mod pieces;
mod places;
mod scanner;
mod script;
mod shown;
mod undue;
mod uses;
mod words;

pub use explanation::{Explanation, explain_bytes};
pub use items::{explain_inputs, explain_inputs_text};
pub use net::{explain_net, explain_net_text};
pub use script::explain_script;
pub use undue::{NeverDue, never_due};
pub use words::Grouped;
