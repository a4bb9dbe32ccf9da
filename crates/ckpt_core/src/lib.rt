//! What a node does and says that takes part in another's checkpoint.
#![tactic(auto)]

mod asking;
mod saying;

pub use asking::{AskAnswer, Question, answer_to_ask, holds};
pub use saying::{needs_of, query, refusal, say_answer, settled};
