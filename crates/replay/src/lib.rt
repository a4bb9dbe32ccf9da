//! What a history of a run says: who made which event, what was answered, why now and then none was made, and to which world all
//! that leads from another. Here are the data that a history keeps and the definitions; who keeps one is another crate's business.
#![tactic(auto)]

mod kept;
mod laws;

pub use kept::{ArmedCrash, KeptReply, Maker, NextTurn, RunEvent, ScriptedEvent, Silence};
pub use laws::{ending_law, installs_law, replay_law, rest_law, silence_law};
