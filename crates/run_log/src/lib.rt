//! A world with the log of all that was done to it, and of why at times nothing was.
//!
//! The log has a seat for each node, and one for whoever goes through the script. A call for a seat makes at most one event, and
//! keeps it with its answer; a call that makes none is counted. The world is always the one to which the log leads from the opening
//! world. There is no thread here: several may share a log under a lock.
#![tactic(auto)]

mod answer;
mod appending;
mod armed;
mod armed_crashes;
mod counting;
mod history;
mod keeping;
mod making;
mod resting;
mod run_log;
mod seat_count;
mod usual;

pub use answer::{FaultAnswer, HeldBack, HubFault, TurnAnswer};
pub use armed::{ArmedWorld, no_deliveries};
pub use history::{Entry, History, KeptEvent, Line, LongLine, USUALS, Usual, UsualEvent};
pub use keeping::{back_reply, keep_reply};
pub use run_log::{Moment, RunLog, is_complete, next_turn};
pub use seat_count::{
    Counted, Entries, NoMores, NotYets, Nothings, Run, RunCount, RunLedgers, SeatCount, Stops,
    UnusedLedgers,
};
