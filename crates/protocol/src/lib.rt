//! A node and a world as data, and what their events do: `specs/Node` and `specs/World`. `specs/Join` says how a world is a run of the
//! abstract machine of recovery lines. What follows from these definitions is the crate `protocol_laws`. The code is the few types that the
//! definitions cite.
#![tactic(auto)]

mod armed_restart;
mod delivery;
mod event;
mod limits;
mod links;
mod outcome;
mod reply;
mod rooms;
mod round_turns;
mod stance;

pub use armed_restart::ArmedRestart;
pub use delivery::Delivery;
pub use event::{Deed, NetworkAct, PlainEvent};
pub use limits::{DEFAULT_ROOM, MAX_GRANTS, MAX_INBOX_ITEMS, MAX_JOB_ITEMS, MIN_ROOM, WINDOW};
pub use links::{Inbox, Outbox};
pub use outcome::{Outcome, Refusal};
pub use reply::{Leaving, Reply};
pub use rooms::Rooms;
pub use round_turns::RoundTurns;
pub use stance::Stance;
