//! A world that several threads share, with the log of all that they did.
//!
//! Each node has a seat at the hub, and so has the driver, who goes through the script. A seat's call makes at most one event,
//! under the hub's lock, and keeps it with its answer; a call that makes none is counted. Whenever the lock is free the world is
//! the one to which the history leads from the opening world.
#![tactic(auto)]

mod bounds;
mod cause;
mod desks;
mod driving;
mod ending;
mod entered;
mod hub;
mod hub_run;
mod job_watch;
mod locked;
mod over;
mod playing;
mod quiet;
mod refusal;
mod run_handle;
mod run_watch;
mod seat;
mod seen;
mod sleepers;
mod status;
mod task;
mod threads;
mod turn_watch;
mod turned;
mod turning;
mod until;
mod watching;
mod workers;
mod working;

pub use bounds::{Bounds, RunBounds};
pub use desks::Desks;
pub use driving::{Driven, drive};
pub use ending::{Ended, RunEnd, end_of, have_left};
pub use entered::Entered;
pub use hub::Hub;
pub use hub_run::HubRun;
pub use job_watch::{JobWatch, NoWatch};
pub use journal::Journal;
pub use over::Over;
pub use playing::run_world;
pub use run_handle::RunHandle;
pub use run_log::{
    ArmedWorld, Entry, FaultAnswer, HeldBack, History, HubFault, KeptEvent, Line, Moment, Run,
    RunLedgers, TurnAnswer, UnusedLedgers,
};
pub use run_watch::RunWatch;
pub use seat::{DriverSeat, NodeSeat};
pub use seen::Seen;
pub use status::Status;
pub use threads::{DriverSeats, Joined, NodeSeats, SharedRun, run_threads};
pub use turn_watch::TurnWatch;
pub use turning::run_world_by_turns;
pub use until::Until;
pub use working::work;
