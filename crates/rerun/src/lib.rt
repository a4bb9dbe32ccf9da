//! Processes of a network that are run again, alone and without nodes. Each stage that they come to is one of the network, and a run of it
//! may begin there.
#![tactic(auto)]

mod handing;
mod laws;
mod reading;
mod rerun;
mod running;
mod stopped;
mod sweeping;
mod table;
mod taking;

pub use laws::{
    begin_law, count_law, image_law, line_law, move_law, place_law, record_law, rerun_law,
    rest_law, turn_law,
};
pub use rerun::Rerun;
pub use stopped::Stopped;
