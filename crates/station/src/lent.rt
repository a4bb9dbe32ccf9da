//! What an event is lent.

use arrived::Arrived;
use net_check::Net;
use protocol::Rooms;
use std::alloc::Global;
use std::sync::Arc;

/// What the stations of a world have in common, and each event is lent; what is in flight is lent beside it.
#[derive(Clone, Copy)]
pub struct Lent<'a> {
    pub alloc: Global,
    pub net: &'a Arc<Net>,
    pub inputs: &'a Arrived,
    pub round: u64,
    /// How many items each channel retains at most, where its share of a record isn't less.
    pub rooms: &'a Rooms,
}
