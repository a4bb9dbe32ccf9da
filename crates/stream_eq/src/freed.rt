//! How far an output has come.

ghost use Rattle.kahn_net.specs.Common.{network_of};
ghost use Rattle.stream_eq.specs.Reached.{HistoryReaches};

use arrived::Arrived;
use net_check::Net;
use std::snapshot::Snapshot;
use std::sync::Arc;

/// How far an output's items have left the system: so many of this channel, in a run of this network, of which it has a share, on
/// what had come of its inputs then, which is read in proofs alone. Its type keeps that the channel's history has so many items in
/// some approximation (Kahn 1974).
#[derive(Drop)]
pub struct Freed {
    pub net: Arc<Net>,
    pub came: Snapshot<Arrived>,
    pub output: u8,
    pub number: u64,
    pub ghost reached: { HistoryReaches (network_of net.value.program) came.value.came output number },
}
