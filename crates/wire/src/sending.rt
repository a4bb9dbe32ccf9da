// A packet to be sent.
use crate::bytes::Bytes;

/// A packet to be sent from one node to another.
#[derive(Debug, Drop)]
pub struct Sending {
    /// The node that sends it.
    pub from: u8,
    /// The node that it is for.
    pub to: u8,
    /// Its bytes.
    pub packet: Bytes,
}
