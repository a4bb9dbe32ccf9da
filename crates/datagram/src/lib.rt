//! Packets between nodes: what one may say, and the one spelling of each as bytes.
//!
//! `write_packet` gives a packet's spelling, and `read_packet` the packet of a spelling; any other bytes it refuses.
#![tactic(auto)]

mod checking;
mod fault;
mod fields;
mod laws;
mod needs;
mod packet;
mod reading;
mod writing;

pub use checking::is_packet;
pub use fault::PacketFault;
pub use laws::no_spelling_begins_another;
pub use needs::Needs;
pub use packet::{Body, LAST_CHANNEL, LAST_NODE, MOST_NEEDS, Need, Packet, Reason};
pub use reading::read_packet;
pub use writing::{PacketBytes, write_packet};
