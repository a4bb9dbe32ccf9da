//! What a store has in memory.

use record::Record;

/// A record, and the slot in which its permanent image stands.
#[derive(Drop)]
pub struct Known {
    pub kept: Record,
    pub slot: u8,
}
