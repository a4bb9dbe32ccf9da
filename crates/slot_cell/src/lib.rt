//! A small value that outlives a crash, and two slots for long bytes beside it.
//!
//! `SlotCell` is the model: a cell whose value is a small header with two slots beside it, which are filled without
//! touching the header. `SplitCell` meets it over any disk.
#![tactic(auto)]

mod header;
mod room;
mod slot_cell;
mod split;

pub use room::slot_room_of;
pub use slot_cell::SlotCell;
pub use split::SplitCell;

/// The sectors before the slots of a `SplitCell`: the gate, and the header's two areas of one sector each.
pub const HEADER_SECTORS: usize = 3;

/// The least room for the header of a cell with slots: that of an area of one sector.
pub const MIN_HEADER_BYTES: usize = 504;

/// The fewest sectors of a disk for a `SplitCell`. Each slot begins with a length, and so needs a sector.
pub const LEAST_SPLIT_SECTORS: usize = 5;
