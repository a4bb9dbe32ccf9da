//! One value that outlives a crash at any moment.
//!
//! `StableCell` is the model: a cell holds one value, and a crash at any moment of a `put` leaves the old value or the
//! new one. `GateCell` meets it over any disk. The calls by which a value lies under a gate in the first sectors of a
//! disk are public too, for a cell that has something behind them.
#![tactic(auto)]

mod access;
mod cell;
mod fault;
mod formatting;
mod frame;
mod gate;
mod gated;

pub use access::{look, write_sectors, write_through};
pub use cell::StableCell;
pub use fault::CellFault;
pub use formatting::lay_out;
pub use frame::{
    LENGTH_BYTES, area_of, begin_frame, end_frame, frame_len, framed, length_of, room_of, unframed,
};
pub use gate::GateCell;
pub use gated::{Found, find_in, put_value};

/// The most bytes of a value, on any disk.
pub const MAX_VALUE_BYTES: usize = 1 << 20;

/// The sectors of a disk on which every value fits: the fewest on which one of `MAX_VALUE_BYTES` does.
pub const SECTORS: usize = 4_101;
