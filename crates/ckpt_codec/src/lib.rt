//! Records as bytes: the one spelling of each, and the record of a spelling.
//!
//! `write_record` gives a record's spelling, and `read_record` the record of a spelling; any other bytes it refuses by the
//! first offence from the left.
//!
//! A record may also stand apart, as a header (`write_header`, `read_header`) and an image or two in slots of their own
//! (`write_image` or `add_image`, `read_image`).
#![tactic(auto)]

mod allowed;
mod apart;
mod ends;
mod fault;
mod fields;
mod header;
mod images;
mod laws;
mod lengths;
mod numbers;
mod processes;
mod putting;
mod reading;
mod version;
mod writing;

pub use allowed::is_image;
pub use apart::{add_image, read_header, read_image, write_header, write_header_in, write_image};
pub use fault::CodecFault;
pub use header::{Header, Instance};
pub use laws::{
    bounded_records_fit, headers_are_spelled, images_are_spelled, moves_keep_bounds,
    moves_make_no_longer, no_spelling_begins_another, records_stand_apart,
};
pub use lengths::{
    MAX_HEADER_BYTES, MAX_RECORD_BYTES, MAX_RETAINED_ITEMS, spelled_image_length, spelled_length,
    spelled_length_once_permanent, spelled_length_with,
};
pub use reading::read_record;
pub use version::{FIRST_VERSION, VERSION};
pub use writing::write_record;
