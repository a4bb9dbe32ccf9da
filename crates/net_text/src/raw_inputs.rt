//! The lines of an inputs text.

use crate::name::Name;

/// A line of an inputs text: an input's name, and its items in order.
#[derive(Debug, Drop)]
pub struct InputLine {
    pub name: Name,
    pub items: Vec<i64>,
}

/// The lines of an inputs text that name an input, in order.
#[derive(Debug, Drop)]
pub struct RawInputs {
    pub lines: Vec<InputLine>,
}
