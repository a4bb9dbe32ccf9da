//! Whether more will come.

/// Whether more will come of a folder's outputs.
#[derive(Clone, Copy, Debug, PartialEq, Eq)]
pub enum Ending {
    /// Each file has its output's whole history: on these inputs nothing more will come.
    Complete,
    /// A file lacks items that a run puts there.
    Partial,
    /// No item was found that a file lacks, nor that there is none.
    Unsettled,
}
