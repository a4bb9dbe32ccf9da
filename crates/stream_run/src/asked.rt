//! Which inputs are read next.

/// Which inputs are read next.
#[derive(Clone, Copy, Debug, PartialEq, Eq)]
pub(crate) enum Asked {
    /// Those for which a process waits.
    Awaited,
    /// All of them.
    All,
}
