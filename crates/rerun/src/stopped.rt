//! Why a run stops.

/// Why a run stopped.
#[derive(Clone, Copy, Debug, PartialEq, Eq)]
pub enum Stopped {
    /// On each output as many items were put as its limit says.
    Reached,
    /// No process can move, with these limits.
    Rests,
    /// All processes went on as often as they were to.
    Sweeps,
}
