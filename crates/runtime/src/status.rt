// How a run stands.

/// How a run stands.
#[derive(Clone, Copy, Debug, PartialEq, Eq)]
pub struct Status {
    pub round: u64,
    /// Nothing is left to do, and what has left is all that ever will.
    pub complete: bool,
    pub stopped: bool,
}
