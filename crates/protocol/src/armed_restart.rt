//! How long a failing device keeps its node down.

/// For how many rounds a fault that is armed at a device call keeps the node down.
#[derive(Clone, Copy, Debug, PartialEq, Eq)]
pub struct ArmedRestart {
    /// The call, as the count of device calls since the last recount, from 1.
    pub call: u64,
    /// So many rounds after the failure the node may be recovered: 1 for a mere failure.
    pub rounds: u64,
}
