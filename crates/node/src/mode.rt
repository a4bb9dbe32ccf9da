//! In what mode a node is.

use node_memory::Running;

/// A node is down, in doubt, or runs.
#[derive(Drop)]
pub enum Mode {
    /// It crashed, or its device failed, and it wasn't recovered since. It has no more than what its cell holds.
    Down,
    /// It came back with another's tentative image, and waits to hear whether that became permanent.
    InDoubt,
    /// It runs.
    Running(Running),
}
