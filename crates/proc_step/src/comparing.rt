//! Whether two jobs are the same.

ghost use Rattle.std.specs.Prelude.{◌≡◌, ◌↔◌, IsTrue, Some, slice_get};
ghost use Rattle.kahn_net.specs.Common.{code_of, network_of};
ghost use Rattle.proc_step.specs.Jobs.{IsSameJob};

use crate::job::Job;
use kahn_net::{Process, is_same_process};
use stream_eq::are_same;

/// Whether the places of room are the same.
fn is_same_room(room: &[usize], other: &[usize]) -> bool
    ensures { IsTrue result ↔ (room.now ≡ other.now) }
{
    room == other
}

impl Job {
    /// Whether two jobs are the same: the number and the code of the process, compared whole, the
    /// version, the state, the items and the room.
    pub fn is_same(&self, other: &Job) -> bool
        ensures { IsTrue result ↔ IsSameJob self.now other.now }
    {
        if self.process != other.process {
            return false;
        }
        if self.version != other.version {
            return false;
        }
        if !self.state.is_same(&other.state) {
            return false;
        }
        if !is_same_room(&self.room, &other.room) {
            return false;
        }
        if !are_same(&self.items, &other.items) {
            return false;
        }
        is_same_process(self.code(), other.code())
    }

    /// The process.
    fn code(&self) -> &Process
        ensures { slice_get (network_of self.now.net.value.program).codes self.now.process
            ≡ Some (code_of result.now) }
    {
        &self.net.program.processes[self.process]
    }
}
