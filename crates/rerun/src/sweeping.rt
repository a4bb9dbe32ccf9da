// Processes go on in turn.
ghost use Rattle.std.specs.Prelude.{◌≡◌, ◌↔◌, false, IfOk, IsTrue, OnOk, length};
ghost use Rattle.rerun.specs.Stops.{StopsSo};
ghost use Rattle.rerun.specs.Tables.{GoOn, HaveReached, IsAtRest, KeepsLimits};
ghost use Rattle.rerun.specs.Whole.{inputs_in, net_in, table_in};

use crate::handing::have_reached;
use crate::rerun::Rerun;
use crate::stopped::Stopped;
use std::alloc::{AllocError, Global};

impl Rerun {
    // Whether on each output as many items were put as its limit says.
    fn has_reached(&self, limits: &[u64]) -> bool
        ensures { IsTrue result ↔ HaveReached (net_in self.now).channels limits.now (table_in self.now) }
    {
        have_reached(&self.net.program.channels, limits, &self.table)
    }

    // All processes go on, one after the other. Answers whether one of them moved.
    fn sweep(&mut self, alloc: Global, limits: &[u64]) -> Result<bool, AllocError>
        ensures swept { OnOk result (GoOn (net_in self.old) (inputs_in self.old) limits.now
            (length (net_in self.old).codes) (table_in self.old) (table_in self.new)) }
        ensures rests { IfOk result (λ moved. moved ≡ false
            → IsAtRest (net_in self.old) (inputs_in self.old) limits.now (table_in self.new)) }
        ensures within { KeepsLimits (net_in self.old) limits.now (table_in self.old) (table_in self.new) }
        ensures net { net_in self.new ≡ net_in self.old }
        ensures inputs { inputs_in self.new ≡ inputs_in self.old }
    {
        let mut any = false;
        let processes = self.net.program.processes.len();
        for process in 0..processes {
            match self.go_on(alloc, process, limits) {
                Ok(moved) => any = any || moved,
                Err(_) => return Err(AllocError),
            }
        }
        Ok(any)
    }

    /// All processes go on in turn, again and again: until each output has what its limit says, or none can move, or they did so as often
    /// as is asked for. The limits are those of `go_on`. A process that puts on an output whose log is full waits until `let_go` makes room.
    pub fn run(&mut self, alloc: Global, limits: &[u64], most: u64) -> Result<Stopped, AllocError>
        // It stops for that reason alone which it answers.
        ensures stopped { IfOk result (λ stopped. StopsSo (net_in self.old) (inputs_in self.old) limits.now most
            (table_in self.old) (table_in self.new) stopped) }
        // No output gets items beyond its limit, where memory is refused too.
        ensures within { KeepsLimits (net_in self.old) limits.now (table_in self.old) (table_in self.new) }
        ensures net { net_in self.new ≡ net_in self.old }
        ensures inputs { inputs_in self.new ≡ inputs_in self.old }
    {
        for round in 0..most {
            if self.has_reached(limits) {
                return Ok(Stopped::Reached);
            }
            match self.sweep(alloc, limits) {
                Ok(true) => {}
                Ok(false) => return Ok(Stopped::Rests),
                Err(_) => return Err(AllocError),
            }
        }
        if !self.has_reached(limits) {
            return Ok(Stopped::Sweeps);
        }
        Ok(Stopped::Reached)
    }
}
