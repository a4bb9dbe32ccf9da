// What is seen of processes that are run again, and what is let go of.
ghost use Rattle.std.specs.Prelude.{◌≡◌, ◌≢◌, ◌<◌, ℕ, List, false, true, Some, length, map, option_copied, slice_get};
ghost use Rattle.kahn_net.specs.NextActs.{next_of};
ghost use Rattle.kahn_net.specs.States.{standing_of};
ghost use Rattle.kahn_net.specs.Syntax.{Code, network_of};
ghost use Rattle.proc_step.specs.NextView.{next_view};
ghost use Rattle.retained.specs.LogState.{IsInLog, trimmed};
ghost use Rattle.rerun.specs.Places.{AreMeant, IsPlace};
ghost use Rattle.rerun.specs.Rerunning.{Stage};
ghost use Rattle.rerun.specs.Resting.{IsAll, IsToPut, NoneIsToPut, is_put};
ghost use Rattle.rerun.specs.Tables.{IsAt, IsAtRest, is_output, log_on};
ghost use Rattle.rerun.specs.Whole.{inputs_in, net_in, table_in};

use crate::rerun::Rerun;
use kahn_net::{Channel, Port, ProcState};
use net_check::{Inputs, Net};
use proc_step::{NextAct, next_act};
use retained::Log;
use std::sync::Arc;

// Whether the channel of this number is an output.
fn is_output(channels: &[Channel], channel: usize) -> bool
    ensures { result ≡ is_output channels.now channel }
{
    match channels.get(channel) {
        Some(ends) => match ends.consumer {
            Port::Outside => true,
            Port::Process(_) => false,
        },
        None => false,
    }
}

// Whether what a process does next is a put.
fn is_put(act: NextAct) -> bool
    ensures { result ≡ is_put (next_view act) }
{
    match act {
        NextAct::Begin => false,
        NextAct::Get { .. } => false,
        NextAct::Put { .. } => true,
        NextAct::Nothing => false,
    }
}

// Whether the process of this number is about to put.
fn puts_next(net: &Net, process: usize, state: &ProcState) -> bool
    requires { process < length net.now.program.processes.items }
    ensures { (code : Code) → slice_get (network_of net.now.program).codes process ≡ Some code
        → result ≡ is_put (next_of code (standing_of state.now)) }
{
    is_put(next_act(net, process, state))
}

impl Rerun {
    /// The network.
    pub fn net(&self) -> &Arc<Net>
        ensures { network_of result.now.value.program ≡ net_in self.now }
    {
        &self.net
    }

    /// What comes from outside.
    pub fn inputs(&self) -> &Arc<Inputs>
        ensures { result.now.value ≡ inputs_in self.now }
    {
        &self.inputs
    }

    /// Where each process stands.
    pub fn states(&self) -> &[ProcState]
        ensures { map standing_of result.now ≡ (table_in self.now).standings }
    {
        self.table.states.as_slice()
    }

    /// How many items of each channel were got.
    pub fn got(&self) -> &[u64]
        ensures { result.now ≡ (table_in self.now).got }
    {
        self.table.got.as_slice()
    }

    /// The log of what was put on a channel; nothing is in that of an input.
    pub fn put_on(&self, channel: usize) -> Option<&Log>
        ensures log { option_copied result ≡ slice_get (table_in self.now).logs channel }
        // What was put on all channels by then begins their histories in one approximation.
        ensures meant { ∥ ((n : ℕ) × AreMeant (net_in self.now) (inputs_in self.now) (table_in self.now) n) ∥₁ }
    {
        self.table.logs.get(channel)
    }

    /// The processes are at a place of the network: what was put begins the histories of one approximation, on which all of them stand, and
    /// a run of the network may begin there.
    pub fn place_law(&self)
        ensures { ∥ IsPlace (net_in self.now) (inputs_in self.now) (table_in self.now) ∥₁ }
    {}

    /// Whether some process is about to put an item. Where none can move, that one waits for a place.
    pub fn is_to_put(&self) -> bool
        ensures some { result ≡ true → IsToPut (net_in self.now) (table_in self.now) }
        ensures none { result ≡ false → NoneIsToPut (net_in self.now) (table_in self.now) }
        // Where no process can move and none is about to put, all was put that the network means.
        ensures all { result ≡ false → (limits : List ℕ)
            → IsAtRest (net_in self.now) (inputs_in self.now) limits (table_in self.now)
            → IsAll (net_in self.now) (inputs_in self.now) (table_in self.now) }
    {
        for (process, state) in self.table.states.iter().enumerate() {
            if puts_next(&self.net, process, state) {
                return true;
            }
        }
        false
    }

    /// The log of an output lets go of the items before this position. Changes nothing where the channel is no output, or the position is
    /// none of its log.
    pub fn let_go(&mut self, channel: usize, position: u64)
        ensures let_go { is_output (net_in self.old).channels channel ≡ true
            → IsInLog (log_on (table_in self.old) channel) position
            → log_on (table_in self.new) channel ≡ trimmed (log_on (table_in self.old) channel) position }
        ensures outside { ¬ (IsInLog (log_on (table_in self.old) channel) position)
            → table_in self.new ≡ table_in self.old }
        // What is still to be got of a channel stays: only the log of an output lets go.
        ensures inner { is_output (net_in self.old).channels channel ≡ false
            → table_in self.new ≡ table_in self.old }
        // The processes are where they were.
        ensures stage { (s : Stage) → IsAt (net_in self.old) (inputs_in self.old) (table_in self.old) s
            → IsAt (net_in self.new) (inputs_in self.new) (table_in self.new) s }
        ensures others { (other : ℕ) → other ≢ channel
            → log_on (table_in self.new) other ≡ log_on (table_in self.old) other }
        ensures standings { (table_in self.new).standings ≡ (table_in self.old).standings }
        ensures got { (table_in self.new).got ≡ (table_in self.old).got }
        ensures net { net_in self.new ≡ net_in self.old }
        ensures inputs { inputs_in self.new ≡ inputs_in self.old }
    {
        if is_output(&self.net.program.channels, channel) {
            self.table.logs[channel].trim(position);
        }
    }
}
