// What is done with processes that are run again.
ghost use Rattle.std.specs.Prelude.{◌≡◌, true, IfOk, OnErr, OnOk};
ghost use Rattle.kahn_net.specs.Fits.{Fits};
ghost use Rattle.kahn_net.specs.Syntax.{network_of};
ghost use Rattle.rerun.specs.Moving.{Moved};
ghost use Rattle.rerun.specs.Rerunning.{Stage, first_stage};
ghost use Rattle.rerun.specs.Steps.{StepsTo};
ghost use Rattle.rerun.specs.Tables.{GoesOn, IsAt, KeepsLimits, can_move, first_table};
ghost use Rattle.rerun.specs.Whole.{inputs_in, net_in, table_in};

use crate::handing::can_move;
use crate::rerun::Rerun;
use crate::table::Table;
use net_check::{Inputs, Net};
use std::alloc::{AllocError, Global};
use std::sync::Arc;

impl Rerun {
    /// Processes none of which has begun, on inputs that fit.
    pub fn new(alloc: Global, net: Arc<Net>, inputs: Arc<Inputs>) -> Result<Rerun, AllocError>
        requires { Fits (network_of net.value.program) inputs.value }
        ensures net { IfOk result (λ rerun. net_in rerun ≡ network_of net.value.program) }
        ensures inputs { IfOk result (λ rerun. inputs_in rerun ≡ inputs.value) }
        ensures table { IfOk result (λ rerun. table_in rerun ≡ first_table (network_of net.value.program)) }
        // They are where no process has begun.
        ensures stage { IfOk result (λ rerun. IsAt (net_in rerun) (inputs_in rerun) (table_in rerun)
            (first_stage (net_in rerun) (inputs_in rerun))) }
    {
        let table = Table::new(alloc, &net.program)?;
        Ok(Rerun { net, inputs, table })
    }

    /// One process makes its turn where it can move: on the items that come next of what was put by then, and as far as the limits let it.
    /// Answers whether it moved.
    ///
    /// `limits` has a number for each channel: on an output so many items may be put in all, and on a channel between two processes so
    /// many may lie that weren't got. Where it has none for a channel that is 0.
    pub fn go_on(
        &mut self,
        alloc: Global,
        process: usize,
        limits: &[u64],
    ) -> Result<bool, AllocError>
        // It moves exactly where its next act can be made.
        ensures moved { IfOk result (λ moved. moved
            ≡ can_move (net_in self.old) (inputs_in self.old) limits.now (table_in self.old) process) }
        // Where it can, it makes its turn, and where it can't nothing is changed.
        ensures turn { OnOk result (GoesOn (net_in self.old) (inputs_in self.old) limits.now process
            (table_in self.old) (table_in self.new)) }
        // Where it moved, it began, took an item or put one.
        ensures moves { IfOk result (λ moved. moved ≡ true → ∥ Moved (net_in self.old) (inputs_in self.old) limits.now process
            (table_in self.old) (table_in self.new) ∥₁) }
        // So from each stage at which it may have been the process makes just one turn, on items that were put by then.
        ensures goes { IfOk result (λ moved. moved ≡ true → ∥ ((s : Stage)
            → IsAt (net_in self.old) (inputs_in self.old) (table_in self.old) s
            → StepsTo (net_in self.old) (inputs_in self.old) limits.now process (table_in self.old) (table_in self.new) s) ∥₁) }
        // No output gets items beyond its limit.
        ensures within { KeepsLimits (net_in self.old) limits.now (table_in self.old) (table_in self.new) }
        ensures net { net_in self.new ≡ net_in self.old }
        ensures inputs { inputs_in self.new ≡ inputs_in self.old }
        // Where memory is refused it is as it was.
        ensures unchanged { OnErr result (table_in self.new ≡ table_in self.old) }
    {
        if process >= self.net.program.processes.len() {
            return Ok(false);
        }
        if !can_move(
            &self.net,
            self.inputs.as_slice(),
            limits,
            &self.table,
            process,
        ) {
            return Ok(false);
        }
        match self
            .table
            .take_turn(alloc, &self.net, self.inputs.as_slice(), limits, process)
        {
            Ok(()) => Ok(true),
            Err(_) => Err(AllocError),
        }
    }
}
