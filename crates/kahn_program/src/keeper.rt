//! Where the items of a run's outputs go, beside its report.

ghost use Rattle.std.specs.Prelude.{◌≡◌, Bool, List, None, Option, ℕ, ℤ, false, IfErr, IfOk, OnOk};
ghost use Rattle.std.specs.List.{AllByRecursion};
ghost use Rattle.protocol.specs.Node.Common.{Fits, network_of};
ghost use Rattle.cobaltmidge.specs.Beginning.{IsBeginning};
ghost use Rattle.cobaltmidge.specs.Common.{capacities_in, world_of};
ghost use Rattle.cobaltmidge.specs.FirstWorld.{IsRunRoom, first_world};
ghost use Rattle.kahn_program.specs.Keeping.{IsKeeperFailure, IsKeptFailure, taken_streams};
ghost use Rattle.kahn_program.specs.Runnable.{IsReportless};

use crate::failure::{Failure, run_failure};
use cobaltmidge::{Output, RunWorld, list_outputs, node_count, open_world};
use net_check::{Inputs, Net};
use outlet::{ListOutlet, Outlet};
use std::alloc::Global;
use std::sync::Arc;

/// What gives a run its outlets, and takes them back at its end.
pub trait Keeper<O: Outlet> {
    /// Whether what the outlets take outlasts the run. Then they can fail.
    ghost keeps: { Bool };

    /// Where what the outlets take outlasts the run: how many items each output held before the run began.
    ghost held: { Self → Option (List ℕ) };

    /// What it has of streams, one for each output, that its outlets took.
    ghost has_kept: { Self → List (List ℤ) → Type 0 };

    /// Why it refused or failed, by the number of the refusal.
    ghost has_failed: { Self → ℕ → Type 0 };

    /// The world with which a run of the network begins, by outlets that it has. Where what they take outlasts the run, it goes on where they
    /// stopped.
    fn begin(
        &mut self,
        alloc: Global,
        net: &Arc<Net>,
        inputs: Inputs,
        room: u64,
    ) -> Result<RunWorld<O>, Failure>
        requires fitting { Fits (network_of net.now.value.program) inputs }
        ensures begins { IfOk result
            (λ world. IsBeginning (held self.old) (network_of net.now.value.program) inputs room (world_of world)) }
        ensures room { IfOk result (λ world. AllByRecursion IsRunRoom (capacities_in world)) }
        ensures err { IfErr result (IsReportless keeps) }
        ensures cause { IfErr result (IsKeptFailure (has_failed self.new)) };

    /// The run is over, and the outlets took what they took.
    fn close(&mut self, alloc: Global, outputs: Vec<Output<O>>) -> Result<(), Failure>
        ensures kept { OnOk result (has_kept self.new (taken_streams O.taken outputs.items)) }
        ensures err { IfErr result (IsKeeperFailure keeps) }
        ensures cause { IfErr result (IsKeptFailure (has_failed self.new)) };

    /// What there is to say of why `close` failed: the file, and why, in a line with its line feed. None where there is nothing to say, or no
    /// memory for it.
    fn take_words(&mut self) -> Option<String>
        ensures same { (number : ℕ) → has_failed self.old number → has_failed self.new number };
}

/// The outlets are lists in memory, and nothing outlasts the run.
#[derive(Drop)]
pub struct InMemory;

impl Keeper<ListOutlet> for InMemory {
    ghost keeps = { false };

    ghost held = { λ keeper. None };

    ghost has_kept = { λ keeper streams. Unit {0} };

    ghost has_failed = { λ keeper number. ⊥ };

    fn begin(
        &mut self,
        alloc: Global,
        net: &Arc<Net>,
        inputs: Inputs,
        room: u64,
    ) -> Result<RunWorld<ListOutlet>, Failure>
        requires fitting { Fits (network_of net.now.value.program) inputs }
        ensures begins { IfOk result
            (λ world. world_of world ≡ first_world (network_of net.now.value.program) inputs room) }
        ensures room { IfOk result (λ world. AllByRecursion IsRunRoom (capacities_in world)) }
        ensures err { IfErr result (IsReportless false) }
        ensures cause { IfErr result (IsKeptFailure (λ number. ⊥)) }
    {
        let Ok(outputs) = list_outputs(alloc, net) else {
            return Err(Failure::NoMemory);
        };
        match open_world(alloc, net, inputs, outputs, node_count(net), room) {
            Ok(world) => Ok(world),
            Err(unfinished) => Err(run_failure(unfinished.fault)),
        }
    }

    fn close(&mut self, _alloc: Global, _outputs: Vec<Output<ListOutlet>>) -> Result<(), Failure>
        ensures kept { OnOk result (Unit {0}) }
        ensures err { IfErr result (IsKeeperFailure false) }
        ensures cause { IfErr result (IsKeptFailure (λ number. ⊥)) }
    {
        Ok(())
    }

    fn take_words(&mut self) -> Option<String> {
        None
    }
}
