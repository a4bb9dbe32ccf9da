//! The world of a run before its first event.

ghost use Rattle.std.specs.Prelude.{◌≡◌, Bool, map, IfErr, IfOk};
ghost use Rattle.std.specs.List.{AllByRecursion};
ghost use Rattle.protocol.specs.Node.Common.{Fits, node_count, network_of};
ghost use Rattle.protocol.specs.World.Common.{output_channels};
ghost use Rattle.world.specs.WholeView.{capacities_in, closed_in, world_of};
ghost use Rattle.world.specs.Feeding.{none_closed};
ghost use Rattle.world.specs.OpeningWorld.{IsUnused};
ghost use Rattle.cobaltmidge.specs.Failing.{IsRunFault};
ghost use Rattle.cobaltmidge.specs.Remaining.{HasOutputs};
ghost use Rattle.cobaltmidge.specs.declared.unfinished.Left.TheVariants as left;
ghost use Rattle.cobaltmidge.specs.FirstWorld.{HasNoFailures, IsRunRoom, first_world, nearest_room};

use crate::disks::empty_disks;
use crate::ending::RunWorld;
use crate::fault::{RunFault, store_fault};
use crate::unfinished::{Left, Unfinished};
use ckpt_codec::MAX_RETAINED_ITEMS;
use net_check::{Inputs, Net};
use outlet::Outlet;
use std::alloc::Global;
use std::sync::Arc;
use world::{MIN_ROOM, OpeningRefused, Output, World};

/// The room of a channel that is nearest to the one asked for.
pub(crate) fn nearest_room(asked: u64) -> usize
    ensures { result ≡ nearest_room asked }
{
    asked.max(MIN_ROOM as u64).min(MAX_RETAINED_ITEMS as u64) as usize
}

/// The outlets of a run that didn't begin.
fn unbegun<O: Outlet>(outputs: Vec<Output<O>>, fault: RunFault) -> Unfinished<O>
    ensures { (result.fault ≡ fault) × (result.left ≡ left.Outputs outputs) }
{
    Unfinished {
        fault,
        left: Left::Outputs(outputs),
    }
}

/// The world of a run before its first event, with the room that is asked for on its channels. A refusal hands back the outlets.
pub fn open_world<O: Outlet>(
    alloc: Global,
    net: &Arc<Net>,
    inputs: Inputs,
    outputs: Vec<Output<O>>,
    nodes: usize,
    room: u64,
) -> Result<RunWorld<O>, Unfinished<O>>
    requires fitting { Fits (network_of net.now.value.program) inputs }
    requires nodes { nodes ≡ node_count (network_of net.now.value.program) }
    requires listed { map (λ output. output.channel) outputs.items
        ≡ output_channels 0 (network_of net.now.value.program).channels }
    requires unused { AllByRecursion (IsUnused O.taken) outputs.items }
    requires unfailed { AllByRecursion (HasNoFailures O.failures) outputs.items }
    ensures first { IfOk result (λ world. world_of world
        ≡ first_world (network_of net.now.value.program) inputs room) }
    ensures room { IfOk result
        (λ world. AllByRecursion IsRunRoom (capacities_in world)) }
    // No input is closed.
    ensures unclosed { IfOk result (λ world. closed_in world ≡ none_closed) }
    // A device failed (20), or memory is missing (1).
    ensures err { (threads : Bool) → IfErr result (λ unfinished. IsRunFault threads unfinished.fault) }
    ensures handed_back { IfErr result (λ unfinished. HasOutputs outputs.items unfinished.left) }
{
    let Ok(share) = Arc::try_clone(net) else {
        return Err(unbegun(outputs, RunFault::NoMemory));
    };
    let Ok(disks) = empty_disks(alloc, nodes) else {
        return Err(unbegun(outputs, RunFault::NoMemory));
    };
    let mut world = match World::new(alloc, share, inputs, disks, outputs) {
        Ok(world) => world,
        Err(refused) => {
            let OpeningRefused { outputs, fault, .. } = refused;
            return Err(unbegun(outputs, store_fault(fault)));
        }
    };
    match world.set_room(nearest_room(room)) {
        Ok(()) => Ok(world),
        // The room is within its bounds.
        Err(_) => unreachable!(),
    }
}
