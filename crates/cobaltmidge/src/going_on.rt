//! The world of a run that goes on where its outputs stopped.

ghost use Rattle.std.specs.Prelude.{◌≡◌, ◌≢◌, Some, map, IfErr, IfOk};
ghost use Rattle.std.specs.List.{AllByRecursion};
ghost use Rattle.protocol.specs.Node.Common.{Fits, node_count, network_of};
ghost use Rattle.protocol.specs.World.Common.{output_channels};
ghost use Rattle.resuming.specs.CatchingUp.{HaveGoneOn, failures_by};
ghost use Rattle.station.specs.OutputView.{outputs_view};
ghost use Rattle.world.specs.Feeding.{none_closed};
ghost use Rattle.world.specs.OpeningWorld.{IsUnused};
ghost use Rattle.world.specs.WholeView.{capacities_in, closed_in, world_of};
ghost use Rattle.cobaltmidge.specs.Beginning.{IsBeginning, IsBeginStop, held_behind, held_nothing, inner_limit, limit_of, limits_of, outlet_fault};
ghost use Rattle.cobaltmidge.specs.FirstWorld.{HasNoFailures, IsRunRoom, first_world};
ghost use Rattle.cobaltmidge.specs.declared.going_on.BeginFault.TheVariants.{Outlet};

use crate::disks::empty_disks;
use crate::ending::RunWorld;
use crate::fault::RunFault;
use crate::opening::{nearest_room, open_world};
use crate::unfinished::{Left, Unfinished};
use ckpt_codec::MAX_RETAINED_ITEMS;
use ckpt_store::StoreFault;
use kahn_net::{Channel, Port};
use net_check::{Inputs, Net};
use outlet::{Outlet, OutletFault};
use rerun::Rerun;
use resuming::{Behind, CaughtUp, NotResumed, catch_up, resume};
use std::alloc::{AllocError, Global};
use std::sync::Arc;
use thiserror::Error;
use world::{DEFAULT_ROOM, Output};

/// Why a run doesn't go on.
#[derive(Clone, Copy, Debug, PartialEq, Eq, Error)]
pub enum BeginFault {
    /// Refusal 1: memory is missing.
    #[error("no memory")]
    NoMemory,
    /// Refusal 60: an outlet refused an item that it was to meet once more.
    #[error("an outlet refused an item that was to leave once more")]
    Outlet,
    /// Refusal 83: no world begins where the processes were run again, which is a fault of this crate.
    #[error("no world begins where the processes were run again")]
    Astray,
}

/// A run that doesn't go on: its outputs, with what they took meanwhile, and why.
#[derive(Drop)]
pub struct NotBegun<O: Outlet> {
    pub outputs: Vec<Output<O>>,
    pub fault: BeginFault,
}

// How many items may lie on a channel between two processes, of so many channels: as a run has by default, and no more than a record has room
// for.
fn inner_limit(channels: usize) -> u64
    ensures { result ≡ inner_limit channels }
{
    DEFAULT_ROOM.min(MAX_RETAINED_ITEMS / channels.max(1)) as u64
}

// How far the processes are run again on a channel: as far as its output held items, or as many as may lie between two processes. The first of
// these numbers is of the next output.
fn limit_of(inner: u64, held: &[u64], channel: &Channel) -> u64
    ensures { result ≡ limit_of inner held.now channel.now }
{
    match channel.consumer {
        Port::Outside => held.first().copied().unwrap_or(0),
        Port::Process(_) => inner,
    }
}

// What the outputs behind a channel held.
fn held_behind<'a>(held: &'a [u64], channel: &Channel) -> &'a [u64]
    ensures { result.now ≡ held_behind held.now channel.now }
{
    match channel.consumer {
        Port::Outside => if held.is_empty() { held } else { &held[1..] },
        Port::Process(_) => held,
    }
}

// How far they are run again on each channel. Each output, in order, held so many items.
fn list_limits(alloc: Global, channels: &[Channel], held: &[u64]) -> Result<Vec<u64>, AllocError>
    ensures { IfOk result (λ limits. limits.items ≡ limits_of channels.now held.now) }
{
    let inner = inner_limit(channels.len());
    let mut limits = Vec::with_capacity(alloc, channels.len())?;
    let mut rest = held;
    for channel in channels {
        limits.push(limit_of(inner, rest, channel))?;
        rest = held_behind(rest, channel);
    }
    Ok(limits)
}

// What is told of an outlet that refused.
fn outlet_fault(fault: OutletFault) -> BeginFault
    ensures { result ≡ outlet_fault fault }
{
    match fault {
        OutletFault::NoMemory => BeginFault::NoMemory,
        OutletFault::Failed => BeginFault::Outlet,
    }
}

// What is told of a world that doesn't begin.
fn world_fault(fault: StoreFault) -> BeginFault
    ensures { result ≢ Outlet }
{
    match fault {
        StoreFault::NoMemory => BeginFault::NoMemory,
        _ => BeginFault::Astray,
    }
}

// What is told of a first world that doesn't open.
fn opening_fault(fault: RunFault) -> BeginFault
    ensures { result ≢ Outlet }
{
    match fault {
        RunFault::NoMemory => BeginFault::NoMemory,
        RunFault::Device | RunFault::PastNumber => BeginFault::Astray,
    }
}

// Whether no output held an item.
fn held_nothing(held: &[u64]) -> bool
    ensures { result ≡ held_nothing held.now }
{
    held.iter().all(|items| *items == 0)
}

// The world of a run whose outputs held nothing.
fn first_world<O: Outlet>(
    alloc: Global,
    net: &Arc<Net>,
    inputs: Inputs,
    outputs: Vec<Output<O>>,
    nodes: usize,
    room: u64,
) -> Result<RunWorld<O>, NotBegun<O>>
    requires fitting { Fits (network_of net.now.value.program) inputs }
    requires nodes { nodes ≡ node_count (network_of net.now.value.program) }
    requires listed { map (λ output. output.channel) outputs.items
        ≡ output_channels 0 (network_of net.now.value.program).channels }
    requires unused { AllByRecursion (IsUnused O.taken) outputs.items }
    requires unfailed { AllByRecursion (HasNoFailures O.failures) outputs.items }
    ensures first { IfOk result (λ world. world_of world
        ≡ first_world (network_of net.now.value.program) inputs room) }
    ensures room { IfOk result (λ world. AllByRecursion IsRunRoom (capacities_in world)) }
    ensures unclosed { IfOk result (λ world. closed_in world ≡ none_closed) }
    ensures err { IfErr result (λ refused. refused.fault ≢ Outlet) }
    ensures handed_back { IfErr result (λ refused. refused.outputs.items ≡ outputs.items) }
{
    match open_world(alloc, net, inputs, outputs, nodes, room) {
        Ok(world) => Ok(world),
        Err(unfinished) => {
            let Unfinished { fault, left } = unfinished;
            match left {
                Left::Outputs(outputs) => Err(NotBegun {
                    outputs,
                    fault: opening_fault(fault),
                }),
                // A world that doesn't open hands back its outlets.
                Left::World(..) => unreachable!(),
            }
        }
    }
}

/// The world of a run that goes on. Where no output held an item it is the network's first world. Else the network's processes are run again,
/// alone; a process stops at an output that has as many items as it held. `held` has these numbers, by output. Each outlet takes what is put
/// there meanwhile. The world begins where the processes are by then, with the room that is asked for on its channels.
///
/// A refusal hands back the outlets, with what they took by then, and says why: memory is missing (1); an outlet refused an item (60); or no
/// world begins there, which is a fault of this crate (83).
pub fn resume_world<O: Outlet>(
    alloc: Global,
    net: &Arc<Net>,
    inputs: Inputs,
    outputs: Vec<Output<O>>,
    held: &[u64],
    nodes: usize,
    room: u64,
) -> Result<RunWorld<O>, NotBegun<O>>
    requires fitting { Fits (network_of net.now.value.program) inputs }
    requires nodes { nodes ≡ node_count (network_of net.now.value.program) }
    requires listed { map (λ output. output.channel) outputs.items
        ≡ output_channels 0 (network_of net.now.value.program).channels }
    requires unused { AllByRecursion (IsUnused O.taken) outputs.items }
    requires unfailed { AllByRecursion (HasNoFailures O.failures) outputs.items }
    ensures begins { IfOk result
        (λ world. IsBeginning (Some held.now) (network_of net.now.value.program) inputs room (world_of world)) }
    ensures room { IfOk result (λ world. AllByRecursion IsRunRoom (capacities_in world)) }
    // No input is closed.
    ensures unclosed { IfOk result (λ world. closed_in world ≡ none_closed) }
    // It says that an outlet refused an item only where one failed.
    ensures err { IfErr result (λ refused. IsBeginStop (failures_by O.failures outputs.items)
        (failures_by O.failures refused.outputs.items) refused.fault) }
    // The outputs are those of before, in their places, and have what they had.
    ensures handed_back { IfErr result (λ refused. HaveGoneOn (outputs_view O.taken outputs.items)
        (outputs_view O.taken refused.outputs.items)) }
{
    if held_nothing(held) {
        return first_world(alloc, net, inputs, outputs, nodes, room);
    }
    let (Ok(inputs), Ok(share)) = (Arc::new(alloc, inputs), Arc::try_clone(net)) else {
        return Err(NotBegun {
            outputs,
            fault: BeginFault::NoMemory,
        });
    };
    let (Ok(rerun), Ok(limits), Ok(disks)) = (
        Rerun::new(alloc, share, inputs),
        list_limits(alloc, &net.program.channels, held),
        empty_disks(alloc, nodes),
    ) else {
        return Err(NotBegun {
            outputs,
            fault: BeginFault::NoMemory,
        });
    };
    let CaughtUp { rerun, outputs, .. } = match catch_up(alloc, rerun, outputs, &limits) {
        Ok(caught) => caught,
        Err(behind) => {
            let Behind { outputs, fault } = behind;
            return Err(NotBegun {
                outputs,
                fault: outlet_fault(fault),
            });
        }
    };
    let mut world = match resume(alloc, &rerun, disks, outputs) {
        Ok(world) => world,
        Err(refused) => {
            let NotResumed { outputs, fault } = refused;
            return Err(NotBegun {
                outputs,
                fault: world_fault(fault),
            });
        }
    };
    match world.set_room(nearest_room(room)) {
        Ok(()) => Ok(world),
        // The room is within its bounds.
        Err(_) => unreachable!(),
    }
}
