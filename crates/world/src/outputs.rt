//! The outputs of a network, each with an outlet.
ghost use Rattle.std.specs.Prelude.{◌≡◌, ◌++◌, ◌≤◌, [], ◌∷◌, ℕ, if◌then◌else◌, length, map, IfOk, OnOk};
ghost use Rattle.std.specs.List.{AllByRecursion};
ghost use Rattle.protocol.specs.Node.Common.{network_of, MAX_CHANNELS};
ghost use Rattle.protocol.specs.World.Common.{goes_outside, output_channels};
ghost use Rattle.world.specs.OpeningWorld.{HasNotFailed, IsMade, IsUnused};

use kahn_net::{Channel, Port};
use net_check::Net;
use outlet::{ListOutlet, Outlet};
use station::Output;
use std::alloc::{AllocError, Global};

/// What makes the outlets of a world.
pub trait OutletMaker<O: Outlet> {
    /// The outlets that it makes for a channel.
    ghost makes: { ℕ → O → Type 0 };

    /// An outlet for the output of this channel. It has taken nothing. Refuses for want of memory alone (1).
    fn make(&mut self, channel: u8) -> Result<O, AllocError>
        ensures made { IfOk result (makes channel) }
        ensures unused { IfOk result (λ outlet. O.taken outlet ≡ []) };
}

// Adds an outlet for a channel whose items go outside.
fn add_output<O: Outlet, M: OutletMaker<O>>(
    outputs: &mut Vec<Output<O>>,
    number: u8,
    channel: &Channel,
    maker: &mut M,
) -> Result<(), AllocError>
    requires unused { AllByRecursion (IsUnused O.taken) outputs.old.items }
    requires made { AllByRecursion (IsMade M.makes) outputs.old.items }
    ensures listed { OnOk result
        (map (λ output. output.channel) outputs.new.items
        ≡ map (λ output. output.channel) outputs.old.items
        ++ (if goes_outside channel.now.consumer then number ∷ [] else [])) }
    ensures empty { OnOk result (AllByRecursion (IsUnused O.taken) outputs.new.items) }
    ensures made { OnOk result (AllByRecursion (IsMade M.makes) outputs.new.items) }
    ensures none_failed { OnOk result (AllByRecursion HasNotFailed outputs.old.items
        → AllByRecursion HasNotFailed outputs.new.items) }
{
    if let Port::Outside = channel.consumer {
        outputs.push(Output {
            channel: number,
            outlet: maker.make(number)?,
            failed: None,
        })?;
    }
    Ok(())
}

// An outlet for each channel whose items go outside.
fn open_outputs<O: Outlet, M: OutletMaker<O>>(
    alloc: Global,
    channels: &[Channel],
    maker: &mut M,
) -> Result<Vec<Output<O>>, AllocError>
    requires { length channels.now ≤ MAX_CHANNELS }
    ensures listed { IfOk result
        (λ outputs. map (λ output. output.channel) outputs.items ≡ output_channels 0 channels.now) }
    ensures empty { IfOk result (λ outputs. AllByRecursion (IsUnused O.taken) outputs.items) }
    ensures made { IfOk result (λ outputs. AllByRecursion (IsMade M.makes) outputs.items) }
    ensures none_failed { IfOk result (λ outputs. AllByRecursion HasNotFailed outputs.items) }
{
    let mut outputs = Vec::new(alloc);
    for (number, channel) in channels.iter().enumerate() {
        add_output(&mut outputs, number as u8, channel, maker)?;
    }
    Ok(outputs)
}

/// The outputs of a network, each with an outlet that the maker makes for its channel: what `World::new` asks for.
pub fn outputs_of<O: Outlet, M: OutletMaker<O>>(
    alloc: Global,
    net: &Net,
    maker: &mut M,
) -> Result<Vec<Output<O>>, AllocError>
    ensures listed { IfOk result
        (λ outputs. map (λ output. output.channel) outputs.items
        ≡ output_channels 0 (network_of net.now.program).channels) }
    ensures empty { IfOk result (λ outputs. AllByRecursion (IsUnused O.taken) outputs.items) }
    ensures made { IfOk result (λ outputs. AllByRecursion (IsMade M.makes) outputs.items) }
    ensures none_failed { IfOk result (λ outputs. AllByRecursion HasNotFailed outputs.items) }
{
    open_outputs(alloc, &net.program.channels, maker)
}

// Makes outlets in memory.
#[derive(Drop)]
struct ListOutlets {
    alloc: Global,
}

impl OutletMaker<ListOutlet> for ListOutlets {
    ghost makes = { λ channel outlet. outlet ≡ [] };

    fn make(&mut self, _channel: u8) -> Result<ListOutlet, AllocError> {
        Ok(ListOutlet::new(self.alloc))
    }
}

/// The outputs of a network, each with an outlet in memory.
pub fn list_outputs(alloc: Global, net: &Net) -> Result<Vec<Output<ListOutlet>>, AllocError>
    ensures listed { IfOk result
        (λ outputs. map (λ output. output.channel) outputs.items
        ≡ output_channels 0 (network_of net.now.program).channels) }
    ensures empty { IfOk result
        (λ outputs. AllByRecursion (IsUnused (λ taken. taken)) outputs.items) }
    ensures none_failed { IfOk result (λ outputs. AllByRecursion HasNotFailed outputs.items) }
{
    outputs_of(alloc, net, &mut ListOutlets { alloc })
}
