//! A world over a disk and outlets of one's own: a network with two outputs, on one node. It is opened, goes on event by event, and is
//! opened again over what it leaves.

ghost use Rattle.std.specs.Prelude.{◌≡◌, ◌*◌, ◌^◌, ◌<◌, IfOk, length, map};
ghost use Rattle.std.specs.List.{AllByRecursion};
ghost use Rattle.cobaltmidge.specs.Common.{IsUnused, SECTOR_BYTES, inputs_in, network_of, output_channels};

use crate::counting::CountingDisk;
use crate::ledger::{Ledger, Weakness};
use anyhow::bail;
use cobaltmidge::{
    Event, Inputs, Job, MemDisk, Net, Network, Output, Reply, SplitCell, World, list_outputs,
    node_count,
};
use std::alloc::{AllocError, Global};
use std::sync::Arc;

/// The sum of the items so far goes to the first output, and each item to the second.
const NET: &str = "kahn 1; input i; output total; output same;
process sum on 0 { var a; var v; loop { v = get i; a = a + v; put a to total; put v to same; } }";

/// What comes in.
const INPUTS: &str = "i: 1 2 3";

/// The sectors of the disk.
pub const SECTORS: usize = 401;

pub type OwnDisk = CountingDisk<MemDisk>;

pub type OwnWorld = World<SplitCell<OwnDisk>, Ledger>;

fn empty_disk(alloc: Global, sectors: usize) -> Result<OwnDisk, AllocError>
    requires { SECTOR_BYTES * sectors < 2 ^ 64 }
{
    Ok(CountingDisk::new(MemDisk::new(alloc, sectors)?))
}

/// A disk for the one node.
fn one_disk(alloc: Global) -> Result<Vec<OwnDisk>, AllocError>
    ensures { IfOk result (λ disks. length disks.items ≡ 1) }
{
    let mut disks = Vec::with_capacity(alloc, 1)?;
    disks.push(empty_disk(alloc, SECTORS)?)?;
    Ok(disks)
}

/// An output that has a ledger of its own.
fn output_by(alloc: Global, channel: u8, weakness: Weakness) -> Output<Ledger>
    ensures channel { result.channel ≡ channel }
    ensures empty { IsUnused (λ ledger. ledger.items.items) result }
{
    Output {
        channel,
        outlet: Ledger::new(alloc, weakness),
        failed: None,
    }
}

/// The two outputs of the network, the first of which may fail. Their channels are those of the outlets that `world` would make.
fn own_outputs(alloc: Global, net: &Net, weakness: Weakness) -> anyhow::Result<Vec<Output<Ledger>>>
    ensures listed { IfOk result
        (λ outputs. map (λ output. output.channel) outputs.items
        ≡ output_channels 0 (network_of net.now.program).channels) }
    ensures empty { IfOk result
        (λ outputs. AllByRecursion (IsUnused (λ ledger. ledger.items.items)) outputs.items) }
{
    let listed = list_outputs(alloc, net)?;
    let mut own = Vec::with_capacity(alloc, 2)?;
    match listed.as_slice() {
        [first, second] => {
            own.push(output_by(alloc, first.channel, weakness))?;
            own.push(output_by(alloc, second.channel, Weakness::None))?;
            Ok(own)
        }
        _ => anyhow::bail!("not two outputs"),
    }
}

/// The world before its first event, with a copy of what has come on its inputs.
fn open_with_inputs(alloc: Global, weakness: Weakness) -> anyhow::Result<(OwnWorld, Inputs)>
    ensures { IfOk result (λ opened. opened.1 ≡ inputs_in opened.0) }
{
    let network = Network::parse(alloc, NET)?;
    anyhow::ensure!(node_count(&network.net) == 1, "several nodes");
    let inputs = network.inputs(alloc, INPUTS)?;
    let copy = inputs.copy(alloc)?;
    let outputs = own_outputs(alloc, &network.net, weakness)?;
    let disks = one_disk(alloc)?;
    match World::new(alloc, network.net, inputs, disks, outputs) {
        Ok(world) => Ok((world, copy)),
        Err(refused) => Err(refused.fault.into()),
    }
}

/// The world before its first event.
pub fn open(alloc: Global, weakness: Weakness) -> anyhow::Result<OwnWorld> {
    let (world, _inputs) = open_with_inputs(alloc, weakness)?;
    Ok(world)
}

/// One event. `World::apply` refuses for want of memory alone.
fn apply(alloc: Global, world: &mut OwnWorld, event: Event) -> anyhow::Result<Reply>
    ensures same { inputs_in world.new ≡ inputs_in world.old }
{
    match world.apply(alloc, event) {
        Ok(reply) => Ok(reply),
        Err(_) => bail!("no memory"),
    }
}

/// The event that is next for the node. A job that it grants is run, and what came of it is brought back. Gives what was answered last.
fn step(alloc: Global, world: &mut OwnWorld) -> anyhow::Result<Reply>
    ensures same { inputs_in world.new ≡ inputs_in world.old }
{
    let event = world.pick(0);
    match apply(alloc, world, event)? {
        Reply::Granted(job) => match Job::run(job, alloc) {
            Ok(done) => apply(alloc, world, Event::Install(done)),
            Err(_) => bail!("no memory"),
        },
        reply => Ok(reply),
    }
}

/// A world that can be opened again over what it leaves: with it is all that has come on its inputs, of which the world itself may have let go.
#[derive(Drop)]
pub struct LastingWorld {
    world: OwnWorld,
    inputs: Inputs,
    ghost same: { inputs ≡ inputs_in world },
}

impl LastingWorld {
    /// The world before its first event.
    pub fn open(alloc: Global, weakness: Weakness) -> anyhow::Result<LastingWorld> {
        let (world, inputs) = open_with_inputs(alloc, weakness)?;
        Ok(LastingWorld { world, inputs })
    }

    /// The world.
    pub fn world(&self) -> &OwnWorld
        ensures { result.now ≡ self.now.world }
    {
        &self.world
    }

    /// The event that is next for the node, as `step` makes it.
    pub fn step(&mut self, alloc: Global) -> anyhow::Result<Reply> {
        step(alloc, &mut self.world)
    }

    /// Lets go of what the node keeps of its input for good.
    pub fn let_go(&mut self) {
        self.world.let_go(0);
    }

    /// The world that is opened over what this one leaves, on the same inputs.
    pub fn reopen(self, alloc: Global) -> anyhow::Result<OwnWorld> {
        let LastingWorld { world, inputs } = self;
        let net = Arc::clone(world.net())?;
        let (disks, outputs) = world.close(alloc)?;
        match World::open(alloc, net, inputs, disks, outputs) {
            Ok(again) => Ok(again),
            Err(refused) => Err(refused.fault.into()),
        }
    }
}
