//! A world that begins where the processes of a network were run again.
ghost use Rattle.std.specs.Prelude.{◌≡◌, IfErr, IfOk, length, map};
ghost use Rattle.std.specs.List.{AllByRecursion};
ghost use Rattle.kahn_net.specs.Nodes.{node_count};
ghost use Rattle.protocol.specs.World.Sound.{output_channels};
ghost use Rattle.rerun.specs.Whole.{inputs_in, net_in, table_in};
ghost use Rattle.resuming.specs.Disks.{IsResumed, IsResumingRefusal};
ghost use Rattle.resuming.specs.Resuming.{Agrees};
ghost use Rattle.station.specs.OutputView.{output_view};

use crate::disks::write_records;
use ckpt_store::StoreFault;
use outlet::Outlet;
use rerun::Rerun;
use sector_disk::Disk;
use slot_cell::SplitCell;
use std::alloc::Global;
use std::sync::Arc;
use world::{OpeningRefused, Output, World};

/// The outputs of a world that doesn't begin, as they were given, and why it doesn't.
#[derive(Drop)]
pub struct NotResumed<O: Outlet> {
    pub outputs: Vec<Output<O>>,
    pub fault: StoreFault,
}

/// A world of a network that begins where its processes were run again: on these disks, one a node, which are formatted for that, and with
/// these outputs, one for each of the network's, by channel.
///
/// What has left of each output has to agree with what was put there. All nodes are down, nothing is in flight, and the round is 0.
/// `Recover` brings each node back.
///
/// Refuses for want of memory (1), where a device failed (20), and where a node has no place for its record, on its disk or since one of
/// its logs has more than its share (22). The outputs come back then, and the disks are gone.
pub fn resume<D: Disk, O: Outlet>(
    alloc: Global,
    rerun: &Rerun,
    disks: Vec<D>,
    outputs: Vec<Output<O>>,
) -> Result<World<SplitCell<D>, O>, NotResumed<O>>
    requires each { length disks.items ≡ node_count (net_in rerun.now) }
    requires listed { map (λ output. output.channel) outputs.items ≡ output_channels 0 (net_in rerun.now).channels }
    requires agree { AllByRecursion (λ output. Agrees (net_in rerun.now) (inputs_in rerun.now) (table_in rerun.now)
        (output_view O.taken output)) outputs.items }
    // Each node is down, with the record that its image is, and what has left is what the outputs took.
    ensures made { IfOk result
        (IsResumed (net_in rerun.now) (inputs_in rerun.now) (table_in rerun.now) disks.items outputs.items) }
    // Refused for no other reasons than those above.
    ensures cause { IfErr result (λ refused. IsResumingRefusal (net_in rerun.now) (table_in rerun.now)
        (map (λ disk. D.sector_count disk) disks.items) refused.fault) }
    // And then the outputs are the same.
    ensures handed_back { IfErr result (λ refused. refused.outputs.items ≡ outputs.items) }
{
    let (Ok(net), Ok(inputs)) = (Arc::try_clone(rerun.net()), rerun.inputs().copy(alloc)) else {
        return Err(NotResumed {
            outputs,
            fault: StoreFault::NoMemory,
        });
    };
    let written = match write_records(alloc, rerun, disks) {
        Ok(written) => written,
        Err(fault) => return Err(NotResumed { outputs, fault }),
    };
    match World::open(alloc, net, inputs, written, outputs) {
        Ok(world) => Ok(world),
        Err(refused) => {
            let OpeningRefused { outputs, fault, .. } = refused;
            Err(NotResumed { outputs, fault })
        }
    }
}
