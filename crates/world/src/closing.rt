// How a world ends.
ghost use Rattle.std.specs.Prelude.{◌≡◌, ◌++◌, [], ◌∷◌, map, IfOk, IsPermutation, OnOk};
ghost use Rattle.std.specs.List.Sorted.{IsNonDecreasingBy};
ghost use Rattle.protocol.specs.Node.Common.{network_of};
ghost use Rattle.protocol.specs.World.Common.{output_channels};
ghost use Rattle.world.specs.Closing.{all_outputs, disk_of, disks_of};
ghost use Rattle.world.specs.Left.{AreLeft};

use crate::world::World;
use outlet::Outlet;
use sector_disk::Disk;
use slot_cell::SplitCell;
use station::{Output, Station};
use std::alloc::{AllocError, Global};

// Adds these outputs.
fn add_outputs<O: Outlet>(
    outputs: &mut Vec<Output<O>>,
    own: Vec<Output<O>>,
) -> Result<(), AllocError>
    ensures { OnOk result (outputs.new.items ≡ outputs.old.items ++ own.items) }
{
    for output in own {
        outputs.push(output)?;
    }
    Ok(())
}

// Adds a station's disk, and its outputs.
fn add_station<D: Disk, O: Outlet>(
    disks: &mut Vec<D>,
    outputs: &mut Vec<Output<O>>,
    station: Station<SplitCell<D>, O>,
) -> Result<(), AllocError>
    ensures disks { OnOk result (disks.new.items ≡ disks.old.items ++ disk_of station ∷ []) }
    ensures outputs { OnOk result
        (outputs.new.items ≡ outputs.old.items ++ station.outputs.items) }
{
    let (store, own) = station.into_parts();
    disks.push(store.close().close())?;
    add_outputs(outputs, own)
}

// The disks of these stations and their outputs, station by station, of which there are this many at most.
fn parts_of<D: Disk, O: Outlet>(
    alloc: Global,
    stations: Vec<Station<SplitCell<D>, O>>,
    most: usize,
) -> Result<(Vec<D>, Vec<Output<O>>), AllocError>
    ensures disks { IfOk result (λ parts. parts.0.items ≡ disks_of stations.items) }
    ensures outputs { IfOk result (λ parts. parts.1.items ≡ all_outputs stations.items) }
{
    let mut disks = Vec::with_capacity(alloc, stations.len())?;
    let mut outputs = Vec::with_capacity(alloc, most)?;
    for station in stations {
        add_station(&mut disks, &mut outputs, station)?;
    }
    Ok((disks, outputs))
}

// Puts outputs into the order of their channels.
fn sort_outputs<O: Outlet>(outputs: &mut Vec<Output<O>>)
    ensures moved { IsPermutation outputs.old.items outputs.new.items }
    ensures sorted { IsNonDecreasingBy (λ output. output.channel) outputs.new.items }
{
    outputs.sort_unstable_by_key(|output| output.channel);
}

impl<D: Disk, O: Outlet> World<SplitCell<D>, O> {
    /// Ends the world: its disks, by node number, and its outputs with their outlets, by channel, as they stand. No device
    /// call is made. Refuses for want of memory alone (1), and then they are gone.
    pub fn close(self, alloc: Global) -> Result<(Vec<D>, Vec<Output<O>>), AllocError>
        ensures disks { IfOk result (λ closed. closed.0.items ≡ disks_of self.stations.items) }
        // The outputs of all stations and no others, each with its channel and its own outlet,
        ensures outputs { IfOk result
            (λ closed. IsPermutation (all_outputs self.stations.items) closed.1.items) }
        // in ascending order of the channels: these are exactly the network's outputs.
        ensures listed { IfOk result
            (λ closed. map (λ output. output.channel) closed.1.items
            ≡ output_channels 0 (network_of self.net.value.program).channels) }
        ensures channels { IfOk result
            (λ closed. IsNonDecreasingBy (λ output. output.channel) closed.1.items) }
        // They are what a world of this network on these inputs left: the records on the disks, and what the outlets took. So
        // `World::open` takes them.
        ensures left { IfOk result
            (λ closed. AreLeft D.sector_count D.content D.may_leave O.taken
            (network_of self.net.value.program) self.inputs.came closed.0.items closed.1.items) }
    {
        // There are no more outputs than channels.
        let most = self.net.program.channels.len();
        let mut parts = parts_of(alloc, self.into_stations(), most)?;
        sort_outputs(&mut parts.1);
        Ok(parts)
    }
}
