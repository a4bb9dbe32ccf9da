// A world before its first event.
ghost use Rattle.std.specs.Prelude.{◌≡◌, ◌+◌, ◌++◌, ◌<◌, ◌≤◌, ◌↔◌, ℕ, [], IsTrue, None, not, filter, length, map, IfErr, IfOk, OnErr, OnOk, vec_capacity, vec_len};
ghost use Rattle.std.specs.List.{AllByRecursion};
ghost use Rattle.kahn_net.specs.Nodes.{node_count};
ghost use Rattle.kahn_net.specs.Fits.{Fits};
ghost use Rattle.kahn_net.specs.Syntax.{network_of};
ghost use Rattle.ckpt_codec.specs.HeaderText.{IsImageSpelled};
ghost use Rattle.ckpt_codec.specs.Lengths.{image_length};
ghost use Rattle.ckpt_codec.specs.RecordText.{IsRecord};
ghost use Rattle.ckpt_codec.specs.SizeLaws.{IsRecordWithin};
ghost use Rattle.ckpt_codec.specs.declared.lengths.TheConstants.{MAX_RETAINED_ITEMS};
ghost use Rattle.protocol.specs.Node.Opening.{opening_record};
ghost use Rattle.protocol.specs.World.Sound.{is_output, output_channels};
ghost use Rattle.world.specs.OpeningWorld.{own_outputs, AllNumbered, HasRoom};
ghost use Rattle.station.specs.OutputView.{fresh};
ghost use Rattle.world.specs.NewWorld.{IsNew, IsNotNew, IsNotNewFrom};
ghost use Rattle.world.specs.OpeningWorld.{IsOpened, IsOpenedNode, IsOpenedStore, IsUnused};
ghost use Rattle.world.specs.OpeningWorld.{AreHandedBack, IsNotOpened, IsWorldRefusal};
ghost use Rattle.world.specs.OpeningWorld.{version_for, AreVersions, AreVersionsFor, IsVersion};
ghost use Rattle.kahn_net.specs.declared.limits.TheConstants.{MAX_NODES};

use crate::feeding::none_closed;
use crate::world::World;
use arrived::Arrived;
use ckpt_codec::{FIRST_VERSION, VERSION, spelled_image_length, write_header_in, write_image};
use ckpt_store::{Store, StoreFault};
use kahn_net::Port;
use net_check::{Inputs, Net};
use outlet::Outlet;
use protocol::{DEFAULT_ROOM, Rooms};
use record::{Image, Record};
use sector_disk::Disk;
use slot_cell::{LEAST_SPLIT_SECTORS, SlotCell, SplitCell, slot_room_of};
use station::{Node, Output, Station, is_here, opening_record};
use std::alloc::Global;
use std::sync::Arc;
use wire::Wire;

pub(crate) fn forget_failures<O: Outlet>(outputs: &mut Vec<Output<O>>)
    ensures { outputs.new.items ≡ map fresh outputs.old.items }
{
    for output in outputs.iter_mut() {
        output.forget_failure();
    }
}

/// A disk on which no store was opened, and why.
#[derive(Drop)]
pub struct NotOpened<D: Disk> {
    pub disk: D,
    pub fault: StoreFault,
}

/// The disks and the outputs of a world that wasn't made, in the order in which they were given, and why it wasn't.
#[derive(Drop)]
pub struct OpeningRefused<D: Disk, O: Outlet> {
    pub disks: Vec<D>,
    pub outputs: Vec<Output<O>>,
    pub fault: StoreFault,
}

// Whether a disk has room for header and slots, and a slot for this image.
fn has_room<D: Disk>(disk: &D, image: &Image) -> bool
    requires { IsImageSpelled image.now }
    ensures { IsTrue result ↔ HasRoom (D.sector_count disk.now) (image_length image.now) }
{
    let sectors = disk.sectors();
    sectors >= LEAST_SPLIT_SECTORS && spelled_image_length(image) <= slot_room_of(sectors)
}

// Whether each of these is the number of a version.
fn are_versions(versions: &[u8]) -> bool
    ensures { IsTrue result ↔ AreVersions versions.now }
{
    let [version, behind @ ..] = versions else {
        return true;
    };
    *version >= FIRST_VERSION && *version <= VERSION && are_versions(behind)
}

// Whether there is a version for each of so many disks.
fn are_versions_for(disks: usize, versions: &[u8]) -> bool
    ensures { IsTrue result ↔ AreVersionsFor disks versions.now }
{
    versions.len() == disks && are_versions(versions)
}

// The version in which the disk of a node is formatted: the one given for it, or else the one in which records are written.
fn version_for(versions: &[u8], number: u8) -> u8
    ensures { result ≡ version_for versions.now number }
{
    match versions.get(usize::from(number)) {
        Some(version) => *version,
        None => VERSION,
    }
}

/// A store on a disk that is formatted with this record: its header in this version, and its permanent image in slot 0. The
/// disk's calls are counted from here on.
///
/// Refuses for want of memory (1), with 22 where the disk has no room for the record, which is found before anything is written, and
/// with 20 where its device failed.
pub fn open_store<D: Disk>(
    alloc: Global,
    disk: D,
    kept: &Record,
    version: u8,
) -> Result<Store<SplitCell<D>>, NotOpened<D>>
    requires version { IsVersion version }
    requires written { IsRecord kept.now }
    requires settled { kept.now.decisions ≡ [] }
    requires bounded { IsRecordWithin MAX_RETAINED_ITEMS kept.now }
    requires alone { kept.now.tentative ≡ None }
    ensures opened { IfOk result (IsOpenedStore kept.now version disk) }
    ensures refused { IfErr result (λ refused. IsNotOpened D.sector_count D.failure_count
        (image_length kept.now.permanent) disk refused.disk refused.fault) }
{
    if !has_room(&disk, &kept.permanent) {
        return Err(NotOpened {
            disk,
            fault: StoreFault::TooLarge,
        });
    }
    let (Ok(header), Ok(image)) = (
        write_header_in(alloc, version, kept, 0),
        write_image(alloc, &kept.permanent),
    ) else {
        return Err(NotOpened {
            disk,
            fault: StoreFault::NoMemory,
        });
    };
    let mut cell = match SplitCell::format(alloc, disk, header.as_slice()) {
        Ok(cell) => cell,
        Err((fault, disk)) => {
            return Err(NotOpened {
                disk,
                fault: StoreFault::from(fault),
            });
        }
    };
    if let Err(fault) = cell.fill(0, image.as_slice()) {
        return Err(NotOpened {
            disk: cell.close(),
            fault: StoreFault::from(fault),
        });
    }
    let mut store = match Store::open(alloc, cell) {
        Ok(store) => store,
        Err(refused) => {
            return Err(NotOpened {
                disk: refused.cell.close(),
                fault: refused.fault,
            });
        }
    };
    store.recount();
    Ok(store)
}

// The node of this number, of so many, before its first event: its disk is formatted with the opening record, in this version.
fn open_node<D: Disk>(
    alloc: Global,
    net: &Net,
    number: u8,
    nodes: usize,
    disk: D,
    version: u8,
) -> Result<Node<SplitCell<D>>, NotOpened<D>>
    requires here { number < nodes }
    requires few { nodes ≤ MAX_NODES }
    requires version { IsVersion version }
    ensures opened { IfOk result
        (IsOpenedNode (network_of net.now.program) nodes number version disk) }
    ensures refused { IfErr result (λ refused. IsNotOpened D.sector_count D.failure_count
        (image_length (opening_record (network_of net.now.program) nodes number).permanent)
        disk refused.disk refused.fault) }
{
    let Ok(first) = opening_record(alloc, net, number, nodes) else {
        return Err(NotOpened {
            disk,
            fault: StoreFault::NoMemory,
        });
    };
    let store = match open_store(alloc, disk, &first, version) {
        Ok(store) => store,
        Err(refused) => return Err(refused),
    };
    match Node::run_from(alloc, net, number, store) {
        Ok(node) => Ok(node),
        Err(store) => Err(NotOpened {
            disk: store.close().close(),
            fault: StoreFault::NoMemory,
        }),
    }
}

// Whether a channel is an output of the node: its items go outside, and its producer is there.
fn is_output(net: &Net, home: u8, number: u8) -> bool
    ensures { result ≡ is_output (network_of net.now.program) home number }
{
    match net.program.channels.get(usize::from(number)) {
        Some(channel) => match channel.consumer {
            Port::Outside => is_here(net, home, channel.producer),
            Port::Process(_) => false,
        },
        None => false,
    }
}

// Parts outputs into those of the node and the others, for which there is room.
pub(crate) fn part_outputs<O: Outlet>(
    net: &Net,
    home: u8,
    outputs: Vec<Output<O>>,
    own: &mut Vec<Output<O>>,
    others: &mut Vec<Output<O>>,
)
    requires own_room { vec_len own.old + vec_len outputs ≤ vec_capacity own.old }
    requires other_room { vec_len others.old + vec_len outputs ≤ vec_capacity others.old }
    ensures own { own.new.items ≡ own.old.items
        ++ own_outputs (network_of net.now.program) home outputs.items }
    ensures others { others.new.items ≡ others.old.items
        ++ filter (λ output. not (is_output (network_of net.now.program) home output.channel))
        outputs.items }
{
    for output in outputs {
        if is_output(net, home, output.channel) {
            own.push_reserved(output);
        } else {
            others.push_reserved(output);
        }
    }
}

// A station for each of these disks, the last one's first, with those of the outputs that are its node's; the others are
// left. Each disk is formatted in the version given for it. Where one is refused, all disks and outputs are back in their
// places.
fn open_stations<D: Disk, O: Outlet>(
    alloc: Global,
    net: &Net,
    nodes: usize,
    versions: &[u8],
    disks: &mut Vec<D>,
    outputs: &mut Vec<Output<O>>,
    stations: &mut Vec<Station<SplitCell<D>, O>>,
) -> Result<(), StoreFault>
    requires nodes { nodes ≡ node_count (network_of net.now.program) }
    requires few { vec_len disks.old ≤ nodes }
    requires none { vec_len stations.old ≡ 0 }
    requires room { vec_len disks.old ≤ vec_capacity stations.old }
    requires versions { AreVersions versions.now }
    ensures opened { OnOk result (AllNumbered
        (IsOpened O.taken O.failures (network_of net.now.program) versions.now
        (map fresh outputs.old.items)) 0 disks.old.items stations.new.items) }
    ensures rest { OnOk result ((home : ℕ) → vec_len disks.old ≤ home
        → own_outputs (network_of net.now.program) home outputs.new.items
        ≡ own_outputs (network_of net.now.program) home outputs.old.items) }
    ensures fewer { OnOk result (vec_len outputs.new ≤ vec_len outputs.old) }
    ensures stations { OnOk result ((vec_len stations.new ≡ vec_len disks.old)
        × (vec_capacity stations.new ≡ vec_capacity stations.old)) }
    ensures same_outputs { OnErr result (outputs.new.items ≡ outputs.old.items) }
    ensures same_disks { OnErr result (vec_len disks.new ≡ vec_len disks.old) }
    ensures disk_room { vec_capacity disks.new ≡ vec_capacity disks.old }
    ensures handed_back { IfErr result
        (AreHandedBack D.sector_count D.failure_count disks.old.items disks.new.items) }
    ensures refused { IfErr result (IsWorldRefusal (network_of net.now.program) 0
        (map (λ disk. D.sector_count disk) disks.old.items)) }
{
    let Some(disk) = disks.pop() else {
        return Ok(());
    };
    let number = disks.len() as u8;
    let (Ok(mut own), Ok(others)) = (
        Vec::with_capacity(alloc, outputs.len()),
        Vec::with_capacity(alloc, outputs.len()),
    ) else {
        disks.push_reserved(disk);
        return Err(StoreFault::NoMemory);
    };
    let version = version_for(versions, number);
    let node = match open_node(alloc, net, number, nodes, disk, version) {
        Ok(node) => node,
        Err(refused) => {
            disks.push_reserved(refused.disk);
            return Err(refused.fault);
        }
    };
    match open_stations(alloc, net, nodes, versions, disks, outputs, stations) {
        Ok(()) => {
            let given = std::mem::replace(outputs, others);
            part_outputs(net, number, given, &mut own, outputs);
            forget_failures(&mut own);
            stations.push_reserved(Station::new(node, own));
            Ok(())
        }
        Err(fault) => {
            disks.push_reserved(node.into_store().close().close());
            Err(fault)
        }
    }
}

// The world of a network before its first event, its disks formatted in the versions given for them.
fn open_world<D: Disk, O: Outlet>(
    alloc: Global,
    net: Arc<Net>,
    inputs: Inputs,
    disks: Vec<D>,
    outputs: Vec<Output<O>>,
    versions: &[u8],
) -> Result<World<SplitCell<D>, O>, OpeningRefused<D, O>>
    requires fits { Fits (network_of net.value.program) inputs }
    requires each { length disks.items ≡ node_count (network_of net.value.program) }
    requires listed { map (λ output. output.channel) outputs.items
        ≡ output_channels 0 (network_of net.value.program).channels }
    requires empty { AllByRecursion (IsUnused O.taken) outputs.items }
    requires versions { AreVersions versions.now }
    ensures made { IfOk result (IsNew net inputs versions.now disks.items outputs.items) }
    ensures refused { IfErr result (IsNotNew D.sector_count D.failure_count
        (network_of net.value.program) disks.items outputs.items) }
{
    let mut disks = disks;
    let mut outputs = outputs;
    let nodes = disks.len();
    let (Ok(inputs), Ok(wire), Ok(mut stations)) = (
        Arrived::new(alloc, inputs),
        Wire::new(alloc),
        Vec::with_capacity(alloc, nodes),
    ) else {
        return Err(OpeningRefused {
            disks,
            outputs,
            fault: StoreFault::NoMemory,
        });
    };
    match open_stations(
        alloc,
        &net,
        nodes,
        versions,
        &mut disks,
        &mut outputs,
        &mut stations,
    ) {
        Ok(()) => Ok(World {
            net,
            inputs,
            stations,
            wire,
            round: 0,
            channel_rooms: Rooms::even(DEFAULT_ROOM),
            closed: none_closed(),
        }),
        Err(fault) => Err(OpeningRefused {
            disks,
            outputs,
            fault,
        }),
    }
}

impl<D: Disk, O: Outlet> World<SplitCell<D>, O> {
    /// The world of a network before its first event: no process has begun, no item was received or put, and the disks,
    /// one a node, are formatted with the opening records of their nodes, in the version in which records are written. The
    /// outputs are those of the network, in order, and nothing has left by them; each goes to the node of its producer.
    ///
    /// Refuses for want of memory (1), with 22 where a disk has no room for its record, and with 20 where one has and its
    /// device failed. The disks and the outputs come back then, the outputs as they were; on a disk may stand an opening
    /// record, or a part of one.
    pub fn new(
        alloc: Global,
        net: Arc<Net>,
        inputs: Inputs,
        disks: Vec<D>,
        outputs: Vec<Output<O>>,
    ) -> Result<World<SplitCell<D>, O>, OpeningRefused<D, O>>
        requires fits { Fits (network_of net.value.program) inputs }
        requires each { length disks.items ≡ node_count (network_of net.value.program) }
        requires listed { map (λ output. output.channel) outputs.items
            ≡ output_channels 0 (network_of net.value.program).channels }
        requires empty { AllByRecursion (IsUnused O.taken) outputs.items }
        // It is the opening world of the network and the inputs, on these disks, each in the version in which records are
        // written.
        ensures made { IfOk result (IsNew net inputs [] disks.items outputs.items) }
        // Refused for no other reasons than those above, and then all that was given is back in its place.
        ensures refused { IfErr result (IsNotNew D.sector_count D.failure_count
            (network_of net.value.program) disks.items outputs.items) }
    {
        open_world(alloc, net, inputs, disks, outputs, &[])
    }

    /// As `new`, with the disk of each node formatted in the version given for it, by number. A store that opens on such a disk
    /// reads either version, and writes its next header in the one in which records are written.
    ///
    /// Refuses besides with 31, before anything is written, where there are more or fewer versions than disks, or one of them is
    /// neither `FIRST_VERSION` nor `VERSION`.
    pub fn new_from(
        alloc: Global,
        net: Arc<Net>,
        inputs: Inputs,
        disks: Vec<D>,
        outputs: Vec<Output<O>>,
        versions: &[u8],
    ) -> Result<World<SplitCell<D>, O>, OpeningRefused<D, O>>
        requires fits { Fits (network_of net.value.program) inputs }
        requires each { length disks.items ≡ node_count (network_of net.value.program) }
        requires listed { map (λ output. output.channel) outputs.items
            ≡ output_channels 0 (network_of net.value.program).channels }
        requires empty { AllByRecursion (IsUnused O.taken) outputs.items }
        // It is that world, each of its disks in the version that was given for it; and there is a version for each.
        ensures made { IfOk result (IsNew net inputs versions.now disks.items outputs.items) }
        ensures versions { OnOk result (AreVersionsFor (length disks.items) versions.now) }
        // Refused for no other reasons than those of `new`, and with 31; and then all that was given is back in its place.
        ensures refused { IfErr result (IsNotNewFrom D.sector_count D.failure_count
            (network_of net.value.program) versions.now disks.items outputs.items) }
    {
        if !are_versions_for(disks.len(), versions) {
            return Err(OpeningRefused {
                disks,
                outputs,
                fault: StoreFault::Version,
            });
        }
        open_world(alloc, net, inputs, disks, outputs, versions)
    }
}
