// A world that is opened over what an earlier one left.
ghost use Rattle.std.specs.Prelude.{◌≡◌, ◌+◌, ◌++◌, ◌<◌, ◌≤◌, ◌↔◌, ℕ, length, map, IfErr, IfOk, IfSome, IsSome, MatchOption, OnErr, OnOk, option_to_list, vec_capacity, vec_len};
ghost use Rattle.std.specs.List.{AllZip};
ghost use Rattle.kahn_net.specs.Nodes.{node_count};
ghost use Rattle.kahn_net.specs.Syntax.{network_of};
ghost use Rattle.ckpt_store.specs.Loading.{IsOfReopening};
ghost use Rattle.station.specs.OutputView.{fresh};
ghost use Rattle.world.specs.Left.{AreLeft, HoldsRecord};
ghost use Rattle.world.specs.OpeningWorld.{own_outputs, AllNumbered, AreHandedBack};
ghost use Rattle.world.specs.ReopenedWorld.{IsNotReopened, IsReopened};
ghost use Rattle.world.specs.Reopening.{HoldsItsOwn, HoldTheirOwn, IsDiskAsLeft, IsDiskRefused};
ghost use Rattle.world.specs.Reopening.{IsReopenedNode, IsReopenedStation, IsReopenedStore};

use crate::feeding::none_closed;
use crate::opening::{NotOpened, OpeningRefused, forget_failures, part_outputs};
use crate::world::World;
use arrived::Arrived;
use ckpt_store::{Store, StoreFault};
use net_check::{Inputs, Net};
use outlet::Outlet;
use protocol::{DEFAULT_ROOM, Rooms};
use sector_disk::Disk;
use slot_cell::SplitCell;
use station::{Mode, Node, NodeState, Output, Station};
use std::alloc::Global;
use std::sync::Arc;
use wire::Wire;

// A store over what lies on a disk. Nothing is written. The disk's calls are counted from here on.
fn reopen_store<D: Disk>(alloc: Global, disk: D) -> Result<Store<SplitCell<D>>, NotOpened<D>>
    requires held { HoldsRecord D.sector_count D.content D.may_leave disk }
    ensures opened { IfOk result (IsReopenedStore disk) }
    ensures refused { IfErr result (λ refused. IsDiskRefused D.sector_count D.content D.may_leave
        D.armed D.failure_count disk refused.disk refused.fault) }
{
    let cell = match SplitCell::open(alloc, disk) {
        Ok(cell) => cell,
        Err((fault, disk)) => {
            return Err(NotOpened {
                disk,
                fault: StoreFault::from(fault),
            });
        }
    };
    let mut store = match Store::open(alloc, cell) {
        Ok(store) => store,
        Err(refused) => {
            return Err(NotOpened {
                disk: refused.cell.close(),
                fault: refused.fault,
            });
        }
    };
    store.recount();
    Ok(store)
}

// The node of this number over what lies on its disk. It is down, and may be recovered at once.
fn reopen_node<D: Disk>(
    alloc: Global,
    number: u8,
    disk: D,
) -> Result<Node<SplitCell<D>>, NotOpened<D>>
    requires own { HoldsItsOwn D.sector_count D.content D.may_leave number disk }
    ensures opened { IfOk result (IsReopenedNode number disk) }
    ensures refused { IfErr result (λ refused. IsDiskRefused D.sector_count D.content D.may_leave
        D.armed D.failure_count disk refused.disk refused.fault) }
{
    let store = match reopen_store(alloc, disk) {
        Ok(store) => store,
        Err(refused) => return Err(refused),
    };
    Ok(Node {
        number,
        state: NodeState {
            mode: Mode::Down,
            version: 0,
            restart: 0,
            armed: Vec::new(alloc),
        },
        store,
    })
}

// Takes the last of these disks, if there is one. Each of them is that of the node of its place.
fn take_last<D: Disk>(disks: &mut Vec<D>) -> Option<D>
    requires own { HoldTheirOwn D.sector_count D.content D.may_leave 0 disks.old.items }
    ensures items { disks.old.items ≡ disks.new.items ++ option_to_list result }
    ensures variant { IsSome result ↔ (0 < vec_len disks.old) }
    ensures len { vec_len disks.new + length (option_to_list result) ≡ vec_len disks.old }
    ensures capacity { vec_capacity disks.new ≡ vec_capacity disks.old }
    ensures cases { MatchOption result ((vec_len disks.old ≡ 0) × (vec_len disks.new ≡ 0))
        (λ _. vec_len disks.new + 1 ≡ vec_len disks.old) }
    ensures front { HoldTheirOwn D.sector_count D.content D.may_leave 0 disks.new.items }
    ensures last { IfSome result (λ disk. HoldsItsOwn D.sector_count D.content D.may_leave
        (length disks.new.items) disk) }
{
    disks.pop()
}

// A station over what lies on each of these disks, the last one's first, with those of the outputs that are its node's; the
// others are left. Where one is refused, all disks and outputs are back in their places.
fn reopen_stations<D: Disk, O: Outlet>(
    alloc: Global,
    net: &Net,
    disks: &mut Vec<D>,
    outputs: &mut Vec<Output<O>>,
    stations: &mut Vec<Station<SplitCell<D>, O>>,
) -> Result<(), StoreFault>
    requires few { vec_len disks.old ≤ node_count (network_of net.now.program) }
    requires own { HoldTheirOwn D.sector_count D.content D.may_leave 0 disks.old.items }
    requires none { vec_len stations.old ≡ 0 }
    requires room { vec_len disks.old ≤ vec_capacity stations.old }
    ensures opened { OnOk result (AllNumbered
        (IsReopenedStation O.taken O.failures (network_of net.now.program)
        (map fresh outputs.old.items)) 0 disks.old.items stations.new.items) }
    ensures rest { OnOk result ((home : ℕ) → vec_len disks.old ≤ home
        → own_outputs (network_of net.now.program) home outputs.new.items
        ≡ own_outputs (network_of net.now.program) home outputs.old.items) }
    ensures fewer { OnOk result (vec_len outputs.new ≤ vec_len outputs.old) }
    ensures stations { OnOk result ((vec_len stations.new ≡ vec_len disks.old)
        × (vec_capacity stations.new ≡ vec_capacity stations.old)) }
    ensures same_outputs { OnErr result (outputs.new.items ≡ outputs.old.items) }
    ensures same_disks { OnErr result (vec_len disks.new ≡ vec_len disks.old) }
    ensures disk_room { vec_capacity disks.new ≡ vec_capacity disks.old }
    ensures handed_back { IfErr result
        (AreHandedBack D.sector_count D.failure_count disks.old.items disks.new.items) }
    ensures as_left { OnErr result (AllZip (IsDiskAsLeft D.sector_count D.content D.may_leave
        D.armed) disks.old.items disks.new.items) }
    ensures refused { IfErr result IsOfReopening }
{
    let Some(disk) = take_last(disks) else {
        return Ok(());
    };
    let number = disks.len() as u8;
    let (Ok(mut own), Ok(others)) = (
        Vec::with_capacity(alloc, outputs.len()),
        Vec::with_capacity(alloc, outputs.len()),
    ) else {
        disks.push_reserved(disk);
        return Err(StoreFault::NoMemory);
    };
    let node = match reopen_node(alloc, number, disk) {
        Ok(node) => node,
        Err(refused) => {
            disks.push_reserved(refused.disk);
            return Err(refused.fault);
        }
    };
    match reopen_stations(alloc, net, disks, outputs, stations) {
        Ok(()) => {
            let given = std::mem::replace(outputs, others);
            part_outputs(net, number, given, &mut own, outputs);
            forget_failures(&mut own);
            stations.push_reserved(Station::new(node, own));
            Ok(())
        }
        Err(fault) => {
            disks.push_reserved(node.into_store().close().close());
            Err(fault)
        }
    }
}

impl<D: Disk, O: Outlet> World<SplitCell<D>, O> {
    /// A world of this network on these inputs over what an earlier one left: its disks, by node number, and its outputs with their
    /// outlets, by channel, as `close` hands them out, or as they lie there where a run ended at some moment.
    ///
    /// Nothing is formatted and nothing is written. All nodes are down, nothing is in flight, and the round is 0. `Recover` brings
    /// each node back from the record on its disk, at once where that is wanted. What has left is what the outlets took. Failures of
    /// outlets are forgotten, and each disk counts its calls from here on; what is armed there stays armed.
    ///
    /// Refuses for want of memory (1) and where a device failed (20), and then hands all disks and outputs back as they were: it may
    /// be called with them again. Since a world left them, nothing else is found: no disk is too small, and none holds no record
    /// (22, 30, 31, 32), that of another node or one that isn't laid out for this network; and no outlet took what isn't covered.
    pub fn open(
        alloc: Global,
        net: Arc<Net>,
        inputs: Inputs,
        disks: Vec<D>,
        outputs: Vec<Output<O>>,
    ) -> Result<World<SplitCell<D>, O>, OpeningRefused<D, O>>
        requires left { AreLeft D.sector_count D.content D.may_leave O.taken
            (network_of net.value.program) inputs disks.items outputs.items }
        // All nodes are down with the records that lie there, and what has left is the same.
        ensures made { IfOk result (IsReopened net inputs disks.items outputs.items) }
        // Refused for no other reasons than those above, and then all that was given is back in its place, as it was.
        ensures refused { IfErr result (IsNotReopened D.sector_count D.content D.may_leave D.armed
            D.failure_count O.taken (network_of net.value.program) inputs disks.items
            outputs.items) }
    {
        let mut disks = disks;
        let mut outputs = outputs;
        let (Ok(inputs), Ok(wire), Ok(mut stations)) = (
            Arrived::new(alloc, inputs),
            Wire::new(alloc),
            Vec::with_capacity(alloc, disks.len()),
        ) else {
            return Err(OpeningRefused {
                disks,
                outputs,
                fault: StoreFault::NoMemory,
            });
        };
        match reopen_stations(alloc, &net, &mut disks, &mut outputs, &mut stations) {
            Ok(()) => Ok(World {
                net,
                inputs,
                stations,
                wire,
                round: 0,
                channel_rooms: Rooms::even(DEFAULT_ROOM),
                closed: none_closed(),
            }),
            Err(fault) => Err(OpeningRefused {
                disks,
                outputs,
                fault,
            }),
        }
    }
}
