// Which channel of a world needs more room, and how it gets more.
ghost use Rattle.std.specs.Prelude.{◌≡◌, length, map, slice_get};
ghost use Rattle.protocol.specs.Node.Common.{network_of};
ghost use Rattle.protocol.specs.Node.Layout.{has_process};
ghost use Rattle.protocol.specs.World.RoomNeeds.{awaited, first_of_any, getter_of, held_on, is_going, is_held, need_of, need_on, needed_for, process_on, putter_of, way_from, widened_at};
ghost use Rattle.protocol.specs.World.Stances.{stance_of};
ghost use Rattle.turns.specs.Turns.{or_else};
ghost use Rattle.station.specs.StationView.{station_view};
ghost use Rattle.world.specs.WholeView.{arrived_in, closed_in, net_in, stations_in, wire_in, world_of};

use crate::world::World;
use arrived::Arrived;
use kahn_net::Port;
use net_check::Net;
use outlet::Outlet;
use protocol::{Rooms, Stance};
use slot_cell::SlotCell;
use station::Station;

// How the process of this number stands.
fn stance_of<C: SlotCell, O: Outlet>(
    net: &Net,
    inputs: &Arrived,
    rooms: &Rooms,
    stations: &[Station<C, O>],
    process: usize,
) -> Stance
    ensures { result ≡ stance_of (network_of net.now.program) inputs.now.came rooms.now
        (map (station_view O.taken O.failures) stations.now) process }
{
    match net.program.processes.get(process) {
        Some(code) => match stations.get(usize::from(code.node)) {
            Some(station) => station.stance(net, inputs, rooms, stations, process),
            None => Stance::Ended,
        },
        None => Stance::Ended,
    }
}

// The process at an end of a channel.
fn process_on(port: Port) -> Option<usize>
    ensures { result ≡ process_on port }
{
    match port {
        Port::Outside => None,
        Port::Process(process) => Some(process),
    }
}

// The process that puts on a channel.
fn putter_of(net: &Net, channel: usize) -> Option<usize>
    ensures { result ≡ putter_of (slice_get (network_of net.now.program).channels channel) }
{
    match net.program.channels.get(channel) {
        Some(ends) => process_on(ends.producer),
        None => None,
    }
}

// The process that gets from a channel.
fn getter_of(net: &Net, channel: usize) -> Option<usize>
    ensures { result ≡ getter_of (slice_get (network_of net.now.program).channels channel) }
{
    match net.program.channels.get(channel) {
        Some(ends) => process_on(ends.consumer),
        None => None,
    }
}

// The process for which one waits that stands so.
fn awaited(net: &Net, stance: Stance) -> Option<usize>
    ensures { result ≡ awaited (network_of net.now.program) stance }
{
    match stance {
        Stance::GoesOn => None,
        Stance::Ended => None,
        Stance::Waits { channel } => putter_of(net, channel),
        Stance::Held { channel } => getter_of(net, channel),
        Stance::Full { channel } => getter_of(net, channel),
    }
}

// Whether a process goes on that stands so.
fn is_going(stance: Stance) -> bool
    ensures { result ≡ is_going stance }
{
    match stance {
        Stance::GoesOn => true,
        Stance::Ended | Stance::Waits { .. } | Stance::Held { .. } | Stance::Full { .. } => false,
    }
}

// The channel at which a process is held that stands so; where it isn't, this one.
fn held_or(stance: Stance, last: Option<usize>) -> Option<usize>
    ensures { result ≡ or_else (held_on stance) last }
{
    match stance {
        Stance::Held { channel } => Some(channel),
        Stance::GoesOn | Stance::Ended | Stance::Waits { .. } | Stance::Full { .. } => last,
    }
}

// The channel at which the last one is held on the way from a process, if nobody on it goes on. It asks how each one stands as it comes
// to it, up to the first that goes on.
fn need_from<C: SlotCell, O: Outlet>(
    net: &Net,
    inputs: &Arrived,
    rooms: &Rooms,
    stations: &[Station<C, O>],
    process: usize,
) -> Option<usize>
    ensures { result ≡ need_on (stance_of (network_of net.now.program) inputs.now.came rooms.now
        (map (station_view O.taken O.failures) stations.now))
        (way_from (network_of net.now.program) (stance_of (network_of net.now.program) inputs.now.came rooms.now
        (map (station_view O.taken O.failures) stations.now)) process) }
{
    let mut last = None;
    let mut next = Some(process);
    for _step in 0..net.program.processes.len() + 1 {
        match next {
            Some(process) => {
                let stance = stance_of(net, inputs, rooms, stations, process);
                if is_going(stance) {
                    return None;
                }
                last = held_or(stance, last);
                next = awaited(net, stance);
            }
            None => return last,
        }
    }
    last
}

// Whether a process is held that stands so.
fn is_held(stance: Stance) -> bool
    ensures { result ≡ is_held stance }
{
    match stance {
        Stance::Held { .. } => true,
        Stance::GoesOn | Stance::Ended | Stance::Waits { .. } | Stance::Full { .. } => false,
    }
}

// Whether the process of this number is one of a node.
fn has_process(net: &Net, node: u8, process: usize) -> bool
    ensures { result ≡ has_process (network_of net.now.program) node process }
{
    match net.program.processes.get(process) {
        Some(code) => code.node == node,
        None => false,
    }
}

// What is needed on the way from a process, if it is one of this node and is held for want of room.
fn need_of<C: SlotCell, O: Outlet>(
    net: &Net,
    inputs: &Arrived,
    rooms: &Rooms,
    stations: &[Station<C, O>],
    node: u8,
    process: usize,
) -> Option<usize>
    ensures { result ≡ need_of (network_of net.now.program) (stance_of (network_of net.now.program) inputs.now.came rooms.now
        (map (station_view O.taken O.failures) stations.now)) node process }
{
    if has_process(net, node, process)
        && is_held(stance_of(net, inputs, rooms, stations, process))
    {
        need_from(net, inputs, rooms, stations, process)
    } else {
        None
    }
}

// The channel that is needed, as the first process of a node that shows one has it.
fn first_need<C: SlotCell, O: Outlet>(
    net: &Net,
    inputs: &Arrived,
    rooms: &Rooms,
    stations: &[Station<C, O>],
    node: u8,
) -> Option<usize>
    ensures { result ≡ first_of_any (need_of (network_of net.now.program) (stance_of (network_of net.now.program) inputs.now.came
        rooms.now (map (station_view O.taken O.failures) stations.now)) node) 0 (length (network_of net.now.program).codes) }
{
    for process in 0..net.program.processes.len() {
        let need = need_of(net, inputs, rooms, stations, node, process);
        match need {
            Some(channel) => return Some(channel),
            None => {}
        }
    }
    None
}

impl<C: SlotCell, O: Outlet> World<C, O> {
    /// The channel that needs more room, as a process of this node shows, if one does. That process is held at a put for want of room. A way
    /// leads on from each process to the one for which it waits, and nobody on the way from this process goes on in the world as it stands.
    /// Whatever else goes on beside these processes plays no part. The channel is that of the last put that is held on this way. Where the way
    /// goes round by a put that is held, it is the channel of one on the round. Whether one of these processes goes on later without more
    /// room, no clause says. Takes no memory.
    pub fn needed_for(&self, node: u8) -> Option<u8>
        ensures { result ≡ needed_for (world_of self.now) node }
    {
        let need = first_need(
            &self.net,
            &self.inputs,
            &self.channel_rooms,
            &self.stations,
            node,
        );
        match need {
            // (A network has at most 256 channels.)
            Some(channel) => Some(channel as u8),
            None => None,
        }
    }

    /// Doubles how many items a channel retains at most, up to `MAX_RETAINED_ITEMS`. Takes no memory.
    pub fn widen_at(&mut self, channel: u8)
        // Its room is what differs, and nothing else.
        ensures set { world_of self.new ≡ widened_at channel (world_of self.old) }
        ensures same { (net_in self.new ≡ net_in self.old) × (arrived_in self.new ≡ arrived_in self.old)
            × (stations_in self.new ≡ stations_in self.old) × (wire_in self.new ≡ wire_in self.old) }
        ensures same_closed { closed_in self.new ≡ closed_in self.old }
    {
        self.channel_rooms.widen(channel);
    }
}
