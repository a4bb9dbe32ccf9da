// How a process of a station's node stands beside the other stations.
ghost use Rattle.std.specs.Prelude.{◌≡◌, ◌==◌, ℕ, Some, find, map, slice_get};
ghost use Rattle.protocol.specs.Node.Common.{RecordView, network_of, running_node, running_of};
ghost use Rattle.node.specs.NodeOf.{view_of};
ghost use Rattle.node.specs.Memory.{running_view};
ghost use Rattle.protocol.specs.World.Common.{outputs_of};
ghost use Rattle.protocol.specs.World.Stances.{beside_others, got_at, got_by, has_what_was_got, is_coming, is_leaving, lacks_items, stance_at};
ghost use Rattle.station.specs.StationView.{outlet_views};
ghost use Rattle.station.specs.StationView.{station_view};

use crate::output::Output;
use crate::station::Station;
use crate::still::has_come_from;
use arrived::Arrived;
use layout::consumer_node;
use net_check::Net;
use node::{Mode, Running};
use outlet::Outlet;
use protocol::{Inbox, Outbox, Rooms, Stance};
use record::Image;
use slot_cell::SlotCell;

impl<C: SlotCell, O: Outlet> Station<C, O> {
    // How many items of a channel its node has got by now; none where it doesn't run.
    fn got(&self, channel: u8) -> u64
        ensures { result ≡ got_by channel (running_of (view_of self.now.node)) }
    {
        match &self.node.state.mode {
            Mode::Running(running) => running.current.received(channel),
            Mode::Down | Mode::InDoubt => 0,
        }
    }
}

// How many items of a channel the node of this number has got by now.
fn got_at<C: SlotCell, O: Outlet>(stations: &[Station<C, O>], number: u8, channel: u8) -> u64
    ensures { result ≡ got_at channel
        (slice_get (map (station_view O.taken O.failures) stations.now) number) }
{
    match stations.get(usize::from(number)) {
        Some(station) => station.got(channel),
        None => 0,
    }
}

// Whether more of a channel comes to one of these inboxes.
fn is_coming<C: SlotCell, O: Outlet>(
    net: &Net,
    stations: &[Station<C, O>],
    inboxes: &[Inbox],
    channel: usize,
) -> bool
    ensures { result ≡ is_coming (network_of net.now.program)
        (map (station_view O.taken O.failures) stations.now) inboxes.now channel }
{
    for inbox in inboxes {
        if usize::from(inbox.channel) == channel {
            return !has_come_from(net, stations, inbox);
        }
    }
    false
}

// Whether the log of a channel to another node has items that were got there by now.
fn has_what_was_got<C: SlotCell, O: Outlet>(
    net: &Net,
    stations: &[Station<C, O>],
    image: &Image,
    outboxes: &[Outbox],
    channel: usize,
) -> bool
    ensures { result ≡ has_what_was_got (network_of net.now.program)
        (map (station_view O.taken O.failures) stations.now) image.now
        (find (λ outbox. outbox.channel == channel) outboxes.now) }
{
    for outbox in outboxes {
        if usize::from(outbox.channel) == channel {
            let to = consumer_node(net, usize::from(outbox.channel));
            return image.base(outbox.channel) < got_at(stations, to, outbox.channel);
        }
    }
    false
}

// Whether the outlet of a channel, if there is one, hasn't got all that was put.
fn lacks_items<O: Outlet>(image: &Image, outputs: &[Output<O>], channel: usize) -> bool
    ensures { result ≡ lacks_items image.now (find (λ output. output.channel == channel)
        (outputs_of (outlet_views O.taken O.failures outputs.now))) }
{
    for output in outputs {
        if usize::from(output.channel) == channel {
            return output.outlet.len() < image.sent(output.channel);
        }
    }
    false
}

// Whether the log of a channel lets go of items by and by, though no more are got.
fn is_leaving<C: SlotCell, O: Outlet>(
    net: &Net,
    stations: &[Station<C, O>],
    running: &Running,
    outputs: &[Output<O>],
    channel: usize,
) -> bool
    ensures { (kept : RecordView) (version : ℕ) → result ≡ is_leaving (network_of net.now.program)
        (map (station_view O.taken O.failures) stations.now)
        (running_node kept version (running_view running.now))
        (outputs_of (outlet_views O.taken O.failures outputs.now)) channel }
{
    has_what_was_got(net, stations, &running.current, &running.outboxes, channel)
        || lacks_items(&running.current, outputs, channel)
}

// How a process stands beside these stations that stands so at its node.
fn beside_others<C: SlotCell, O: Outlet>(
    net: &Net,
    stations: &[Station<C, O>],
    running: &Running,
    outputs: &[Output<O>],
    stance: Stance,
) -> Stance
    ensures { (kept : RecordView) (version : ℕ) → result ≡ beside_others (network_of net.now.program)
        (map (station_view O.taken O.failures) stations.now)
        (running_node kept version (running_view running.now))
        (outputs_of (outlet_views O.taken O.failures outputs.now)) stance }
{
    match stance {
        Stance::GoesOn => Stance::GoesOn,
        Stance::Ended => Stance::Ended,
        Stance::Waits { channel } => {
            if is_coming(net, stations, &running.inboxes, channel) {
                Stance::GoesOn
            } else {
                Stance::Waits { channel }
            }
        }
        Stance::Held { channel } => {
            if is_leaving(net, stations, running, outputs, channel) {
                Stance::GoesOn
            } else {
                Stance::Held { channel }
            }
        }
        Stance::Full { channel } => {
            if is_leaving(net, stations, running, outputs, channel) {
                Stance::GoesOn
            } else {
                Stance::Full { channel }
            }
        }
    }
}

impl<C: SlotCell, O: Outlet> Station<C, O> {
    /// How the process of this number stands, if it is of this node, where channels have these rooms, beside these stations:
    /// whether it goes on while no channel gets more room, and else what it waits for. Takes no memory.
    pub fn stance(
        &self,
        net: &Net,
        inputs: &Arrived,
        rooms: &Rooms,
        stations: &[Station<C, O>],
        process: usize,
    ) -> Stance
        ensures { result ≡ stance_at (network_of net.now.program) inputs.now.came rooms.now
            (map (station_view O.taken O.failures) stations.now) process
            (Some (station_view O.taken O.failures self.now)) }
    {
        match &self.node.state.mode {
            Mode::Running(running) => beside_others(
                net,
                stations,
                running,
                &self.outputs,
                running.stance(net, inputs, rooms, self.node.state.version, process),
            ),
            Mode::Down | Mode::InDoubt => Stance::GoesOn,
        }
    }
}
