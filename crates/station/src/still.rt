// Whether anything is to be done at a station while its world gets no more room.
ghost use Rattle.std.specs.Prelude.{◌≡◌, map, slice_get};
ghost use Rattle.std.specs.List.{list_all};
ghost use Rattle.protocol.specs.Node.Common.{network_of, running_node, running_of};
ghost use Rattle.node.specs.NodeOf.{view_of};
ghost use Rattle.node.specs.NodeView.{node_view};
ghost use Rattle.node.specs.Memory.{running_view};
ghost use Rattle.kahn_net.specs.declared.program.Port.TheVariants.{Process};
ghost use Rattle.protocol.specs.Node.Layout.{node_at};
ghost use Rattle.protocol.specs.Node.Popping.{has_place};
ghost use Rattle.protocol.specs.World.Common.{outputs_of};
ghost use Rattle.protocol.specs.World.Quiet.{sent_at};
ghost use Rattle.protocol.specs.World.Still.{has_come, has_come_from, has_let_go, is_settled_at, is_still, keeps_all, kept_at, kept_by, kept_for_good, kept_from};
ghost use Rattle.station.specs.StationView.{outlet_views};
ghost use Rattle.station.specs.StationView.{station_view};

use crate::output::Output;
use crate::picking::has_more;
use crate::quiet::have_all_left;
use crate::station::Station;
use arrived::Arrived;
use kahn_net::{MAX_COUNT, Port};
use layout::{consumer_node, producer_node};
use net_check::Net;
use node::{Mode, NodeState, Running};
use outlet::Outlet;
use protocol::{Inbox, MAX_INBOX_ITEMS, Outbox, Rooms};
use record::{Image, Record};
use retained::Log;
use slot_cell::SlotCell;

// How many items the node of this number has put on a channel by now; none where there is none, or where it doesn't run.
fn sent_at<C: SlotCell, O: Outlet>(stations: &[Station<C, O>], number: u8, channel: u8) -> u64
    ensures { result ≡ sent_at channel
        (slice_get (map (station_view O.taken O.failures) stations.now) number) }
{
    match stations.get(usize::from(number)) {
        Some(station) => station.sent(channel),
        None => 0,
    }
}

// How many items of a channel a node with this record keeps for good; none where it doesn't run.
fn kept_by(state: &NodeState, kept: &Record, channel: u8) -> u64
    ensures { result ≡ kept_by channel (running_of (node_view kept.now state.now)) }
{
    match &state.mode {
        Mode::Running(_) => kept.permanent.received(channel),
        Mode::Down | Mode::InDoubt => 0,
    }
}

impl<C: SlotCell, O: Outlet> Station<C, O> {
    // How many items of a channel its node keeps for good.
    fn kept(&self, channel: u8) -> u64
        ensures { result ≡ kept_by channel (running_of (view_of self.now.node)) }
    {
        let node = &self.node;
        match node.store.record() {
            Ok(kept) => kept_by(&node.state, kept, channel),
            Err(_) => 0,
        }
    }
}

// How many items of a channel the node of this number keeps for good.
fn kept_at<C: SlotCell, O: Outlet>(stations: &[Station<C, O>], number: u8, channel: u8) -> u64
    ensures { result ≡ kept_at channel
        (slice_get (map (station_view O.taken O.failures) stations.now) number) }
{
    match stations.get(usize::from(number)) {
        Some(station) => station.kept(channel),
        None => 0,
    }
}

// How many items of a channel the node of a process keeps for good; none where there is no such process.
fn kept_with<C: SlotCell, O: Outlet>(
    net: &Net,
    stations: &[Station<C, O>],
    process: usize,
    channel: u8,
) -> u64
    ensures { result ≡ kept_from (map (station_view O.taken O.failures) stations.now) channel
        (node_at (network_of net.now.program) (Process process)) }
{
    match net.program.processes.get(process) {
        Some(process) => kept_at(stations, process.node, channel),
        None => 0,
    }
}

/// How many items of a channel the node that gets them keeps for good; none where it doesn't run, or where no process gets them.
pub fn kept_for_good<C: SlotCell, O: Outlet>(
    net: &Net,
    stations: &[Station<C, O>],
    channel: u8,
) -> u64
    ensures { result ≡ kept_for_good (network_of net.now.program)
        (map (station_view O.taken O.failures) stations.now) channel }
{
    match net.program.channels.get(usize::from(channel)) {
        Some(ends) => match ends.consumer {
            Port::Outside => 0,
            Port::Process(process) => kept_with(net, stations, process, channel),
        },
        None => 0,
    }
}

// Whether an inbox has a place for one item more.
fn has_place(log: &Log) -> bool
    ensures { result ≡ has_place log.now }
{
    log.len() < MAX_INBOX_ITEMS && log.end() < MAX_COUNT
}

// Whether nothing more comes to an inbox into which so many items were put by now.
fn has_come(sent: u64, inbox: &Inbox) -> bool
    ensures { result ≡ has_come sent inbox.now }
{
    if has_place(&inbox.log) {
        inbox.window.ack().next == sent
    } else {
        inbox.window.ack().next <= sent
    }
}

// Whether nothing more comes to an inbox, beside these stations.
pub(crate) fn has_come_from<C: SlotCell, O: Outlet>(
    net: &Net,
    stations: &[Station<C, O>],
    inbox: &Inbox,
) -> bool
    ensures { result ≡ has_come_from (network_of net.now.program)
        (map (station_view O.taken O.failures) stations.now) inbox.now }
{
    let from = producer_node(net, usize::from(inbox.channel));
    has_come(sent_at(stations, from, inbox.channel), inbox)
}

// Whether nothing more comes to any of these inboxes.
fn have_come<C: SlotCell, O: Outlet>(
    net: &Net,
    stations: &[Station<C, O>],
    inboxes: &[Inbox],
) -> bool
    ensures { result ≡ list_all (has_come_from (network_of net.now.program)
        (map (station_view O.taken O.failures) stations.now)) inboxes.now }
{
    for inbox in inboxes {
        if !has_come_from(net, stations, inbox) {
            return false;
        }
    }
    true
}

// Whether the log of a channel to another node has let go of all that is kept for good there.
fn has_let_go<C: SlotCell, O: Outlet>(
    net: &Net,
    stations: &[Station<C, O>],
    image: &Image,
    outbox: &Outbox,
) -> bool
    ensures { result ≡ has_let_go (network_of net.now.program)
        (map (station_view O.taken O.failures) stations.now) image.now outbox.now }
{
    let to = consumer_node(net, usize::from(outbox.channel));
    kept_at(stations, to, outbox.channel) <= image.base(outbox.channel)
}

// Whether the log of each of these channels has.
fn have_let_go<C: SlotCell, O: Outlet>(
    net: &Net,
    stations: &[Station<C, O>],
    image: &Image,
    outboxes: &[Outbox],
) -> bool
    ensures { result ≡ list_all (has_let_go (network_of net.now.program)
        (map (station_view O.taken O.failures) stations.now) image.now) outboxes.now }
{
    for outbox in outboxes {
        if !has_let_go(net, stations, image, outbox) {
            return false;
        }
    }
    true
}

// Whether a node that runs has nothing to keep or to confirm.
fn keeps_all(running: &Running, kept: &Record, version: u64) -> bool
    ensures { result ≡ keeps_all (running_node kept.now version (running_view running.now)) }
{
    kept.tentative.is_none()
        && kept.decisions.is_empty()
        && running.out.is_none()
        && !has_more(&running.current, &kept.permanent)
}

// Whether a node with this record runs, and all of it is settled, beside these stations. What is known soonest comes first.
fn is_settled<C: SlotCell, O: Outlet>(
    net: &Net,
    stations: &[Station<C, O>],
    state: &NodeState,
    kept: &Record,
    outputs: &[Output<O>],
) -> bool
    ensures { result ≡ is_settled_at (network_of net.now.program)
        (map (station_view O.taken O.failures) stations.now)
        (running_of (node_view kept.now state.now))
        (outputs_of (outlet_views O.taken O.failures outputs.now)) }
{
    match &state.mode {
        Mode::Running(running) => {
            keeps_all(running, kept, state.version)
                && have_all_left(&running.current, outputs)
                && have_come(net, stations, &running.inboxes)
                && have_let_go(net, stations, &running.current, &running.outboxes)
        }
        Mode::Down | Mode::InDoubt => false,
    }
}

impl<C: SlotCell, O: Outlet> Station<C, O> {
    /// Whether nothing is to be done here where channels have these rooms, beside these stations: its node is settled, and can
    /// grant no job. Takes no memory.
    pub fn is_still(
        &self,
        net: &Net,
        inputs: &Arrived,
        rooms: &Rooms,
        stations: &[Station<C, O>],
    ) -> bool
        ensures { result ≡ is_still (network_of net.now.program) inputs.now.came rooms.now
            (map (station_view O.taken O.failures) stations.now)
            (station_view O.taken O.failures self.now) }
    {
        let node = &self.node;
        match node.store.record() {
            Ok(kept) => {
                is_settled(net, stations, &node.state, kept, &self.outputs)
                    && !node.has_job(net, inputs, rooms)
            }
            Err(_) => false,
        }
    }
}
