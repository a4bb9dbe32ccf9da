// When nothing is left to do at a station.
ghost use Rattle.std.specs.Prelude.{◌≡◌, ◌≤◌, length, map, slice_get};
ghost use Rattle.protocol.specs.Node.Common.{network_of, running_of, MAX_CHANNELS};
ghost use Rattle.node.specs.NodeOf.{view_of};
ghost use Rattle.protocol.specs.World.Common.{outputs_of};
ghost use Rattle.protocol.specs.World.Quiet.{sent_by, put_on_by, has_got_all, is_at_rest, are_at_rest, has_been_put, have_been_put, have_all_left, is_quiet_at};
ghost use Rattle.station.specs.StationView.{outlet_views};
ghost use Rattle.station.specs.StationView.{station_view};

use crate::output::Output;
use crate::station::Station;
use arrived::Arrived;
use kahn_net::{Channel, Port};
use net_check::Net;
use node::Mode;
use outlet::Outlet;
use proc_step::{NextAct, next_act};
use record::{Image, SavedProcess};
use slot_cell::SlotCell;

impl<C: SlotCell, O: Outlet> Station<C, O> {
    // How many items its node has put on a channel by now; none where it doesn't run.
    pub(crate) fn sent(&self, channel: u8) -> u64
        ensures { result ≡ sent_by channel (running_of (view_of self.now.node)) }
    {
        match &self.node.state.mode {
            Mode::Running(running) => running.current.sent(channel),
            Mode::Down | Mode::InDoubt => 0,
        }
    }
}

// How many items a process has put on a channel by now, as its own node says.
fn put_on_by<C: SlotCell, O: Outlet>(
    net: &Net,
    stations: &[Station<C, O>],
    channel: u8,
    number: usize,
) -> u64
    ensures { result ≡ put_on_by (map (station_view O.taken O.failures) stations.now) channel
        (slice_get (network_of net.now.program).codes number) }
{
    match net.program.processes.get(number) {
        Some(process) => match stations.get(usize::from(process.node)) {
            Some(station) => station.sent(channel),
            None => 0,
        },
        None => 0,
    }
}

// Whether each item of a channel was received: of an input all that there are, of any other all that were put by now.
fn has_got_all<C: SlotCell, O: Outlet>(
    net: &Net,
    channels: &[Channel],
    inputs: &Arrived,
    stations: &[Station<C, O>],
    image: &Image,
    channel: usize,
) -> bool
    requires { length channels.now ≤ MAX_CHANNELS }
    ensures { result ≡ has_got_all (network_of net.now.program) inputs.now.came
        (map (station_view O.taken O.failures) stations.now) image.now channel
        (slice_get channels.now channel) }
{
    match channels.get(channel) {
        Some(ends) => match ends.producer {
            Port::Outside => image.received(channel as u8) == inputs.count(channel),
            Port::Process(number) => {
                image.received(channel as u8) == put_on_by(net, stations, channel as u8, number)
            }
        },
        None => false,
    }
}

// Whether a process can do nothing more: it has finished, or it gets from a channel of which every item was received.
fn is_at_rest<C: SlotCell, O: Outlet>(
    net: &Net,
    inputs: &Arrived,
    stations: &[Station<C, O>],
    image: &Image,
    saved: &SavedProcess,
) -> bool
    ensures { result ≡ is_at_rest (network_of net.now.program) inputs.now.came
        (map (station_view O.taken O.failures) stations.now) image.now saved.now }
{
    match net.program.processes.get(usize::from(saved.number)) {
        Some(_) => match next_act(net, usize::from(saved.number), &saved.state) {
            NextAct::Begin => false,
            NextAct::Get { channel } => has_got_all(
                net,
                &net.program.channels,
                inputs,
                stations,
                image,
                channel,
            ),
            NextAct::Put { .. } => false,
            NextAct::Nothing => true,
        },
        None => true,
    }
}

// Whether no process can do anything more.
fn are_at_rest<C: SlotCell, O: Outlet>(
    net: &Net,
    inputs: &Arrived,
    stations: &[Station<C, O>],
    image: &Image,
) -> bool
    ensures { result ≡ are_at_rest (network_of net.now.program) inputs.now.came
        (map (station_view O.taken O.failures) stations.now) image.now image.now.processes }
{
    for saved in &image.processes {
        if !is_at_rest(net, inputs, stations, image, saved) {
            return false;
        }
    }
    true
}

// Whether no more was received of a channel between processes than was put there by now.
fn has_been_put<C: SlotCell, O: Outlet>(
    net: &Net,
    stations: &[Station<C, O>],
    image: &Image,
    channel: u8,
) -> bool
    ensures { result ≡ has_been_put (network_of net.now.program)
        (map (station_view O.taken O.failures) stations.now) image.now channel
        (slice_get (network_of net.now.program).channels channel) }
{
    match net.program.channels.get(usize::from(channel)) {
        Some(ends) => match ends.producer {
            Port::Outside => true,
            Port::Process(number) => {
                image.received(channel) <= put_on_by(net, stations, channel, number)
            }
        },
        None => true,
    }
}

// The same of each channel of which the node has an end.
fn have_been_put<C: SlotCell, O: Outlet>(
    net: &Net,
    stations: &[Station<C, O>],
    image: &Image,
) -> bool
    ensures { result ≡ have_been_put (network_of net.now.program)
        (map (station_view O.taken O.failures) stations.now) image.now image.now.ends }
{
    for saved in &image.ends {
        if !has_been_put(net, stations, image, saved.channel) {
            return false;
        }
    }
    true
}

// Whether each outlet has all that was put.
pub(crate) fn have_all_left<O: Outlet>(image: &Image, outputs: &[Output<O>]) -> bool
    ensures { result ≡ have_all_left image.now
        (outputs_of (outlet_views O.taken O.failures outputs.now)) }
{
    for output in outputs {
        if output.outlet.len() != image.sent(output.channel) {
            return false;
        }
    }
    true
}

impl<C: SlotCell, O: Outlet> Station<C, O> {
    /// Whether nothing is left to do here, beside these stations: the node runs, no job is out, all that was put has left, no
    /// process can do more than it did, and nothing was received that wasn't put. What is known soonest comes first. Takes no
    /// memory.
    pub fn is_complete(&self, net: &Net, inputs: &Arrived, stations: &[Station<C, O>]) -> bool
        ensures { result ≡ is_quiet_at (network_of net.now.program) inputs.now.came
            (map (station_view O.taken O.failures) stations.now)
            (running_of (view_of self.now.node))
            (outputs_of (outlet_views O.taken O.failures self.now.outputs.items)) }
    {
        match &self.node.state.mode {
            Mode::Running(running) => {
                running.out.is_none()
                    && have_all_left(&running.current, &self.outputs)
                    && are_at_rest(net, inputs, stations, &running.current)
                    && have_been_put(net, stations, &running.current)
            }
            Mode::Down | Mode::InDoubt => false,
        }
    }
}
