// Which process of a node goes on next.
ghost use Rattle.std.specs.Prelude.{◌≡◌, ◌≤◌, ◌<◌, ◌&&◌, ◌↔◌, nat_lt, length, slice_get, IfSome, IsTrue, option_copied, option_map};
ghost use Rattle.protocol.specs.Node.Common.{network_of, log_at, received_at, sent_in, first_log, inbox_log};
ghost use Rattle.protocol.specs.Node.Common.{MAX_CHANNELS};
ghost use Rattle.protocol.specs.Node.Choosing.{has_item, has_room, is_ready, ready_processes, process_at, next_process};
ghost use Rattle.protocol.specs.Node.Sharing.{share_in};
ghost use Rattle.node_memory.specs.AtHand.{StandsIn};
ghost use Rattle.node_memory.specs.Searching.{ComesFirst};
ghost use Rattle.turns.specs.Turns.{least_from};

use crate::granting::{inbox_log, places};
use crate::sharing::share_in;
use arrived::Arrived;
use kahn_net::{Channel, Port};
use net_check::Net;
use proc_step::{NextAct, next_act};
use protocol::{Inbox, Rooms};
use record::{End, Image, SavedProcess};
use retained::Log;
use turns::start_after;

// How many items came up to the end of a log: none where there is no log.
fn end_of(log: Option<&Log>) -> u64
    ensures { result ≡ sent_in (option_copied log.entry) }
{
    match log {
        Some(log) => log.end(),
        None => 0,
    }
}

// Whether an item comes behind those that an end received: in its own log, or else in the inbox of its channel.
fn comes_next(end: Option<&End>, inboxes: &[Inbox], channel: u8) -> bool
    ensures { result ≡ nat_lt (received_at (option_copied end.entry))
        (sent_in (first_log (log_at (option_copied end.entry)) (inbox_log inboxes.now channel))) }
{
    match end {
        Some(End::Both { received, log }) => *received < log.end(),
        Some(End::Sends { log }) => 0 < log.end(),
        Some(End::Receives { received }) => *received < end_of(inbox_log(inboxes, channel)),
        None => 0 < end_of(inbox_log(inboxes, channel)),
    }
}

// Whether a next item of this channel is at hand.
pub(crate) fn has_item(
    channels: &[Channel],
    inputs: &Arrived,
    image: &Image,
    inboxes: &[Inbox],
    channel: usize,
) -> bool
    requires { length channels.now ≤ MAX_CHANNELS }
    ensures { result
        ≡ has_item inputs.now.came image.now inboxes.now channel (slice_get channels.now channel) }
{
    match channels.get(channel) {
        Some(ends) => match ends.producer {
            Port::Outside => image.received(channel as u8) < inputs.count(channel),
            Port::Process(_) => comes_next(image.end(channel as u8), inboxes, channel as u8),
        },
        None => false,
    }
}

// Whether there is room on this channel, where the log of each has places up to its room and to this share.
pub(crate) fn has_room(
    channels: &[Channel],
    rooms: &Rooms,
    share: usize,
    image: &Image,
    channel: usize,
) -> bool
    requires { length channels.now ≤ MAX_CHANNELS }
    ensures { result ≡ has_room (share_in rooms.now share) image.now channel (slice_get channels.now channel) }
{
    channel < channels.len()
        && places(
            share_in(rooms, share, channel as u8),
            image.log(channel as u8),
        ) > 0
}

// Whether a process can go on.
fn is_ready(
    net: &Net,
    inputs: &Arrived,
    rooms: &Rooms,
    share: usize,
    image: &Image,
    inboxes: &[Inbox],
    saved: &SavedProcess,
) -> bool
    ensures { result
        ≡ is_ready (network_of net.now.program) inputs.now.came (share_in rooms.now share) image.now inboxes.now saved.now }
{
    match net.program.processes.get(usize::from(saved.number)) {
        Some(_) => match next_act(net, usize::from(saved.number), &saved.state) {
            NextAct::Begin => true,
            NextAct::Get { channel } => {
                has_item(&net.program.channels, inputs, image, inboxes, channel)
            },
            NextAct::Put { channel } => has_room(
                &net.program.channels,
                rooms,
                share,
                image,
                channel,
            ),
            NextAct::Nothing => false,
        },
        None => false,
    }
}

// Whether a process comes first so far: from this number on, before the one found, and ready.
fn comes_first(
    net: &Net,
    inputs: &Arrived,
    rooms: &Rooms,
    share: usize,
    image: &Image,
    inboxes: &[Inbox],
    start: usize,
    found: Option<&SavedProcess>,
    saved: &SavedProcess,
) -> bool
    ensures { IsTrue result ↔ ComesFirst
        (is_ready (network_of net.now.program) inputs.now.came (share_in rooms.now share) image.now inboxes.now)
        start (option_copied found.entry) saved.now }
{
    if usize::from(saved.number) < start {
        return false;
    }
    if let Some(found) = found
        && found.number <= saved.number
    {
        return false;
    }
    is_ready(net, inputs, rooms, share, image, inboxes, saved)
}

// The ready process with the least number from this one on. Where they stand in order of their numbers, none is asked
// behind the one that is found.
fn ready_from<'a>(
    net: &Net,
    inputs: &Arrived,
    rooms: &Rooms,
    share: usize,
    image: &'a Image,
    inboxes: &[Inbox],
    start: usize,
) -> Option<&'a SavedProcess>
    ensures process { let net = network_of net.now.program in
        option_copied result ≡ process_at net inputs.now.came (share_in rooms.now share) image.now inboxes.now
        (least_from start (ready_processes net inputs.now.came (share_in rooms.now share) image.now inboxes.now)) }
    ensures number { option_map (λ saved. saved.number) (option_copied result)
        ≡ least_from start (ready_processes (network_of net.now.program) inputs.now.came (share_in rooms.now share) image.now inboxes.now) }
{
    let mut found: Option<&SavedProcess> = None;
    for saved in &image.processes {
        if comes_first(
            net, inputs, rooms, share, image, inboxes, start, found, saved,
        ) {
            found = Some(saved);
        }
    }
    found
}

// The ready process with the least number after the last one, beginning again at the least, where the log of
// each channel has places up to its room and to this share.
pub(crate) fn next_process<'a>(
    net: &Net,
    inputs: &Arrived,
    rooms: &Rooms,
    share: usize,
    image: &'a Image,
    inboxes: &[Inbox],
    last: Option<u8>,
) -> Option<&'a SavedProcess>
    ensures chosen { option_copied result
        ≡ next_process (network_of net.now.program) inputs.now.came (share_in rooms.now share) image.now inboxes.now last }
    ensures there { IfSome result
        (λ saved. saved.now.number < length net.now.program.processes.items) }
    ensures place { IfSome result (λ saved. StandsIn image.now saved.now) }
{
    match ready_from(net, inputs, rooms, share, image, inboxes, start_after(last)) {
        Some(saved) => Some(saved),
        None => ready_from(net, inputs, rooms, share, image, inboxes, 0),
    }
}
