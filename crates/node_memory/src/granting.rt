// The job that a process of a node is given.
ghost use Rattle.std.specs.Prelude.{◌≡◌, ◌≤◌, ◌<◌, IfOk, length, option_copied};
ghost use Rattle.protocol.specs.Node.Common.{network_of, inbox_log, is_process, next_in_log, next_items, items_from};
ghost use Rattle.protocol.specs.Node.Common.{room_from, source_of, MAX_CHANNELS};
ghost use Rattle.node_memory.specs.AtHand.{IsAtHandOf, IsAtHandFor};
ghost use Rattle.node_memory.specs.JobView.{job_view};
ghost use Rattle.protocol.specs.Node.Granting.{room_in, job_for};
ghost use Rattle.protocol.specs.Node.Sharing.{share_in};

use crate::sharing::share_in;
use arrived::Arrived;
use kahn_net::{Channel, History, MAX_COUNT, Port};
use net_check::Net;
use proc_step::Job;
use protocol::{Inbox, MAX_JOB_ITEMS, Rooms};
use record::{Image, SavedProcess};
use retained::Log;
use std::alloc::{AllocError, Global};
use std::sync::Arc;

/// Whether this process stands at an end of a channel.
pub(crate) fn is_at(port: Port, process: usize) -> bool
    ensures { result ≡ is_process process port }
{
    match port {
        Port::Outside => false,
        Port::Process(number) => process == number,
    }
}

// A copy of the items of a log that come next behind so many, at most as many as a job may have.
fn copy_logged(alloc: Global, log: Option<&Log>, received: u64) -> Result<History, AllocError>
    ensures { IfOk result (λ items. items ≡ next_in_log received (option_copied log.entry)) }
{
    match log {
        Some(log) => Ok(History::from_vec(log.copy_since(alloc, received, MAX_JOB_ITEMS)?)),
        None => Ok(History::new(alloc)),
    }
}

/// The log of the inbox of a channel.
pub(crate) fn inbox_log(inboxes: &[Inbox], channel: u8) -> Option<&Log>
    ensures { option_copied result ≡ inbox_log inboxes.now channel }
{
    for inbox in inboxes {
        if inbox.channel == channel {
            return Some(&inbox.log);
        }
    }
    None
}

// The log from which a process of the node gets the items of a channel.
fn source<'a>(image: &'a Image, inboxes: &'a [Inbox], channel: u8) -> Option<&'a Log>
    ensures { option_copied result ≡ source_of image.now inboxes.now channel }
{
    match image.log(channel) {
        Some(log) => Some(log),
        None => inbox_log(inboxes, channel),
    }
}

// A copy of the items that are at hand of a channel whose items come from there.
fn copy_next(
    alloc: Global,
    inputs: &Arrived,
    image: &Image,
    inboxes: &[Inbox],
    channel: u8,
    producer: Port,
) -> Result<History, AllocError>
    requires at_hand { IsAtHandOf inputs.now.bases image.now channel producer }
    ensures { IfOk result
        (λ items. items ≡ next_items inputs.now.came image.now inboxes.now channel producer) }
{
    match producer {
        Port::Outside => inputs.copy_since(
            alloc,
            usize::from(channel),
            image.received(channel),
            MAX_JOB_ITEMS,
        ),
        Port::Process(_) => copy_logged(
            alloc,
            source(image, inboxes, channel),
            image.received(channel),
        ),
    }
}

// What a process has at hand of each channel.
fn copy_items(
    alloc: Global,
    channels: &[Channel],
    inputs: &Arrived,
    image: &Image,
    inboxes: &[Inbox],
    process: usize,
) -> Result<Vec<History>, AllocError>
    requires few { length channels.now ≤ MAX_CHANNELS }
    requires at_hand { IsAtHandFor channels.now inputs.now.bases image.now process }
    ensures { IfOk result (λ items. items.items
        ≡ items_from inputs.now.came image.now inboxes.now process 0 channels.now) }
{
    let mut items = Vec::with_capacity(alloc, channels.len())?;
    for (number, channel) in channels.iter().enumerate() {
        if is_at(channel.consumer, process) {
            items.push(copy_next(
                alloc,
                inputs,
                image,
                inboxes,
                number as u8,
                channel.producer,
            )?)?;
        } else {
            items.push(History::new(alloc))?;
        }
    }
    Ok(items)
}

// The places that a log of at most so many items has for a job.
pub(crate) fn places(share: usize, log: Option<&Log>) -> usize
    ensures { result ≡ room_in share (option_copied log.entry) }
{
    match log {
        Some(log) => {
            let positions = (MAX_COUNT - log.end()).min(MAX_JOB_ITEMS as u64) as usize;
            positions.min(share.saturating_sub(log.len()))
        }
        None => 0,
    }
}

// The room that a process has on each channel, where the log of each has places up to its room and to this share.
fn list_room(
    alloc: Global,
    rooms: &Rooms,
    share: usize,
    channels: &[Channel],
    image: &Image,
    process: usize,
) -> Result<Vec<usize>, AllocError>
    requires { length channels.now ≤ MAX_CHANNELS }
    ensures { IfOk result (λ room. room.items ≡ room_from (share_in rooms.now share) image.now process 0 channels.now) }
{
    let mut room = Vec::with_capacity(alloc, channels.len())?;
    for (number, channel) in channels.iter().enumerate() {
        if is_at(channel.producer, process) {
            let share = share_in(rooms, share, number as u8);
            room.push(places(share, image.log(number as u8)))?;
        } else {
            room.push(0)?;
        }
    }
    Ok(room)
}

/// The job of a process that stands there, where the log of each channel has places up to its room and to this share.
pub(crate) fn make_job(
    alloc: Global,
    rooms: &Rooms,
    share: usize,
    net: &Arc<Net>,
    inputs: &Arrived,
    image: &Image,
    inboxes: &[Inbox],
    saved: &SavedProcess,
    version: u64,
) -> Result<Job, AllocError>
    requires there { saved.now.number < length net.now.value.program.processes.items }
    requires at_hand { IsAtHandFor net.now.value.program.channels.items inputs.now.bases image.now saved.now.number }
    ensures { IfOk result (λ job. job_view job
        ≡ job_for (share_in rooms.now share) (network_of net.now.value.program) inputs.now.came image.now inboxes.now
        saved.now.number saved.now.standing version) }
{
    let process = usize::from(saved.number);
    Ok(Job {
        net: Arc::try_clone(net)?,
        process,
        version,
        state: saved.state.copy(alloc)?,
        items: copy_items(
            alloc,
            &net.program.channels,
            inputs,
            image,
            inboxes,
            process,
        )?,
        room: list_room(alloc, rooms, share, &net.program.channels, image, process)?,
    })
}
