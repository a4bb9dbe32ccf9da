//! What a process is given for a turn.

ghost use Rattle.std.specs.Prelude.{◌≡◌, ◌<◌, IfErr, IfOk, Some, drop, length, slice_get, slice_index, take};
ghost use Rattle.kahn_net.specs.Common.{history_of, network_of, standing_of};
ghost use Rattle.kahn_net.specs.Syntax.{Code};
ghost use Rattle.proc_step.specs.Turns.{IsTurn};
ghost use Rattle.approximations.specs.AtHand.{is_process, at_hand_from, room_from};

use crate::progress::Progress;
use kahn_net::{Channel, History, MAX_HISTORY_ITEMS, Port};
use net_check::Net;
use proc_step::{Done, Job};
use std::alloc::{AllocError, Global};
use std::sync::Arc;
use stream_eq::Fault;

/// The most items of a channel that a process is given at once. What it is given is copied, so that a process
/// which gets few items of a long history costs no more than this.
pub const MAX_AT_ONCE: usize = 1_024;

/// One place more than a history may have. So no put waits for room, unless its channel's history is too long by then.
pub const ROOM: usize = MAX_HISTORY_ITEMS + 1;

/// Whether this process stands at an end of a channel.
fn is_at(port: Port, process: usize) -> bool
    ensures { result ≡ is_process process port }
{
    match port {
        Port::Outside => false,
        Port::Process(number) => number == process,
    }
}

/// The items that come next behind so many, at most as many as are given at once.
fn next_of(items: &[i64], got: usize) -> &[i64]
    ensures { result.now ≡ take MAX_AT_ONCE (drop got items.now) }
{
    let rest = &items[got.min(items.len())..];
    &rest[..MAX_AT_ONCE.min(rest.len())]
}

/// A copy of the items of a channel that come next.
fn copy_next(
    alloc: Global,
    histories: &[History],
    got: &[usize],
    channel: usize,
) -> Result<History, AllocError>
    ensures { IfOk result (λ items. items ≡ take MAX_AT_ONCE (drop (slice_index got.now channel) (history_of histories.now channel))) }
{
    let Some(history) = histories.get(channel) else {
        return Ok(History::new(alloc));
    };
    let got = got.get(channel).copied().unwrap_or(0);
    Ok(History::from_vec(Vec::from_slice(alloc, next_of(history.as_slice(), got))?))
}

/// What a process has at hand of each channel: what comes next of one from which it gets, and nothing of any other.
fn list_items(
    alloc: Global,
    channels: &[Channel],
    histories: &[History],
    got: &[usize],
    process: usize,
) -> Result<Vec<History>, AllocError>
    ensures { IfOk result (λ items. items.items ≡ at_hand_from histories.now got.now process 0 channels.now) }
{
    let mut items = Vec::with_capacity(alloc, channels.len())?;
    for (number, channel) in channels.iter().enumerate() {
        if is_at(channel.consumer, process) {
            items.push(copy_next(alloc, histories, got, number)?)?;
        } else {
            items.push(History::new(alloc))?;
        }
    }
    Ok(items)
}

/// The room that a process has on each channel: more than it may fill on one on which it puts, and none on any other.
fn list_room(alloc: Global, channels: &[Channel], process: usize) -> Result<Vec<usize>, AllocError>
    ensures { IfOk result (λ room. room.items ≡ room_from process channels.now) }
{
    let mut room = Vec::with_capacity(alloc, channels.len())?;
    for channel in channels {
        if is_at(channel.producer, process) {
            room.push(ROOM)?;
        } else {
            room.push(0)?;
        }
    }
    Ok(room)
}

/// The job of a process that has come so far, on these histories.
fn make_job(
    alloc: Global,
    net: &Arc<Net>,
    histories: &[History],
    process: usize,
    progress: &Progress,
) -> Result<Job, AllocError>
    requires { process < length net.now.value.program.processes.items }
    ensures net { IfOk result (λ job. job.net.value ≡ net.now.value) }
    ensures process { IfOk result (λ job. job.process ≡ process) }
    ensures state { IfOk result (λ job. standing_of job.state ≡ standing_of progress.now.state) }
    ensures items { IfOk result (λ job. job.items.items
        ≡ at_hand_from histories.now progress.now.got.items process 0 net.now.value.program.channels.items) }
    ensures room { IfOk result (λ job. job.room.items ≡ room_from process net.now.value.program.channels.items) }
{
    Ok(Job {
        net: Arc::try_clone(net)?,
        process,
        version: 0,
        state: progress.state.copy(alloc)?,
        items: list_items(
            alloc,
            &net.program.channels,
            histories,
            &progress.got,
            process,
        )?,
        room: list_room(alloc, &net.program.channels, process)?,
    })
}

/// Makes the turn of a process that has come so far, on these histories.
pub fn make_turn(
    alloc: Global,
    net: &Arc<Net>,
    histories: &[History],
    process: usize,
    progress: &Progress,
) -> Result<Done, Fault>
    requires { process < length net.now.value.program.processes.items }
    ensures turn { IfOk result (λ done. (code : Code)
        → slice_get (network_of net.now.value.program).codes process ≡ Some code
        → ∥ IsTurn code (standing_of progress.now.state)
        (at_hand_from histories.now progress.now.got.items process 0 net.now.value.program.channels.items)
        (room_from process net.now.value.program.channels.items) (standing_of done.state) done.taken.items
        done.sent.items ∥₁) }
    ensures memory { IfErr result (λ fault. fault ≡ Fault.NoMemory) }
{
    let job = make_job(alloc, net, histories, process, progress)?;
    match Job::run(Arc::new(alloc, job)?, alloc) {
        Ok(done) => Ok(done),
        Err(_) => Err(Fault::NoMemory),
    }
}
