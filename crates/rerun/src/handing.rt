// What a process is handed for a turn, and whether it can move.
ghost use Rattle.std.specs.Prelude.{◌≡◌, ◌<◌, ◌≤◌, ◌↔◌, IfOk, IsTrue, drop, length, slice_get, slice_index, take};
ghost use Rattle.kahn_net.specs.Syntax.{network_of};
ghost use Rattle.kahn_net.specs.declared.program.Port.TheVariants.{Outside};
ghost use Rattle.retained.specs.LogState.{log_end};
ghost use Rattle.rerun.specs.TableOf.{table_view};
ghost use Rattle.rerun.specs.Tables.{HaveReached, can_move, count_by, has_more, has_place, is_there, items_from, next_on};
ghost use Rattle.rerun.specs.Tables.{places, room_from};

use crate::table::Table;
use kahn_net::{Channel, History, MAX_COUNT, Port};
use net_check::Net;
use proc_step::{NextAct, next_act};
use retained::{Log, MAX_LOG_ITEMS};
use std::alloc::{AllocError, Global};

/// The most items of a channel that a process is handed at once, since they are copied.
pub(crate) const MAX_AT_ONCE: usize = 4_096;

/// Whether this process stands at an end of a channel.
pub(crate) fn is_there(port: Port, process: usize) -> bool
    ensures { result ≡ is_there process port }
{
    match port {
        Port::Outside => false,
        Port::Process(number) => number == process,
    }
}

// The items of an input behind so many, at most as many as are handed out at once.
fn behind(items: &[i64], got: u64) -> &[i64]
    ensures { result.now ≡ take MAX_AT_ONCE (drop got items.now) }
{
    let start = got.min(items.len() as u64) as usize;
    let rest = &items[start..];
    &rest[..MAX_AT_ONCE.min(rest.len())]
}

// A copy of the items of a channel with this producer that come next.
fn copy_next(
    alloc: Global,
    inputs: &[History],
    table: &Table,
    channel: usize,
    producer: Port,
) -> Result<History, AllocError>
    requires counted { channel < length table.now.got.items }
    requires logged { channel < length table.now.logs.items }
    ensures { IfOk result
        (λ items. items ≡ take MAX_AT_ONCE (next_on inputs.now (table_view table.now) channel producer)) }
{
    let got = table.got[channel];
    match producer {
        Port::Outside => match inputs.get(channel) {
            Some(input) => Ok(History::from_vec(Vec::from_slice(
                alloc,
                behind(input.as_slice(), got),
            )?)),
            None => Ok(History::new(alloc)),
        },
        Port::Process(_) => {
            let log = &table.logs[channel];
            Ok(History::from_vec(log.copy_since(alloc, got, MAX_AT_ONCE)?))
        }
    }
}

/// What a process is handed of each channel.
pub(crate) fn list_items(
    alloc: Global,
    channels: &[Channel],
    inputs: &[History],
    table: &Table,
    process: usize,
) -> Result<Vec<History>, AllocError>
    requires counted { length table.now.got.items ≡ length channels.now }
    requires logged { length table.now.logs.items ≡ length channels.now }
    ensures { IfOk result
        (λ items. items.items ≡ items_from inputs.now (table_view table.now) process 0 channels.now) }
{
    let mut items = Vec::with_capacity(alloc, channels.len())?;
    for (number, channel) in channels.iter().enumerate() {
        if is_there(channel.consumer, process) {
            items.push(copy_next(alloc, inputs, table, number, channel.producer)?)?;
        } else {
            items.push(History::new(alloc))?;
        }
    }
    Ok(items)
}

// The places for items on a channel with this consumer and this limit.
fn places(log: &Log, consumer: Port, limit: u64) -> usize
    ensures { result ≡ places consumer limit log.now }
{
    let allowed = match consumer {
        Port::Outside => limit.saturating_sub(log.end()),
        Port::Process(_) => limit.saturating_sub(log.len() as u64),
    };
    let free = ((MAX_LOG_ITEMS - log.len()) as u64).min(MAX_COUNT - log.end());
    allowed.min(free) as usize
}

// The limit of a channel.
fn limit_of(limits: &[u64], channel: usize) -> u64
    ensures { result ≡ slice_index limits.now channel }
{
    limits.get(channel).copied().unwrap_or(0)
}

/// The room that a process has on each channel.
pub(crate) fn list_room(
    alloc: Global,
    channels: &[Channel],
    limits: &[u64],
    table: &Table,
    process: usize,
) -> Result<Vec<usize>, AllocError>
    requires { length table.now.logs.items ≡ length channels.now }
    ensures { IfOk result
        (λ room. room.items ≡ room_from limits.now (table_view table.now) process 0 channels.now) }
{
    let mut room = Vec::with_capacity(alloc, channels.len())?;
    for (number, channel) in channels.iter().enumerate() {
        if is_there(channel.producer, process) {
            let limit = limit_of(limits, number);
            room.push(places(&table.logs[number], channel.consumer, limit))?;
        } else {
            room.push(0)?;
        }
    }
    Ok(room)
}

// How many items were put on a channel with this producer.
fn count_of(inputs: &[History], table: &Table, channel: usize, producer: Port) -> u64
    requires logged { channel < length table.now.logs.items }
    ensures { result ≡ count_by inputs.now (table_view table.now) channel producer }
{
    match producer {
        Port::Outside => match inputs.get(channel) {
            Some(input) => input.len() as u64,
            None => 0,
        },
        Port::Process(_) => table.logs[channel].end(),
    }
}

// Whether a channel has items that weren't got.
fn has_more(channels: &[Channel], inputs: &[History], table: &Table, channel: usize) -> bool
    requires counted { length table.now.got.items ≡ length channels.now }
    requires logged { length table.now.logs.items ≡ length channels.now }
    ensures { result ≡ has_more inputs.now (table_view table.now) channel (slice_get channels.now channel) }
{
    match channels.get(channel) {
        Some(ends) => table.got[channel] < count_of(inputs, table, channel, ends.producer),
        None => false,
    }
}

// Whether a channel has a place.
fn has_place(channels: &[Channel], limits: &[u64], table: &Table, channel: usize) -> bool
    requires { length table.now.logs.items ≡ length channels.now }
    ensures { result ≡ has_place limits.now (table_view table.now) channel (slice_get channels.now channel) }
{
    match channels.get(channel) {
        Some(ends) => places(
            &table.logs[channel],
            ends.consumer,
            limit_of(limits, channel),
        ) > 0,
        None => false,
    }
}

/// Whether a process can move.
pub(crate) fn can_move(
    net: &Net,
    inputs: &[History],
    limits: &[u64],
    table: &Table,
    process: usize,
) -> bool
    requires here { process < length net.now.program.processes.items }
    requires standing { length table.now.states.items ≡ length net.now.program.processes.items }
    requires counted { length table.now.got.items ≡ length net.now.program.channels.items }
    requires logged { length table.now.logs.items ≡ length net.now.program.channels.items }
    ensures { result ≡ can_move (network_of net.now.program) inputs.now limits.now (table_view table.now) process }
{
    match next_act(net, process, &table.states[process]) {
        NextAct::Begin => true,
        NextAct::Get { channel } => has_more(&net.program.channels, inputs, table, channel),
        NextAct::Put { channel } => has_place(&net.program.channels, limits, table, channel),
        NextAct::Nothing => false,
    }
}

// Whether an output has as many items as its limit says. Any other channel has.
fn has_all(log: &Log, consumer: Port, limit: u64) -> bool
    ensures { IsTrue result ↔ (consumer ≡ Outside → limit ≤ log_end log.now) }
{
    match consumer {
        Port::Outside => limit <= log.end(),
        Port::Process(_) => true,
    }
}

/// Whether on each output as many items were put as its limit says.
pub(crate) fn have_reached(channels: &[Channel], limits: &[u64], table: &Table) -> bool
    requires { length table.now.logs.items ≡ length channels.now }
    ensures { IsTrue result ↔ HaveReached channels.now limits.now (table_view table.now) }
{
    for (number, channel) in channels.iter().enumerate() {
        if !has_all(
            &table.logs[number],
            channel.consumer,
            limit_of(limits, number),
        ) {
            return false;
        }
    }
    true
}
