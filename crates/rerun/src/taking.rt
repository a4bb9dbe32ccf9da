// A process makes its turn.
ghost use Rattle.std.specs.Prelude.{◌≡◌, ◌<◌, ◌≤◌, ◌+◌, ℕ, [], true, IfOk, OnErr, OnOk, Some, length, slice_get};
ghost use Rattle.std.specs.Prelude.{slice_index, slice_index_or};
ghost use Rattle.kahn_net.specs.declared.program.Channel.{Channel};
ghost use Rattle.kahn_net.specs.Fits.{Fits};
ghost use Rattle.kahn_net.specs.Processes.{Standing};
ghost use Rattle.kahn_net.specs.States.{standing_of};
ghost use Rattle.kahn_net.specs.Syntax.{Code, network_of};
ghost use Rattle.proc_step.specs.Turns.{IsTurn};
ghost use Rattle.retained.specs.LogState.{IsInLog, Overfills};
ghost use Rattle.rerun.specs.TableOf.{table_view};
ghost use Rattle.rerun.specs.Tables.{HasRerun, IsInOrder, Turned, items_from, leads_to, let_go_of, no_log, pushed};
ghost use Rattle.rerun.specs.Tables.{put_by, room_from, taken_by};

use crate::handing::{is_there, list_items, list_room};
use crate::table::Table;
use kahn_net::{Channel, History, MAX_COUNT, Port, ProcState};
use net_check::Net;
use proc_step::{Done, Job};
use retained::Log;
use std::alloc::{AllocError, Global};
use std::sync::Arc;

// How many items a process took from a channel.
fn taken_by(channels: &[Channel], process: usize, taken: &[usize], channel: usize) -> u64
    ensures { result ≡ taken_by process taken.now channel (slice_get channels.now channel) }
{
    match channels.get(channel) {
        Some(ends) => {
            if is_there(ends.consumer, process) {
                taken.get(channel).copied().unwrap_or(0) as u64
            } else {
                0
            }
        }
        None => 0,
    }
}

// The items that were sent on a channel.
fn sent_on(sent: &[History], channel: usize) -> &[i64]
    ensures { result.now ≡ slice_index_or sent.now channel [] }
{
    match sent.get(channel) {
        Some(items) => items.as_slice(),
        None => &[],
    }
}

// The items that a process put on a channel.
fn put_by<'a>(
    channels: &[Channel],
    process: usize,
    sent: &'a [History],
    channel: usize,
) -> &'a [i64]
    ensures { result.now ≡ put_by process sent.now channel (slice_get channels.now channel) }
{
    match channels.get(channel) {
        Some(ends) => {
            if is_there(ends.producer, process) {
                sent_on(sent, channel)
            } else {
                &[]
            }
        }
        None => &[],
    }
}

// Counts what a process took of each channel.
fn count_taken(got: &mut [u64], channels: &[Channel], process: usize, taken: &[usize])
    requires { (c : ℕ) → slice_index got.old c + taken_by process taken.now c (slice_get channels.now c) ≤ MAX_COUNT }
    ensures { (c : ℕ) → c < length got.old → slice_index got.new c
        ≡ slice_index got.old c + taken_by process taken.now c (slice_get channels.now c) }
{
    for channel in 0..got.len() {
        got[channel] += taken_by(channels, process, taken, channel);
    }
}

// Puts items behind a log, for which there is room.
fn push(log: &mut Log, items: &[i64]) -> Result<(), AllocError>
    requires { ¬ (Overfills log.old (length items.now)) }
    ensures ok { OnOk result (log.new ≡ pushed log.old items.now) }
    ensures err { OnErr result (log.new ≡ log.old) }
{
    match log.push_all(items) {
        Ok(()) => Ok(()),
        Err(_) => Err(AllocError),
    }
}

// Puts what was sent behind the logs from this channel on: all of it or nothing.
fn push_from(
    logs: &mut Vec<Log>,
    from: usize,
    channels: &[Channel],
    process: usize,
    sent: &[History],
) -> Result<(), AllocError>
    requires { (c : ℕ) → from ≤ c → ¬ (Overfills (slice_index_or logs.old.items c no_log)
        (length (put_by process sent.now c (slice_get channels.now c)))) }
    ensures count { length logs.new.items ≡ length logs.old.items }
    ensures before { (c : ℕ) → c < from
        → slice_index_or logs.new.items c no_log ≡ slice_index_or logs.old.items c no_log }
    ensures behind { OnOk result ((c : ℕ) → from ≤ c → c < length logs.old.items
        → slice_index_or logs.new.items c no_log
        ≡ pushed (slice_index_or logs.old.items c no_log) (put_by process sent.now c (slice_get channels.now c))) }
    ensures err { OnErr result (logs.new.items ≡ logs.old.items) }
{
    if from >= logs.len() {
        return Ok(());
    }
    let end = logs[from].end();
    match push(&mut logs[from], put_by(channels, process, sent, from)) {
        Ok(()) => {}
        Err(_) => return Err(AllocError),
    }
    match push_from(logs, from + 1, channels, process, sent) {
        Ok(()) => Ok(()),
        Err(_) => {
            logs[from].cut(end);
            Err(AllocError)
        }
    }
}

// Whether a channel leads from a process to this one.
fn leads_to(channel: &Channel, process: usize) -> bool
    ensures { result ≡ leads_to process channel.now }
{
    let made = match channel.producer {
        Port::Outside => false,
        Port::Process(_) => true,
    };
    is_there(channel.consumer, process) && made
}

// Logs let go of what was got, where their channel leads to this process.
fn let_go(logs: &mut Vec<Log>, channels: &[Channel], process: usize, got: &[u64])
    requires logged { length logs.old.items ≡ length channels.now }
    requires counted { length got.now ≡ length channels.now }
    requires inside { (c : ℕ) (channel : Channel) → slice_get channels.now c ≡ Some channel
        → leads_to process channel ≡ true → IsInLog (slice_index_or logs.old.items c no_log) (slice_index got.now c) }
    ensures count { length logs.new.items ≡ length logs.old.items }
    ensures logs { (c : ℕ) → c < length channels.now → slice_index_or logs.new.items c no_log
        ≡ let_go_of process (slice_index got.now c) (slice_index_or logs.old.items c no_log) (slice_get channels.now c) }
{
    for (number, channel) in channels.iter().enumerate() {
        if leads_to(channel, process) {
            logs[number].trim(got[number]);
        }
    }
}

// What a process in this state is to do.
fn hand_out(
    alloc: Global,
    net: &Arc<Net>,
    inputs: &[History],
    limits: &[u64],
    table: &Table,
    process: usize,
    state: &ProcState,
) -> Result<Job, AllocError>
    requires here { process < length net.now.value.program.processes.items }
    requires counted { length table.now.got.items ≡ length net.now.value.program.channels.items }
    requires logged { length table.now.logs.items ≡ length net.now.value.program.channels.items }
    ensures net { IfOk result (λ job. job.net.value ≡ net.now.value) }
    ensures process { IfOk result (λ job. job.process ≡ process) }
    ensures state { IfOk result (λ job. standing_of job.state ≡ standing_of state.now) }
    ensures items { IfOk result (λ job. job.items.items
        ≡ items_from inputs.now (table_view table.now) process 0 net.now.value.program.channels.items) }
    ensures room { IfOk result (λ job. job.room.items
        ≡ room_from limits.now (table_view table.now) process 0 net.now.value.program.channels.items) }
{
    let channels = net.program.channels.as_slice();
    Ok(Job {
        net: Arc::try_clone(net)?,
        process,
        version: 0,
        state: state.copy(alloc)?,
        items: list_items(alloc, channels, inputs, table, process)?,
        room: list_room(alloc, channels, limits, table, process)?,
    })
}

// The turn of a process that is in this state.
fn turn_from(
    alloc: Global,
    net: &Arc<Net>,
    inputs: &[History],
    limits: &[u64],
    table: &Table,
    process: usize,
    state: &ProcState,
) -> Result<Done, AllocError>
    requires here { process < length net.now.value.program.processes.items }
    requires counted { length table.now.got.items ≡ length net.now.value.program.channels.items }
    requires logged { length table.now.logs.items ≡ length net.now.value.program.channels.items }
    ensures { IfOk result (λ done. (code : Code) → slice_get (network_of net.now.value.program).codes process ≡ Some code
        → ∥ IsTurn code (standing_of state.now)
        (items_from inputs.now (table_view table.now) process 0 net.now.value.program.channels.items)
        (room_from limits.now (table_view table.now) process 0 net.now.value.program.channels.items)
        (standing_of done.state) done.taken.items done.sent.items ∥₁) }
{
    let job = hand_out(alloc, net, inputs, limits, table, process, state)?;
    match Job::run(Arc::new(alloc, job)?, alloc) {
        Ok(done) => Ok(done),
        Err(_) => Err(AllocError),
    }
}

// The turn of a process.
fn make_turn(
    alloc: Global,
    net: &Arc<Net>,
    inputs: &[History],
    limits: &[u64],
    table: &Table,
    process: usize,
) -> Result<Done, AllocError>
    requires here { process < length net.now.value.program.processes.items }
    requires standing { length table.now.states.items ≡ length net.now.value.program.processes.items }
    requires counted { length table.now.got.items ≡ length net.now.value.program.channels.items }
    requires logged { length table.now.logs.items ≡ length net.now.value.program.channels.items }
    ensures { IfOk result (λ done. (code : Code) (before : Standing)
        → slice_get (network_of net.now.value.program).codes process ≡ Some code
        → slice_get (table_view table.now).standings process ≡ Some before
        → ∥ IsTurn code before
        (items_from inputs.now (table_view table.now) process 0 net.now.value.program.channels.items)
        (room_from limits.now (table_view table.now) process 0 net.now.value.program.channels.items)
        (standing_of done.state) done.taken.items done.sent.items ∥₁) }
{
    let state = &table.states[process];
    match turn_from(alloc, net, inputs, limits, table, process, state) {
        Ok(done) => Ok(done),
        Err(_) => Err(AllocError),
    }
}

impl Table {
    /// A process makes its turn, as far as these limits let it. Where there is no memory nothing is changed.
    pub(crate) fn take_turn(
        &mut self,
        alloc: Global,
        net: &Arc<Net>,
        inputs: &[History],
        limits: &[u64],
        process: usize,
    ) -> Result<(), AllocError>
        requires here { process < length net.now.value.program.processes.items }
        requires fits { Fits (network_of net.now.value.program) inputs.now }
        requires ordered { IsInOrder (network_of net.now.value.program) inputs.now (table_view self.old) }
        requires reached { ∥ HasRerun (network_of net.now.value.program) inputs.now (table_view self.old) ∥₁ }
        ensures ok { OnOk result (∥ Turned (network_of net.now.value.program) inputs.now limits.now process
            (table_view self.old) (table_view self.new) ∥₁) }
        ensures err { OnErr result (table_view self.new ≡ table_view self.old) }
    {
        match make_turn(alloc, net, inputs, limits, self, process) {
            Ok(done) => {
                let Done {
                    state,
                    taken,
                    sent,
                    ..
                } = done;
                let channels = net.program.channels.as_slice();
                match push_from(&mut self.logs, 0, channels, process, &sent) {
                    Ok(()) => {}
                    Err(_) => return Err(AllocError),
                }
                count_taken(&mut self.got, channels, process, &taken);
                let_go(&mut self.logs, channels, process, &self.got);
                self.states[process] = state;
                Ok(())
            }
            Err(_) => Err(AllocError),
        }
    }
}
