// What comes out of the window of an inbox in turn.
ghost use Rattle.std.specs.Prelude.{◌≡◌, ◌≤◌, ◌+◌, ◌++◌, None, true, drop, take, IfOk, MatchOption, OnErr, OnOk};
ghost use Rattle.arrayvec.specs.ArrayVec.{array_vec_len};
ghost use Rattle.protocol.specs.Node.Common.{trimmed_log, popped_times, ready_items, taking, inbox_turned};
ghost use Rattle.window_link.specs.Windows.{arrival_at, held_at};
ghost use Rattle.protocol.specs.Node.Popping.{has_place, places_left};

use crate::installing::count_taken;
use arrayvec::ArrayVec;
use kahn_net::{Channel, MAX_COUNT};
use protocol::{Inbox, MAX_INBOX_ITEMS};
use retained::{Log, LogFault};
use std::alloc::{AllocError, Global};
use window_link::{Arrival, RecvWindow};

// Items that go to a log together: at most as many as a window has places.
type Batch = ArrayVec<i64, 64>;

// For how many items more an inbox with this log has a place.
fn places_left(log: &Log) -> usize
    ensures { result ≡ places_left log.now }
{
    let positions = MAX_COUNT - log.end();
    let places = MAX_INBOX_ITEMS.saturating_sub(log.len());
    (places as u64).min(positions) as usize
}

// Adds the items that a window holds from a place on without a gap, at most so many.
fn add_ready(items: Batch, window: &RecvWindow, first: usize, most: usize) -> Batch
    requires { array_vec_len items ≤ first }
    ensures { result.items ≡ items.items ++ take most (ready_items (drop first window.now.held)) }
{
    let mut items = items;
    let mut left = most;
    for place in first..window.size() {
        if left == 0 {
            return items;
        }
        match window.held_at(place) {
            Some(item) => items.push(item),
            None => return items,
        }
        left -= 1;
    }
    items
}

// Pops so many times.
fn pop_times(window: &mut RecvWindow, times: usize)
    ensures { window.new ≡ popped_times times window.old }
{
    for _ in 0..times {
        window.pop();
    }
}

// Takes the next item into an inbox that has a place for it, and whose window holds none right behind it.
fn take_alone(inbox: &mut Inbox, position: u64, item: i64) -> Result<(), AllocError>
    requires next { arrival_at inbox.old.window position ≡ Arrival.Taken }
    requires place { has_place inbox.old.log ≡ true }
    requires alone { held_at inbox.old.window 1 ≡ None }
    ensures ok { OnOk result (inbox.new ≡ taking position item inbox.old) }
    ensures err { OnErr result (inbox.new ≡ inbox.old) }
{
    match inbox.log.push(item) {
        Ok(()) => {
            let _ = inbox.window.take(position, item);
            Ok(())
        }
        Err(_) => Err(AllocError),
    }
}

// Takes the next item into an inbox that has a place for it, and those that its window held behind it. Their room is made
// first.
pub(crate) fn take_next(inbox: &mut Inbox, position: u64, item: i64) -> Result<(), AllocError>
    requires next { arrival_at inbox.old.window position ≡ Arrival.Taken }
    requires place { has_place inbox.old.log ≡ true }
    ensures ok { OnOk result (inbox.new ≡ taking position item inbox.old) }
    ensures err { OnErr result (inbox.new ≡ inbox.old) }
{
    if inbox.window.held_at(1).is_none() {
        return take_alone(inbox, position, item);
    }
    let mut items = Batch::new();
    items.push(item);
    let behind = places_left(&inbox.log).saturating_sub(1);
    let items = add_ready(items, &inbox.window, 1, behind);
    match inbox.log.push_all(items.as_slice()) {
        Ok(()) => {
            inbox.window.take(position, item);
            pop_times(&mut inbox.window, items.len() - 1);
            Ok(())
        }
        Err(LogFault::NoMemory) => Err(AllocError),
        Err(LogFault::Full) => Err(AllocError),
    }
}

// Lets a log go of so many items, if it has them.
fn trim_taken(log: &mut Log, count: usize)
    ensures { log.new ≡ trimmed_log (log.old.base + count) log.old }
{
    let base = log.base();
    if count as u64 <= log.end() - base {
        log.trim(base + count as u64);
    }
}

// The log of an inbox after a turn, in memory of its own: without what the turn took, and with what comes out of the window
// then. None where the next item isn't held.
pub(crate) fn turned_log(
    alloc: Global,
    inbox: &Inbox,
    channels: &[Channel],
    process: usize,
    taken: &[usize],
) -> Result<Option<Log>, AllocError>
    ensures { IfOk result (λ log. MatchOption log (held_at inbox.now.window 0 ≡ None)
        (λ log. log ≡ (inbox_turned channels.now process taken.now inbox.now).log)) }
{
    if inbox.window.held_at(0).is_none() {
        return Ok(None);
    }
    let mut log = inbox.log.copy(alloc)?;
    trim_taken(
        &mut log,
        count_taken(channels, process, taken, inbox.channel),
    );
    let items = add_ready(Batch::new(), &inbox.window, 0, places_left(&log));
    match log.push_all(items.as_slice()) {
        Ok(()) => Ok(Some(log)),
        Err(_) => Err(AllocError),
    }
}

// Takes what a process got out of an inbox, which gets the log that was prepared where there is one.
pub(crate) fn turn_inbox(
    inbox: &mut Inbox,
    prepared: Option<Log>,
    channels: &[Channel],
    process: usize,
    taken: &[usize],
)
    requires { MatchOption prepared (held_at inbox.old.window 0 ≡ None)
        (λ log. log ≡ (inbox_turned channels.now process taken.now inbox.old).log) }
    ensures { inbox.new ≡ inbox_turned channels.now process taken.now inbox.old }
{
    match prepared {
        Some(log) => {
            let count = log.end() - inbox.log.end();
            inbox.log = log;
            pop_times(&mut inbox.window, count as usize);
        }
        None => {
            let count = count_taken(channels, process, taken, inbox.channel);
            trim_taken(&mut inbox.log, count);
        }
    }
}
