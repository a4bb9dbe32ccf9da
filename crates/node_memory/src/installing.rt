// An image after a turn of one of its processes.
ghost use Rattle.std.specs.Prelude.{◌≡◌, ◌≤◌, ◌+◌, ◌-◌, ◌++◌, ℕ, [], map, length, take, drop, slice_get, OnOk, OnErr, IsErrOf, Some};
ghost use Rattle.protocol.specs.Node.Common.{standing_of, received_at, log_at, taken_from, put_on, saved_pushed};
ghost use Rattle.protocol.specs.Node.Common.{saved_counted, moved, installed, inbox_turned, ImageTakes, SavedEnd};
ghost use Rattle.protocol.specs.Node.Common.{MAX_COUNT};
ghost use Rattle.ckpt_codec.specs.Common.{LogTakes};

use crate::granting::is_at;
use crate::popping::{turn_inbox, turned_log};
use kahn_net::{Channel, History, ProcState};
use protocol::Inbox;
use record::{End, Image, SavedEnd, SavedProcess};
use retained::LogFault;
use std::alloc::Global;

// How many items a process took from a channel.
pub(crate) fn count_taken(
    channels: &[Channel],
    process: usize,
    taken: &[usize],
    channel: u8,
) -> usize
    ensures { result ≡ taken_from channels.now process taken.now channel }
{
    match channels.get(usize::from(channel)) {
        Some(ends) if is_at(ends.consumer, process) => {
            taken.get(usize::from(channel)).copied().unwrap_or(0)
        }
        _ => 0,
    }
}

// The items that a process put on a channel.
pub(crate) fn items_put<'a>(
    channels: &[Channel],
    process: usize,
    sent: &'a [History],
    channel: u8,
) -> &'a [i64]
    ensures { result.now ≡ put_on channels.now process sent.now channel }
{
    match channels.get(usize::from(channel)) {
        Some(ends) if is_at(ends.producer, process) => {
            match sent.get(usize::from(channel)) {
                Some(items) => items.as_slice(),
                None => &[],
            }
        }
        _ => &[],
    }
}

// Puts what was sent behind the logs of the ends from this one on: everything or nothing.
fn push_sent(
    ends: &mut Vec<SavedEnd>,
    from: usize,
    channels: &[Channel],
    process: usize,
    sent: &[History],
) -> Result<(), LogFault>
    requires within { from ≤ length ends.old.items }
    requires takes { (k : ℕ) (saved : SavedEnd) → from ≤ k → slice_get ends.old.items k ≡ Some saved
        → LogTakes (length (put_on channels.now process sent.now saved.channel))
        (log_at (Some (saved.end))) }
    ensures ok { OnOk result (ends.new.items ≡ take from ends.old.items
        ++ map (saved_pushed channels.now process sent.now) (drop from ends.old.items)) }
    ensures err { OnErr result (ends.new.items ≡ ends.old.items) }
    ensures full { ¬ (IsErrOf result LogFault.Full) }
{
    if from == ends.len() {
        return Ok(());
    }
    let items = items_put(channels, process, sent, ends[from].channel);
    ends[from].end.push_all(items)?;
    match push_sent(ends, from + 1, channels, process, sent) {
        Ok(()) => Ok(()),
        Err(fault) => {
            ends[from].end.take_back(items);
            Err(fault)
        }
    }
}

// Counts what was taken at each end.
fn count_all(ends: &mut Vec<SavedEnd>, channels: &[Channel], process: usize, taken: &[usize])
    requires { (k : ℕ) (saved : SavedEnd) → slice_get ends.old.items k ≡ Some saved
        → received_at (Some (saved.end)) + taken_from channels.now process taken.now saved.channel
        ≤ MAX_COUNT }
    ensures { ends.new.items ≡ map (saved_counted channels.now process taken.now) ends.old.items }
{
    for saved in ends.iter_mut() {
        let count = count_taken(channels, process, taken, saved.channel);
        saved.end.count(count);
    }
}

// Puts a process where it stands now.
fn move_process(processes: &mut Vec<SavedProcess>, process: usize, state: ProcState)
    ensures { processes.new.items ≡ moved process (standing_of state) processes.old.items }
{
    for k in 0..processes.len() {
        if usize::from(processes[k].number) == process {
            processes[k].state = state;
            return;
        }
    }
}

// Takes a turn of a process into an image: where it stands now, the items that it took from each channel, and those that
// it sent on each. Refuses for want of memory alone, and the image is then as it was.
pub(crate) fn install_turn(
    alloc: Global,
    image: &mut Image,
    channels: &[Channel],
    process: usize,
    state: &ProcState,
    taken: &[usize],
    sent: &[History],
) -> Result<(), LogFault>
    requires { ImageTakes channels.now process taken.now sent.now image.old }
    ensures ok { OnOk result (image.new
        ≡ installed channels.now process (standing_of state.now) taken.now sent.now image.old) }
    ensures err { OnErr result (image.new ≡ image.old) }
    ensures full { ¬ (IsErrOf result LogFault.Full) }
{
    let state = state.copy(alloc)?;
    push_sent(&mut image.ends, 0, channels, process, sent)?;
    count_all(&mut image.ends, channels, process, taken);
    move_process(&mut image.processes, process, state);
    Ok(())
}

// Takes a turn of a process into an image and into the inboxes from this one on: everything or nothing. What takes memory
// comes first. Refuses for want of memory alone.
pub(crate) fn install_from(
    alloc: Global,
    image: &mut Image,
    inboxes: &mut Vec<Inbox>,
    from: usize,
    channels: &[Channel],
    process: usize,
    state: &ProcState,
    taken: &[usize],
    sent: &[History],
) -> Result<(), LogFault>
    requires within { from ≤ length inboxes.old.items }
    requires takes { ImageTakes channels.now process taken.now sent.now image.old }
    ensures image { OnOk result (image.new
        ≡ installed channels.now process (standing_of state.now) taken.now sent.now image.old) }
    ensures inboxes { OnOk result (inboxes.new.items ≡ take from inboxes.old.items
        ++ map (inbox_turned channels.now process taken.now) (drop from inboxes.old.items)) }
    ensures err { OnErr result ((image.new ≡ image.old) × (inboxes.new.items ≡ inboxes.old.items)) }
    ensures full { ¬ (IsErrOf result LogFault.Full) }
{
    if from == inboxes.len() {
        return install_turn(alloc, image, channels, process, state, taken, sent);
    }
    let prepared = turned_log(alloc, &inboxes[from], channels, process, taken)?;
    install_from(
        alloc,
        image,
        inboxes,
        from + 1,
        channels,
        process,
        state,
        taken,
        sent,
    )?;
    turn_inbox(&mut inboxes[from], prepared, channels, process, taken);
    Ok(())
}
