// How a process of a node stands.
ghost use Rattle.std.specs.Prelude.{◌≡◌, ◌==◌, ◌≤◌, ℤ, List, find, length, option_copied, option_map, slice_get};
ghost use Rattle.proc_step.specs.NextView.{next_view};
ghost use Rattle.kahn_net.specs.Common.{Puts};
ghost use Rattle.protocol.specs.Node.Common.{MAX_CHANNELS, Network, RecordView, network_of, running_node};
ghost use Rattle.protocol.specs.Node.Choosing.{has_room, next_at};
ghost use Rattle.protocol.specs.Node.Stances.{is_of, own_stance, stance_before, stance_in};
ghost use Rattle.protocol.specs.declared.links.Inbox.{Inbox as InboxView};
ghost use Rattle.node_memory.specs.JobView.{shared_view};

use crate::choosing::{has_item, has_room};
use crate::granting::places;
use crate::running::Running;
use crate::sharing::share_of;
use arrived::Arrived;
use kahn_net::{Channel, MAX_COUNT};
use net_check::Net;
use proc_step::{Job, NextAct, next_act};
use protocol::{Inbox, Rooms, Stance};
use record::{Image, SavedProcess};
use std::alloc::Global;
use std::sync::Arc;

// What a process does next from where it stands.
fn act_of(net: &Net, saved: &SavedProcess) -> NextAct
    ensures { next_view result
        ≡ next_at (slice_get (network_of net.now.program).codes saved.now.number) saved.now.standing }
{
    match net.program.processes.get(usize::from(saved.number)) {
        Some(_) => next_act(net, usize::from(saved.number), &saved.state),
        None => NextAct::Nothing,
    }
}

// Whether there is room on a channel, where the log of each has places up to this share.
fn has_places(channels: &[Channel], share: usize, image: &Image, channel: usize) -> bool
    requires { length channels.now ≤ MAX_CHANNELS }
    ensures { result ≡ has_room (λ number. share) image.now channel (slice_get channels.now channel) }
{
    channel < channels.len() && places(share, image.log(channel as u8)) > 0
}

// What a process comes to that puts next on a channel, in a network with these channels.
fn stance_at_put(channels: &[Channel], rooms: &Rooms, image: &Image, channel: usize) -> Stance
    requires { length channels.now ≤ MAX_CHANNELS }
    ensures { (net : Network) (inputs : List (List ℤ)) (inboxes : List InboxView) → net.channels ≡ channels.now
        → result ≡ stance_before net inputs rooms.now image.now inboxes (Puts channel) }
{
    let share = share_of(image);
    if has_room(channels, rooms, share, image, channel) {
        Stance::GoesOn
    } else if has_places(channels, share, image, channel) {
        Stance::Held { channel }
    } else {
        Stance::Full { channel }
    }
}

// What a process comes to that does this next, in a network with these channels.
fn stance_before(
    channels: &[Channel],
    inputs: &Arrived,
    rooms: &Rooms,
    image: &Image,
    inboxes: &[Inbox],
    act: NextAct,
) -> Stance
    requires { length channels.now ≤ MAX_CHANNELS }
    ensures { (net : Network) → net.channels ≡ channels.now
        → result ≡ stance_before net inputs.now.came rooms.now image.now inboxes.now (next_view act) }
{
    match act {
        NextAct::Begin => Stance::GoesOn,
        NextAct::Get { channel } => {
            if has_item(channels, inputs, image, inboxes, channel) {
                Stance::GoesOn
            } else {
                Stance::Waits { channel }
            }
        }
        NextAct::Put { channel } => stance_at_put(channels, rooms, image, channel),
        NextAct::Nothing => Stance::Ended,
    }
}

// The process of this number, if an image has it.
fn process_of(image: &Image, process: usize) -> Option<&SavedProcess>
    ensures { option_copied result ≡ find (λ saved. saved.number == process) image.now.processes }
{
    for saved in &image.processes {
        if usize::from(saved.number) == process {
            return Some(saved);
        }
    }
    None
}

// Whether the job that is out is for this process.
fn is_of(process: usize, out: Option<&Arc<Job>>) -> bool
    ensures { result ≡ is_of process (option_map shared_view (option_copied out.entry)) }
{
    match out {
        Some(job) => job.process == process,
        None => false,
    }
}

impl Running {
    ghost use Rattle.node_memory.specs.RunningView.{running_view};

    // How a process of its image stands.
    fn stance_of(
        &self,
        net: &Net,
        inputs: &Arrived,
        rooms: &Rooms,
        version: u64,
        saved: &SavedProcess,
    ) -> Stance
        ensures { (kept : RecordView) → result ≡ stance_in (network_of net.now.program) inputs.now.came rooms.now
            (running_node kept version (running_view self.now)) saved.now }
    {
        if is_of(usize::from(saved.number), self.out.as_ref()) {
            Stance::GoesOn
        } else if version < MAX_COUNT {
            stance_before(
                &net.program.channels,
                inputs,
                rooms,
                &self.current,
                &self.inboxes,
                act_of(net, saved),
            )
        } else {
            Stance::Ended
        }
    }

    /// How the process of this number stands at a node of this version, where channels have these rooms: whether it can go on,
    /// and else what it waits for. Takes no memory.
    pub fn stance(
        &self,
        net: &Net,
        inputs: &Arrived,
        rooms: &Rooms,
        version: u64,
        process: usize,
    ) -> Stance
        // What the node keeps for good plays no part.
        ensures { (kept : RecordView) → result ≡ own_stance (network_of net.now.program) inputs.now.came rooms.now process
            (running_node kept version (running_view self.now)) }
    {
        match process_of(&self.current, process) {
            Some(saved) => self.stance_of(net, inputs, rooms, version, saved),
            None => Stance::Ended,
        }
    }
}
