// A node before its first event.
ghost use Rattle.std.specs.Prelude.{◌≡◌, ◌≤◌, map, length, IfOk};
ghost use Rattle.protocol.specs.Node.Common.{code_of, network_of, opening_ends, opening_image, opening_record};
ghost use Rattle.protocol.specs.Node.Common.{MAX_CHANNELS};
ghost use Rattle.record.specs.Common.{AreAscending};
ghost use Rattle.protocol.specs.Node.Opening.{new_inbox, new_outbox, opening_processes, opening_end, opening_inboxes, opening_outboxes, running_from};
ghost use Rattle.node.specs.NodeView.{node_view};
ghost use Rattle.ckpt_codec.specs.Common.{MAX_PROCESSES};

use crate::mode::Mode as NodeMode;
use crate::state::NodeState;
use kahn_net::{Channel, Mode, ProcState, Process};
use layout::{is_here, is_incoming, is_outgoing};
use net_check::Net;
use node_memory::Running;
use protocol::{Inbox, Outbox, WINDOW};
use record::{End, Image, Record, SavedEnd, SavedProcess};
use retained::Log;
use std::alloc::{AllocError, Global};
use window_link::{RecvWindow, SendWindow};

// None of the node's processes has begun.
fn open_processes(
    alloc: Global,
    processes: &[Process],
    home: u8,
) -> Result<Vec<SavedProcess>, AllocError>
    requires { length processes.now ≤ MAX_PROCESSES }
    ensures { IfOk result
        (λ saved. saved.items ≡ opening_processes home 0 (map code_of processes.now)) }
{
    let mut saved = Vec::with_capacity(alloc, processes.len())?;
    for (number, process) in processes.iter().enumerate() {
        if process.node == home {
            saved.push(SavedProcess {
                number: number as u8,
                state: ProcState {
                    mode: Mode::NotBegun,
                    variables: Vec::from_slice(alloc, process.variables.as_slice())?,
                },
            })?;
        }
    }
    Ok(saved)
}

// Nothing was received or put.
fn open_end(alloc: Global, puts: bool, gets: bool) -> End
    ensures { result ≡ opening_end puts gets }
{
    if !puts {
        End::Receives { received: 0 }
    } else if gets {
        End::Both {
            received: 0,
            log: Log::new(alloc),
        }
    } else {
        End::Sends {
            log: Log::new(alloc),
        }
    }
}

fn open_ends(
    alloc: Global,
    net: &Net,
    channels: &[Channel],
    home: u8,
) -> Result<Vec<SavedEnd>, AllocError>
    requires { length channels.now ≤ MAX_CHANNELS }
    ensures ends { IfOk result (λ ends. ends.items
        ≡ opening_ends (network_of net.now.program) home 0 channels.now) }
    ensures ordered { IfOk result (λ ends. AreAscending ends.items) }
{
    let mut ends = Vec::with_capacity(alloc, channels.len())?;
    for (number, channel) in channels.iter().enumerate() {
        let puts = is_here(net, home, channel.producer);
        let gets = is_here(net, home, channel.consumer);
        if puts || gets {
            ends.push(SavedEnd {
                channel: number as u8,
                end: open_end(alloc, puts, gets),
            })?;
        }
    }
    Ok(ends)
}

// The image of a node, which has its own processes and ends.
fn open_image(alloc: Global, net: &Net, home: u8) -> Result<Image, AllocError>
    ensures { IfOk result (λ image. image ≡ opening_image (network_of net.now.program) home) }
{
    Ok(Image {
        processes: open_processes(alloc, &net.program.processes, home)?,
        ends: open_ends(alloc, net, &net.program.channels, home)?,
    })
}

/// The record of the node of this number, of so many, before its first event.
pub fn opening_record(
    alloc: Global,
    net: &Net,
    number: u8,
    nodes: usize,
) -> Result<Record, AllocError>
    ensures { IfOk result
        (λ kept. kept ≡ opening_record (network_of net.now.program) nodes number) }
{
    Ok(Record {
        node: number,
        epoch: 0,
        highest: vec![in alloc; 0; nodes]?,
        decisions: Vec::new(alloc),
        permanent: open_image(alloc, net, number)?,
        tentative: None,
    })
}

fn new_inbox(alloc: Global, channel: u8) -> Result<Inbox, AllocError>
    ensures { IfOk result (λ inbox. inbox ≡ new_inbox channel) }
{
    Ok(Inbox {
        channel,
        window: RecvWindow::new(alloc, WINDOW)?,
        log: Log::new(alloc),
        undone: 0,
    })
}

fn new_outbox(channel: u8) -> Outbox
    ensures { result ≡ new_outbox channel }
{
    Outbox {
        channel,
        window: SendWindow::new(WINDOW),
        restored: 0,
    }
}

// The inboxes of a node, to which nothing has come.
fn open_inboxes(alloc: Global, net: &Net, home: u8) -> Result<Vec<Inbox>, AllocError>
    ensures { IfOk result
        (λ inboxes. inboxes.items ≡ opening_inboxes (network_of net.now.program) home) }
{
    let mut inboxes = Vec::with_capacity(alloc, net.program.channels.len())?;
    for number in 0..net.program.channels.len() {
        if is_incoming(net, home, number) {
            inboxes.push(new_inbox(alloc, number as u8)?)?;
        }
    }
    Ok(inboxes)
}

// The outboxes of a node, of which nothing is under way.
fn open_outboxes(alloc: Global, net: &Net, home: u8) -> Result<Vec<Outbox>, AllocError>
    ensures { IfOk result
        (λ outboxes. outboxes.items ≡ opening_outboxes (network_of net.now.program) home) }
{
    let mut outboxes = Vec::with_capacity(alloc, net.program.channels.len())?;
    for number in 0..net.program.channels.len() {
        if is_outgoing(net, home, number) {
            outboxes.push(new_outbox(number as u8))?;
        }
    }
    Ok(outboxes)
}

/// What the node of this number has beside this record, where it runs from its permanent image and never went down.
pub(crate) fn open_state(
    alloc: Global,
    net: &Net,
    number: u8,
    kept: &Record,
) -> Result<NodeState, AllocError>
    ensures { IfOk result (λ state. node_view kept.now state
        ≡ running_from (network_of net.now.program) number kept.now) }
{
    Ok(NodeState {
        mode: NodeMode::Running(Running {
            current: kept.permanent.copy(alloc)?,
            out: None,
            last: None,
            inboxes: open_inboxes(alloc, net, number)?,
            outboxes: open_outboxes(alloc, net, number)?,
            live: None,
        }),
        version: 0,
        restart: 0,
        armed: Vec::new(alloc),
    })
}
