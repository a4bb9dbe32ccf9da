// The images of nodes where processes were run again, and records of them.
ghost use Rattle.std.specs.Prelude.{◌≡◌, ◌<◌, ◌≤◌, IfOk, length, map, slice_index, slice_index_or};
ghost use Rattle.kahn_net.specs.Nodes.{node_count};
ghost use Rattle.kahn_net.specs.States.{standing_of};
ghost use Rattle.kahn_net.specs.Syntax.{code_of};
ghost use Rattle.kahn_net.specs.declared.limits.TheConstants.{MAX_CHANNELS, MAX_PROCESSES};
ghost use Rattle.record.specs.Ascending.{AreAscending};
ghost use Rattle.rerun.specs.Tables.{no_log};
ghost use Rattle.rerun.specs.Whole.{net_in, table_in};
ghost use Rattle.resuming.specs.Images.{image_end, image_ends, image_of, image_processes, record_of};

use kahn_net::{Channel, ProcState, Process};
use layout::is_here;
use record::{End, Image, Record, SavedEnd, SavedProcess};
use rerun::Rerun;
use retained::Log;
use std::alloc::{AllocError, Global};

// The processes of a node, each with a copy of its state.
fn copy_processes(
    alloc: Global,
    processes: &[Process],
    states: &[ProcState],
    home: u8,
) -> Result<Vec<SavedProcess>, AllocError>
    requires few { length processes.now ≤ MAX_PROCESSES }
    requires each { length states.now ≡ length processes.now }
    ensures { IfOk result (λ saved. saved.items
        ≡ image_processes (map standing_of states.now) home 0 (map code_of processes.now)) }
{
    let mut saved = Vec::with_capacity(alloc, processes.len())?;
    for (number, process) in processes.iter().enumerate() {
        if process.node == home {
            saved.push(SavedProcess {
                number: number as u8,
                state: states[number].copy(alloc)?,
            })?;
        }
    }
    Ok(saved)
}

// An end of a channel at which a node puts, and gets, or not.
fn copy_end(alloc: Global, puts: bool, gets: bool, got: u64, log: &Log) -> Result<End, AllocError>
    ensures { IfOk result (λ end. end ≡ image_end puts gets got log.now) }
{
    if !puts {
        Ok(End::Receives { received: got })
    } else if gets {
        Ok(End::Both {
            received: got,
            log: log.copy(alloc)?,
        })
    } else {
        Ok(End::Sends {
            log: log.copy(alloc)?,
        })
    }
}

// The end of the channel of this number.
fn copy_end_of(
    alloc: Global,
    rerun: &Rerun,
    number: usize,
    puts: bool,
    gets: bool,
) -> Result<End, AllocError>
    requires { number < length (net_in rerun.now).channels }
    ensures { IfOk result (λ end. end ≡ image_end puts gets (slice_index (table_in rerun.now).got number)
        (slice_index_or (table_in rerun.now).logs number no_log)) }
{
    let got = rerun.got()[number];
    match rerun.put_on(number) {
        Some(log) => copy_end(alloc, puts, gets, got, log),
        // There is a log for each channel.
        None => unreachable!(),
    }
}

// The ends of channels at a node, with copies of their logs.
fn copy_ends(
    alloc: Global,
    rerun: &Rerun,
    channels: &[Channel],
    home: u8,
) -> Result<Vec<SavedEnd>, AllocError>
    requires { channels.now ≡ (net_in rerun.now).channels }
    ensures ends { IfOk result (λ ends. ends.items ≡ image_ends (net_in rerun.now) (table_in rerun.now).got
        (table_in rerun.now).logs home 0 channels.now) }
    ensures ordered { IfOk result (λ ends. AreAscending ends.items) }
{
    let mut ends = Vec::with_capacity(alloc, channels.len())?;
    for (number, channel) in channels.iter().enumerate() {
        let puts = is_here(rerun.net(), home, channel.producer);
        let gets = is_here(rerun.net(), home, channel.consumer);
        if puts || gets {
            ends.push(SavedEnd {
                channel: number as u8,
                end: copy_end_of(alloc, rerun, number, puts, gets)?,
            })?;
        }
    }
    Ok(ends)
}

// The image of a node.
fn copy_image(alloc: Global, rerun: &Rerun, home: u8) -> Result<Image, AllocError>
    ensures { IfOk result (λ image. image ≡ image_of (net_in rerun.now) (table_in rerun.now) home) }
{
    let net = rerun.net();
    Ok(Image {
        processes: copy_processes(alloc, &net.program.processes, rerun.states(), home)?,
        ends: copy_ends(alloc, rerun, &net.program.channels, home)?,
    })
}

/// The record of a node, of so many, whose permanent image is that of the place at which the processes are: nothing is held, decided or
/// numbered.
pub(crate) fn record_of(
    alloc: Global,
    rerun: &Rerun,
    home: u8,
    nodes: usize,
) -> Result<Record, AllocError>
    requires { nodes ≡ node_count (net_in rerun.now) }
    ensures { IfOk result (λ kept. kept ≡ record_of (net_in rerun.now) (table_in rerun.now) home) }
{
    Ok(Record {
        node: home,
        epoch: 0,
        highest: vec![in alloc; 0; nodes]?,
        decisions: Vec::new(alloc),
        permanent: copy_image(alloc, rerun, home)?,
        tentative: None,
    })
}
