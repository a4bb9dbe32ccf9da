//! How far a process has come.

ghost use Rattle.std.specs.Prelude.{◌≡◌, ◌↔◌, ◌<◌, ◌+◌, ◌≤◌, ℕ, Some, IfOk, IsTrue, length, map, slice_get, slice_index, EachIndex};
ghost use Rattle.kahn_net.specs.Common.{history_of, network_of, next_of, standing_of};
ghost use Rattle.kahn_net.specs.Syntax.{Code};
ghost use Rattle.kahn_net.specs.declared.limits.TheConstants.{MAX_HISTORY_ITEMS};
ghost use Rattle.approximations.specs.AtHand.{can_go_on};
ghost use Rattle.approximations.specs.Progress.{beginning_of, progress_view};

use kahn_net::{History, Mode, ProcState, Process};
use net_check::Net;
use proc_step::{NextAct, next_act};
use std::alloc::{AllocError, Global};

/// How far a process has come: where it stands, and how many items of each channel it has got.
#[derive(Drop)]
pub struct Progress {
    pub state: ProcState,
    pub got: Vec<usize>,
}

/// A process that hasn't begun, in a network with so many channels.
fn beginning(alloc: Global, process: &Process, channels: usize) -> Result<Progress, AllocError>
    ensures { IfOk result (λ progress. progress_view progress ≡ beginning_of channels process.now) }
{
    Ok(Progress {
        state: ProcState {
            mode: Mode::NotBegun,
            variables: Vec::from_slice(alloc, process.variables.as_slice())?,
        },
        got: vec![in alloc; 0; channels]?,
    })
}

/// The processes of a network, none of which has begun.
pub fn beginnings(
    alloc: Global,
    processes: &[Process],
    channels: usize,
) -> Result<Vec<Progress>, AllocError>
    ensures { IfOk result (λ all. map progress_view all.items ≡ map (beginning_of channels) processes.now) }
{
    let mut all = Vec::new(alloc);
    for process in processes {
        all.push(beginning(alloc, process, channels)?)?;
    }
    Ok(all)
}

/// How many items of a channel a process has got.
fn got_of(got: &[usize], channel: usize) -> usize
    ensures { result ≡ slice_index got.now channel }
{
    got.get(channel).copied().unwrap_or(0)
}

/// How many items a channel's history has.
fn length_of(histories: &[History], channel: usize) -> usize
    ensures { result ≡ length (history_of histories.now channel) }
{
    match histories.get(channel) {
        Some(history) => history.len(),
        None => 0,
    }
}

impl Progress {
    /// Whether the process does more on these histories: it begins or puts next, or gets from a channel of which it
    /// hasn't got all. It takes the same time whatever the histories have.
    pub fn can_go_on(&self, net: &Net, process: usize, histories: &[History]) -> bool
        requires { process < length net.now.program.processes.items }
        ensures { (code : Code) → slice_get (network_of net.now.program).codes process ≡ Some code
            → result ≡ can_go_on (next_of code (standing_of self.now.state)) self.now.got.items histories.now }
    {
        match next_act(net, process, &self.state) {
            NextAct::Begin => true,
            NextAct::Get { channel } => got_of(&self.got, channel) < length_of(histories, channel),
            NextAct::Put { .. } => true,
            NextAct::Nothing => false,
        }
    }
}

/// Counts what a process took of each channel.
pub fn count_taken(got: &mut [usize], taken: &[usize])
    requires { (c : ℕ) → slice_index got.old c + slice_index taken.now c ≤ MAX_HISTORY_ITEMS }
    ensures { EachIndex got.new (λ c. slice_index got.new c ≡ slice_index got.old c + slice_index taken.now c) }
{
    for channel in 0..got.len() {
        got[channel] += got_of(taken, channel);
    }
}

/// Whether nothing was taken of any channel.
pub fn is_nothing(taken: &[usize]) -> bool
    ensures { IsTrue result ↔ EachIndex taken.now (λ c. slice_index taken.now c ≡ 0) }
{
    taken.iter().all(|count| *count == 0)
}
