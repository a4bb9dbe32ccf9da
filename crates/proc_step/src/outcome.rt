//! What a turn comes to.

ghost use Rattle.std.specs.Prelude.{◌≡◌, ℤ, List, IfOk, IsTrue};
ghost use Rattle.kahn_net.specs.Common.{HasPassingLoop, code_repeats_within, standing_in, standing_of};
ghost use Rattle.kahn_net.specs.Syntax.{Code as Syntax};
ghost use Rattle.proc_code.specs.CodeView.{code_view};
ghost use Rattle.proc_code.specs.Translation.{flat_code};
ghost use Rattle.proc_step.specs.Parts.{stands_as, taken_of};
ghost use Rattle.proc_step.specs.Turns.{IsTurn};

use crate::machine::{Flow, Machine};
use kahn_net::{History, Mode, Place, ProcState};
use proc_code::Code;
use std::alloc::{AllocError, Global};
use stream_eq::Unread;

/// What a turn came to.
#[derive(Drop)]
pub struct Outcome {
    pub state: ProcState,
    /// How many items were taken from each channel.
    pub taken: Vec<usize>,
    /// What was sent on each channel.
    pub sent: Vec<History>,
}

/// How many items of each list were taken.
fn count_taken(
    alloc: Global,
    items: &[History],
    left: &[Unread<'_>],
) -> Result<Vec<usize>, AllocError>
    ensures { IfOk result (λ taken. taken.items ≡ taken_of items.now left.now) }
{
    let mut taken = Vec::new(alloc);
    for (items, left) in items.iter().zip(left) {
        taken.push(items.len().saturating_sub(left.len()))?;
    }
    Ok(taken)
}

/// How far a process is that stopped so, with these passes left.
fn mode_of(flow: Flow, left: Vec<u16>) -> Mode
    ensures { (vars : List ℤ) → standing_in result vars ≡ stands_as flow left.items vars }
{
    match flow {
        Flow::RanOut => Mode::Finished,
        Flow::Stopped => Mode::Finished,
        Flow::Stands(site) => Mode::At(Place { site, left }),
    }
}

/// Makes a turn of a process with this code from this state, on these items and this room.
pub fn take_turn(
    alloc: Global,
    code: &Code,
    state: &ProcState,
    items: &[History],
    room: &[usize],
) -> Result<Outcome, AllocError>
    // Of each process whose code this is.
    ensures { IfOk result (λ after. (process : Syntax) → HasPassingLoop process
        → IsTrue (code_repeats_within process) → code_view code.now ≡ flat_code process
        → IsTurn process (standing_of state.now) items.now room.now
        (standing_of after.state) after.taken.items after.sent.items) }
{
    let mut machine = Machine::new(alloc, code, state, items, room)?;
    let flow = machine.play(alloc, &code.instructions, items, room)?;
    let taken = count_taken(alloc, items, &machine.unread)?;
    let Machine {
        left,
        variables,
        sent,
        ..
    } = machine;
    Ok(Outcome {
        state: ProcState {
            mode: mode_of(flow, left),
            variables,
        },
        taken,
        sent,
    })
}
