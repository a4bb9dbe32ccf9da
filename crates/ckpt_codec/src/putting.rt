// The parts of a record, put behind bytes.
ghost use Rattle.std.specs.Prelude.{◌≡◌, ◌++◌, ◌<◌, ◌^◌, [], OnOk, All, length};
ghost use Rattle.std.specs.List.{flat_map};
ghost use Rattle.record.specs.Common.{standing_in};
ghost use Rattle.kahn_net.specs.Common.{standing_of};
ghost use Rattle.ckpt_codec.specs.Fields.{number_text};
ghost use Rattle.ckpt_codec.specs.RecordText.{variables_of, items_of_end};
ghost use Rattle.ckpt_codec.specs.Spelling.{mode_text, state_text, process_text, HasShortMode, IsShortState, IsShortProcess, HasItems, AreItems, items_text, log_text, end_text, saved_end_text, EndHasItems, process_list_text, end_list_text, image_text, IsShortImage, ImageHasItems, decision_text, decisions_text, IsShortDecision, AreShortDecisions, tentative_text, instance_text, held_text, IsShortTentative, TentativeHasItems};

use crate::ends::role_number;
use crate::numbers::{
    put_items, put_log_items, put_participants, put_passes, put_u8, put_u16, put_u32, put_u64,
};
use kahn_net::{Mode, ProcState};
use record::{Decision, End, Image, SavedEnd, SavedProcess, Tentative};
use retained::Log;
use std::alloc::AllocError;

fn put_mode(out: &mut Vec<u8>, mode: &Mode) -> Result<(), AllocError>
    requires { HasShortMode (standing_in mode.now []) }
    ensures { OnOk result (out.new.items ≡ out.old.items ++ mode_text (standing_in mode.now [])) }
{
    match mode {
        Mode::NotBegun => put_u8(out, 0),
        Mode::At(place) => {
            put_u8(out, 1)?;
            put_u32(out, place.site as u32)?;
            put_u8(out, place.left.len() as u8)?;
            put_passes(out, place.left.as_slice())
        }
        Mode::Finished => put_u8(out, 2),
    }
}

// A count, and so many variables.
fn put_variables(out: &mut Vec<u8>, variables: &[i64]) -> Result<(), AllocError>
    requires { length variables.now < 256 }
    ensures put { OnOk result (out.new.items ≡ out.old.items
        ++ (number_text 1 (length variables.now) ++ items_text variables.now)) }
    ensures fit { OnOk result (AreItems variables.now) }
{
    put_u8(out, variables.len() as u8)?;
    put_items(out, variables)
}

fn put_state(out: &mut Vec<u8>, state: &ProcState) -> Result<(), AllocError>
    requires { IsShortState (standing_of state.now) }
    ensures put { OnOk result (out.new.items ≡ out.old.items ++ state_text (standing_of state.now)) }
    ensures fit { OnOk result (AreItems (variables_of (standing_of state.now))) }
{
    put_mode(out, &state.mode)?;
    put_variables(out, state.variables.as_slice())
}

fn put_process(out: &mut Vec<u8>, process: &SavedProcess) -> Result<(), AllocError>
    requires { IsShortProcess process.now }
    ensures put { OnOk result (out.new.items ≡ out.old.items ++ process_text process.now) }
    ensures fit { OnOk result (HasItems process.now) }
{
    put_u8(out, process.number)?;
    put_state(out, &process.state)
}

fn put_processes(out: &mut Vec<u8>, processes: &[SavedProcess]) -> Result<(), AllocError>
    requires { All IsShortProcess processes.now }
    ensures put { OnOk result (out.new.items ≡ out.old.items
        ++ flat_map process_text processes.now) }
    ensures fit { OnOk result (All HasItems processes.now) }
{
    for process in processes {
        put_process(out, process)?;
    }
    Ok(())
}

fn put_log(out: &mut Vec<u8>, log: &Log) -> Result<(), AllocError>
    ensures put { OnOk result (out.new.items ≡ out.old.items ++ log_text log.now) }
    ensures fit { OnOk result (AreItems log.now.items) }
{
    put_u64(out, log.base())?;
    put_u32(out, log.len() as u32)?;
    put_log_items(out, log)
}

fn put_end(out: &mut Vec<u8>, end: &End) -> Result<(), AllocError>
    ensures put { OnOk result (out.new.items ≡ out.old.items ++ end_text end.now) }
    ensures fit { OnOk result (AreItems (items_of_end end.now)) }
{
    match end {
        End::Receives { received } => put_u64(out, *received),
        End::Sends { log } => put_log(out, log),
        End::Both { received, log } => {
            put_u64(out, *received)?;
            put_log(out, log)
        }
    }
}

fn put_saved_end(out: &mut Vec<u8>, saved: &SavedEnd) -> Result<(), AllocError>
    ensures put { OnOk result (out.new.items ≡ out.old.items ++ saved_end_text saved.now) }
    ensures fit { OnOk result (EndHasItems saved.now) }
{
    put_u16(out, saved.channel as u16)?;
    put_u8(out, role_number(&saved.end))?;
    put_end(out, &saved.end)
}

fn put_ends(out: &mut Vec<u8>, ends: &[SavedEnd]) -> Result<(), AllocError>
    ensures put { OnOk result (out.new.items ≡ out.old.items
        ++ flat_map saved_end_text ends.now) }
    ensures fit { OnOk result (All EndHasItems ends.now) }
{
    for saved in ends {
        put_saved_end(out, saved)?;
    }
    Ok(())
}

// How many processes there are, and each of them.
fn put_process_list(out: &mut Vec<u8>, processes: &[SavedProcess]) -> Result<(), AllocError>
    requires count { length processes.now < 256 }
    requires each { All IsShortProcess processes.now }
    ensures put { OnOk result (out.new.items ≡ out.old.items ++ process_list_text processes.now) }
    ensures fit { OnOk result (All HasItems processes.now) }
{
    put_u8(out, processes.len() as u8)?;
    put_processes(out, processes)
}

// How many ends there are, and each of them.
fn put_end_list(out: &mut Vec<u8>, ends: &[SavedEnd]) -> Result<(), AllocError>
    requires { length ends.now < 256 ^ 2 }
    ensures put { OnOk result (out.new.items ≡ out.old.items ++ end_list_text ends.now) }
    ensures fit { OnOk result (All EndHasItems ends.now) }
{
    put_u16(out, ends.len() as u16)?;
    put_ends(out, ends)
}

pub(crate) fn put_image(out: &mut Vec<u8>, image: &Image) -> Result<(), AllocError>
    requires { IsShortImage image.now }
    ensures put { OnOk result (out.new.items ≡ out.old.items ++ image_text image.now) }
    ensures fit { OnOk result (ImageHasItems image.now) }
{
    put_process_list(out, image.processes.as_slice())?;
    put_end_list(out, image.ends.as_slice())
}

fn put_decision(out: &mut Vec<u8>, decision: &Decision) -> Result<(), AllocError>
    requires { IsShortDecision decision.now }
    ensures { OnOk result (out.new.items ≡ out.old.items ++ decision_text decision.now) }
{
    put_u64(out, decision.number)?;
    put_u8(out, decision.participants.len() as u8)?;
    put_participants(out, decision.participants.as_slice())
}

fn put_each_decision(out: &mut Vec<u8>, decisions: &[Decision]) -> Result<(), AllocError>
    requires { All IsShortDecision decisions.now }
    ensures { OnOk result (out.new.items ≡ out.old.items ++ flat_map decision_text decisions.now) }
{
    for decision in decisions {
        put_decision(out, decision)?;
    }
    Ok(())
}

// How many decisions there are, and each of them.
pub(crate) fn put_decisions(out: &mut Vec<u8>, decisions: &[Decision]) -> Result<(), AllocError>
    requires { AreShortDecisions decisions.now }
    ensures { OnOk result (out.new.items ≡ out.old.items ++ decisions_text decisions.now) }
{
    put_u8(out, decisions.len() as u8)?;
    put_each_decision(out, decisions)
}

// Whose checkpoint a tentative image is.
fn put_instance(out: &mut Vec<u8>, tentative: &Tentative) -> Result<(), AllocError>
    ensures { OnOk result (out.new.items ≡ out.old.items
        ++ instance_text tentative.now.initiator tentative.now.number) }
{
    put_u8(out, tentative.initiator)?;
    put_u64(out, tentative.number)
}

pub(crate) fn put_tentative(
    out: &mut Vec<u8>,
    tentative: &Option<Tentative>,
) -> Result<(), AllocError>
    requires { IsShortTentative tentative.now }
    ensures put { OnOk result (out.new.items ≡ out.old.items ++ tentative_text tentative.now) }
    ensures fit { OnOk result (TentativeHasItems tentative.now) }
{
    match tentative {
        None => put_u8(out, 0),
        Some(tentative) => {
            put_u8(out, 1)?;
            put_instance(out, tentative)?;
            put_image(out, &tentative.image)
        }
    }
}

// Whose tentative image is held, without the image.
pub(crate) fn put_held(out: &mut Vec<u8>, tentative: &Option<Tentative>) -> Result<(), AllocError>
    ensures { OnOk result (out.new.items ≡ out.old.items ++ held_text tentative.now) }
{
    match tentative {
        None => put_u8(out, 0),
        Some(tentative) => {
            put_u8(out, 1)?;
            put_instance(out, tentative)
        }
    }
}
