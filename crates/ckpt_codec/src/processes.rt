// Processes, read from the front of bytes.
ghost use Rattle.std.specs.Prelude.{◌≡◌, ◌+◌, option_copied};
ghost use Rattle.record.specs.Common.{standing_in};
ghost use Rattle.kahn_net.specs.Common.{standing_of};
ghost use Rattle.kahn_net.specs.States.{point_of};
ghost use Rattle.ckpt_codec.specs.Reading.{Reads, items_at, so_many_passes_at, passes_at, place_at, mode_at, variables_at, state_at, process_at, number_wanted, variables_wanted, processes_at};
ghost use Rattle.ckpt_codec.specs.RecordText.{processes_in};

use crate::fault::CodecFault;
use crate::fields::{
    depth_of, item_of, mode_number_of, pass_of, process_number_of, u32_of, variable_count_of,
};
use kahn_net::{Mode, Place, ProcState};
use record::{Image, SavedProcess};
use std::alloc::Global;

// So many items: room is taken for no more than the bytes can hold.
pub(crate) fn items_of(
    alloc: Global,
    count: u32,
    bytes: &[u8],
) -> Result<(Vec<i64>, &[u8]), CodecFault>
    ensures { Reads (λ x. (x.0.items, x.1.now)) result (items_at count bytes.now) }
{
    let mut items = Vec::with_capacity(alloc, (count as usize).min(bytes.len() / 8))?;
    let mut rest = bytes;
    for _ in 0..count {
        let (item, after) = item_of(rest)?;
        items.push(item)?;
        rest = after;
    }
    Ok((items, rest))
}

// So many counts of passes, outermost first.
fn each_pass_of(alloc: Global, count: u8, bytes: &[u8]) -> Result<(Vec<u16>, &[u8]), CodecFault>
    ensures { Reads (λ x. (x.0.items, x.1.now)) result (so_many_passes_at count bytes.now) }
{
    let mut left = Vec::new(alloc);
    let mut rest = bytes;
    for _ in 0..count {
        let (passes, after) = pass_of(rest)?;
        left.push(passes)?;
        rest = after;
    }
    Ok((left, rest))
}

// The passes that remain of the repetitions round a site.
#[tactic(auto, unfolding(crate::specs::Reading::passes_at))]
fn passes_of(alloc: Global, bytes: &[u8]) -> Result<(Vec<u16>, &[u8]), CodecFault>
    ensures { Reads (λ x. (x.0.items, x.1.now)) result (passes_at bytes.now) }
{
    let (depth, rest) = depth_of(bytes)?;
    each_pass_of(alloc, depth, rest)
}

// A process's site, and the passes that remain there.
#[tactic(auto, unfolding(crate::specs::Reading::place_at))]
fn place_of(alloc: Global, bytes: &[u8]) -> Result<(Place, &[u8]), CodecFault>
    ensures { Reads (λ x. (point_of x.0, x.1.now)) result (place_at bytes.now) }
{
    let (site, rest) = u32_of(bytes)?;
    let (left, rest) = passes_of(alloc, rest)?;
    let place = Place {
        site: site as usize,
        left,
    };
    Ok((place, rest))
}

#[tactic(auto, unfolding(crate::specs::Reading::mode_at, crate::specs::Reading::footing_at))]
fn mode_of(alloc: Global, bytes: &[u8]) -> Result<(Mode, &[u8]), CodecFault>
    ensures { Reads (λ x. (standing_in x.0, x.1.now)) result (mode_at bytes.now) }
{
    let (mode, rest) = mode_number_of(bytes)?;
    match mode {
        0 => Ok((Mode::NotBegun, rest)),
        1 => {
            let (place, rest) = place_of(alloc, rest)?;
            Ok((Mode::At(place), rest))
        }
        _ => Ok((Mode::Finished, rest)),
    }
}

#[tactic(auto, unfolding(crate::specs::Reading::variables_at))]
fn variables_of(
    alloc: Global,
    wanted: Option<usize>,
    bytes: &[u8],
) -> Result<(Vec<i64>, &[u8]), CodecFault>
    ensures { Reads (λ x. (x.0.items, x.1.now)) result (variables_at wanted bytes.now) }
{
    let (count, rest) = variable_count_of(wanted, bytes)?;
    items_of(alloc, count as u32, rest)
}

#[tactic(auto, unfolding(crate::specs::Reading::state_at))]
fn state_of(
    alloc: Global,
    wanted: Option<usize>,
    bytes: &[u8],
) -> Result<(ProcState, &[u8]), CodecFault>
    ensures { Reads (λ x. (standing_of x.0, x.1.now)) result (state_at wanted bytes.now) }
{
    let (mode, rest) = mode_of(alloc, bytes)?;
    let (variables, rest) = variables_of(alloc, wanted, rest)?;
    Ok((ProcState { mode, variables }, rest))
}

#[tactic(auto, unfolding(crate::specs::Reading::process_at))]
fn process_of(
    alloc: Global,
    number: Option<u8>,
    variables: Option<usize>,
    least: u16,
    bytes: &[u8],
) -> Result<(SavedProcess, &[u8]), CodecFault>
    ensures { Reads (λ x. (x.0, x.1.now)) result (process_at number variables least bytes.now) }
{
    let (number, rest) = process_number_of(number, least, bytes)?;
    let (state, rest) = state_of(alloc, variables, rest)?;
    Ok((SavedProcess { number, state }, rest))
}

// The number of the process at this place of the first image.
fn wanted_number(like: Option<&Image>, place: usize) -> Option<u8>
    ensures { result ≡ number_wanted (processes_in (option_copied like.entry)) place }
{
    match like {
        Some(image) => match image.processes.get(place) {
            Some(process) => Some(process.number),
            None => None,
        },
        None => None,
    }
}

// How many variables the process at this place of the first image has.
fn wanted_variables(like: Option<&Image>, place: usize) -> Option<usize>
    ensures { result ≡ variables_wanted (processes_in (option_copied like.entry)) place }
{
    match like {
        Some(image) => match image.processes.get(place) {
            Some(process) => Some(process.state.variables.len()),
            None => None,
        },
        None => None,
    }
}

// The least number that may follow a process.
fn number_above(process: &SavedProcess) -> u16
    ensures { result ≡ process.now.number + 1 }
{
    process.number as u16 + 1
}

// So many processes, as those of the first image where there is one.
pub(crate) fn processes_of<'a>(
    alloc: Global,
    like: Option<&Image>,
    count: u8,
    bytes: &'a [u8],
) -> Result<(Vec<SavedProcess>, &'a [u8]), CodecFault>
    ensures { Reads (λ x. (x.0.items, x.1.now)) result
        (processes_at (processes_in (option_copied like.entry)) count bytes.now) }
{
    let mut processes = Vec::new(alloc);
    let mut rest = bytes;
    let mut least = 0;
    for place in 0..count as usize {
        let number = wanted_number(like, place);
        let variables = wanted_variables(like, place);
        let (process, after) = process_of(alloc, number, variables, least, rest)?;
        least = number_above(&process);
        processes.push(process)?;
        rest = after;
    }
    Ok((processes, rest))
}
