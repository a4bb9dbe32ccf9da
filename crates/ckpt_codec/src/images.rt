// Images, read from the front of bytes.
ghost use Rattle.std.specs.Prelude.{◌≡◌, length, IfOk, option_copied};
ghost use Rattle.record.specs.Common.{AreAscending, ImageView};
ghost use Rattle.ckpt_codec.specs.RecordText.{wanted};
ghost use Rattle.ckpt_codec.specs.Reading.{Reads, process_list_at, end_list_at, image_at};

use crate::ends::ends_of;
use crate::fault::CodecFault;
use crate::fields::{end_count_of, process_count_of};
use crate::processes::processes_of;
use record::{Image, SavedEnd, SavedProcess};
use std::alloc::Global;

// How many processes the first image has.
pub(crate) fn wanted_processes(like: Option<&Image>) -> Option<usize>
    ensures { result ≡ wanted (λ (i : ImageView). length i.processes) (option_copied like.entry) }
{
    match like {
        Some(image) => Some(image.processes.len()),
        None => None,
    }
}

// How many ends the first image has.
pub(crate) fn wanted_ends(like: Option<&Image>) -> Option<usize>
    ensures { result ≡ wanted (λ (i : ImageView). length i.ends) (option_copied like.entry) }
{
    match like {
        Some(image) => Some(image.ends.len()),
        None => None,
    }
}

#[tactic(auto, unfolding(crate::specs::Reading::process_list_at))]
fn process_list_of<'a>(
    alloc: Global,
    like: Option<&Image>,
    bytes: &'a [u8],
) -> Result<(Vec<SavedProcess>, &'a [u8]), CodecFault>
    ensures { Reads (λ x. (x.0.items, x.1.now)) result
        (process_list_at (option_copied like.entry) bytes.now) }
{
    let (count, rest) = process_count_of(wanted_processes(like), bytes)?;
    processes_of(alloc, like, count, rest)
}

#[tactic(auto, unfolding(crate::specs::Reading::end_list_at))]
fn end_list_of<'a>(
    alloc: Global,
    like: Option<&Image>,
    bytes: &'a [u8],
) -> Result<(Vec<SavedEnd>, &'a [u8]), CodecFault>
    ensures read { Reads (λ x. (x.0.items, x.1.now)) result
        (end_list_at (option_copied like.entry) bytes.now) }
    ensures ordered { IfOk result (λ x. AreAscending x.0.items) }
{
    let (count, rest) = end_count_of(wanted_ends(like), bytes)?;
    ends_of(alloc, like, count, rest)
}

// An image, with the processes, variables, channels and roles of the first one where there is one.
#[tactic(auto, unfolding(crate::specs::Reading::image_at))]
pub(crate) fn image_of<'a>(
    alloc: Global,
    like: Option<&Image>,
    bytes: &'a [u8],
) -> Result<(Image, &'a [u8]), CodecFault>
    ensures { Reads (λ x. (x.0, x.1.now)) result (image_at (option_copied like.entry) bytes.now) }
{
    let (processes, rest) = process_list_of(alloc, like, bytes)?;
    let (ends, rest) = end_list_of(alloc, like, rest)?;
    Ok((Image { processes, ends }, rest))
}
