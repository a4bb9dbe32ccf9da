// Which images may be written: each field is tested in its turn.
ghost use Rattle.std.specs.Prelude.{◌≡◌, ◌↔◌, ◌<◌, [], length, IsTrue, Some, None, option_copied, map};
ghost use Rattle.record.specs.Common.{standing_in, MAX_PROCESSES, MAX_VARIABLES, MAX_CHANNELS, MAX_REPEATS};
ghost use Rattle.record.specs.Common.{SavedProcessView};
ghost use Rattle.record.specs.declared.image.SavedEnd.{SavedEnd};
ghost use Rattle.ckpt_codec.specs.Fields.{IsAllowed, AreAllowed};
ghost use Rattle.ckpt_codec.specs.RecordText.{any, at_most, between, remaining, retained_count, wanted, wanted_or, count, variables_of, role_of, first_of, rest_of, processes_in, ends_in, mode_fields, process_fields, processes_fields, end_fields, saved_end_fields, ends_fields, image_fields};
ghost use Rattle.ckpt_codec.specs.Testing.{listed, log_fields, process_list_fields, end_list_fields};

use crate::ends::role_number;
use crate::images::{wanted_ends, wanted_processes};
use kahn_net::{
    MAX_CHANNELS, MAX_COUNT, MAX_NODES, MAX_PROCESSES, MAX_REPEATS, MAX_TIMES, MAX_VARIABLES, Mode,
};
use record::{End, Image, SavedEnd, SavedProcess};
use retained::{Log, MAX_LOG_ITEMS};

fn number_stands(wanted: Option<u8>, least: u16, number: u8) -> bool
    ensures { IsTrue result ↔ IsAllowed (wanted_or wanted (between 1 least MAX_PROCESSES number)) }
{
    match wanted {
        Some(wanted) => number == wanted,
        None => least <= number as u16 && (number as usize) < MAX_PROCESSES,
    }
}

fn channel_stands(wanted: Option<u8>, least: u16, channel: u8) -> bool
    ensures { IsTrue result ↔ IsAllowed (wanted_or wanted (between 2 least MAX_CHANNELS channel)) }
{
    match wanted {
        Some(wanted) => channel == wanted,
        None => least <= channel as u16,
    }
}

fn role_stands(wanted: Option<u8>, role: u8) -> bool
    ensures { IsTrue result ↔ IsAllowed (wanted_or wanted (at_most 1 2 role)) }
{
    match wanted {
        Some(wanted) => role == wanted,
        None => role <= 2,
    }
}

// How many there are, in one byte.
fn length_stands(wanted: Option<usize>, most: usize, count: usize) -> bool
    requires { most < 256 }
    ensures { IsTrue result ↔ IsAllowed (wanted_or wanted (at_most 1 most count)) }
{
    match wanted {
        Some(wanted) => count == wanted && count < 256,
        None => count <= most,
    }
}

fn end_count_stands(wanted: Option<usize>, count: usize) -> bool
    ensures { IsTrue result ↔ IsAllowed (wanted_or wanted (at_most 2 MAX_CHANNELS count)) }
{
    match wanted {
        Some(wanted) => count == wanted && count < 65_536,
        None => count <= MAX_CHANNELS,
    }
}

// A count, a position or an epoch.
fn is_count(number: u64) -> bool
    ensures { IsTrue result ↔ IsAllowed (count number) }
{
    number <= MAX_COUNT
}

fn site_stands(site: usize) -> bool
    ensures { IsTrue result ↔ IsAllowed (any 4 site) }
{
    site <= u32::MAX as usize
}

// How many repetitions are round a site.
fn depth_stands(depth: usize) -> bool
    ensures { IsTrue result ↔ IsAllowed (at_most 1 MAX_REPEATS depth) }
{
    depth <= MAX_REPEATS
}

// The passes that remain of a repetition.
fn passes_stand(passes: u16) -> bool
    ensures { IsTrue result ↔ IsAllowed (remaining passes) }
{
    passes >= 1 && passes <= MAX_TIMES
}

fn are_passes(left: &[u16]) -> bool
    ensures { IsTrue result ↔ AreAllowed (map remaining left.now) }
{
    let [passes, behind @ ..] = left else {
        return true;
    };
    if !passes_stand(*passes) {
        return false;
    }
    are_passes(behind)
}

fn is_mode(mode: &Mode) -> bool
    ensures { IsTrue result ↔ AreAllowed (mode_fields (standing_in mode.now [])) }
{
    match mode {
        Mode::NotBegun => true,
        Mode::At(place) => {
            if !site_stands(place.site) {
                return false;
            }
            if !depth_stands(place.left.len()) {
                return false;
            }
            are_passes(place.left.as_slice())
        }
        Mode::Finished => true,
    }
}

fn number_of(like: Option<&SavedProcess>) -> Option<u8>
    ensures { result ≡ wanted (λ (p : SavedProcessView). p.number) (option_copied like.entry) }
{
    match like {
        Some(process) => Some(process.number),
        None => None,
    }
}

fn variables_in(like: Option<&SavedProcess>) -> Option<usize>
    ensures { result ≡ wanted (λ (p : SavedProcessView). length (variables_of p.standing))
        (option_copied like.entry) }
{
    match like {
        Some(process) => Some(process.state.variables.len()),
        None => None,
    }
}

// A process, as this one of the first image where there is one.
fn is_process(like: Option<&SavedProcess>, least: u16, process: &SavedProcess) -> bool
    ensures { IsTrue result
        ↔ AreAllowed (process_fields (option_copied like.entry) least process.now) }
{
    if !number_stands(number_of(like), least, process.number) {
        return false;
    }
    if !is_mode(&process.state.mode) {
        return false;
    }
    length_stands(
        variables_in(like),
        MAX_VARIABLES,
        process.state.variables.len(),
    )
}

fn first<T>(list: &[T]) -> Option<&T>
    ensures { option_copied result ≡ first_of (Some list.now) }
{
    match list {
        [first, ..] => Some(first),
        [] => None,
    }
}

fn rest<T>(list: &[T]) -> &[T]
    ensures { result.now ≡ listed (rest_of (Some list.now)) }
{
    match list {
        [_, rest @ ..] => rest,
        [] => list,
    }
}

// Processes, as those of the first image where there is one.
fn are_processes(likes: &[SavedProcess], least: u16, processes: &[SavedProcess]) -> bool
    ensures { IsTrue result
        ↔ AreAllowed (processes_fields (Some likes.now) least processes.now) }
{
    let [process, behind @ ..] = processes else {
        return true;
    };
    if !is_process(first(likes), least, process) {
        return false;
    }
    are_processes(rest(likes), process.number as u16 + 1, behind)
}

fn base_stands(limit: u64, base: u64) -> bool
    ensures { IsTrue result ↔ IsAllowed (at_most 8 limit base) }
{
    base <= limit
}

fn retained_stand(from: u64, log: &Log) -> bool
    ensures { IsTrue result
        ↔ IsAllowed (retained_count log.now.base from (length log.now.items)) }
{
    log.len() <= MAX_LOG_ITEMS && log.end() <= MAX_COUNT && from <= log.end()
}

// A log whose base is at most this, and whose end is at least that.
fn is_log(limit: u64, from: u64, log: &Log) -> bool
    ensures { IsTrue result ↔ AreAllowed (log_fields limit from log.now) }
{
    if !base_stands(limit, log.base()) {
        return false;
    }
    retained_stand(from, log)
}

fn is_end(end: &End) -> bool
    ensures { IsTrue result ↔ AreAllowed (end_fields end.now) }
{
    match end {
        End::Receives { received } => is_count(*received),
        End::Sends { log } => is_log(MAX_COUNT, 0, log),
        End::Both { received, log } => {
            if !is_count(*received) {
                return false;
            }
            is_log(*received, *received, log)
        }
    }
}

fn channel_of(like: Option<&SavedEnd>) -> Option<u8>
    ensures { result ≡ wanted (λ (e : SavedEnd). e.channel) (option_copied like.entry) }
{
    match like {
        Some(saved) => Some(saved.channel),
        None => None,
    }
}

fn role_in(like: Option<&SavedEnd>) -> Option<u8>
    ensures { result ≡ wanted (λ (e : SavedEnd). role_of e.end) (option_copied like.entry) }
{
    match like {
        Some(saved) => Some(role_number(&saved.end)),
        None => None,
    }
}

// An end of a channel, as this one of the first image where there is one.
fn is_saved_end(like: Option<&SavedEnd>, least: u16, saved: &SavedEnd) -> bool
    ensures { IsTrue result
        ↔ AreAllowed (saved_end_fields (option_copied like.entry) least saved.now) }
{
    if !channel_stands(channel_of(like), least, saved.channel) {
        return false;
    }
    if !role_stands(role_in(like), role_number(&saved.end)) {
        return false;
    }
    is_end(&saved.end)
}

// Ends of channels, as those of the first image where there is one.
fn are_ends(likes: &[SavedEnd], least: u16, ends: &[SavedEnd]) -> bool
    ensures { IsTrue result ↔ AreAllowed (ends_fields (Some likes.now) least ends.now) }
{
    let [saved, behind @ ..] = ends else {
        return true;
    };
    if !is_saved_end(first(likes), least, saved) {
        return false;
    }
    are_ends(rest(likes), saved.channel as u16 + 1, behind)
}

fn processes_of(like: Option<&Image>) -> &[SavedProcess]
    ensures { result.now ≡ listed (processes_in (option_copied like.entry)) }
{
    match like {
        Some(image) => image.processes.as_slice(),
        None => &[],
    }
}

fn ends_of(like: Option<&Image>) -> &[SavedEnd]
    ensures { result.now ≡ listed (ends_in (option_copied like.entry)) }
{
    match like {
        Some(image) => image.ends.as_slice(),
        None => &[],
    }
}

// How many processes an image has, and each of them.
fn processes_stand(like: Option<&Image>, image: &Image) -> bool
    ensures { IsTrue result
        ↔ AreAllowed (process_list_fields (option_copied like.entry) image.now) }
{
    if !length_stands(wanted_processes(like), MAX_PROCESSES, image.processes.len()) {
        return false;
    }
    are_processes(processes_of(like), 0, image.processes.as_slice())
}

// How many ends an image has, and each of them.
fn ends_stand(like: Option<&Image>, image: &Image) -> bool
    ensures { IsTrue result ↔ AreAllowed (end_list_fields (option_copied like.entry) image.now) }
{
    if !end_count_stands(wanted_ends(like), image.ends.len()) {
        return false;
    }
    are_ends(ends_of(like), 0, image.ends.as_slice())
}

/// Whether an image may be written: beside this one where there is one, and else by itself.
pub fn is_image(like: Option<&Image>, image: &Image) -> bool
    ensures { IsTrue result ↔ AreAllowed (image_fields (option_copied like.entry) image.now) }
{
    if !processes_stand(like, image) {
        return false;
    }
    ends_stand(like, image)
}
