// How many bytes spell a record, without writing them.
ghost use Rattle.std.specs.Prelude.{◌≡◌, ◌≤◌, ◌<◌, ◌^◌, ◌+◌, [], All, List, length, sum_by};
ghost use Rattle.record.specs.Common.{standing_in, DecisionView, last_image, with_permanent};
ghost use Rattle.ckpt_codec.specs.RecordText.{IsRecord};
ghost use Rattle.ckpt_codec.specs.HeaderText.{IsImageSpelled};
ghost use Rattle.ckpt_codec.specs.Spelling.{HasShortMode, IsShortProcess, IsShortImage, AreShortDecisions, IsShortTentative, IsShortRecord};
ghost use Rattle.ckpt_codec.specs.Lengths.{mode_length, process_length, end_length, saved_end_length, image_length, decisions_length, tentative_length, undecided_length, record_length, spelled_length, with_decided};

use kahn_net::Mode;
use record::{Decision, End, Image, Record, SavedEnd, SavedProcess, Tentative};

fn length_of_mode(mode: &Mode) -> usize
    requires { HasShortMode (standing_in mode.now []) }
    ensures value { result ≡ mode_length (standing_in mode.now []) }
    ensures bound { result ≤ 516 }
{
    match mode {
        Mode::NotBegun => 1,
        Mode::At(place) => 6 + 2 * place.left.len(),
        Mode::Finished => 1,
    }
}

fn length_of_process(process: &SavedProcess) -> usize
    requires { IsShortProcess process.now }
    ensures value { result ≡ process_length process.now }
    ensures bound { result ≤ 4096 }
{
    2 + length_of_mode(&process.state.mode) + 8 * process.state.variables.len()
}

fn length_of_processes(processes: &[SavedProcess]) -> usize
    requires few { length processes.now < 256 }
    requires each { All IsShortProcess processes.now }
    ensures value { result ≡ sum_by process_length processes.now }
    ensures bound { result ≤ 1048576 }
{
    let mut total = 0;
    for process in processes {
        total += length_of_process(process);
    }
    total
}

fn length_of_end(end: &End) -> usize
    ensures value { result ≡ end_length end.now }
    ensures bound { result ≤ 524308 }
{
    match end {
        End::Receives { .. } => 8,
        End::Sends { log } => 12 + 8 * log.len(),
        End::Both { log, .. } => 20 + 8 * log.len(),
    }
}

fn length_of_saved_end(saved: &SavedEnd) -> usize
    ensures value { result ≡ saved_end_length saved.now }
    ensures bound { result ≤ 524311 }
{
    3 + length_of_end(&saved.end)
}

fn length_of_ends(ends: &[SavedEnd]) -> usize
    requires { length ends.now < 256 ^ 2 }
    ensures value { result ≡ sum_by saved_end_length ends.now }
    ensures bound { result ≤ 34361245696 }
{
    let mut total = 0;
    for saved in ends {
        total += length_of_saved_end(saved);
    }
    total
}

pub(crate) fn length_of_image(image: &Image) -> usize
    requires { IsShortImage image.now }
    ensures value { result ≡ image_length image.now }
    ensures bound { result ≤ 34362294275 }
{
    let processes = length_of_processes(image.processes.as_slice());
    let ends = length_of_ends(image.ends.as_slice());
    3 + processes + ends
}

fn length_of_decisions(decisions: &[Decision]) -> usize
    requires { AreShortDecisions decisions.now }
    ensures value { result ≡ decisions_length decisions.now }
    ensures bound { result ≤ 67841 }
{
    let mut total = 1;
    for decision in decisions {
        total += 9 + decision.participants.len();
    }
    total
}

fn length_of_tentative(tentative: &Option<Tentative>) -> usize
    requires { IsShortTentative tentative.now }
    ensures value { result ≡ tentative_length tentative.now }
    ensures bound { result ≤ 34362294285 }
{
    match tentative {
        None => 1,
        Some(tentative) => 10 + length_of_image(&tentative.image),
    }
}

// The length of the tentative image, or of the permanent one where none is held.
fn length_of_last_image(kept: &Record) -> usize
    requires { IsShortRecord kept.now }
    ensures value { result ≡ image_length (last_image kept.now.permanent kept.now.tentative) }
    ensures bound { result ≤ 34362294275 }
{
    match &kept.tentative {
        None => length_of_image(&kept.permanent),
        Some(tentative) => length_of_image(&tentative.image),
    }
}

fn length_but_for_the_decisions(kept: &Record) -> usize
    requires { IsShortRecord kept.now }
    ensures value { result ≡ undecided_length kept.now }
    ensures bound { result < 2 ^ 40 }
{
    let permanent = length_of_image(&kept.permanent);
    let tentative = length_of_tentative(&kept.tentative);
    11 + 8 * kept.highest.len() + permanent + tentative
}

// A record once its tentative image is the permanent one.
fn length_but_for_decisions_once_permanent(kept: &Record) -> usize
    requires { IsShortRecord kept.now }
    ensures value { result ≡ undecided_length (with_permanent kept.now) }
    ensures bound { result < 2 ^ 40 }
{
    let image = length_of_last_image(kept);
    12 + 8 * kept.highest.len() + image
}

fn length_of_record(kept: &Record) -> usize
    requires { IsShortRecord kept.now }
    ensures { result ≡ record_length kept.now }
{
    length_but_for_the_decisions(kept) + length_of_decisions(kept.decisions.as_slice())
}

/// The most bytes of a record that a node keeps: 1 MiB. No call of this crate asks for it.
pub const MAX_RECORD_BYTES: usize = 1 << 20;

/// The most items that all the logs of an image may have, where a record is to hold two such images in `MAX_RECORD_BYTES`: of half a
/// record, 524,288 bytes, 65,536 are for its head and an image without items, and the rest has 8 bytes for an item.
pub const MAX_RETAINED_ITEMS: usize = 57_344;

/// The most bytes of a header: with 16 nodes, and with 8 decisions that each name the other 15.
pub const MAX_HEADER_BYTES: usize = 343;

/// How many bytes spell an image, by itself or beside another. Takes no memory.
pub fn spelled_image_length(image: &Image) -> usize
    requires { IsImageSpelled image.now }
    ensures { result ≡ image_length image.now }
{
    length_of_image(image)
}

/// How many bytes spell a record. Takes no memory.
pub fn spelled_length(kept: &Record) -> usize
    requires { IsRecord kept.now }
    ensures { result ≡ spelled_length kept.now }
{
    length_of_record(kept)
}

/// How many bytes spell a record with decisions of so many bytes in the place of its own. Takes no memory.
pub fn spelled_length_with(kept: &Record, decided: usize) -> usize
    requires record { IsRecord kept.now }
    requires few { decided < 2 ^ 63 }
    ensures { (decisions : List DecisionView) → decisions_length decisions ≡ decided
        → result ≡ spelled_length (with_decided decisions kept.now) }
{
    length_but_for_the_decisions(kept) + decided
}

/// How many bytes spell a record once its tentative image is the permanent one, with decisions of so many bytes in the place
/// of its own. Takes no memory.
pub fn spelled_length_once_permanent(kept: &Record, decided: usize) -> usize
    requires record { IsRecord kept.now }
    requires few { decided < 2 ^ 63 }
    ensures { (decisions : List DecisionView) → decisions_length decisions ≡ decided
        → result ≡ spelled_length (with_decided decisions (with_permanent kept.now)) }
{
    length_but_for_decisions_once_permanent(kept) + decided
}
