// From bytes to a record.
ghost use Rattle.std.specs.Prelude.{◌≡◌, ◌<◌, IfOk, IfErr, slice_index};
ghost use Rattle.ckpt_codec.specs.RecordText.{most_decisions, IsRecord, IsRecordText};
ghost use Rattle.ckpt_codec.specs.Faults.{IsCodecFault, IsReadUnlessMemory, IsRefusedUnlessMemory};
ghost use Rattle.ckpt_codec.specs.Reading.{Reads, entries_at, highest_at, participants_at, participant_list_at, decided_at, decided_so_many, decisions_at, instance_at, pending_at, tentative_at, numbers_at, head_at, front_at, images_at, body_at, version_at, whole_at};
ghost use Rattle.ckpt_codec.specs.declared.fault.CodecFault.{CodecFault as FaultValue};
ghost use Rattle.record.specs.Common.{RecordView};

use crate::fault::CodecFault;
use crate::fields::{
    count_of, decided_number_of, decision_count_of, flag_of, initiator_of, nodes_of,
    participant_count_of, participant_of, tentative_number_of, u8_of,
};
use crate::header::Instance;
use crate::images::image_of;
use crate::version::{FIRST_VERSION, VERSION};
use record::{Decision, Image, MAX_DECISIONS, Record, Tentative};
use std::alloc::Global;

// So many entries.
fn entries_of(alloc: Global, count: u8, bytes: &[u8]) -> Result<(Vec<u64>, &[u8]), CodecFault>
    ensures { Reads (λ x. (x.0.items, x.1.now)) result (entries_at count bytes.now) }
{
    let mut entries = Vec::new(alloc);
    let mut rest = bytes;
    for _ in 0..count {
        let (entry, after) = count_of(rest)?;
        entries.push(entry)?;
        rest = after;
    }
    Ok((entries, rest))
}

// How many nodes there are, and the highest number seen of each.
#[tactic(auto, unfolding(crate::specs::Reading::highest_at))]
fn highest_of(alloc: Global, node: u8, bytes: &[u8]) -> Result<(Vec<u64>, &[u8]), CodecFault>
    ensures { Reads (λ x. (x.0.items, x.1.now)) result (highest_at node bytes.now) }
{
    let (nodes, rest) = nodes_of(node, bytes)?;
    entries_of(alloc, nodes, rest)
}

// So many nodes that take part, ascending.
fn participants_of(
    alloc: Global,
    node: u8,
    nodes: usize,
    count: u8,
    bytes: &[u8],
) -> Result<(Vec<u8>, &[u8]), CodecFault>
    ensures { Reads (λ x. (x.0.items, x.1.now)) result
        (participants_at node nodes count bytes.now) }
{
    let mut participants = Vec::new(alloc);
    let mut rest = bytes;
    let mut least = 0;
    for _ in 0..count {
        let (participant, after) = participant_of(node, nodes, least, rest)?;
        participants.push(participant)?;
        least = participant as u16 + 1;
        rest = after;
    }
    Ok((participants, rest))
}

#[tactic(auto, unfolding(crate::specs::Reading::participant_list_at))]
fn participant_list_of(
    alloc: Global,
    node: u8,
    nodes: usize,
    bytes: &[u8],
) -> Result<(Vec<u8>, &[u8]), CodecFault>
    ensures { Reads (λ x. (x.0.items, x.1.now)) result
        (participant_list_at node nodes bytes.now) }
{
    let (count, rest) = participant_count_of(bytes)?;
    participants_of(alloc, node, nodes, count, rest)
}

#[tactic(auto, unfolding(crate::specs::Reading::decided_at))]
fn decided_of(
    alloc: Global,
    node: u8,
    nodes: usize,
    own: u64,
    least: u128,
    bytes: &[u8],
) -> Result<(Decision, &[u8]), CodecFault>
    ensures { Reads (λ x. (x.0, x.1.now)) result (decided_at node nodes own least bytes.now) }
{
    let (number, rest) = decided_number_of(own, least, bytes)?;
    let (participants, rest) = participant_list_of(alloc, node, nodes, rest)?;
    let decision = Decision {
        number,
        participants,
    };
    Ok((decision, rest))
}

// So many decisions, by ascending numbers.
fn decided_by_count(
    alloc: Global,
    node: u8,
    nodes: usize,
    own: u64,
    count: u8,
    bytes: &[u8],
) -> Result<(Vec<Decision>, &[u8]), CodecFault>
    ensures { Reads (λ x. (x.0.items, x.1.now)) result
        (decided_so_many node nodes own count bytes.now) }
{
    let mut decisions = Vec::new(alloc);
    let mut rest = bytes;
    let mut least: u128 = 1;
    for _ in 0..count {
        let (decision, after) = decided_of(alloc, node, nodes, own, least, rest)?;
        least = decision.number as u128 + 1;
        decisions.push(decision)?;
        rest = after;
    }
    Ok((decisions, rest))
}

// Decisions, at most so many.
#[tactic(auto, unfolding(crate::specs::Reading::decisions_at))]
fn decisions_of(
    alloc: Global,
    most: usize,
    node: u8,
    nodes: usize,
    own: u64,
    bytes: &[u8],
) -> Result<(Vec<Decision>, &[u8]), CodecFault>
    ensures { Reads (λ x. (x.0.items, x.1.now)) result
        (decisions_at most node nodes own bytes.now) }
{
    let (count, rest) = decision_count_of(most, bytes)?;
    decided_by_count(alloc, node, nodes, own, count, rest)
}

// Whose checkpoint a tentative image is.
#[tactic(auto, unfolding(crate::specs::Reading::instance_at))]
pub(crate) fn instance_of<'a>(
    highest: &[u64],
    bytes: &'a [u8],
) -> Result<(Instance, &'a [u8]), CodecFault>
    ensures { Reads (λ x. (x.0, x.1.now)) result (instance_at highest.now bytes.now) }
{
    let (initiator, rest) = initiator_of(highest, bytes)?;
    let (number, rest) = tentative_number_of(entry_of(highest, initiator), rest)?;
    Ok((Instance { initiator, number }, rest))
}

#[tactic(auto, unfolding(crate::specs::Reading::pending_at))]
fn pending_of<'a>(
    alloc: Global,
    highest: &[u64],
    permanent: &Image,
    bytes: &'a [u8],
) -> Result<(Tentative, &'a [u8]), CodecFault>
    ensures { Reads (λ x. (x.0, x.1.now)) result
        (pending_at highest.now permanent.now bytes.now) }
{
    let (instance, rest) = instance_of(highest, bytes)?;
    let (image, rest) = image_of(alloc, Some(permanent), rest)?;
    let tentative = Tentative {
        initiator: instance.initiator,
        number: instance.number,
        image,
    };
    Ok((tentative, rest))
}

// A tentative image, or none.
#[tactic(auto, unfolding(crate::specs::Reading::tentative_at))]
fn tentative_of<'a>(
    alloc: Global,
    highest: &[u64],
    permanent: &Image,
    bytes: &'a [u8],
) -> Result<(Option<Tentative>, &'a [u8]), CodecFault>
    ensures { Reads (λ x. (x.0, x.1.now)) result
        (tentative_at highest.now permanent.now bytes.now) }
{
    let (follows, rest) = flag_of(bytes)?;
    if !follows {
        return Ok((None, rest));
    }
    let (tentative, rest) = pending_of(alloc, highest, permanent, rest)?;
    Ok((Some(tentative), rest))
}

// The epoch, and the highest number seen of each node.
#[tactic(auto, unfolding(crate::specs::Reading::numbers_at))]
fn numbers_of(alloc: Global, node: u8, bytes: &[u8]) -> Result<(u64, Vec<u64>, &[u8]), CodecFault>
    ensures { Reads (λ x. ((x.0, x.1.items), x.2.now)) result (numbers_at node bytes.now) }
{
    let (epoch, rest) = count_of(bytes)?;
    let (highest, rest) = highest_of(alloc, node, rest)?;
    Ok((epoch, highest, rest))
}

#[tactic(auto, unfolding(crate::specs::Reading::head_at))]
fn head_of(alloc: Global, bytes: &[u8]) -> Result<(u8, u64, Vec<u64>, &[u8]), CodecFault>
    ensures { Reads (λ x. (record { node = x.0; epoch = x.1; highest = x.2.items }, x.3.now))
        result (head_at bytes.now) }
{
    let (node, rest) = u8_of(bytes)?;
    let (epoch, highest, rest) = numbers_of(alloc, node, rest)?;
    Ok((node, epoch, highest, rest))
}

// What a record and its header have both: the head, and at most so many decisions.
#[tactic(auto, unfolding(crate::specs::Reading::front_at))]
pub(crate) fn front_of(
    alloc: Global,
    most: usize,
    bytes: &[u8],
) -> Result<(u8, u64, Vec<u64>, Vec<Decision>, &[u8]), CodecFault>
    ensures { Reads
        (λ x. (record { node = x.0; epoch = x.1; highest = x.2.items; decisions = x.3.items }, x.4.now))
        result (front_at most bytes.now) }
{
    let (node, epoch, highest, rest) = head_of(alloc, bytes)?;
    let own = entry_of(highest.as_slice(), node);
    let (decisions, rest) = decisions_of(alloc, most, node, highest.len(), own, rest)?;
    Ok((node, epoch, highest, decisions, rest))
}

// The two images.
#[tactic(auto, unfolding(crate::specs::Reading::images_at))]
fn images_of<'a>(
    alloc: Global,
    highest: &[u64],
    bytes: &'a [u8],
) -> Result<(Image, Option<Tentative>, &'a [u8]), CodecFault>
    ensures { Reads (λ x. ((x.0, x.1), x.2.now)) result (images_at highest.now bytes.now) }
{
    let (permanent, rest) = image_of(alloc, None, bytes)?;
    let (tentative, rest) = tentative_of(alloc, highest, &permanent, rest)?;
    Ok((permanent, tentative, rest))
}

// The entry of a node.
pub(crate) fn entry_of(highest: &[u64], node: u8) -> u64
    ensures { result ≡ slice_index highest.now node }
{
    match highest.get(node as usize) {
        Some(entry) => *entry,
        None => 0,
    }
}

// How many decisions a record may have in a version.
pub(crate) fn most_decisions(version: u8) -> usize
    ensures { result ≡ most_decisions version }
{
    if version == FIRST_VERSION {
        1
    } else {
        MAX_DECISIONS
    }
}

// What follows the version.
#[tactic(auto, unfolding(crate::specs::Reading::body_at))]
fn body_of(alloc: Global, version: u8, bytes: &[u8]) -> Result<(Record, &[u8]), CodecFault>
    ensures { Reads (λ x. (x.0, x.1.now)) result (body_at version bytes.now) }
{
    let most = most_decisions(version);
    let (node, epoch, highest, decisions, rest) = front_of(alloc, most, bytes)?;
    let (permanent, tentative, rest) = images_of(alloc, highest.as_slice(), rest)?;
    let kept = Record {
        node,
        epoch,
        highest,
        decisions,
        permanent,
        tentative,
    };
    Ok((kept, rest))
}

// The version that comes first.
#[tactic(auto, unfolding(crate::specs::Reading::version_at))]
pub(crate) fn version_of(bytes: &[u8]) -> Result<(u8, &[u8]), CodecFault>
    ensures { Reads (λ x. (x.0, x.1.now)) result (version_at bytes.now) }
{
    let [version, rest @ ..] = bytes else {
        return Err(CodecFault::Truncated);
    };
    if *version < FIRST_VERSION || *version > VERSION {
        return Err(CodecFault::Version);
    }
    Ok((*version, rest))
}

// The record that takes all the bytes.
#[tactic(auto, unfolding(crate::specs::Reading::whole_at))]
fn whole_of(alloc: Global, bytes: &[u8]) -> Result<Record, CodecFault>
    ensures { Reads (λ kept. kept) result (whole_at bytes.now) }
{
    let (version, rest) = version_of(bytes)?;
    let (kept, rest) = body_of(alloc, version, rest)?;
    if !rest.is_empty() {
        return Err(CodecFault::Malformed);
    }
    Ok(kept)
}

/// The record that these bytes spell, all of them, in either version.
///
/// Refuses by the first offence from the left: with `Truncated` (30) where the bytes end and more is wanted, with
/// `Version` (31) at a first byte of no version, with `Malformed` (32) at a value that can't stand where it does
/// or at a byte behind the record; and with `NoMemory` (1).
pub fn read_record(alloc: Global, bytes: &[u8]) -> Result<Record, CodecFault>
    // These bytes spell the record that is answered.
    ensures found { IfOk result (λ kept. IsRecordText kept bytes.now) }

    // It may be written.
    ensures whole { IfOk result (λ kept. IsRecord kept) }

    // The record that they spell is answered, or memory runs out.
    ensures only { (kept : RecordView) → IsRecordText kept bytes.now
        → IsReadUnlessMemory kept result }

    // The refusal's cause is in the bytes, and no other refusal has its cause there.
    ensures cause { IfErr result (IsCodecFault bytes.now) }
    ensures each { (fault : FaultValue) → IsCodecFault bytes.now fault
        → IsRefusedUnlessMemory fault result }
{
    whole_of(alloc, bytes)
}
