// A record apart: a header, and images by themselves.
ghost use Rattle.std.specs.Prelude.{◌≡◌, ◌≤◌, ◌++◌, length, Option, IfOk, IfErr, OnOk, option_copied};
ghost use Rattle.record.specs.Common.{ImageView};
ghost use Rattle.ckpt_codec.specs.Faults.{IsHeaderFault, IsImageFault, IsReadUnlessMemory, IsRefusedUnlessMemory};
ghost use Rattle.ckpt_codec.specs.Fields.{AreAllowed};
ghost use Rattle.ckpt_codec.specs.HeaderText.{header_of, IsHeaderTextIn, IsHeaderText, IsImageText, IsImageSpelled, IsImageAdded};
ghost use Rattle.ckpt_codec.specs.HeaderView.{HeaderView};
ghost use Rattle.ckpt_codec.specs.Reading.{Reads, held_at, slots_at, header_body_at, header_at, whole_image_at};
ghost use Rattle.ckpt_codec.specs.Lengths.{image_length};
ghost use Rattle.ckpt_codec.specs.RecordText.{image_fields, most_decisions, IsRecord};
ghost use Rattle.ckpt_codec.specs.Spelling.{header_spelling, IsShortFront};
ghost use Rattle.ckpt_codec.specs.declared.lengths.TheConstants.{MAX_HEADER_BYTES};
ghost use Rattle.ckpt_codec.specs.declared.version.TheConstants.{FIRST_VERSION, VERSION};
ghost use Rattle.ckpt_codec.specs.declared.fault.CodecFault.{CodecFault as FaultValue};

use crate::fault::CodecFault;
use crate::fields::{flag_of, slot_of};
use crate::header::{Header, Instance};
use crate::images::image_of;
use crate::lengths::{MAX_HEADER_BYTES, spelled_image_length};
use crate::numbers::put_u8;
use crate::putting::{put_held, put_image};
use crate::reading::{front_of, instance_of, most_decisions, version_of};
use crate::version::VERSION;
use crate::writing::put_front;
use record::{Image, Record};
use std::alloc::{AllocError, Global};

// Whose tentative image is in the other slot, if there is one there.
#[tactic(auto, unfolding(crate::specs::Reading::held_at))]
fn held_of<'a>(highest: &[u64], bytes: &'a [u8]) -> Result<(Option<Instance>, &'a [u8]), CodecFault>
    ensures { Reads (λ x. (x.0, x.1.now)) result (held_at highest.now bytes.now) }
{
    let (follows, rest) = flag_of(bytes)?;
    if !follows {
        return Ok((None, rest));
    }
    let (instance, rest) = instance_of(highest, rest)?;
    Ok((Some(instance), rest))
}

// The permanent image's slot, and what is in the other.
#[tactic(auto, unfolding(crate::specs::Reading::slots_at))]
fn slots_of<'a>(
    highest: &[u64],
    bytes: &'a [u8],
) -> Result<(u8, Option<Instance>, &'a [u8]), CodecFault>
    ensures { Reads (λ x. ((x.0, x.1), x.2.now)) result (slots_at highest.now bytes.now) }
{
    let (slot, rest) = slot_of(bytes)?;
    let (held, rest) = held_of(highest, rest)?;
    Ok((slot, held, rest))
}

// What follows the version.
#[tactic(auto, unfolding(crate::specs::Reading::header_body_at))]
fn header_body_of(alloc: Global, version: u8, bytes: &[u8]) -> Result<(Header, &[u8]), CodecFault>
    ensures { Reads (λ x. (x.0, x.1.now)) result (header_body_at version bytes.now) }
{
    let most = most_decisions(version);
    let (node, epoch, highest, decisions, rest) = front_of(alloc, most, bytes)?;
    let (slot, tentative, rest) = slots_of(highest.as_slice(), rest)?;
    let header = Header {
        node,
        epoch,
        highest,
        decisions,
        slot,
        tentative,
    };
    Ok((header, rest))
}

// The header that takes all the bytes.
#[tactic(auto, unfolding(crate::specs::Reading::header_at))]
fn whole_header_of(alloc: Global, bytes: &[u8]) -> Result<Header, CodecFault>
    ensures { Reads (λ header. header) result (header_at bytes.now) }
{
    let (version, rest) = version_of(bytes)?;
    let (header, rest) = header_body_of(alloc, version, rest)?;
    if !rest.is_empty() {
        return Err(CodecFault::Malformed);
    }
    Ok(header)
}

/// The header that these bytes spell, all of them, in either version.
///
/// Refuses by the first offence from the left, as `read_record` does: with `Truncated` (30), `Version` (31) or `Malformed`
/// (32); and with `NoMemory` (1).
pub fn read_header(alloc: Global, bytes: &[u8]) -> Result<Header, CodecFault>
    // These bytes spell the header that is answered.
    ensures found { IfOk result (λ header. IsHeaderText header bytes.now) }

    // The header that they spell is answered, or memory runs out.
    ensures only { (header : HeaderView) → IsHeaderText header bytes.now
        → IsReadUnlessMemory header result }

    // The refusal's cause is in the bytes, and no other refusal has its cause there.
    ensures cause { IfErr result (IsHeaderFault bytes.now) }
    ensures each { (fault : FaultValue) → IsHeaderFault bytes.now fault
        → IsRefusedUnlessMemory fault result }
{
    whole_header_of(alloc, bytes)
}

// The image that takes all the bytes.
#[tactic(auto, unfolding(crate::specs::Reading::whole_image_at))]
fn whole_image_of(alloc: Global, like: Option<&Image>, bytes: &[u8]) -> Result<Image, CodecFault>
    ensures { Reads (λ image. image) result
        (whole_image_at (option_copied like.entry) bytes.now) }
{
    let (image, rest) = image_of(alloc, like, bytes)?;
    if !rest.is_empty() {
        return Err(CodecFault::Malformed);
    }
    Ok(image)
}

/// The image that these bytes spell, all of them: beside this one, as a record's tentative image is beside the permanent
/// one, or by itself.
///
/// Refuses by the first offence from the left: with `Truncated` (30) where the bytes end and more is wanted, with
/// `Malformed` (32) at a value that can't stand where it does, one that differs from the first image's where both have to
/// agree among them, or at a byte behind the image; and with `NoMemory` (1).
pub fn read_image(alloc: Global, like: Option<&Image>, bytes: &[u8]) -> Result<Image, CodecFault>
    // These bytes spell the image that is answered.
    ensures found { IfOk result (λ image. IsImageText (option_copied like.entry) image bytes.now) }

    // The image that they spell is answered, or memory runs out.
    ensures only { (image : ImageView) → IsImageText (option_copied like.entry) image bytes.now
        → IsReadUnlessMemory image result }

    // The refusal's cause is in the bytes, and no other refusal has its cause there.
    ensures cause { IfErr result (IsImageFault (option_copied like.entry) bytes.now) }
    ensures each { (fault : FaultValue) → IsImageFault (option_copied like.entry) bytes.now fault
        → IsRefusedUnlessMemory fault result }
{
    whole_image_of(alloc, like, bytes)
}

// The parts of a header, with the permanent image in this slot.
fn put_header(out: &mut Vec<u8>, version: u8, kept: &Record, slot: u8) -> Result<(), AllocError>
    requires { IsShortFront kept.now }
    ensures { OnOk result (out.new.items ≡ out.old.items
        ++ header_spelling version slot kept.now) }
{
    put_front(out, version, kept)?;
    put_u8(out, slot)?;
    put_held(out, &kept.tentative)
}

/// The spelling of a record's header in this version, of those in which it may have its decisions, with the permanent image
/// in this slot. Refuses for want of memory alone.
pub fn write_header_in(
    alloc: Global,
    version: u8,
    kept: &Record,
    slot: u8,
) -> Result<Vec<u8>, AllocError>
    requires kept { IsRecord kept.now }
    requires version { (FIRST_VERSION ≤ version) × (version ≤ VERSION) }
    requires few { length kept.now.decisions ≤ most_decisions version }
    requires slot { slot ≤ 1 }
    ensures text { IfOk result
        (λ bytes. IsHeaderTextIn version (header_of slot kept.now) bytes.items) }
    ensures short { IfOk result (λ bytes. length bytes.items ≤ MAX_HEADER_BYTES) }
{
    let mut out = Vec::with_capacity(alloc, MAX_HEADER_BYTES)?;
    put_header(&mut out, version, kept, slot)?;
    Ok(out)
}

/// The spelling of a record's header, in the version in which records are written, with the permanent image in this slot.
/// Refuses for want of memory alone.
pub fn write_header(alloc: Global, kept: &Record, slot: u8) -> Result<Vec<u8>, AllocError>
    requires kept { IsRecord kept.now }
    requires slot { slot ≤ 1 }
    ensures text { IfOk result
        (λ bytes. IsHeaderTextIn VERSION (header_of slot kept.now) bytes.items) }
    ensures short { IfOk result (λ bytes. length bytes.items ≤ MAX_HEADER_BYTES) }
{
    write_header_in(alloc, VERSION, kept, slot)
}

/// The spelling of an image, by itself or beside another: it is the same. Refuses for want of memory alone.
pub fn write_image(alloc: Global, image: &Image) -> Result<Vec<u8>, AllocError>
    requires { IsImageSpelled image.now }
    ensures text { IfOk result (λ bytes. (like : Option ImageView)
        → AreAllowed (image_fields like image.now) → IsImageText like image.now bytes.items) }
    ensures long { IfOk result (λ bytes. length bytes.items ≡ image_length image.now) }
{
    let mut out = Vec::with_capacity(alloc, spelled_image_length(image))?;
    put_image(&mut out, image)?;
    Ok(out)
}

/// Puts the spelling of an image, by itself or beside another, behind bytes: so it is written where it is to stand. Refuses for want of
/// memory alone.
pub fn add_image(out: &mut Vec<u8>, image: &Image) -> Result<(), AllocError>
    requires { IsImageSpelled image.now }
    ensures { OnOk result (IsImageAdded image.now out.old.items out.new.items) }
{
    put_image(out, image)?;
    Ok(())
}
