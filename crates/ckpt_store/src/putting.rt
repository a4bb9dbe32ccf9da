// One put of a record.
ghost use Rattle.std.specs.Prelude.{◌≡◌, ◌≤◌, nat_le, ◌&&◌, IsTrue, IfOk, Some, None, Option};
ghost use Rattle.std.specs.Option.{ForSome};
ghost use Rattle.ckpt_codec.specs.Common.{RecordView, IsRecord, IsImageSpelled, image_length, last_image};
ghost use Rattle.ckpt_codec.specs.Common.{with_permanent};
ghost use Rattle.record.specs.declared.record.Tentative.{Tentative as HeldView};
ghost use Rattle.ckpt_store.specs.Spelling.{is_short, held_fits, images_fit, fits_in, Spells, SpellsAt, StandIn, IsKept, kept_in, known_as};
ghost use Rattle.ckpt_store.specs.Refusals.{no_refusal};
ghost use Rattle.gate_cell.specs.declared.TheConstants.{MAX_VALUE_BYTES};
ghost use Rattle.ckpt_store.specs.Putting.{IsImageFramed, IsHeldFramed, IsPut, known_after, IsChange};
ghost use Rattle.ckpt_store.specs.Undoing.{undone, IsUndoable};

use crate::fault::StoreFault;
use crate::known::Known;
use crate::undo::Undo;
use ckpt_codec::{MAX_RECORD_BYTES, add_image, spelled_image_length, spelled_length, write_header};
use gate_cell::{StableCell, begin_frame, end_frame, framed};
use record::{Image, Record, Tentative};
use slot_cell::SlotCell;
use std::alloc::{AllocError, Global};

/// Whether so many bytes aren't more than a record's spelling may have.
pub fn is_short(length: usize) -> bool
    ensures { result ≡ is_short length }
{
    length <= MAX_RECORD_BYTES
}

// Whether a tentative image, if there is one, isn't longer than this.
fn held_fits(room: usize, tentative: &Option<Tentative>) -> bool
    requires { ForSome tentative.now (λ (t : HeldView). IsImageSpelled t.image) }
    ensures { result ≡ held_fits room tentative.now }
{
    match tentative {
        None => true,
        Some(held) => spelled_image_length(&held.image) <= room,
    }
}

// Whether each image of the record isn't longer than this.
fn images_fit(room: usize, kept: &Record) -> bool
    requires { IsRecord kept.now }
    ensures { result ≡ images_fit room kept.now }
{
    spelled_image_length(&kept.permanent) <= room && held_fits(room, &kept.tentative)
}

// Whether the tentative image isn't longer than this; where there is none, whether the permanent one isn't.
fn last_fits(room: usize, kept: &Record) -> bool
    requires { IsRecord kept.now }
    ensures { result ≡ nat_le (image_length
        (last_image kept.now.permanent kept.now.tentative)) room }
{
    match &kept.tentative {
        None => spelled_image_length(&kept.permanent) <= room,
        Some(held) => spelled_image_length(&held.image) <= room,
    }
}

/// Whether a record of so many bytes with the same images isn't too long, and fits the slots.
pub fn has_room<C: SlotCell>(cell: &C, kept: &Record, length: usize) -> bool
    requires { IsRecord kept.now }
    ensures { result ≡ is_short length && images_fit (C.slot_capacity cell.now) kept.now }
{
    is_short(length) && images_fit(cell.slot_room(), kept)
}

/// The same once its tentative image is the permanent one.
pub fn has_room_once_permanent<C: SlotCell>(cell: &C, kept: &Record, length: usize) -> bool
    requires { IsRecord kept.now }
    ensures { result ≡ is_short length
        && images_fit (C.slot_capacity cell.now) (with_permanent kept.now) }
{
    is_short(length) && last_fits(cell.slot_room(), kept)
}

// Whether the record isn't too long, and its images fit the slots.
fn fits<C: SlotCell>(cell: &C, kept: &Record) -> bool
    requires { IsRecord kept.now }
    ensures { result ≡ fits_in (C.slot_capacity cell.now) kept.now }
{
    is_short(spelled_length(kept)) && images_fit(cell.slot_room(), kept)
}

// Puts the header of a record whose images stand in the slots already, the permanent one in this. Whether the record fits
// is found before memory is taken.
pub fn put_header<C: SlotCell>(
    alloc: Global,
    cell: &mut C,
    next: &Record,
    slot: u8,
) -> Result<(), StoreFault>
    requires record { IsRecord next.now }
    requires slot { slot ≤ 1 }
    requires ready { IsTrue (C.is_ready cell.old) }
    ensures { (kept : RecordView) → Spells kept (C.whole cell.old)
        → StandIn slot next.now.permanent next.now.tentative (C.whole cell.old)
        → IsPut ⟦<C as StableCell>⟧ C.SlotCell.own kept next.now slot cell.old cell.new result }
{
    if !fits(cell, next) {
        return Err(StoreFault::TooLarge);
    }
    let header = write_header(alloc, next, slot)?;
    cell.put(header.as_slice())?;
    Ok(())
}

// An image, spelled where it is to stand in its frame.
fn framed_image(alloc: Global, image: &Image) -> Result<Vec<u8>, AllocError>
    requires spelled { IsImageSpelled image.now }
    requires short { image_length image.now ≤ MAX_VALUE_BYTES }
    ensures { IfOk result (λ frame. IsImageFramed image.now frame.items) }
{
    let mut frame = begin_frame(alloc, spelled_image_length(image))?;
    add_image(&mut frame, image)?;
    end_frame(&mut frame)?;
    Ok(frame)
}

// The frame of a tentative image; a frame without bytes where there is none.
fn held_frame(alloc: Global, tentative: &Option<Tentative>) -> Result<Vec<u8>, AllocError>
    requires spelled { ForSome tentative.now (λ (t : HeldView). IsImageSpelled t.image) }
    requires short { ForSome tentative.now (λ (t : HeldView). image_length t.image ≤ MAX_VALUE_BYTES) }
    ensures { IfOk result (λ frame. IsHeldFramed tentative.now frame.items) }
{
    match tentative {
        None => framed(alloc, &[]),
        Some(held) => framed_image(alloc, &held.image),
    }
}

// Fills the slot without a role with the record's tentative image, and then puts a header that names it; the permanent
// image stands in this slot, and stays. All memory is taken before the fill, but for what the cell takes for it.
pub fn put_image<C: SlotCell>(
    alloc: Global,
    cell: &mut C,
    next: &Record,
    slot: u8,
) -> Result<(), StoreFault>
    requires record { IsRecord next.now }
    requires slot { slot ≤ 1 }
    requires ready { IsTrue (C.is_ready cell.old) }
    ensures { (kept : RecordView) → SpellsAt slot kept (C.whole cell.old) → kept.tentative ≡ None
        → next.now.permanent ≡ kept.permanent
        → IsPut ⟦<C as StableCell>⟧ C.SlotCell.own kept next.now slot cell.old cell.new result }
{
    if !fits(cell, next) {
        return Err(StoreFault::TooLarge);
    }
    let frame = held_frame(alloc, &next.tentative)?;
    let header = write_header(alloc, next, slot)?;
    cell.fill_framed(usize::from(1 - slot), frame.as_slice())?;
    cell.put(header.as_slice())?;
    Ok(())
}

// What is known after a put of a record that was changed in place: where the put was refused the change is taken back, and
// after a failure of the device no record is known.
fn note(
    known: &mut Option<Known>,
    next: Record,
    slot: u8,
    was: u8,
    undo: Undo,
    put: Result<(), StoreFault>,
) -> Result<(), StoreFault>
    requires { IsUndoable undo next }
    ensures known { known.new ≡ known_after put (known_as (undone undo next) was) (known_as next slot) }
    ensures same { result ≡ put }
{
    let mut next = next;
    match put {
        Ok(()) => {
            *known = Some(Known { kept: next, slot });
            Ok(())
        }
        Err(fault) => {
            if fault.is_failure() {
                *known = None;
                return Err(fault);
            }
            undo.undo(&mut next);
            *known = Some(Known {
                kept: next,
                slot: was,
            });
            Err(fault)
        }
    }
}

// Puts the header of a record that was changed in place, and takes the change back where that is refused. Its images stand
// in the slots, the permanent one in this.
pub fn put_changed<C: SlotCell>(
    alloc: Global,
    cell: &mut C,
    known: &mut Option<Known>,
    next: Record,
    slot: u8,
    was: u8,
    undo: Undo,
) -> Result<(), StoreFault>
    requires kept { IsKept C.is_ready C.whole C.may_leave_whole cell.old
        (Some (known_as (undone undo next) was)) }
    requires record { IsRecord next }
    requires applies { IsUndoable undo next }
    requires stand { StandIn slot next.permanent next.tentative (C.whole cell.old) }
    ensures kept { IsKept C.is_ready C.whole C.may_leave_whole cell.new known.new }
    ensures change { IsChange ⟦<C as StableCell>⟧ C.SlotCell.own no_refusal (λ before. next)
        cell.old cell.new (Some (undone undo next)) (kept_in known.new) result }
{
    let put = put_header(alloc, cell, &next, slot);
    note(known, next, slot, was, undo, put)
}

// Puts a record that was changed in place by a tentative image, with that; and takes the change back where that is refused.
pub fn put_taken<C: SlotCell>(
    alloc: Global,
    cell: &mut C,
    known: &mut Option<Known>,
    next: Record,
    slot: u8,
    undo: Undo,
) -> Result<(), StoreFault>
    requires kept { IsKept C.is_ready C.whole C.may_leave_whole cell.old
        (Some (known_as (undone undo next) slot)) }
    requires record { IsRecord next }
    requires applies { IsUndoable undo next }
    requires free { (undone undo next).tentative ≡ None }
    requires same { next.permanent ≡ (undone undo next).permanent }
    ensures kept { IsKept C.is_ready C.whole C.may_leave_whole cell.new known.new }
    ensures change { IsChange ⟦<C as StableCell>⟧ C.SlotCell.own no_refusal (λ before. next)
        cell.old cell.new (Some (undone undo next)) (kept_in known.new) result }
{
    let put = put_image(alloc, cell, &next, slot);
    note(known, next, slot, slot, undo, put)
}
