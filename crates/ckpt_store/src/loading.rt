// The record that a cell holds.
ghost use Rattle.std.specs.Prelude.{◌-◌, ◌≤◌, IfOk, IsTrue, Some, None, option_copied};
ghost use Rattle.slot_cell.specs.Whole.{slot_in};
ghost use Rattle.ckpt_store.specs.Spelling.{IsKept, kept_in};
ghost use Rattle.ckpt_store.specs.Loading.{IsHeaderOf, IsHeaderWrong, IsImageOf, IsImageWrong, IsHeldOf, IsHeldWrong, IsRead, IsLook, kept_or, IsLoad, IsReload};

use crate::fault::StoreFault;
use crate::known::Known;
use crate::putting::is_short;
use ckpt_codec::{Header, read_header, read_image, spelled_length};
use gate_cell::StableCell;
use record::Image;
use slot_cell::SlotCell;
use std::alloc::Global;

// Reads the header.
fn load_header<C: SlotCell>(alloc: Global, cell: &mut C) -> Result<Header, StoreFault>
    ensures look { IsLook ⟦<C as StableCell>⟧ C.SlotCell.own cell.old cell.new result }
    ensures read { IsRead (IsHeaderOf (C.whole cell.old)) (IsHeaderWrong (C.whole cell.old)) result }
{
    let bytes = match cell.get() {
        Ok(bytes) => bytes,
        Err(fault) => return Err(StoreFault::from(fault)),
    };
    match read_header(alloc, bytes.as_slice()) {
        Ok(header) => Ok(header),
        Err(fault) => Err(StoreFault::from(fault)),
    }
}

// Reads the image in a slot, beside this one where there is one.
fn load_image<C: SlotCell>(
    alloc: Global,
    cell: &mut C,
    slot: u8,
    like: Option<&Image>,
) -> Result<Image, StoreFault>
    requires { slot ≤ 1 }
    ensures look { IsLook ⟦<C as StableCell>⟧ C.SlotCell.own cell.old cell.new result }
    ensures read { IsRead (IsImageOf (option_copied like.entry) (slot_in slot (C.whole cell.old)))
        (IsImageWrong (option_copied like.entry) (slot_in slot (C.whole cell.old))) result }
{
    let bytes = match cell.slot(usize::from(slot)) {
        Ok(bytes) => bytes,
        Err(fault) => return Err(StoreFault::from(fault)),
    };
    match read_image(alloc, like, bytes.as_slice()) {
        Ok(image) => Ok(image),
        Err(fault) => Err(StoreFault::from(fault)),
    }
}

// Reads the tentative image, where the header names one: it stands in the slot beside the permanent one's.
fn load_held<C: SlotCell>(
    alloc: Global,
    cell: &mut C,
    header: &Header,
    permanent: &Image,
) -> Result<Option<Image>, StoreFault>
    requires slot { header.now.slot ≤ 1 }
    requires ready { IsTrue (C.is_ready cell.old) }
    ensures look { IsLook ⟦<C as StableCell>⟧ C.SlotCell.own cell.old cell.new result }
    ensures read { IsRead (IsHeldOf permanent.now header.now.tentative (slot_in (1 - header.now.slot) (C.whole cell.old)))
        (IsHeldWrong permanent.now header.now.tentative (slot_in (1 - header.now.slot) (C.whole cell.old))) result }
{
    if header.tentative.is_none() {
        return Ok(None);
    }
    match load_image(alloc, cell, 1 - header.slot, Some(permanent)) {
        Ok(image) => Ok(Some(image)),
        Err(fault) => Err(fault),
    }
}

// Reads the header, and then the slots that it names.
pub fn load<C: SlotCell>(alloc: Global, cell: &mut C) -> Result<Known, StoreFault>
    ensures load { IsLoad ⟦<C as StableCell>⟧ C.SlotCell.own cell.old cell.new (kept_or result) }
    ensures kept { IfOk result
        (λ known. IsKept C.is_ready C.whole C.may_leave_whole cell.new (Some known)) }
{
    let header = match load_header(alloc, cell) {
        Ok(header) => header,
        Err(fault) => return Err(fault),
    };
    let slot = header.slot;
    let permanent = match load_image(alloc, cell, slot, None) {
        Ok(image) => image,
        Err(fault) => return Err(fault),
    };
    let held = match load_held(alloc, cell, &header, &permanent) {
        Ok(held) => held,
        Err(fault) => return Err(fault),
    };
    let kept = header.with_images(permanent, held);
    if !is_short(spelled_length(&kept)) {
        return Err(StoreFault::TooLarge);
    }
    Ok(Known { kept, slot })
}

// Makes a cell ready again, and loads its record.
pub fn reload<C: SlotCell>(
    alloc: Global,
    cell: &mut C,
    known: &mut Option<Known>,
) -> Result<(), StoreFault>
    requires { IsKept C.is_ready C.whole C.may_leave_whole cell.old known.old }
    ensures kept { IsKept C.is_ready C.whole C.may_leave_whole cell.new known.new }
    ensures reload { IsReload ⟦<C as StableCell>⟧ C.SlotCell.own cell.old cell.new (kept_in known.new) result }
{
    *known = None;
    if cell.reopen().is_err() {
        return Err(StoreFault::Device);
    }
    match load(alloc, cell) {
        Ok(kept) => {
            *known = Some(kept);
            Ok(())
        }
        Err(fault) => Err(fault),
    }
}
