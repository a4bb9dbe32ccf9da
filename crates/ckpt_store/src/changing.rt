// The changes of a record that a store knows: each is at most one put of a header, and a tentative image is written into
// the slot without a role before that. No other image is written.
//
// A change is made in place, with its memory taken first, and is taken back where the put is refused. Where the device
// failed no record is known any more: the cell holds the old one or the next one.
ghost use Rattle.std.specs.Prelude.{◌≡◌, ◌<◌, ℕ, List, length, IsTrue, false};
ghost use Rattle.ckpt_codec.specs.Common.{IsRecord, spelled_length, with_tentative, with_permanent};
ghost use Rattle.ckpt_codec.specs.Common.{without_tentative, with_decision, with_confirmed, with_epoch};
ghost use Rattle.std.specs.Option.{ForSome};
ghost use Rattle.ckpt_store.specs.Refusals.{refusal_to_take, refusal_unless_held, refusal_to_decide, refusal_to_raise, no_refusal, has_effect};
ghost use Rattle.ckpt_store.specs.Spelling.{IsKept, IsLike, AreOthers, kept_in};
ghost use Rattle.ckpt_store.specs.Putting.{IsChange, IsIdle};

use crate::deciding::{confirmed_by, confirmed_bytes, decided_by, decided_bytes};
use crate::fault::StoreFault;
use crate::known::Known;
use crate::moving;
use crate::moving::{give_up, promote, raise, settle, take};
use crate::putting::{has_room, has_room_once_permanent, put_changed, put_taken};
use crate::refusing::{is_held, is_named, refusal_to_decide, refusal_to_take};
use ckpt_codec::{spelled_length_once_permanent, spelled_length_with};
use gate_cell::StableCell;
use kahn_net::MAX_COUNT;
use record::{Image, Record};
use slot_cell::SlotCell;
use std::alloc::Global;

// A tentative image is taken, under a number that becomes the highest seen of its initiator.
pub fn take_tentative<C: SlotCell>(
    alloc: Global,
    cell: &mut C,
    known: &mut Option<Known>,
    image: Image,
    initiator: u8,
    number: u64,
) -> Result<(), StoreFault>
    requires kept { IsKept C.is_ready C.whole C.may_leave_whole cell.old known.old }
    requires listed { ForSome (kept_in known.old) (λ kept. initiator < length kept.highest) }
    requires like { ForSome (kept_in known.old) (λ kept. IsLike kept.permanent image) }
    ensures kept { IsKept C.is_ready C.whole C.may_leave_whole cell.new known.new }
    ensures change { IsChange ⟦<C as StableCell>⟧ C.SlotCell.own (refusal_to_take initiator number) (with_tentative initiator number image)
        cell.old cell.new (kept_in known.old) (kept_in known.new) result }
{
    let Some(held) = known.take() else {
        return Err(StoreFault::Reopen);
    };
    let Known { mut kept, slot } = held;
    if let Some(fault) = refusal_to_take(&kept, initiator, number) {
        *known = Some(Known { kept, slot });
        return Err(fault);
    }
    let undo = take(&mut kept, initiator, number, image);
    put_taken(alloc, cell, known, kept, slot, undo)
}

// The tentative image of an instance becomes permanent.
pub fn make_permanent<C: SlotCell>(
    alloc: Global,
    cell: &mut C,
    known: &mut Option<Known>,
    initiator: u8,
    number: u64,
) -> Result<(), StoreFault>
    requires { IsKept C.is_ready C.whole C.may_leave_whole cell.old known.old }
    ensures kept { IsKept C.is_ready C.whole C.may_leave_whole cell.new known.new }
    ensures change { IsChange ⟦<C as StableCell>⟧ C.SlotCell.own (refusal_unless_held initiator number) with_permanent
        cell.old cell.new (kept_in known.old) (kept_in known.new) result }
{
    let Some(held) = known.take() else {
        return Err(StoreFault::Reopen);
    };
    let Known { mut kept, slot } = held;
    if !is_held(&kept, initiator, number) {
        *known = Some(Known { kept, slot });
        return Err(StoreFault::NotHeld);
    }
    let undo = promote(&mut kept, initiator, number);
    put_changed(alloc, cell, known, kept, 1 - slot, slot, undo)
}

// The tentative image of an instance goes.
pub fn drop_tentative<C: SlotCell>(
    alloc: Global,
    cell: &mut C,
    known: &mut Option<Known>,
    initiator: u8,
    number: u64,
) -> Result<(), StoreFault>
    requires { IsKept C.is_ready C.whole C.may_leave_whole cell.old known.old }
    ensures kept { IsKept C.is_ready C.whole C.may_leave_whole cell.new known.new }
    ensures change { IsChange ⟦<C as StableCell>⟧ C.SlotCell.own (refusal_unless_held initiator number) without_tentative
        cell.old cell.new (kept_in known.old) (kept_in known.new) result }
{
    let Some(held) = known.take() else {
        return Err(StoreFault::Reopen);
    };
    let Known { mut kept, slot } = held;
    if !is_held(&kept, initiator, number) {
        *known = Some(Known { kept, slot });
        return Err(StoreFault::NotHeld);
    }
    let undo = give_up(&mut kept);
    put_changed(alloc, cell, known, kept, slot, slot, undo)
}

// How many bytes spell the record in which the tentative image is the permanent one, and which so many nodes have to
// confirm. Takes no memory.
fn decided_length(kept: &Record, number: u64, count: usize) -> usize
    requires record { IsRecord kept.now }
    requires some { (0 < count) × (count < 256) }
    ensures { (nodes : List ℕ) → length nodes ≡ count
        → result ≡ spelled_length (with_decision number nodes kept.now) }
{
    spelled_length_once_permanent(
        kept,
        decided_bytes(kept.decisions.as_slice(), number, count),
    )
}

// How many bytes spell the record that a node's confirmation of this number leaves. Takes no memory.
fn confirmed_length(kept: &Record, number: u64, node: u8) -> usize
    requires { IsRecord kept.now }
    ensures { result ≡ spelled_length (with_confirmed number node kept.now) }
{
    spelled_length_with(
        kept,
        confirmed_bytes(kept.decisions.as_slice(), number, node),
    )
}

// The tentative image of the node's own instance becomes permanent, with a decision that these nodes have to confirm.
pub fn decide<C: SlotCell>(
    alloc: Global,
    cell: &mut C,
    known: &mut Option<Known>,
    number: u64,
    participants: Vec<u8>,
) -> Result<(), StoreFault>
    requires kept { IsKept C.is_ready C.whole C.may_leave_whole cell.old known.old }
    requires others { ForSome (kept_in known.old) (λ kept. AreOthers kept participants.items) }
    ensures kept { IsKept C.is_ready C.whole C.may_leave_whole cell.new known.new }
    ensures change { IsChange ⟦<C as StableCell>⟧ C.SlotCell.own (refusal_to_decide number participants.items) (with_decision number participants.items)
        cell.old cell.new (kept_in known.old) (kept_in known.new) result }
{
    let Some(held) = known.take() else {
        return Err(StoreFault::Reopen);
    };
    let Known { mut kept, slot } = held;
    if let Some(fault) = refusal_to_decide(&kept, number, participants.as_slice()) {
        *known = Some(Known { kept, slot });
        return Err(fault);
    }
    if participants.is_empty() {
        let initiator = kept.node;
        let undo = promote(&mut kept, initiator, number);
        return put_changed(alloc, cell, known, kept, 1 - slot, slot, undo);
    }
    if !has_room_once_permanent(
        cell,
        &kept,
        decided_length(&kept, number, participants.len()),
    ) {
        *known = Some(Known { kept, slot });
        return Err(StoreFault::TooLarge);
    }
    match decided_by(alloc, kept.decisions.as_slice(), number, participants) {
        Ok(decisions) => {
            let undo = moving::decide(&mut kept, number, decisions);
            put_changed(alloc, cell, known, kept, 1 - slot, slot, undo)
        }
        Err(_) => {
            *known = Some(Known { kept, slot });
            Err(StoreFault::NoMemory)
        }
    }
}

// A node of a decision has confirmed it.
pub fn confirm<C: SlotCell>(
    alloc: Global,
    cell: &mut C,
    known: &mut Option<Known>,
    number: u64,
    node: u8,
) -> Result<(), StoreFault>
    requires { IsKept C.is_ready C.whole C.may_leave_whole cell.old known.old }
    ensures kept { IsKept C.is_ready C.whole C.may_leave_whole cell.new known.new }
    ensures change { IsTrue (has_effect number node (kept_in known.old))
        → IsChange ⟦<C as StableCell>⟧ C.SlotCell.own no_refusal (with_confirmed number node)
        cell.old cell.new (kept_in known.old) (kept_in known.new) result }
    ensures idle { has_effect number node (kept_in known.old) ≡ false
        → IsIdle cell.old cell.new (kept_in known.old) (kept_in known.new) result }
{
    let Some(held) = known.take() else {
        return Err(StoreFault::Reopen);
    };
    let Known { mut kept, slot } = held;
    if !is_named(&kept, number, node) {
        *known = Some(Known { kept, slot });
        return Ok(());
    }
    if !has_room(cell, &kept, confirmed_length(&kept, number, node)) {
        *known = Some(Known { kept, slot });
        return Err(StoreFault::TooLarge);
    }
    match confirmed_by(alloc, kept.decisions.as_slice(), number, node) {
        Ok(decisions) => {
            let undo = settle(&mut kept, decisions);
            put_changed(alloc, cell, known, kept, slot, slot, undo)
        }
        Err(_) => {
            *known = Some(Known { kept, slot });
            Err(StoreFault::NoMemory)
        }
    }
}

// The epoch rises, and a tentative image of the node's own goes with it.
pub fn raise_epoch<C: SlotCell>(
    alloc: Global,
    cell: &mut C,
    known: &mut Option<Known>,
) -> Result<(), StoreFault>
    requires { IsKept C.is_ready C.whole C.may_leave_whole cell.old known.old }
    ensures kept { IsKept C.is_ready C.whole C.may_leave_whole cell.new known.new }
    ensures change { IsChange ⟦<C as StableCell>⟧ C.SlotCell.own refusal_to_raise with_epoch
        cell.old cell.new (kept_in known.old) (kept_in known.new) result }
{
    let Some(held) = known.take() else {
        return Err(StoreFault::Reopen);
    };
    let Known { mut kept, slot } = held;
    if kept.epoch >= MAX_COUNT {
        *known = Some(Known { kept, slot });
        return Err(StoreFault::Spent);
    }
    let undo = raise(&mut kept);
    put_changed(alloc, cell, known, kept, slot, slot, undo)
}
