//! One record in one cell with slots.
ghost use Rattle.std.specs.Prelude.{◌≡◌, ◌<◌, ◌++◌, [], ◌∷◌, length, false, Some, None, IfOk, OnOk, OnErr, IsSome, IsTrue, MatchResult};
ghost use Rattle.std.specs.Option.{ForSome};
ghost use Rattle.sector_disk.specs.Clock.{Only, LeavesOnly};
ghost use Rattle.gate_cell.specs.Setup.{LeavesSetup};
ghost use Rattle.ckpt_codec.specs.Common.{with_tentative, with_permanent, without_tentative, with_decision};
ghost use Rattle.ckpt_codec.specs.Common.{with_confirmed, with_epoch};
ghost use Rattle.ckpt_store.specs.Refusals.{refusal_to_take, refusal_unless_held, refusal_to_decide, refusal_to_raise, no_refusal, has_effect};
ghost use Rattle.ckpt_store.specs.Spelling.{IsKept, IsLike, AreOthers};

use crate::changing;
use crate::fault::StoreFault;
use crate::known::Known;
use crate::loading::{load, reload};
use record::{Image, Record};
use sector_disk::ArmedFault;
use slot_cell::SlotCell;
use std::alloc::{AllocError, Global};

/// A record in a cell, which is changed whole or not at all.
///
/// A store serves for as long as its cell does. It is ready once it has been opened, and until it crashes or its device
/// fails; until it is reopened then, it answers `Reopen` (23). What a crash leaves is always a record.
pub struct Store<C: SlotCell> {
    cell: C,
    known: Option<Known>,
    // Whatever a crash may leave of the cell is a record. While the store is ready the cell is, and spells the one that is known.
    pub ghost kept: { IsKept C.is_ready C.whole C.may_leave_whole cell known },
}

// Written out, since each crate above would go through a derived one again.
impl<C: SlotCell> Drop for Store<C> {
    fn drop(self) {
        let Self { cell, known } = self;
    }
}

/// A cell on which no store was opened, and why.
#[derive(Drop)]
pub struct Refused<C: SlotCell> {
    pub cell: C,
    pub fault: StoreFault,
}

impl<C: SlotCell> Store<C> {
    ghost use Rattle.ckpt_store.specs.StoreView.{cell_in, known_in, record_in, Holds, Changes, Stays, Opens, Reopens, IsUntouched};

    /// Opens the record that the cell holds. It never writes.
    ///
    /// Refuses with `Truncated` (30), `Version` (31) and `Malformed` (32) where that is no record, by the first offence from
    /// the left in the header, the permanent image and the tentative one, and with `TooLarge` (22) where a length stands in
    /// a slot that the header names and doesn't fit it, or where the record is longer than one may be; with `Reopen` (23)
    /// where the cell isn't ready; with `Device` (20); and with `NoMemory` (1). A refusal hands the cell back.
    pub fn open(alloc: Global, cell: C) -> Result<Store<C>, Refused<C>>
        // A record is answered exactly where the cell holds one, unless the cell or memory refuses; 22, 30, 31 and 32 are told by
        // the first offence in header, permanent image and tentative one. A crash at any moment leaves what it might have left before.
        ensures opens { Opens cell result }
        ensures ready { IfOk result (λ store. IsSome (known_in store)) }
    {
        let mut cell = cell;
        match load(alloc, &mut cell) {
            Ok(kept) => Ok(Store {
                cell,
                known: Some(kept),
            }),
            Err(fault) => Err(Refused { cell, fault }),
        }
    }

    /// The cell, as it is. It never refuses.
    pub fn close(self) -> C
        ensures { result ≡ cell_in self }
    {
        let Store { cell, known: _ } = self;
        cell
    }

    /// The record. Refuses with `Reopen` (23) alone, exactly where the store isn't ready.
    pub fn record(&self) -> Result<&Record, StoreFault>
        ensures { MatchResult result
            (λ kept. (known_in self.now ≡ Some kept.now) × (record_in self.now ≡ kept.now))
            (λ fault. (fault ≡ StoreFault.Reopen) × (known_in self.now ≡ None)) }
    {
        match &self.known {
            Some(known) => Ok(&known.kept),
            None => Err(StoreFault::Reopen),
        }
    }

    /// The last device call that failed, counted since the last recount, or 0 where none has failed since.
    pub fn failed_call(&self) -> u64
        ensures { result ≡ C.failed_call (cell_in self.now) }
    {
        self.cell.failed_call()
    }

    /// Takes a tentative image of an instance, whose number becomes the highest seen of its initiator.
    ///
    /// Refuses with `HoldsOther` (40), `PastNumber` (41), `Unsettled` (43) and `Spent` (44), in this order; and then as
    /// each change, with `TooLarge` (22), `Device` (20), `Reopen` (23) and `NoMemory` (1).
    pub fn take_tentative(
        &mut self,
        alloc: Global,
        image: Image,
        initiator: u8,
        number: u64,
    ) -> Result<(), StoreFault>
        requires listed { ForSome (known_in self.old) (λ kept. initiator < length kept.highest) }
        requires like { ForSome (known_in self.old) (λ kept. IsLike kept.permanent image) }
        // The record is changed whole or not at all, at any moment of the call. What it is then and why it is refused is told by
        // `with_tentative` and `refusal_to_take`; by two such words each further change says its own.
        ensures { Changes (refusal_to_take initiator number) (with_tentative initiator number image)
            self.old self.new result }
    {
        changing::take_tentative(
            alloc,
            &mut self.cell,
            &mut self.known,
            image,
            initiator,
            number,
        )
    }

    /// Makes the tentative image of an instance permanent. Refuses with `NotHeld` (42) where it isn't held, and then as
    /// each change.
    pub fn make_permanent(
        &mut self,
        alloc: Global,
        initiator: u8,
        number: u64,
    ) -> Result<(), StoreFault>
        ensures { Changes (refusal_unless_held initiator number) with_permanent
            self.old self.new result }
    {
        changing::make_permanent(alloc, &mut self.cell, &mut self.known, initiator, number)
    }

    /// Drops the tentative image of an instance; its number stays among those seen. Refuses with `NotHeld` (42) where it
    /// isn't held, and then as each change.
    pub fn drop_tentative(
        &mut self,
        alloc: Global,
        initiator: u8,
        number: u64,
    ) -> Result<(), StoreFault>
        ensures { Changes (refusal_unless_held initiator number) without_tentative
            self.old self.new result }
    {
        changing::drop_tentative(alloc, &mut self.cell, &mut self.known, initiator, number)
    }

    /// Makes the tentative image of the node's own instance permanent, and adds the decision that these nodes have to
    /// confirm, if there are any: it takes the place of one of its number. Refuses with `NotHeld` (42) where that instance
    /// isn't held, with `Unsettled` (43) where it would be one decision too many, and then as each change.
    pub fn decide(
        &mut self,
        alloc: Global,
        number: u64,
        participants: Vec<u8>,
    ) -> Result<(), StoreFault>
        requires { ForSome (known_in self.old) (λ kept. AreOthers kept participants.items) }
        ensures { Changes (refusal_to_decide number participants.items) (with_decision number participants.items)
            self.old self.new result }
    {
        changing::decide(alloc, &mut self.cell, &mut self.known, number, participants)
    }

    /// Takes a node out of the decision of this number, and touches no other; with its last one the decision goes. Where no
    /// decision of this number names the node, nothing is put. Refuses as each change.
    pub fn confirm(&mut self, alloc: Global, number: u64, node: u8) -> Result<(), StoreFault>
        ensures change { IsTrue (has_effect number node (known_in self.old))
            → Changes no_refusal (with_confirmed number node) self.old self.new result }
        ensures idle { has_effect number node (known_in self.old) ≡ false
            → Stays self.old self.new result }
    {
        changing::confirm(alloc, &mut self.cell, &mut self.known, number, node)
    }

    /// Raises the epoch, and drops a tentative image of the node's own in the same put; another's stays. Refuses with
    /// `Spent` (44) where there is no next epoch, and then as each change.
    pub fn raise_epoch(&mut self, alloc: Global) -> Result<(), StoreFault>
        ensures { Changes refusal_to_raise with_epoch self.old self.new result }
    {
        changing::raise_epoch(alloc, &mut self.cell, &mut self.known)
    }

    /// The device crashes and comes back: what the cell holds is settled, by the fill byte where one is given. The store
    /// has to be reopened.
    pub fn crash(&mut self, fill: Option<u8>)
        ensures down { known_in self.new ≡ None }

        // The record is now one that a crash might have left, and another crash leaves no other. A ready store keeps its own.
        ensures left { C.may_leave_whole (cell_in self.old) (C.whole (cell_in self.new)) }
        ensures settled { Only (C.whole (cell_in self.new)) (C.may_leave_whole (cell_in self.new)) }
        ensures same { ForSome (known_in self.old) (Holds self.new) }

        ensures any_moment { LeavesOnly C.moment C.left_since_whole (cell_in self.old) (cell_in self.new)
            (C.may_leave_whole (cell_in self.old)) }
        ensures same_setup { LeavesSetup C.capacity C.armed C.call_count
            (cell_in self.old) (cell_in self.new) }
        ensures same_slot_room { C.slot_capacity (cell_in self.new)
            ≡ C.slot_capacity (cell_in self.old) }
        ensures same_calls { C.call_count (cell_in self.new) ≡ C.call_count (cell_in self.old) }
        ensures failures { C.failure_count (cell_in self.new)
            ≡ C.failure_count (cell_in self.old) }
        ensures same_failed { C.failed_call (cell_in self.new) ≡ C.failed_call (cell_in self.old) }
    {
        self.known = None;
        self.cell.crash(fill);
    }

    /// Makes the store ready, in whatever state it is. Refuses with `Device` (20) and `NoMemory` (1) alone, and may then
    /// be called again. It never writes.
    pub fn reopen(&mut self, alloc: Global) -> Result<(), StoreFault>
        ensures { Reopens self.old self.new result }
    {
        reload(alloc, &mut self.cell, &mut self.known)
    }

    /// Prepares a failure of the device, where there is one. Without memory (1) it prepares nothing.
    pub fn arm(&mut self, fault: ArmedFault) -> Result<(), AllocError>
        ensures untouched { IsUntouched self.old self.new }
        ensures armed { OnOk result
            (C.armed (cell_in self.new) ≡ C.armed (cell_in self.old) ++ fault ∷ []) }
        ensures not_armed { OnErr result (C.armed (cell_in self.new) ≡ C.armed (cell_in self.old)) }
        ensures same_calls { C.call_count (cell_in self.new) ≡ C.call_count (cell_in self.old) }
        ensures same_failed { C.failed_call (cell_in self.new) ≡ C.failed_call (cell_in self.old) }
    {
        self.cell.arm(fault)
    }

    /// Begins the device's count of calls anew, where there is a device. What is armed stays armed.
    pub fn recount(&mut self)
        ensures untouched { IsUntouched self.old self.new }
        ensures same_faults { C.armed (cell_in self.new) ≡ C.armed (cell_in self.old) }
        ensures none_counted { C.call_count (cell_in self.new) ≡ 0 }
        ensures none_failed { C.failed_call (cell_in self.new) ≡ 0 }
    {
        self.cell.recount();
    }
}
