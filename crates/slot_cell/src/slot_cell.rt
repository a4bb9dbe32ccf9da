//! A small value that outlives a crash, and two slots for long bytes beside it.
ghost use Rattle.std.specs.Prelude.{◌≡◌, ◌⊎◌, ◌<◌, ◌≤◌, ◌↔◌, ℕ, false, List, length, IfOk, OnOk, IsErrOf, IsTrue, IsSome, Option, Some, None};
ghost use Rattle.sector_disk.specs.Clock.{Only, LeavesOnly};
ghost use Rattle.gate_cell.specs.CellFault.{HasCause};
ghost use Rattle.gate_cell.specs.Layout.{value_in, IsFrame};
ghost use Rattle.gate_cell.specs.Setup.{LeavesSetup};
ghost use Rattle.gate_cell.specs.ValueCall.{ValueCall};
ghost use Rattle.gate_cell.specs.declared.TheConstants.{MAX_VALUE_BYTES};
ghost use Rattle.slot_cell.specs.Whole.{Whole, slot_in, with_slot, LeftByFill, IsCall};
ghost use Rattle.slot_cell.specs.declared.TheConstants.{MIN_HEADER_BYTES};

use gate_cell::{CellFault, StableCell};

/// A cell whose value is a small header, with two slots for long bytes beside it. `get` and `put` speak of the header.
///
/// A `put` leaves both slots alone. A `fill` leaves the header and the other slot alone, at each moment; what a crash
/// inside it leaves in its own slot may be anything. So who fills a slot that the header doesn't name, and then puts a
/// header that names it, changes header and bytes at once.
///
/// What a crash leaves is told of all three together, by the clock of the cell.
pub trait SlotCell: StableCell {
    /// The header and the bytes of both slots that are found if the device crashes now and loses nothing.
    ghost whole: { Self → Whole };

    /// The most bytes that fit a slot.
    ghost slot_capacity: { Self → ℕ };

    /// What a crash right now might leave of header and slots.
    ghost may_leave_whole: { Self → Whole → Type 0 };

    /// What a crash might have left of them at a moment no earlier than this one.
    ghost left_since_whole: { Self → ℕ → Whole → Type 0 };

    /// The most bytes that fit a slot.
    fn slot_room(&self) -> usize
        ensures { result ≡ slot_capacity self.now };

    /// The bytes of slot 0 or 1. Refuses with `NoMemory` (1), `Device` (20), `TooLarge` (22) where a length stands in
    /// the slot that doesn't fit it, and `Reopen` (23).
    fn slot(&mut self, slot: usize) -> Result<Vec<u8>, CellFault>
        requires { slot ≤ 1 }
        ensures bytes { IfOk result (λ bytes. slot_in slot (whole self.old) ≡ Some bytes.items) }

        // It only looks. So header and slots stay, and so does the room of a slot.
        ensures beside { IsCall whole slot_capacity Self.moment left_since_whole may_leave_whole
            ValueCall.Looks self.old self.new }
        ensures same_setup { LeavesSetup Self.capacity Self.armed Self.call_count self.old self.new }

        ensures too_large { IsErrOf result CellFault.TooLarge
            → IsTrue (Self.is_ready self.old) × (slot_in slot (whole self.old) ≡ None) }
        ensures unchanged { IsErrOf result CellFault.Reopen → self.new ≡ self.old }
        ensures cause { HasCause (Self.failure_count self.old) (Self.failure_count self.new)
            (Self.is_ready self.old) (Self.is_ready self.new) result };

    /// Fills slot 0 or 1 with these bytes. Refuses with `NoMemory` (1), `Device` (20), `TooLarge` (22) and
    /// `Reopen` (23).
    fn fill(&mut self, slot: usize, new: &[u8]) -> Result<(), CellFault>
        requires { slot ≤ 1 }
        ensures ok { OnOk result
            (whole self.new ≡ with_slot slot (Some new.now) (whole self.old)) }

        // A crash at any moment of the call leaves what it might have left before, with anything in this slot.
        ensures any_moment { LeavesOnly Self.moment left_since_whole self.old self.new
            (LeftByFill (may_leave_whole self.old) slot) }
        ensures same_setup { LeavesSetup Self.capacity Self.armed Self.call_count self.old self.new }
        ensures same_slot_room { slot_capacity self.new ≡ slot_capacity self.old }

        ensures too_large { IsErrOf result CellFault.TooLarge
            ↔ (IsTrue (Self.is_ready self.old) × (slot_capacity self.old < length new.now)) }
        ensures unchanged { (IsErrOf result CellFault.NoMemory ⊎ IsErrOf result CellFault.TooLarge
            ⊎ IsErrOf result CellFault.Reopen) → self.new ≡ self.old }
        ensures cause { HasCause (Self.failure_count self.old) (Self.failure_count self.new)
            (Self.is_ready self.old) (Self.is_ready self.new) result };

    /// Fills slot 0 or 1 with the value of this frame: as `fill` does with bytes, but it copies none and takes no memory. Refuses with
    /// `Device` (20), `TooLarge` (22) and `Reopen` (23).
    fn fill_framed(&mut self, slot: usize, frame: &[u8]) -> Result<(), CellFault>
        requires slot { slot ≤ 1 }
        requires frame { IsFrame (value_in frame.now) frame.now }
        ensures ok { OnOk result (whole self.new
            ≡ with_slot slot (Some (value_in frame.now)) (whole self.old)) }

        // A crash at any moment of the call leaves what it might have left before, with anything in this slot.
        ensures any_moment { LeavesOnly Self.moment left_since_whole self.old self.new
            (LeftByFill (may_leave_whole self.old) slot) }
        ensures same_setup { LeavesSetup Self.capacity Self.armed Self.call_count self.old self.new }
        ensures same_slot_room { slot_capacity self.new ≡ slot_capacity self.old }

        ensures memory { ¬ (IsErrOf result CellFault.NoMemory) }
        ensures too_large { IsErrOf result CellFault.TooLarge
            ↔ (IsTrue (Self.is_ready self.old)
            × (slot_capacity self.old < length (value_in frame.now))) }
        ensures unchanged { (IsErrOf result CellFault.TooLarge ⊎ IsErrOf result CellFault.Reopen)
            → self.new ≡ self.old }
        ensures cause { HasCause (Self.failure_count self.old) (Self.failure_count self.new)
            (Self.is_ready self.old) (Self.is_ready self.new) result };

    /// The calls of the header do to all three what they say.
    ghost stands: { (call : ValueCall) (old new : Self) → Self.beside call old new
        → IsCall whole slot_capacity Self.moment left_since_whole may_leave_whole call old new };

    /// A put is never refused for want of memory: a slot that was filled for it would stay changed.
    ghost asks_none: { (cell : Self) → Self.asks_memory cell ≡ false };

    /// The header is the value of the cell.
    ghost shows: { (cell : Self) → (whole cell).header ≡ Some (Self.value cell) };

    /// What a crash may leave of the value is what it may leave of all three, seen at the header: each such whole has
    /// such a value, and each such value is the header of such a whole.
    ghost shows_left: { (cell : Self) (left : Whole)
        → may_leave_whole cell left → Self.may_leave cell left.header };

    ghost covers_left: { (cell : Self) (left : Option (List ℕ)) → Self.may_leave cell left
        → (whole : Whole) × may_leave_whole cell whole × (whole.header ≡ left) };

    /// And so it is from each moment on.
    ghost shows_since: { (cell : Self) (t : ℕ) (left : Whole)
        → left_since_whole cell t left → Self.left_since cell t left.header };

    ghost covers_since: { (cell : Self) (t : ℕ) (left : Option (List ℕ)) → Self.left_since cell t left
        → (whole : Whole) × left_since_whole cell t whole × (whole.header ≡ left) };

    /// While the cell is ready, a crash leaves header and slots, and nothing else.
    ghost settled_whole: { (cell : Self)
        → IsTrue (Self.is_ready cell) → Only (whole cell) (may_leave_whole cell) };

    /// A crash may lose nothing, in every state.
    ghost whole_may_stay: { (cell : Self) → may_leave_whole cell (whole cell) };

    /// What a crash leaves has a header, in every state.
    ghost opens_whole: { (cell : Self) (left : Whole)
        → may_leave_whole cell left → IsSome left.header };

    /// Bytes that a crash may leave in a slot fit it.
    ghost fits_slot: { (cell : Self) (left : Whole) (slot : ℕ) (bytes : List ℕ)
        → may_leave_whole cell left → slot_in slot left ≡ Some bytes → length bytes ≤ slot_capacity cell };

    /// There is always room for a header of so many bytes.
    ghost has_header_room: { (cell : Self) → MIN_HEADER_BYTES ≤ Self.capacity cell };

    /// No slot has room for more than a value may have.
    ghost slot_room_is_bounded: { (cell : Self) → slot_capacity cell ≤ MAX_VALUE_BYTES };

    /// What a crash may leave now is among what it might have left since an earlier moment.
    ghost includes_now_whole: { (cell : Self) (t : ℕ) (left : Whole)
        → t ≤ Self.moment cell → may_leave_whole cell left → left_since_whole cell t left };

    /// From this moment on there has been none but this one.
    ghost only_now_whole: { (cell : Self) (left : Whole)
        → left_since_whole cell (Self.moment cell) left → may_leave_whole cell left };
}
