//! One value that outlives a crash.
ghost use Rattle.std.specs.Prelude.{◌≡◌, ◌⊎◌, ◌<◌, ◌≤◌, ◌↔◌, ◌++◌, [], ◌∷◌, Bool, false, List, ℕ, length, IfOk, OnOk, OnErr, IsErrOf, IsTrue, IsSome, Option, Some};
ghost use Rattle.sector_disk.specs.Clock.{Only, LeavesOnly};
ghost use Rattle.sector_disk.specs.declared.disk.ArmedFault.{ArmedFault};
ghost use Rattle.gate_cell.specs.CellFault.{HasCause, HasDeviceCause};
ghost use Rattle.gate_cell.specs.Setup.{LeavesSetup};
ghost use Rattle.gate_cell.specs.ValueCall.{ValueCall};
ghost use Rattle.gate_cell.specs.declared.TheConstants.{MAX_VALUE_BYTES};

use crate::fault::CellFault;
use sector_disk::ArmedFault;
use std::alloc::AllocError;

/// A cell holds one value, a list of bytes, and keeps it through crashes: one cell serves for as long as its device
/// does.
///
/// A ready cell leaves its value and nothing else, whenever its device crashes. A failure of the device takes readiness
/// away: if it struck in a `put`, a crash may leave the old value or the new one. A crash settles which of them it is,
/// and `reopen` makes the cell ready again. Until then its calls answer `Reopen` (23).
///
/// What a crash leaves is an `Option`, so that a cell that could lose its value has to say so; the law `opens` forbids
/// it.
pub trait StableCell: Drop {
    /// What is found if the device crashes now and loses nothing. While the cell is ready, that is its value.
    ghost value: { Self → List ℕ };

    /// It has been opened, and has met neither a crash nor a failure of the device since.
    ghost is_ready: { Self → Bool };

    /// The most bytes of a value that fits.
    ghost capacity: { Self → ℕ };

    /// The failures of the device that are armed, in the order of arming.
    ghost armed: { Self → List ArmedFault };

    /// The device calls since the last recount.
    ghost call_count: { Self → ℕ };

    /// How often the device has failed.
    ghost failure_count: { Self → ℕ };

    /// The last device call that failed, counted since the last recount, or 0 where none has failed since.
    ghost failed_call: { Self → ℕ };

    /// The clock. It never goes back.
    ghost moment: { Self → ℕ };

    /// The values that a crash right now might leave.
    ghost may_leave: { Self → Option (List ℕ) → Type 0 };

    /// The values that a crash might have left at a moment no earlier than this one. The moments inside a call count
    /// too.
    ghost left_since: { Self → ℕ → Option (List ℕ) → Type 0 };

    /// What a call of the value does to what the cell holds beside it. A cell that holds nothing else says nothing here.
    ghost beside: { ValueCall → Self → Self → Type 0 };

    /// Whether a put may be refused for want of memory.
    ghost asks_memory: { Self → Bool };

    /// The most bytes of a value that fits.
    fn room(&self) -> usize
        ensures { result ≡ capacity self.now };

    /// The last device call that failed, counted since the last recount, or 0 where none has failed since.
    fn failed_call(&self) -> u64
        ensures { result ≡ failed_call self.now };

    /// The value. Refuses with `NoMemory` (1), `Device` (20) and `Reopen` (23).
    fn get(&mut self) -> Result<Vec<u8>, CellFault>
        ensures value { IfOk result (λ bytes. bytes.items ≡ value self.old) }

        // A crash at any moment of the call leaves what it might have left before.
        ensures any_moment { LeavesOnly moment left_since self.old self.new (may_leave self.old) }
        ensures beside { beside ValueCall.Looks self.old self.new }
        ensures same_value { value self.new ≡ value self.old }
        // The room and what is armed stay, and no device call that was counted is forgotten.
        ensures same_setup { LeavesSetup capacity armed call_count self.old self.new }

        ensures too_large { ¬ (IsErrOf result CellFault.TooLarge) }
        ensures unchanged { (IsErrOf result CellFault.NoMemory ⊎ IsErrOf result CellFault.Reopen)
            → self.new ≡ self.old }
        // 20 exactly where the device's failures rose, and then the cell isn't ready; 23 exactly where it wasn't.
        ensures cause { HasCause (failure_count self.old) (failure_count self.new)
            (is_ready self.old) (is_ready self.new) result };

    /// Puts a new value in the place of the old one. Refuses with `NoMemory` (1), `Device` (20), `TooLarge` (22) and
    /// `Reopen` (23).
    fn put(&mut self, new: &[u8]) -> Result<(), CellFault>
        ensures ok { OnOk result (value self.new ≡ new.now) }

        // A crash at any moment of the call leaves what it might have left before, or the new value.
        ensures any_moment { LeavesOnly moment left_since self.old self.new
            (λ left. may_leave self.old left ⊎ (left ≡ Some new.now)) }
        ensures beside { beside (ValueCall.Puts new.now) self.old self.new }
        ensures same_setup { LeavesSetup capacity armed call_count self.old self.new }

        ensures memory { IsErrOf result CellFault.NoMemory → IsTrue (asks_memory self.old) }
        // 22 exactly where the cell is ready and the value is longer than the room.
        ensures too_large { IsErrOf result CellFault.TooLarge
            ↔ (IsTrue (is_ready self.old) × (capacity self.old < length new.now)) }
        ensures unchanged { (IsErrOf result CellFault.NoMemory ⊎ IsErrOf result CellFault.TooLarge
            ⊎ IsErrOf result CellFault.Reopen) → self.new ≡ self.old }
        ensures cause { HasCause (failure_count self.old) (failure_count self.new)
            (is_ready self.old) (is_ready self.new) result };

    /// The device crashes and comes back: what it holds is settled, by the fill byte where one is given. The cell has
    /// to be opened again.
    fn crash(&mut self, fill: Option<u8>)
        // The value is now one of those that a crash might leave, and another crash leaves no other.
        ensures left { may_leave self.old (Some (value self.new)) }
        ensures settled { Only (Some (value self.new)) (may_leave self.new) }
        ensures any_moment { LeavesOnly moment left_since self.old self.new (may_leave self.old) }
        ensures beside { beside ValueCall.Crashes self.old self.new }
        ensures same_setup { LeavesSetup capacity armed call_count self.old self.new }
        ensures same_calls { call_count self.new ≡ call_count self.old }
        ensures down { is_ready self.new ≡ false }
        ensures failures { failure_count self.new ≡ failure_count self.old }
        ensures same_failed { failed_call self.new ≡ failed_call self.old };

    /// Makes the cell ready, whatever state it is in. Refuses with `Device` (20) alone, and may then be called again.
    fn reopen(&mut self) -> Result<(), CellFault>
        ensures ready { OnOk result (IsTrue (is_ready self.new)) }
        ensures not_ready { OnErr result (is_ready self.new ≡ false) }
        ensures same_value { value self.new ≡ value self.old }
        ensures any_moment { LeavesOnly moment left_since self.old self.new (may_leave self.old) }
        ensures beside { beside ValueCall.Looks self.old self.new }
        ensures same_setup { LeavesSetup capacity armed call_count self.old self.new }
        ensures cause { HasDeviceCause (failure_count self.old) (failure_count self.new) result };

    /// Prepares a failure of the device, where there is one. Without memory (1) it prepares nothing.
    fn arm(&mut self, fault: ArmedFault) -> Result<(), AllocError>
        ensures same_value { value self.new ≡ value self.old }
        ensures any_moment { LeavesOnly moment left_since self.old self.new (may_leave self.old) }
        ensures beside { beside ValueCall.Looks self.old self.new }
        ensures same_room { capacity self.new ≡ capacity self.old }
        ensures same_calls { call_count self.new ≡ call_count self.old }
        ensures same_readiness { is_ready self.new ≡ is_ready self.old }
        ensures failures { failure_count self.new ≡ failure_count self.old }
        ensures same_failed { failed_call self.new ≡ failed_call self.old }
        ensures armed { OnOk result (armed self.new ≡ armed self.old ++ fault ∷ []) }
        ensures not_armed { OnErr result (armed self.new ≡ armed self.old) };

    /// Begins the device's count of calls anew, where there is a device. What is armed stays armed.
    fn recount(&mut self)
        ensures same_value { value self.new ≡ value self.old }
        ensures any_moment { LeavesOnly moment left_since self.old self.new (may_leave self.old) }
        ensures beside { beside ValueCall.Looks self.old self.new }
        ensures same_room { capacity self.new ≡ capacity self.old }
        ensures same_faults { armed self.new ≡ armed self.old }
        ensures same_readiness { is_ready self.new ≡ is_ready self.old }
        ensures failures { failure_count self.new ≡ failure_count self.old }
        ensures none_counted { call_count self.new ≡ 0 }
        ensures none_failed { failed_call self.new ≡ 0 };

    /// While the cell is ready, a crash leaves the value and nothing else.
    ghost settled: { (cell : Self)
        → IsTrue (is_ready cell) → Only (Some (value cell)) (may_leave cell) };

    /// A crash may lose nothing, in every state.
    ghost value_may_stay: { (cell : Self) → may_leave cell (Some (value cell)) };

    /// What a crash leaves is a value, in every state.
    ghost opens: { (cell : Self) (left : Option (List ℕ)) → may_leave cell left → IsSome left };

    /// A value that a crash may leave fits, in every state. So does the value of the cell, since it may be left.
    ghost fits_room: { (cell : Self) (left : List ℕ)
        → may_leave cell (Some left) → length left ≤ capacity cell };

    /// No cell has room for more than a value may have.
    ghost room_is_bounded: { (cell : Self) → capacity cell ≤ MAX_VALUE_BYTES };

    /// What a crash may leave now is among what it might have left since an earlier moment.
    ghost includes_now: { (cell : Self) (t : ℕ) (left : Option (List ℕ))
        → t ≤ moment cell → may_leave cell left → left_since cell t left };

    /// From this moment on there has been none but this one.
    ghost only_now: { (cell : Self) (left : Option (List ℕ))
        → left_since cell (moment cell) left → may_leave cell left };
}
