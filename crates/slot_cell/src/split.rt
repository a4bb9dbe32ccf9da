//! A cell with a header and two slots on a disk of sectors.
ghost use Rattle.std.specs.Prelude.{◌≡◌, ◌⊎◌, ◌+◌, ◌<◌, ◌≤◌, ◌↔◌, ◌++◌, [], ◌∷◌, false, length, OnOk, OnErr, IfOk, IfErr, IsErrOf, IsTrue, Some, None, refl};
ghost use Rattle.sector_disk.specs.Clock.{Only, LeavesOnly};
ghost use Rattle.sector_disk.specs.Disk.{SameSetup};
ghost use Rattle.gate_cell.specs.Calls.{HasStopped, count_after_calls};
ghost use Rattle.gate_cell.specs.CellFault.{HasCause, HasDeviceCause};
ghost use Rattle.gate_cell.specs.Layout.{other_area, value_in, IsFrame, IsGate, IsSettled};
ghost use Rattle.gate_cell.specs.Stands.{AlwaysStands, Looks, only_value, stands_for_content, stands_for_one, stood_fits, room_bound};
ghost use Rattle.gate_cell.specs.Setup.{LeavesSetup};
ghost use Rattle.gate_cell.specs.ValueCall.{ValueCall};
ghost use Rattle.gate_cell.specs.declared.fault.CellFault.TheVariants.{NoMemory, Device, TooLarge, Reopen};
ghost use Rattle.slot_cell.specs.SplitLayout.{HoldsNoHeader, HasNoHeaderRoom};
ghost use Rattle.slot_cell.specs.SplitStands.{whole_shows, header_covers, only_whole, whole_stays, whole_opens, whole_fits, slot_room_bound, header_room};
ghost use Rattle.slot_cell.specs.Whole.{slot_in, with_slot, LeftByFill, IsCall};
ghost use Rattle.slot_cell.specs.declared.TheConstants.{HEADER_SECTORS, LEAST_SPLIT_SECTORS};

use crate::header::frame_into;
use crate::room::{slot_room_of, slot_sectors_of};
use crate::slot_cell::SlotCell;
use crate::{HEADER_SECTORS, LEAST_SPLIT_SECTORS};
use gate_cell::{
    CellFault, StableCell, area_of, find_in, frame_len, framed, lay_out, length_of, look,
    put_value, room_of, unframed, write_through,
};
use sector_disk::{ArmedFault, Disk, SECTOR_BYTES};
use std::alloc::{AllocError, Global};

/// A cell with two slots over a disk of at least `LEAST_SPLIT_SECTORS` sectors: a sector that is the gate, the header's
/// two areas of one sector each, and the slots 0 and 1 of `(sectors - 3) / 2` sectors each. The header lies as the
/// value of a `GateCell` on a disk of three sectors does.
///
/// In its slot bytes come after their length, which is written in 8 bytes, the greatest first, and before zeros up to
/// a whole sector. They are at most `MAX_VALUE_BYTES`, and fit the slot.
pub struct SplitCell<D: Disk> {
    alloc: Global,
    disk: D,
    active: usize,
    header_len: usize,
    ready: bool,
    ghost sectors: { LEAST_SPLIT_SECTORS ≤ D.sector_count disk },
    ghost which: { active ≤ 1 },
    ghost stands: { AlwaysStands HEADER_SECTORS (D.may_leave disk) },
    ghost settled: { IsTrue ready
        → IsSettled (D.content disk) (D.may_leave disk) HEADER_SECTORS active header_len },
}

// Written out, since each crate above would go through a derived one again.
impl<D: Disk> Drop for SplitCell<D> {
    fn drop(self) {
        let Self {
            alloc,
            disk,
            active,
            header_len,
            ready,
        } = self;
    }
}

impl<D: Disk> SplitCell<D> {
    ghost use Rattle.gate_cell.specs.GateCell.{IsDurable};
    ghost use Rattle.slot_cell.specs.SplitCell.{disk_in, failures_of, calls_of, IsOpened, IsFormatted};

    /// Makes a cell with this header: it lies in area 0, under a gate of zeros. The slots stay as they are, whatever
    /// they hold. No device call is counted after it.
    ///
    /// It takes no memory. Refuses with `Device` (20), and with `TooLarge` (22) where the disk has fewer than
    /// `LEAST_SPLIT_SECTORS` sectors or the header doesn't fit. A refusal hands the disk back: as it was, but where the
    /// device failed.
    pub fn format(alloc: Global, disk: D, value: &[u8]) -> Result<SplitCell<D>, (CellFault, D)>
        ensures formatted { IfOk result (IsFormatted disk value.now) }
        ensures setup { IfOk result (λ cell. SameSetup D.sector_count D.armed disk (disk_in cell)) }
        ensures setup_err { IfErr result (λ e. SameSetup D.sector_count D.armed disk e.1) }

        // It refuses where the device failed, and stops there, or where there is no room.
        ensures failures { IfOk result (λ cell. failures_of cell ≡ D.failure_count disk) }
        ensures device { IfErr result
            (λ e. e.0 ≡ Device → D.failure_count disk < D.failure_count e.1) }
        ensures stopped { IfErr result
            (λ e. e.0 ≡ Device → HasStopped D.call_count D.failed_call 3 disk e.1) }
        ensures no_room { IfErr result
            (λ e. e.0 ≡ TooLarge → HasNoHeaderRoom (D.sector_count disk) (length value.now)) }
        ensures too_large { HasNoHeaderRoom (D.sector_count disk) (length value.now)
            → IfErr result (λ e. e.0 ≡ TooLarge) }
        ensures memory { IfErr result (λ e. ¬ (e.0 ≡ NoMemory)) }
        ensures reopen { IfErr result (λ e. ¬ (e.0 ≡ Reopen)) }
        ensures unchanged { IfErr result (λ e. ¬ (e.0 ≡ Device) → e.1 ≡ disk) }
    {
        let mut disk = disk;
        if disk.sectors() < LEAST_SPLIT_SECTORS || value.len() > room_of(HEADER_SECTORS) {
            return Err((CellFault::TooLarge, disk));
        }
        let mut frame = [0; SECTOR_BYTES];
        frame_into(&mut frame, value);
        if let Err(fault) = lay_out(&mut disk, HEADER_SECTORS, &frame) {
            return Err((fault, disk));
        }
        Ok(SplitCell {
            alloc,
            disk,
            active: 0,
            header_len: value.len(),
            ready: true,
        })
    }

    /// Opens what a crash may have left. First it syncs: a gate that is still in doubt could name one area now, and
    /// after another crash the other one. Then it reads the gate and the front of the area that it names. It reads no
    /// slot. It may crash too.
    ///
    /// Refuses with `Device` (20), and with `TooLarge` (22) where the disk has fewer than `LEAST_SPLIT_SECTORS` sectors
    /// or the length in the area doesn't fit. A refusal hands the disk back.
    pub fn open(alloc: Global, disk: D) -> Result<SplitCell<D>, (CellFault, D)>
        ensures opens { IfOk result (IsOpened disk) }
        ensures looks { IfOk result
            (λ cell. Looks D.content D.may_leave D.moment D.left_since disk (disk_in cell)) }
        ensures looks_err { IfErr result
            (λ e. Looks D.content D.may_leave D.moment D.left_since disk e.1) }
        ensures setup { IfOk result (λ cell. SameSetup D.sector_count D.armed disk (disk_in cell)) }
        ensures setup_err { IfErr result (λ e. SameSetup D.sector_count D.armed disk e.1) }

        // Three device calls; none on a disk that is too small. It stops where one fails.
        ensures calls { IfOk result
            (λ cell. calls_of cell ≡ count_after_calls 3 (D.call_count disk)) }
        ensures stopped { IfErr result
            (λ e. e.0 ≡ Device → HasStopped D.call_count D.failed_call 3 disk e.1) }
        ensures no_call { D.sector_count disk < LEAST_SPLIT_SECTORS
            → IfErr result (λ e. (e.0 ≡ TooLarge) × (e.1 ≡ disk)) }

        // The first is the sync: where it made another call, nothing is in doubt, though it refused.
        ensures settled { LEAST_SPLIT_SECTORS ≤ D.sector_count disk → IfErr result
            (λ e. (D.call_count e.1 ≡ count_after_calls 1 (D.call_count disk))
            ⊎ IsDurable D.content D.may_leave e.1) }

        // It refuses where the device failed, or where there is no value.
        ensures cause { IfErr result
            (λ e. ((e.0 ≡ Device) × (D.failure_count disk < D.failure_count e.1))
            ⊎ ((e.0 ≡ TooLarge) × (D.failure_count e.1 ≡ D.failure_count disk)
            × HoldsNoHeader (D.sector_count disk) (D.content disk))) }
        ensures failures { IfOk result (λ cell. failures_of cell ≡ D.failure_count disk) }
    {
        let mut disk = disk;
        if disk.sectors() < LEAST_SPLIT_SECTORS {
            return Err((CellFault::TooLarge, disk));
        }
        let found = match find_in(&mut disk, HEADER_SECTORS) {
            Ok(found) => found,
            Err(fault) => return Err((fault, disk)),
        };
        if found.value_len > room_of(HEADER_SECTORS) {
            return Err((CellFault::TooLarge, disk));
        }
        Ok(SplitCell {
            alloc,
            disk,
            active: found.active,
            header_len: found.value_len,
            ready: true,
        })
    }

    /// The disk, as it is: what reads give, and what a crash may leave, are unchanged. It never refuses.
    pub fn close(self) -> D
        ensures { result ≡ disk_in self }
    {
        let SplitCell {
            alloc: _,
            disk,
            active: _,
            header_len: _,
            ready: _,
        } = self;
        disk
    }
}

impl<D: Disk> StableCell for SplitCell<D> {
    ghost use Rattle.gate_cell.specs.GateCell.{IsDurable};
    ghost use Rattle.slot_cell.specs.SplitCell.{disk_in, value_of, is_ready_of, capacity_of, failures_of, failed_call_of, moment_of, may_leave_of, left_since_of, content_of, armed_of, calls_of, beside_of, asks_memory_of, HoldsHeader};

    ghost value = { value_of };

    ghost is_ready = { is_ready_of };

    ghost capacity = { capacity_of };

    ghost armed = { armed_of };

    ghost call_count = { calls_of };

    ghost failure_count = { failures_of };

    ghost failed_call = { failed_call_of };

    ghost moment = { moment_of };

    ghost may_leave = { may_leave_of };

    ghost left_since = { left_since_of };

    ghost beside = { beside_of };

    ghost asks_memory = { asks_memory_of };

    ghost settled = { λ g ready. only_value _ _ _ _ _ (g.settled ready) };

    ghost value_may_stay = { λ g. stands_for_content HEADER_SECTORS (D.content g.disk) _
        g.stands (D.content_may_stay g.disk) };

    ghost opens = { λ g left might. stands_for_one HEADER_SECTORS _ g.stands left might };

    ghost fits_room = { λ g left might. stood_fits HEADER_SECTORS might.0 left might.2 };

    ghost room_is_bounded = { λ g. room_bound HEADER_SECTORS };

    ghost includes_now = { λ g t left le now.
        (now.0, D.includes_now g.disk t now.0 le now.1, now.2) };

    ghost only_now = { λ g left might. (might.0, D.only_now g.disk might.0 might.1, might.2) };

    fn room(&self) -> usize {
        room_of(HEADER_SECTORS)
    }

    fn failed_call(&self) -> u64 {
        self.disk.failed_call()
    }

    fn get(&mut self) -> Result<Vec<u8>, CellFault>
        ensures value { IfOk result (λ bytes. bytes.items ≡ value_of self.old) }
        ensures any_moment { LeavesOnly moment_of left_since_of self.old self.new
            (may_leave_of self.old) }
        ensures beside { beside_of ValueCall.Looks self.old self.new }
        ensures same_value { value_of self.new ≡ value_of self.old }
        ensures same_setup { LeavesSetup capacity_of armed_of calls_of self.old self.new }
        ensures too_large { ¬ (IsErrOf result CellFault.TooLarge) }
        ensures unchanged { (IsErrOf result CellFault.NoMemory ⊎ IsErrOf result CellFault.Reopen)
            → self.new ≡ self.old }
        ensures cause { HasCause (failures_of self.old) (failures_of self.new)
            (is_ready_of self.old) (is_ready_of self.new) result }

        // One device call, of the sector of the header.
        ensures calls { IfOk result
            (λ bytes. calls_of self.new ≡ count_after_calls 1 (calls_of self.old)) }
        ensures stopped { IsErrOf result CellFault.Device
            → HasStopped D.call_count D.failed_call 1 (disk_in self.old) (disk_in self.new) }
        ensures setup { SameSetup D.sector_count D.armed (disk_in self.old) (disk_in self.new) }
    {
        if !self.ready {
            return Err(CellFault::Reopen);
        }
        let mut frame = Vec::from_elem(self.alloc, 0u8, frame_len(self.header_len))?;
        let first = 1 + self.active * area_of(HEADER_SECTORS);
        self.ready = false;
        look(&mut self.disk, first, &mut frame)?;
        self.ready = true;
        Ok(unframed(frame, self.header_len))
    }

    fn put(&mut self, new: &[u8]) -> Result<(), CellFault>
        ensures ok { OnOk result (value_of self.new ≡ new.now) }
        ensures any_moment { LeavesOnly moment_of left_since_of self.old self.new
            (λ left. may_leave_of self.old left ⊎ (left ≡ Some new.now)) }
        ensures beside { beside_of (ValueCall.Puts new.now) self.old self.new }
        ensures same_setup { LeavesSetup capacity_of armed_of calls_of self.old self.new }
        ensures memory { IsErrOf result CellFault.NoMemory → IsTrue (asks_memory_of self.old) }
        ensures too_large { IsErrOf result CellFault.TooLarge
            ↔ (IsTrue (is_ready_of self.old) × (capacity_of self.old < length new.now)) }
        ensures unchanged { (IsErrOf result CellFault.NoMemory ⊎ IsErrOf result CellFault.TooLarge
            ⊎ IsErrOf result CellFault.Reopen) → self.new ≡ self.old }
        ensures cause { HasCause (failures_of self.old) (failures_of self.new)
            (is_ready_of self.old) (is_ready_of self.new) result }

        // Four device calls, after which the gate names the other area, in which the value is framed.
        ensures calls { OnOk result (calls_of self.new ≡ count_after_calls 4 (calls_of self.old)) }
        ensures gate { OnOk result
            (IsGate (other_area (content_of self.old)) (content_of self.new)) }
        ensures frame { OnOk result
            (HoldsHeader new.now (content_of self.new)) }
        ensures stopped { IsErrOf result CellFault.Device
            → HasStopped D.call_count D.failed_call 4 (disk_in self.old) (disk_in self.new) }
        ensures setup { SameSetup D.sector_count D.armed (disk_in self.old) (disk_in self.new) }
    {
        if !self.ready {
            return Err(CellFault::Reopen);
        }
        if new.len() > room_of(HEADER_SECTORS) {
            return Err(CellFault::TooLarge);
        }
        let mut frame = [0; SECTOR_BYTES];
        frame_into(&mut frame, new);
        self.ready = false;
        put_value(&mut self.disk, HEADER_SECTORS, self.active, &frame)?;
        self.active = 1 - self.active;
        self.header_len = new.len();
        self.ready = true;
        Ok(())
    }

    fn crash(&mut self, fill: Option<u8>)
        ensures left { may_leave_of self.old (Some (value_of self.new)) }
        ensures settled { Only (Some (value_of self.new)) (may_leave_of self.new) }
        ensures any_moment { LeavesOnly moment_of left_since_of self.old self.new
            (may_leave_of self.old) }
        ensures beside { beside_of ValueCall.Crashes self.old self.new }
        ensures same_setup { LeavesSetup capacity_of armed_of calls_of self.old self.new }
        ensures same_calls { calls_of self.new ≡ calls_of self.old }
        ensures down { is_ready_of self.new ≡ false }
        ensures failures { failures_of self.new ≡ failures_of self.old }
        ensures same_failed { failed_call_of self.new ≡ failed_call_of self.old }

        // The disk crashes: no device call. What it then holds is one of the contents that it might leave.
        ensures disk { D.may_leave (disk_in self.old) (content_of self.new) }
        ensures filled { D.settles_to (disk_in self.old) fill (content_of self.new) }
        ensures setup { SameSetup D.sector_count D.armed (disk_in self.old) (disk_in self.new) }
    {
        self.ready = false;
        self.disk.crash(fill);
    }

    fn reopen(&mut self) -> Result<(), CellFault>
        ensures ready { OnOk result (IsTrue (is_ready_of self.new)) }
        ensures not_ready { OnErr result (is_ready_of self.new ≡ false) }
        ensures same_value { value_of self.new ≡ value_of self.old }
        ensures any_moment { LeavesOnly moment_of left_since_of self.old self.new
            (may_leave_of self.old) }
        ensures beside { beside_of ValueCall.Looks self.old self.new }
        ensures same_setup { LeavesSetup capacity_of armed_of calls_of self.old self.new }
        ensures cause { HasDeviceCause (failures_of self.old) (failures_of self.new) result }

        // Three device calls, as those of `open`.
        ensures calls { OnOk result (calls_of self.new ≡ count_after_calls 3 (calls_of self.old)) }
        ensures looks { Looks D.content D.may_leave D.moment D.left_since
            (disk_in self.old) (disk_in self.new) }
        ensures stopped { OnErr result
            (HasStopped D.call_count D.failed_call 3 (disk_in self.old) (disk_in self.new)) }
        ensures settled { OnErr result
            ((calls_of self.new ≡ count_after_calls 1 (calls_of self.old))
            ⊎ IsDurable D.content D.may_leave (disk_in self.new)) }
        ensures setup { SameSetup D.sector_count D.armed (disk_in self.old) (disk_in self.new) }
    {
        self.ready = false;
        let found = find_in(&mut self.disk, HEADER_SECTORS)?;
        self.active = found.active;
        self.header_len = found.value_len;
        self.ready = true;
        Ok(())
    }

    fn arm(&mut self, fault: ArmedFault) -> Result<(), AllocError>
        ensures same_value { value_of self.new ≡ value_of self.old }
        ensures any_moment { LeavesOnly moment_of left_since_of self.old self.new
            (may_leave_of self.old) }
        ensures beside { beside_of ValueCall.Looks self.old self.new }
        ensures same_room { capacity_of self.new ≡ capacity_of self.old }
        ensures same_calls { calls_of self.new ≡ calls_of self.old }
        ensures same_readiness { is_ready_of self.new ≡ is_ready_of self.old }
        ensures failures { failures_of self.new ≡ failures_of self.old }
        ensures same_failed { failed_call_of self.new ≡ failed_call_of self.old }
        ensures armed { OnOk result (armed_of self.new ≡ armed_of self.old ++ fault ∷ []) }
        ensures not_armed { OnErr result (armed_of self.new ≡ armed_of self.old) }
    {
        self.disk.arm(fault)
    }

    fn recount(&mut self)
        ensures same_value { value_of self.new ≡ value_of self.old }
        ensures any_moment { LeavesOnly moment_of left_since_of self.old self.new
            (may_leave_of self.old) }
        ensures beside { beside_of ValueCall.Looks self.old self.new }
        ensures same_room { capacity_of self.new ≡ capacity_of self.old }
        ensures same_faults { armed_of self.new ≡ armed_of self.old }
        ensures same_readiness { is_ready_of self.new ≡ is_ready_of self.old }
        ensures failures { failures_of self.new ≡ failures_of self.old }
        ensures none_counted { calls_of self.new ≡ 0 }
        ensures none_failed { failed_call_of self.new ≡ 0 }

        // The disk's size stays too.
        ensures setup { SameSetup D.sector_count D.armed (disk_in self.old) (disk_in self.new) }
    {
        self.disk.recount();
    }
}

impl<D: Disk> SlotCell for SplitCell<D> {
    ghost use Rattle.slot_cell.specs.SplitCell.{disk_in, whole_of, is_ready_of, capacity_of, failures_of, moment_of, armed_of, calls_of, slot_capacity_of, may_leave_whole_of, left_since_whole_of};

    ghost whole = { whole_of };

    ghost slot_capacity = { slot_capacity_of };

    ghost may_leave_whole = { may_leave_whole_of };

    ghost left_since_whole = { left_since_whole_of };

    ghost stands = { λ call old new did. did };

    ghost asks_none = { λ g. refl };

    ghost shows = { λ g. g.stands (D.content g.disk) (D.content_may_stay g.disk) };

    ghost shows_left = { λ g left might. whole_shows (D.sector_count g.disk) left might };

    ghost shows_since = { λ g t left might. whole_shows (D.sector_count g.disk) left might };

    ghost covers_left = { λ g left might. header_covers (D.sector_count g.disk) left might };

    ghost covers_since = { λ g t left might. header_covers (D.sector_count g.disk) left might };

    ghost settled_whole = { λ g ready. only_whole (D.sector_count g.disk) _ _ (g.settled ready).durable };

    ghost whole_may_stay = { λ g. whole_stays (D.sector_count g.disk) (D.content g.disk) _ (D.content_may_stay g.disk) };

    ghost opens_whole = { λ g left might. whole_opens (D.sector_count g.disk) _ g.stands left might };

    ghost fits_slot = { λ g left slot bytes might is. whole_fits (D.sector_count g.disk) left slot bytes might is };

    ghost has_header_room = { λ g. header_room };

    ghost slot_room_is_bounded = { λ g. slot_room_bound (D.sector_count g.disk) };

    ghost includes_now_whole = { λ g t left le now.
        (now.0, D.includes_now g.disk t now.0 le now.1, now.2) };

    ghost only_now_whole = { λ g left might.
        (might.0, D.only_now g.disk might.0 might.1, might.2) };

    fn slot_room(&self) -> usize {
        slot_room_of(self.disk.sectors())
    }

    fn slot(&mut self, slot: usize) -> Result<Vec<u8>, CellFault>
        requires { slot ≤ 1 }
        ensures bytes { IfOk result
            (λ bytes. slot_in slot (whole_of self.old) ≡ Some bytes.items) }
        ensures beside { IsCall whole_of slot_capacity_of moment_of left_since_whole_of
            may_leave_whole_of ValueCall.Looks self.old self.new }
        ensures same_setup { LeavesSetup capacity_of armed_of calls_of self.old self.new }
        ensures too_large { IsErrOf result CellFault.TooLarge
            → IsTrue (is_ready_of self.old) × (slot_in slot (whole_of self.old) ≡ None) }
        ensures unchanged { IsErrOf result CellFault.Reopen → self.new ≡ self.old }
        ensures cause { HasCause (failures_of self.old) (failures_of self.new)
            (is_ready_of self.old) (is_ready_of self.new) result }

        // Two device calls: the first sector of the slot, and then the sectors that its bytes need.
        ensures calls { IfOk result
            (λ bytes. calls_of self.new ≡ count_after_calls 2 (calls_of self.old)) }
        ensures stopped { IsErrOf result CellFault.Device
            → HasStopped D.call_count D.failed_call 2 (disk_in self.old) (disk_in self.new) }
        ensures setup { SameSetup D.sector_count D.armed (disk_in self.old) (disk_in self.new) }
    {
        if !self.ready {
            return Err(CellFault::Reopen);
        }
        let sectors = self.disk.sectors();
        let first = HEADER_SECTORS + slot * slot_sectors_of(sectors);
        let mut front = [0; SECTOR_BYTES];
        self.ready = false;
        look(&mut self.disk, first, &mut front)?;
        self.ready = true;
        let len = length_of(&front);
        if len > slot_room_of(sectors) {
            return Err(CellFault::TooLarge);
        }
        let mut frame = Vec::from_elem(self.alloc, 0u8, frame_len(len))?;
        self.ready = false;
        look(&mut self.disk, first, &mut frame)?;
        self.ready = true;
        Ok(unframed(frame, len))
    }

    fn fill(&mut self, slot: usize, new: &[u8]) -> Result<(), CellFault>
        requires { slot ≤ 1 }
        ensures ok { OnOk result
            (whole_of self.new ≡ with_slot slot (Some new.now) (whole_of self.old)) }
        ensures any_moment { LeavesOnly moment_of left_since_whole_of self.old self.new
            (LeftByFill (may_leave_whole_of self.old) slot) }
        ensures same_setup { LeavesSetup capacity_of armed_of calls_of self.old self.new }
        ensures same_slot_room { slot_capacity_of self.new ≡ slot_capacity_of self.old }
        ensures too_large { IsErrOf result CellFault.TooLarge
            ↔ (IsTrue (is_ready_of self.old) × (slot_capacity_of self.old < length new.now)) }
        ensures unchanged { (IsErrOf result CellFault.NoMemory ⊎ IsErrOf result CellFault.TooLarge
            ⊎ IsErrOf result CellFault.Reopen) → self.new ≡ self.old }
        ensures cause { HasCause (failures_of self.old) (failures_of self.new)
            (is_ready_of self.old) (is_ready_of self.new) result }

        // Two device calls: a write and a sync.
        ensures calls { OnOk result (calls_of self.new ≡ count_after_calls 2 (calls_of self.old)) }
        ensures stopped { IsErrOf result CellFault.Device
            → HasStopped D.call_count D.failed_call 2 (disk_in self.old) (disk_in self.new) }
        ensures setup { SameSetup D.sector_count D.armed (disk_in self.old) (disk_in self.new) }
    {
        if !self.ready {
            return Err(CellFault::Reopen);
        }
        let sectors = self.disk.sectors();
        if new.len() > slot_room_of(sectors) {
            return Err(CellFault::TooLarge);
        }
        let frame = framed(self.alloc, new)?;
        self.fill_framed(slot, &frame)
    }

    fn fill_framed(&mut self, slot: usize, frame: &[u8]) -> Result<(), CellFault>
        requires slot { slot ≤ 1 }
        requires frame { IsFrame (value_in frame.now) frame.now }
        ensures ok { OnOk result
            (whole_of self.new ≡ with_slot slot (Some (value_in frame.now)) (whole_of self.old)) }
        ensures any_moment { LeavesOnly moment_of left_since_whole_of self.old self.new
            (LeftByFill (may_leave_whole_of self.old) slot) }
        ensures same_setup { LeavesSetup capacity_of armed_of calls_of self.old self.new }
        ensures same_slot_room { slot_capacity_of self.new ≡ slot_capacity_of self.old }
        ensures memory { ¬ (IsErrOf result CellFault.NoMemory) }
        ensures too_large { IsErrOf result CellFault.TooLarge
            ↔ (IsTrue (is_ready_of self.old)
            × (slot_capacity_of self.old < length (value_in frame.now))) }
        ensures unchanged { (IsErrOf result CellFault.TooLarge ⊎ IsErrOf result CellFault.Reopen)
            → self.new ≡ self.old }
        ensures cause { HasCause (failures_of self.old) (failures_of self.new)
            (is_ready_of self.old) (is_ready_of self.new) result }

        // Two device calls: a write and a sync.
        ensures calls { OnOk result (calls_of self.new ≡ count_after_calls 2 (calls_of self.old)) }
        ensures stopped { IsErrOf result CellFault.Device
            → HasStopped D.call_count D.failed_call 2 (disk_in self.old) (disk_in self.new) }
        ensures setup { SameSetup D.sector_count D.armed (disk_in self.old) (disk_in self.new) }
    {
        if !self.ready {
            return Err(CellFault::Reopen);
        }
        let sectors = self.disk.sectors();
        if length_of(frame) > slot_room_of(sectors) {
            return Err(CellFault::TooLarge);
        }
        self.ready = false;
        write_through(
            &mut self.disk,
            HEADER_SECTORS + slot * slot_sectors_of(sectors),
            frame,
        )?;
        self.ready = true;
        Ok(())
    }
}
