//! A cell on a disk of sectors: a gate, and two areas of which the gate names one.
ghost use Rattle.std.specs.Prelude.{◌≡◌, ◌⊎◌, ◌+◌, ◌<◌, ◌≤◌, ◌↔◌, ◌++◌, [], ◌∷◌, false, length, OnOk, OnErr, IfOk, IfErr, IsErrOf, IsTrue, Some};
ghost use Rattle.sector_disk.specs.Clock.{Only, LeavesOnly};
ghost use Rattle.sector_disk.specs.Disk.{SameSetup};
ghost use Rattle.gate_cell.specs.Calls.{HasStopped, count_after_calls};
ghost use Rattle.gate_cell.specs.CellFault.{HasCause, HasDeviceCause};
ghost use Rattle.gate_cell.specs.Layout.{other_area, HoldsNoValue, HasNoRoom, IsGate, IsSettled};
ghost use Rattle.gate_cell.specs.Stands.{AlwaysStands, Looks, only_value, stands_for_content, stands_for_one, stood_fits, room_bound};
ghost use Rattle.gate_cell.specs.Setup.{LeavesSetup};
ghost use Rattle.gate_cell.specs.ValueCall.{ValueCall};
ghost use Rattle.gate_cell.specs.declared.fault.CellFault.TheVariants.{NoMemory, Device, TooLarge, Reopen};

use crate::access::look;
use crate::cell::StableCell;
use crate::fault::CellFault;
use crate::formatting::lay_out;
use crate::frame::{area_of, frame_len, framed, room_of, unframed};
use crate::gated::{find_value, put_value};
use sector_disk::{ArmedFault, Disk};
use std::alloc::{AllocError, Global};

/// A cell over a disk of at least 3 sectors: a sector that is the gate, then two areas of equal size, numbered 0 and 1.
/// The least bit of the gate's first byte tells in which of them the value lies. The other is free for the next value.
///
/// In its area a value comes after its length, which is written in 8 bytes, the greatest first, and before zeros. It
/// has at most `MAX_VALUE_BYTES` bytes, and fits the area.
#[derive(Drop)]
pub struct GateCell<D: Disk> {
    alloc: Global,
    disk: D,
    active: usize,
    value_len: usize,
    ready: bool,
    ghost areas: { 3 ≤ D.sector_count disk },
    ghost which: { active ≤ 1 },
    ghost stands: { AlwaysStands (D.sector_count disk) (D.may_leave disk) },
    ghost settled: { IsTrue ready
        → IsSettled (D.content disk) (D.may_leave disk) (D.sector_count disk) active value_len },
}

impl<D: Disk> GateCell<D> {
    ghost use Rattle.gate_cell.specs.GateCell.{disk_in, failures_of, calls_of, IsDurable, IsOpened, IsFormatted};

    /// Makes a cell with this value: it lies in area 0, under a gate of zeros. No device call is counted after it.
    ///
    /// Refuses with `NoMemory` (1), `Device` (20), and with `TooLarge` (22) where the disk has fewer than 3 sectors or
    /// the value doesn't fit. A refusal hands the disk back: as it was, but where the device failed.
    pub fn format(alloc: Global, disk: D, value: &[u8]) -> Result<GateCell<D>, (CellFault, D)>
        ensures formatted { IfOk result (IsFormatted value.now) }
        ensures setup { IfOk result (λ cell. SameSetup D.sector_count D.armed disk (disk_in cell)) }
        ensures setup_err { IfErr result (λ e. SameSetup D.sector_count D.armed disk e.1) }

        // It refuses where the device failed, and stops there, or where there is no room or no memory.
        ensures failures { IfOk result (λ cell. failures_of cell ≡ D.failure_count disk) }
        ensures device { IfErr result
            (λ e. e.0 ≡ Device → D.failure_count disk < D.failure_count e.1) }
        ensures stopped { IfErr result
            (λ e. e.0 ≡ Device → HasStopped D.call_count D.failed_call 3 disk e.1) }
        ensures no_room { IfErr result
            (λ e. e.0 ≡ TooLarge → HasNoRoom (D.sector_count disk) (length value.now)) }
        ensures too_large { HasNoRoom (D.sector_count disk) (length value.now)
            → IfErr result (λ e. e.0 ≡ TooLarge) }
        ensures reopen { IfErr result (λ e. ¬ (e.0 ≡ Reopen)) }
        ensures unchanged { IfErr result (λ e. ¬ (e.0 ≡ Device) → e.1 ≡ disk) }
    {
        let mut disk = disk;
        let sectors = disk.sectors();
        if sectors < 3 || value.len() > room_of(sectors) {
            return Err((CellFault::TooLarge, disk));
        }
        let frame = match framed(alloc, value) {
            Ok(frame) => frame,
            Err(_) => return Err((CellFault::NoMemory, disk)),
        };
        if let Err(fault) = lay_out(&mut disk, sectors, &frame) {
            return Err((fault, disk));
        }
        Ok(GateCell {
            alloc,
            disk,
            active: 0,
            value_len: value.len(),
            ready: true,
        })
    }

    /// Opens what a crash may have left. First it syncs: a gate that is still in doubt could name one area now, and
    /// after another crash the other one. Then it reads the gate and the front of the area that it names. It may crash
    /// too.
    ///
    /// Refuses with `Device` (20), and with `TooLarge` (22) where the disk has fewer than 3 sectors or the length in
    /// the area doesn't fit. A refusal hands the disk back.
    pub fn open(alloc: Global, disk: D) -> Result<GateCell<D>, (CellFault, D)>
        ensures opens { IfOk result (IsOpened disk) }
        ensures looks { IfOk result
            (λ cell. Looks D.content D.may_leave D.moment D.left_since disk (disk_in cell)) }
        ensures looks_err { IfErr result
            (λ e. Looks D.content D.may_leave D.moment D.left_since disk e.1) }
        ensures setup { IfOk result (λ cell. SameSetup D.sector_count D.armed disk (disk_in cell)) }
        ensures setup_err { IfErr result (λ e. SameSetup D.sector_count D.armed disk e.1) }

        // Three device calls; none on a disk that is too small. It stops where one fails.
        ensures calls { IfOk result
            (λ cell. calls_of cell ≡ count_after_calls 3 (D.call_count disk)) }
        ensures stopped { IfErr result
            (λ e. e.0 ≡ Device → HasStopped D.call_count D.failed_call 3 disk e.1) }
        ensures no_call { D.sector_count disk < 3
            → IfErr result (λ e. (e.0 ≡ TooLarge) × (e.1 ≡ disk)) }

        // The first is the sync: where it made another call, nothing is in doubt, though it refused.
        ensures settled { 3 ≤ D.sector_count disk → IfErr result
            (λ e. (D.call_count e.1 ≡ count_after_calls 1 (D.call_count disk))
            ⊎ IsDurable D.content D.may_leave e.1) }

        // It refuses where the device failed, or where there is no value.
        ensures cause { IfErr result
            (λ e. ((e.0 ≡ Device) × (D.failure_count disk < D.failure_count e.1))
            ⊎ ((e.0 ≡ TooLarge) × (D.failure_count e.1 ≡ D.failure_count disk)
            × HoldsNoValue (D.sector_count disk) (D.content disk))) }
        ensures failures { IfOk result (λ cell. failures_of cell ≡ D.failure_count disk) }
    {
        let mut disk = disk;
        let sectors = disk.sectors();
        if sectors < 3 {
            return Err((CellFault::TooLarge, disk));
        }
        let found = match find_value(&mut disk) {
            Ok(found) => found,
            Err(fault) => return Err((fault, disk)),
        };
        if found.value_len > room_of(sectors) {
            return Err((CellFault::TooLarge, disk));
        }
        Ok(GateCell {
            alloc,
            disk,
            active: found.active,
            value_len: found.value_len,
            ready: true,
        })
    }

    /// The disk, as it is: what reads give, and what a crash may leave, are unchanged. It never refuses.
    pub fn close(self) -> D
        ensures { result ≡ disk_in self }
    {
        let GateCell {
            alloc: _,
            disk,
            active: _,
            value_len: _,
            ready: _,
        } = self;
        disk
    }
}

impl<D: Disk> StableCell for GateCell<D> {
    ghost use Rattle.gate_cell.specs.GateCell.{disk_in, value_of, is_ready_of, capacity_of, failures_of, failed_call_of, moment_of, may_leave_of, left_since_of, content_of, armed_of, calls_of, nothing_beside, asks_memory_of, IsDurable, HoldsFrame};

    ghost value = { value_of };

    ghost is_ready = { is_ready_of };

    ghost capacity = { capacity_of };

    ghost armed = { armed_of };

    ghost call_count = { calls_of };

    ghost failure_count = { failures_of };

    ghost failed_call = { failed_call_of };

    ghost moment = { moment_of };

    ghost may_leave = { may_leave_of };

    ghost left_since = { left_since_of };

    ghost beside = { nothing_beside };

    ghost asks_memory = { asks_memory_of };

    ghost settled = { λ g ready. only_value _ _ _ _ _ (g.settled ready) };

    ghost value_may_stay = { λ g. stands_for_content _ (D.content g.disk) _
        g.stands (D.content_may_stay g.disk) };

    ghost opens = { λ g left might. stands_for_one _ _ g.stands left might };

    ghost fits_room = { λ g left might. stood_fits (D.sector_count g.disk) might.0 left might.2 };

    ghost room_is_bounded = { λ g. room_bound (D.sector_count g.disk) };

    ghost includes_now = { λ g t left le now.
        (now.0, D.includes_now g.disk t now.0 le now.1, now.2) };

    ghost only_now = { λ g left might. (might.0, D.only_now g.disk might.0 might.1, might.2) };

    fn room(&self) -> usize {
        room_of(self.disk.sectors())
    }

    fn failed_call(&self) -> u64 {
        self.disk.failed_call()
    }

    fn get(&mut self) -> Result<Vec<u8>, CellFault>
        ensures value { IfOk result (λ bytes. bytes.items ≡ value_of self.old) }
        ensures any_moment { LeavesOnly moment_of left_since_of self.old self.new
            (may_leave_of self.old) }
        ensures beside { nothing_beside ValueCall.Looks self.old self.new }
        ensures same_value { value_of self.new ≡ value_of self.old }
        ensures same_setup { LeavesSetup capacity_of armed_of calls_of self.old self.new }
        ensures too_large { ¬ (IsErrOf result CellFault.TooLarge) }
        ensures unchanged { (IsErrOf result CellFault.NoMemory ⊎ IsErrOf result CellFault.Reopen)
            → self.new ≡ self.old }
        ensures cause { HasCause (failures_of self.old) (failures_of self.new)
            (is_ready_of self.old) (is_ready_of self.new) result }

        // One device call, of the sectors that the value needs.
        ensures calls { IfOk result
            (λ bytes. calls_of self.new ≡ count_after_calls 1 (calls_of self.old)) }
        ensures stopped { IsErrOf result CellFault.Device
            → HasStopped D.call_count D.failed_call 1 (disk_in self.old) (disk_in self.new) }
        ensures setup { SameSetup D.sector_count D.armed (disk_in self.old) (disk_in self.new) }
    {
        if !self.ready {
            return Err(CellFault::Reopen);
        }
        let mut frame = Vec::from_elem(self.alloc, 0u8, frame_len(self.value_len))?;
        let first = 1 + self.active * area_of(self.disk.sectors());
        self.ready = false;
        look(&mut self.disk, first, &mut frame)?;
        self.ready = true;
        Ok(unframed(frame, self.value_len))
    }

    fn put(&mut self, new: &[u8]) -> Result<(), CellFault>
        ensures ok { OnOk result (value_of self.new ≡ new.now) }
        ensures any_moment { LeavesOnly moment_of left_since_of self.old self.new
            (λ left. may_leave_of self.old left ⊎ (left ≡ Some new.now)) }
        ensures beside { nothing_beside (ValueCall.Puts new.now) self.old self.new }
        ensures same_setup { LeavesSetup capacity_of armed_of calls_of self.old self.new }
        ensures memory { IsErrOf result CellFault.NoMemory → IsTrue (asks_memory_of self.old) }
        ensures too_large { IsErrOf result CellFault.TooLarge
            ↔ (IsTrue (is_ready_of self.old) × (capacity_of self.old < length new.now)) }
        ensures unchanged { (IsErrOf result CellFault.NoMemory ⊎ IsErrOf result CellFault.TooLarge
            ⊎ IsErrOf result CellFault.Reopen) → self.new ≡ self.old }
        ensures cause { HasCause (failures_of self.old) (failures_of self.new)
            (is_ready_of self.old) (is_ready_of self.new) result }

        // Four device calls, after which the gate names the other area, in which the value is framed.
        ensures calls { OnOk result (calls_of self.new ≡ count_after_calls 4 (calls_of self.old)) }
        ensures gate { OnOk result
            (IsGate (other_area (content_of self.old)) (content_of self.new)) }
        ensures frame { OnOk result
            (HoldsFrame new.now (D.sector_count (disk_in self.new)) (content_of self.new)) }
        // At a 20 the call that failed is the last one: nothing is done after a failure.
        ensures stopped { IsErrOf result CellFault.Device
            → HasStopped D.call_count D.failed_call 4 (disk_in self.old) (disk_in self.new) }
        ensures setup { SameSetup D.sector_count D.armed (disk_in self.old) (disk_in self.new) }
    {
        if !self.ready {
            return Err(CellFault::Reopen);
        }
        let sectors = self.disk.sectors();
        if new.len() > room_of(sectors) {
            return Err(CellFault::TooLarge);
        }
        let frame = framed(self.alloc, new)?;
        self.ready = false;
        put_value(&mut self.disk, sectors, self.active, &frame)?;
        self.active = 1 - self.active;
        self.value_len = new.len();
        self.ready = true;
        Ok(())
    }

    fn crash(&mut self, fill: Option<u8>)
        ensures left { may_leave_of self.old (Some (value_of self.new)) }
        ensures settled { Only (Some (value_of self.new)) (may_leave_of self.new) }
        ensures any_moment { LeavesOnly moment_of left_since_of self.old self.new
            (may_leave_of self.old) }
        ensures beside { nothing_beside ValueCall.Crashes self.old self.new }
        ensures same_setup { LeavesSetup capacity_of armed_of calls_of self.old self.new }
        ensures same_calls { calls_of self.new ≡ calls_of self.old }
        ensures down { is_ready_of self.new ≡ false }
        ensures failures { failures_of self.new ≡ failures_of self.old }
        ensures same_failed { failed_call_of self.new ≡ failed_call_of self.old }

        // The disk crashes: no device call. What it then holds is one of the contents that it might leave.
        ensures disk { D.may_leave (disk_in self.old) (content_of self.new) }
        ensures filled { D.settles_to (disk_in self.old) fill (content_of self.new) }
        ensures setup { SameSetup D.sector_count D.armed (disk_in self.old) (disk_in self.new) }
    {
        self.ready = false;
        self.disk.crash(fill);
    }

    fn reopen(&mut self) -> Result<(), CellFault>
        ensures ready { OnOk result (IsTrue (is_ready_of self.new)) }
        ensures not_ready { OnErr result (is_ready_of self.new ≡ false) }
        ensures same_value { value_of self.new ≡ value_of self.old }
        ensures any_moment { LeavesOnly moment_of left_since_of self.old self.new
            (may_leave_of self.old) }
        ensures beside { nothing_beside ValueCall.Looks self.old self.new }
        ensures same_setup { LeavesSetup capacity_of armed_of calls_of self.old self.new }
        ensures cause { HasDeviceCause (failures_of self.old) (failures_of self.new) result }

        // Three device calls, as those of `open`.
        ensures calls { OnOk result (calls_of self.new ≡ count_after_calls 3 (calls_of self.old)) }
        ensures looks { Looks D.content D.may_leave D.moment D.left_since
            (disk_in self.old) (disk_in self.new) }
        ensures stopped { OnErr result
            (HasStopped D.call_count D.failed_call 3 (disk_in self.old) (disk_in self.new)) }
        ensures settled { OnErr result
            ((calls_of self.new ≡ count_after_calls 1 (calls_of self.old))
            ⊎ IsDurable D.content D.may_leave (disk_in self.new)) }
        ensures setup { SameSetup D.sector_count D.armed (disk_in self.old) (disk_in self.new) }
    {
        self.ready = false;
        let found = find_value(&mut self.disk)?;
        self.active = found.active;
        self.value_len = found.value_len;
        self.ready = true;
        Ok(())
    }

    fn arm(&mut self, fault: ArmedFault) -> Result<(), AllocError>
        ensures same_value { value_of self.new ≡ value_of self.old }
        ensures any_moment { LeavesOnly moment_of left_since_of self.old self.new
            (may_leave_of self.old) }
        ensures beside { nothing_beside ValueCall.Looks self.old self.new }
        ensures same_room { capacity_of self.new ≡ capacity_of self.old }
        ensures same_calls { calls_of self.new ≡ calls_of self.old }
        ensures same_readiness { is_ready_of self.new ≡ is_ready_of self.old }
        ensures failures { failures_of self.new ≡ failures_of self.old }
        ensures same_failed { failed_call_of self.new ≡ failed_call_of self.old }
        ensures armed { OnOk result (armed_of self.new ≡ armed_of self.old ++ fault ∷ []) }
        ensures not_armed { OnErr result (armed_of self.new ≡ armed_of self.old) }
    {
        self.disk.arm(fault)
    }

    fn recount(&mut self)
        ensures same_value { value_of self.new ≡ value_of self.old }
        ensures any_moment { LeavesOnly moment_of left_since_of self.old self.new
            (may_leave_of self.old) }
        ensures beside { nothing_beside ValueCall.Looks self.old self.new }
        ensures same_room { capacity_of self.new ≡ capacity_of self.old }
        ensures same_faults { armed_of self.new ≡ armed_of self.old }
        ensures same_readiness { is_ready_of self.new ≡ is_ready_of self.old }
        ensures failures { failures_of self.new ≡ failures_of self.old }
        ensures none_counted { calls_of self.new ≡ 0 }
        ensures none_failed { failed_call_of self.new ≡ 0 }

        // The disk's size stays too.
        ensures setup { SameSetup D.sector_count D.armed (disk_in self.old) (disk_in self.new) }
    {
        self.disk.recount();
    }
}
