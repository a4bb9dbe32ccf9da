//! A disk, by what reads give and what a crash may leave, with a clock.
ghost use Rattle.std.specs.Prelude.{◌≡◌, ◌*◌, ◌^◌, ◌<◌, ◌≤◌, ◌↔◌, List, [], ◌∷◌, ◌++◌, ℕ, length, take, drop, Option, OnOk, OnErr, IsErrOf};
ghost use Rattle.sector_disk.specs.declared.TheConstants.{SECTOR_BYTES, GREATEST_COUNT};
ghost use Rattle.sector_disk.specs.declared.disk.ArmedFault.{ArmedFault};
ghost use Rattle.sector_disk.specs.Clock.{Only, TimePasses};
ghost use Rattle.sector_disk.specs.Disk.{IsInRange, SameOutside, IsOverwritten, OneStepFrom, IsQuiet, IsCounted, SameCounts, SameSetup};

use crate::SECTOR_BYTES;
use crate::fault::DiskFault;
use std::alloc::AllocError;

/// A device call that is to fail, and the byte by which a crash then fills what is in doubt.
#[derive(Clone, Copy, Debug, PartialEq, Eq)]
pub struct ArmedFault {
    /// The call, as the count of device calls since the last recount, from 1.
    pub call: u64,
    /// The byte by which a crash without a fill of its own settles what is in doubt: 0 for a mere failure.
    pub fill: u8,
}

/// A disk: sectors of `SECTOR_BYTES` bytes, numbered from 0. A sector that was written is in doubt until the next sync:
/// a crash leaves what it likes there. Everywhere else it leaves what reads give.
///
/// Its device calls are `read`, `write` and `sync`. They are counted from 1, but for those refused by `Range`.
/// No call takes memory, but for `arm`.
pub trait Disk: Drop {
    /// The number of sectors.
    ghost sector_count: { Self → ℕ };

    /// The bytes that reads give, sector after sector.
    ghost content: { Self → List ℕ };

    /// The faults that are armed, in the order of arming.
    ghost armed: { Self → List ArmedFault };

    /// The device calls since the last recount. It stops at `GREATEST_COUNT`.
    ghost call_count: { Self → ℕ };

    /// The last device call that failed, by that count, or 0 where none has failed since the last recount.
    ghost failed_call: { Self → ℕ };

    /// How often the device has failed.
    ghost failure_count: { Self → ℕ };

    /// The clock. It never goes back.
    ghost moment: { Self → ℕ };

    /// The contents that a crash right now might leave.
    ghost may_leave: { Self → List ℕ → Type 0 };

    /// What a crash by this fill byte, or by none, makes of the content.
    ghost settles_to: { Self → Option ℕ → List ℕ → Type 0 };

    /// The contents that a crash might have left at a moment no earlier than this one. The moments inside a call count
    /// too.
    ghost left_since: { Self → ℕ → List ℕ → Type 0 };

    /// The number of sectors.
    fn sectors(&self) -> usize
        ensures { result ≡ sector_count self.now };

    /// How often the device has failed.
    fn failures(&self) -> u64
        ensures { result ≡ failure_count self.now };

    /// The device calls since the last recount.
    fn calls(&self) -> u64
        ensures { result ≡ call_count self.now };

    /// The last device call that failed, by that count, or 0 where none has failed since the last recount.
    fn failed_call(&self) -> u64
        ensures { result ≡ failed_call self.now };

    /// Reads whole sectors, from the sector `first` on. Refuses with `Device` (20) and `Range` (21), and then leaves
    /// the bytes handed in as they were. No bytes are in range where `first` is at most the number of sectors.
    fn read(&mut self, first: usize, into: &mut [u8]) -> Result<(), DiskFault>
        // 21 exactly where the bytes aren't whole sectors of the disk.
        ensures range { IsErrOf result DiskFault.Range
            ↔ ¬ (IsInRange (sector_count self.old) first (length into.old)) }
        ensures out_of_range { IsErrOf result DiskFault.Range → self.new ≡ self.old }
        ensures bytes { OnOk result
            (into.new ≡ take (length into.old) (drop (SECTOR_BYTES * first) (content self.old))) }
        ensures same_bytes { OnErr result (into.new ≡ into.old) }
        // Reads give what they gave, and a crash leaves nothing that it might not have left before.
        ensures quiet { IsQuiet content may_leave self.old self.new }
        // The clock goes on, and forgets no content that a crash might have left.
        ensures time { TimePasses moment left_since may_leave self.old self.new }
        // 20 exactly where the count of failures rises. The call counts, but for a 21; one that failed is the last that failed.
        ensures counted { IsCounted failure_count call_count failed_call self.old self.new result }
        // The size stays, and what is armed.
        ensures setup { SameSetup sector_count armed self.old self.new };

    /// Writes whole sectors, from the sector `first` on. They are in doubt until a sync, also where the write failed.
    /// Refuses with `Device` (20) and `Range` (21).
    fn write(&mut self, first: usize, bytes: &[u8]) -> Result<(), DiskFault>
        ensures range { IsErrOf result DiskFault.Range
            ↔ ¬ (IsInRange (sector_count self.old) first (length bytes.now)) }
        ensures out_of_range { IsErrOf result DiskFault.Range → self.new ≡ self.old }
        ensures written { OnOk result
            (IsOverwritten (content self.old) (SECTOR_BYTES * first) bytes.now (content self.new)) }
        // Whatever it answers, nothing else changes, in the content and in what a crash may leave.
        ensures elsewhere { SameOutside (SECTOR_BYTES * first) (length bytes.now)
            (content self.old) (content self.new) }
        ensures crash { OneStepFrom (may_leave self.old) (may_leave self.new)
            (SameOutside (SECTOR_BYTES * first) (length bytes.now)) }
        ensures time { TimePasses moment left_since may_leave self.old self.new }
        ensures counted { IsCounted failure_count call_count failed_call self.old self.new result }
        ensures setup { SameSetup sector_count armed self.old self.new };

    /// Waits until all that was written is on the disk: after it, a crash leaves what reads give.
    /// Refuses with `Device` (20) alone.
    fn sync(&mut self) -> Result<(), DiskFault>
        ensures range { ¬ (IsErrOf result DiskFault.Range) }
        // Then a crash leaves what reads give, and nothing else.
        ensures durable { OnOk result (Only (content self.old) (may_leave self.new)) }
        ensures quiet { IsQuiet content may_leave self.old self.new }
        ensures time { TimePasses moment left_since may_leave self.old self.new }
        ensures counted { IsCounted failure_count call_count failed_call self.old self.new result }
        ensures setup { SameSetup sector_count armed self.old self.new };

    /// The device crashes and comes back. What it holds then is settled: one of the contents that a crash might leave,
    /// by the fill byte where one is given.
    fn crash(&mut self, fill: Option<u8>)
        // The new content is one that a crash might have left.
        ensures left { may_leave self.old (content self.new) }
        ensures filled { settles_to self.old fill (content self.new) }
        // Another crash leaves no other.
        ensures durable { Only (content self.new) (may_leave self.new) }
        ensures time { TimePasses moment left_since may_leave self.old self.new }
        ensures counts { SameCounts failure_count call_count failed_call self.old self.new }
        ensures setup { SameSetup sector_count armed self.old self.new };

    /// Prepares a failure. Where there is no memory (1) it prepares nothing.
    fn arm(&mut self, fault: ArmedFault) -> Result<(), AllocError>
        ensures quiet { IsQuiet content may_leave self.old self.new }
        ensures time { TimePasses moment left_since may_leave self.old self.new }
        ensures counts { SameCounts failure_count call_count failed_call self.old self.new }
        ensures size { sector_count self.new ≡ sector_count self.old }
        ensures armed { OnOk result (armed self.new ≡ armed self.old ++ fault ∷ []) }
        ensures not_armed { OnErr result (armed self.new ≡ armed self.old) };

    /// Begins the count of device calls anew. What is armed stays armed.
    fn recount(&mut self)
        ensures quiet { IsQuiet content may_leave self.old self.new }
        ensures time { TimePasses moment left_since may_leave self.old self.new }
        ensures failures { failure_count self.new ≡ failure_count self.old }
        ensures counted { call_count self.new ≡ 0 }
        ensures none_failed { failed_call self.new ≡ 0 }
        ensures setup { SameSetup sector_count armed self.old self.new };

    /// What a crash may leave now is among what it might have left since an earlier moment.
    ghost includes_now: { (disk : Self) (t : ℕ) (c : List ℕ)
        → t ≤ moment disk → may_leave disk c → left_since disk t c };

    /// From this moment on there has been none but this one.
    ghost only_now: { (disk : Self) (c : List ℕ)
        → left_since disk (moment disk) c → may_leave disk c };

    /// A crash may lose nothing.
    ghost content_may_stay: { (disk : Self) → may_leave disk (content disk) };

    /// Reads give whole sectors.
    ghost is_whole: { (disk : Self) → length (content disk) ≡ SECTOR_BYTES * sector_count disk };

    /// The count of device calls stops there.
    ghost is_countable: { (disk : Self) → call_count disk ≤ GREATEST_COUNT };

    /// Each byte has an offset of 64 bits.
    ghost is_addressable: { (disk : Self) → SECTOR_BYTES * sector_count disk < 2 ^ 64 };
}
