// A file by the calls of the system that it is asked for.
ghost use Rattle.std.specs.Prelude.{◌≡◌, ◌≤◌, ◌-◌, ◌∷◌, List, drop, take, length, IfSome};
ghost use Rattle.host.specs.Writes.{Write, Wrote, Synced, IsPut};

/// A file by the calls of the system that it is asked for. What is trusted of it is a line each.
pub trait RawFile: Drop {
    /// What it was asked since it was opened, the newest first.
    ghost writes: { Self → List Write };

    /// Asks once to write what stands in `bytes` from `from` to `to`, from the offset `at` on. Answers how many of these bytes the host
    /// took.
    fn write_at(&mut self, at: u64, bytes: &Vec<u8>, from: usize, to: usize) -> Option<usize>
        requires ordered { from ≤ to }
        requires there { to ≤ length bytes.now.items }
        ensures asked { writes self.new ≡ Wrote at (drop from (take to bytes.now.items)) result ∷ writes self.old }
        ensures within { IfSome result (λ count. count ≤ to - from) };

    /// Waits until all that was written before stands on the disk.
    fn sync(&mut self) -> bool
        ensures { writes self.new ≡ Synced result ∷ writes self.old };
}

/// Writes what stands in `bytes` from `from` to `to`, from the offset `at` on. Where it answers yes the host took all of it, each byte at its
/// place and in order. Where it answers no the host took a beginning at most. Nothing else is asked.
pub fn put_all<F: RawFile>(file: &mut F, at: u64, bytes: &Vec<u8>, from: usize, to: usize) -> bool
    requires ordered { from ≤ to }
    requires there { to ≤ length bytes.now.items }
    ensures { IsPut at (drop from (take to bytes.now.items)) result (F.writes file.old) (F.writes file.new) }
{
    let mut next = from;
    while next < to {
        let Some(place) = at.checked_add((next - from) as u64) else {
            return false;
        };
        let Some(count) = file.write_at(place, bytes, next, to) else {
            return false;
        };
        // It would go on for ever.
        if count == 0 {
            return false;
        }
        next += count;
    }
    true
}
