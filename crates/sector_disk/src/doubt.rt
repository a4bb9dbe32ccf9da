//! The sectors that were written since the last sync.
ghost use Rattle.std.specs.Prelude.{◌≡◌, ℕ, ◌+◌, ◌<◌, ◌≤◌, false, replicate, length, IfOk};
ghost use Rattle.std.proofs.Common.{get_or};
ghost use Rattle.sector_disk.specs.Doubt.{marked, NoneInDoubt};

use std::alloc::{AllocError, Global};

/// A flag for each sector, and the range outside of which none is set: a sync clears that range alone.
#[derive(Drop)]
pub struct Doubt {
    /// For each sector, whether it is in doubt.
    pub flags: Vec<bool>,
    first: usize,
    end: usize,
    ghost within: { end ≤ length flags.items },
    ghost clear_before: { (k : ℕ) → k < first → get_or flags.items k false ≡ false },
    ghost clear_behind: { (k : ℕ) → end ≤ k → get_or flags.items k false ≡ false },
}

impl Doubt {
    /// No sector of so many is in doubt.
    pub fn new(alloc: Global, sectors: usize) -> Result<Doubt, AllocError>
        ensures { IfOk result (λ doubt. doubt.flags.items ≡ replicate sectors false) }
    {
        Ok(Doubt {
            flags: Vec::from_elem(alloc, false, sectors)?,
            first: 0,
            end: 0,
        })
    }

    /// The sectors of a write are in doubt.
    pub fn mark(&mut self, first: usize, count: usize)
        requires { first + count ≤ length self.old.flags.items }
        ensures { self.new.flags.items ≡ marked first count self.old.flags.items }
    {
        self.flags[first..first + count].fill(true);
        if self.first < self.end {
            self.first = self.first.min(first);
            self.end = self.end.max(first + count);
        } else {
            self.first = first;
            self.end = first + count;
        }
    }

    /// After a sync none is.
    pub fn clear(&mut self)
        ensures none { NoneInDoubt self.new.flags.items }
        ensures len { length self.new.flags.items ≡ length self.old.flags.items }
    {
        if self.first < self.end {
            self.flags[self.first..self.end].fill(false);
        }
        self.first = 0;
        self.end = 0;
    }
}
