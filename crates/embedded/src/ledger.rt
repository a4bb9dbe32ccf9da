//! An outlet of one's own: it keeps what it took, and the sum of it.

ghost use Rattle.std.specs.Prelude.{◌≡◌, [], if◌then◌else◌};

use cobaltmidge::{Outlet, OutletFault};
use std::alloc::Global;

/// When a ledger fails, or lacks memory: once, at the item that comes next when it has so many.
#[derive(Clone, Copy, PartialEq, Eq)]
pub enum Weakness {
    /// It never fails.
    None,
    /// It fails before it takes the item.
    Before(usize),
    /// It fails when it has taken the item.
    Behind(usize),
    /// It has no memory for the item.
    Lacks(usize),
}

/// Items, and their sum, which wraps. The allocator aside it fails once at most, or lacks memory once.
#[derive(Drop)]
pub struct Ledger {
    items: Vec<i64>,
    sum: i64,
    weakness: Weakness,
    has_failed: bool,
    has_lacked: bool,
}

impl Ledger {
    /// It took no item yet.
    pub fn new(alloc: Global, weakness: Weakness) -> Ledger
        ensures { result.items.items ≡ [] }
    {
        Ledger {
            items: Vec::new(alloc),
            sum: 0,
            weakness,
            has_failed: false,
            has_lacked: false,
        }
    }

    /// Whether it was told to lack memory, and did.
    pub fn has_lacked(&self) -> bool {
        self.has_lacked
    }

    pub fn sum(&self) -> i64 {
        self.sum
    }
}

impl Outlet for Ledger {
    ghost taken = { λ ledger. ledger.items.items };

    ghost failures = { λ ledger. if ledger.has_failed then 1 else 0 };

    fn len(&self) -> u64 {
        self.items.len() as u64
    }

    fn items(&self) -> &[i64] {
        self.items.as_slice()
    }

    fn append(&mut self, item: i64) -> Result<(), OutletFault> {
        let count = self.items.len();
        if !self.has_failed && self.weakness == Weakness::Before(count) {
            self.has_failed = true;
            return Err(OutletFault::Failed);
        }
        if !self.has_lacked && self.weakness == Weakness::Lacks(count) {
            self.has_lacked = true;
            return Err(OutletFault::NoMemory);
        }
        self.items.push(item)?;
        self.sum = self.sum.wrapping_add(item);
        if !self.has_failed && self.weakness == Weakness::Behind(count) {
            self.has_failed = true;
            return Err(OutletFault::Failed);
        }
        Ok(())
    }
}
