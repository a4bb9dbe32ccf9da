// The items of a history that may still be asked for.
ghost use Rattle.std.specs.Prelude.{◌≡◌, ◌==◌, ◌↔◌, ◌+◌, ◌-◌, ◌<◌, ◌≤◌, List, [], ◌∷◌, ◌++◌, ℤ, length, take, drop, slice_get, IfOk, IfSome, Some, IsTrue, OnOk, OnErr, IsErrOf};
ghost use Rattle.std.specs.VecDeque.{deque_len, deque_capacity};
ghost use Rattle.retained.specs.LogState.{log_end, IsFull, Overfills, IsInLog, item_at, items_since, trimmed, cut_at, IsLogOf};

use crate::fault::LogFault;
use kahn_net::MAX_COUNT;
use std::alloc::{AllocError, Global};
use std::collections::VecDeque;
use std::marker::Model;

/// The most items of a log.
pub const MAX_LOG_ITEMS: usize = 65_536;

/// The items of one history from the position `base` on: a base, and the items at the positions from it to the end.
///
/// The items before the base are gone. No call moves the items that stay, unless `push` or `push_all` needs a larger room for them.
pub struct Log {
    base: u64,
    items: VecDeque<i64>,
}

// Written out, since each crate above would go through a derived one again.
impl Drop for Log {
    fn drop(self) {
        let Self { base, items } = self;
    }
}

impl Model for Log {
    ghost use Rattle.retained.specs.LogState.{LogState, IsWithinLimits};

    ghost Value = { LogState };

    ghost view = { λ log. record { base = log.base; items = log.items.items } };

    ghost invariant = { λ log. IsWithinLimits
        (record { base = log.base; items = log.items.items }) };
}

// Drops so many items from the front, each by itself, so that the others stay where they are.
fn drop_front(items: &mut VecDeque<i64>, count: u64)
    ensures { items.new.items ≡ drop count items.old.items }
{
    for _ in 0..count {
        items.pop_front();
    }
}

// Adds these items, for which there is room.
fn push_each(log: &mut VecDeque<i64>, items: &[i64])
    requires { deque_len log.old + length items.now ≤ deque_capacity log.old }
    ensures { log.new.items ≡ log.old.items ++ items.now }
{
    for item in items {
        log.push_back_reserved(*item);
    }
}

fn are_same_items(one: &VecDeque<i64>, other: &VecDeque<i64>) -> bool
    ensures { IsTrue result ↔ (one.now.items ≡ other.now.items) }
{
    one == other
}

impl Log {
    /// The log of a history with no items.
    pub fn new(alloc: Global) -> Log
        ensures empty { result ≡ record { base = 0; items = [] } }
        ensures history { IsLogOf result [] }
    {
        Log {
            base: 0,
            items: VecDeque::new(alloc),
        }
    }

    /// The log of a history with so many items, none of which it holds.
    pub fn starting_at(alloc: Global, base: u64) -> Log
        requires { base ≤ MAX_COUNT }
        ensures { result ≡ record { base = base; items = [] } }
    {
        Log {
            base,
            items: VecDeque::new(alloc),
        }
    }

    /// Adds an item at the end. Refuses with `NoMemory` (1) and `Full` (50), and is then as it was.
    pub fn push(&mut self, item: i64) -> Result<(), LogFault>
        ensures full { IsErrOf result LogFault.Full ↔ IsFull self.old }
        ensures ok { OnOk result (self.new
            ≡ record (self.old) { items = self.old.items ++ item ∷ [] }) }
        ensures err { OnErr result (self.new ≡ self.old) }
        ensures history { OnOk result
            ((history : List ℤ) → IsLogOf self.old history
            → IsLogOf self.new (history ++ item ∷ [])) }
    {
        if self.len() == MAX_LOG_ITEMS || self.end() == MAX_COUNT {
            return Err(LogFault::Full);
        }
        self.items.push_back(item)?;
        Ok(())
    }

    /// Adds all these items at the end, or none: it takes its memory first. Refuses with `NoMemory` (1) and with `Full` (50),
    /// where not all of them fit, and is then as it was.
    pub fn push_all(&mut self, items: &[i64]) -> Result<(), LogFault>
        ensures full { IsErrOf result LogFault.Full ↔ Overfills self.old (length items.now) }
        ensures ok { OnOk result (self.new
            ≡ record (self.old) { items = self.old.items ++ items.now }) }
        ensures err { OnErr result (self.new ≡ self.old) }
        ensures history { OnOk result
            ((history : List ℤ) → IsLogOf self.old history
            → IsLogOf self.new (history ++ items.now)) }
    {
        if items.len() > MAX_LOG_ITEMS - self.len() || items.len() as u64 > MAX_COUNT - self.end() {
            return Err(LogFault::Full);
        }
        self.items.reserve(items.len())?;
        push_each(&mut self.items, items);
        Ok(())
    }

    /// The item at a position of the history, where the log holds it.
    pub fn get(&self, position: u64) -> Option<i64>
        ensures value { result ≡ item_at self.now position }
        ensures history { IfSome result
            (λ item. (history : List ℤ) → IsLogOf self.now history
            → slice_get history position ≡ Some item) }
    {
        if position < self.base {
            return None;
        }
        self.items.get((position - self.base) as usize).copied()
    }

    /// A copy of the items from a position on, at most so many.
    pub fn copy_since(
        &self,
        alloc: Global,
        position: u64,
        most: usize,
    ) -> Result<Vec<i64>, AllocError>
        ensures { IfOk result (λ items. items.items ≡ take most (items_since self.now position)) }
    {
        let first = position.saturating_sub(self.base).min(self.len() as u64) as usize;
        let count = most.min(self.len() - first);
        let mut items = Vec::with_capacity(alloc, count)?;
        for offset in 0..count {
            items.push(self.items[first + offset])?;
        }
        Ok(items)
    }

    /// Drops what lies before the position, which becomes the base. Changes nothing where the position isn't one from the
    /// base to the end.
    pub fn trim(&mut self, position: u64)
        ensures trimmed { IsInLog self.old position → self.new ≡ trimmed self.old position }
        ensures otherwise { ¬ (IsInLog self.old position) → self.new ≡ self.old }
        ensures history { (history : List ℤ) → IsLogOf self.old history → IsLogOf self.new history }
    {
        if self.base <= position && position <= self.end() {
            drop_front(&mut self.items, position - self.base);
            self.base = position;
        }
    }

    /// Drops what lies from the position on, which becomes the end. Changes nothing where the position isn't one from the
    /// base to the end. Takes no memory.
    pub fn cut(&mut self, position: u64)
        ensures cut { IsInLog self.old position → self.new ≡ cut_at self.old position }
        ensures otherwise { ¬ (IsInLog self.old position) → self.new ≡ self.old }
        ensures history { (history : List ℤ) → IsInLog self.old position → IsLogOf self.old history
            → IsLogOf self.new (take position history) }
    {
        if self.base <= position && position < self.end() {
            self.items.truncate((position - self.base) as usize);
        }
    }

    /// The position of the first item.
    pub fn base(&self) -> u64
        ensures { result ≡ self.now.base }
    {
        self.base
    }

    /// The position behind the last item: how many items the history has.
    pub fn end(&self) -> u64
        ensures value { result ≡ log_end self.now }
        ensures bound { result ≤ MAX_COUNT }
    {
        self.base + self.len() as u64
    }

    /// How many items the log holds.
    pub fn len(&self) -> usize
        ensures value { result ≡ length self.now.items }
        ensures bound { result ≤ MAX_LOG_ITEMS }
    {
        self.items.len()
    }

    /// Whether the log holds no item.
    pub fn is_empty(&self) -> bool
        ensures { result ≡ (length self.now.items == 0) }
    {
        self.items.is_empty()
    }

    /// The items, oldest first: those of the first slice, and then those of the second.
    pub fn as_slices(&self) -> (&[i64], &[i64])
        ensures { result.0.now ++ result.1.now ≡ self.now.items }
    {
        self.items.as_slices()
    }

    /// The same log once more, in memory of its own.
    pub fn copy(&self, alloc: Global) -> Result<Log, AllocError>
        ensures { IfOk result (λ copy. copy ≡ self.now) }
    {
        let (first, last) = self.as_slices();
        // room for all is made at once, so that none is asked for twice
        let mut items = Vec::with_capacity(alloc, self.len())?;
        items.extend_from_slice(first)?;
        items.extend_from_slice(last)?;
        Ok(Log {
            base: self.base,
            items: VecDeque::from(items),
        })
    }

    /// Whether two logs have the same base and the same items.
    pub fn is_same(&self, other: &Log) -> bool
        ensures { IsTrue result ↔ (self.now ≡ other.now) }
    {
        self.base == other.base && are_same_items(&self.items, &other.items)
    }
}
