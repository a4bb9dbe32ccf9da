// One input, of which items may be let go of.
ghost use Rattle.std.specs.Prelude.{◌≡◌, ◌+◌, ◌<◌, ◌≤◌, ◌++◌, length, take, drop, reverse, IfOk, OnOk, OnErr};
ghost use Rattle.std.specs.VecDeque.{deque_len, deque_capacity};
ghost use Rattle.kahn_net.specs.declared.limits.TheConstants.{MAX_COUNT};
ghost use Rattle.sector_disk.specs.Past.{states_of};
ghost use Rattle.arrived.specs.ArrivedView.{began};

use kahn_net::History;
use sector_disk::Past;
use std::alloc::{AllocError, Global};
use std::collections::VecDeque;
use std::marker::Model;
use std::snapshot::Snapshot;

/// One input: clauses see all that came on it, and memory has the items from the position `base` on.
///
/// What it began with and what came later take no memory: each is read in proofs alone.
pub(crate) struct ArrivedList {
    first: Snapshot<History>,
    later: Past<i64>,
    base: u64,
    items: VecDeque<i64>,
}

// Written out, since each crate above would go through a derived one again.
impl Drop for ArrivedList {
    fn drop(self) {
        let Self {
            first,
            later,
            base,
            items,
        } = self;
    }
}

impl Model for ArrivedList {
    ghost use Rattle.arrived.specs.ArrivedView.{ListView, all_came, IsKept};

    ghost Value = { ListView };

    ghost view = { λ list. record { came = all_came list.first.value list.later; base = list.base } };

    ghost invariant = { λ list. IsKept (all_came list.first.value list.later) list.base list.items.items };
}

// Drops so many items from the front, each by itself, so that the others stay where they are.
fn drop_front(items: &mut VecDeque<i64>, count: u64)
    ensures { items.new.items ≡ drop count items.old.items }
{
    for _ in 0..count {
        items.pop_front();
    }
}

// Adds these items, for which there is room.
fn push_each(kept: &mut VecDeque<i64>, items: &[i64])
    requires { deque_len kept.old + length items.now ≤ deque_capacity kept.old }
    ensures { kept.new.items ≡ kept.old.items ++ items.now }
{
    for item in items {
        kept.push_back_reserved(*item);
    }
}

// Notes for proofs that these items came.
fn note_each(later: &mut Past<i64>, items: &[i64])
    ensures { reverse (states_of later.new) ≡ reverse (states_of later.old) ++ items.now }
{
    for item in items {
        later.note(item);
    }
}

impl ArrivedList {
    /// An input on which this came. No item is copied.
    pub(crate) fn from_history(history: History) -> ArrivedList
        requires { length history ≤ MAX_COUNT }
        ensures { result ≡ began history }
    {
        let first = Snapshot::of(&history);
        ArrivedList {
            first,
            later: Past::new(),
            base: 0,
            items: VecDeque::from(history.into_vec()),
        }
    }

    /// How many items came.
    pub(crate) fn count(&self) -> u64
        ensures { result ≡ length self.now.came }
    {
        self.base + self.items.len() as u64
    }

    /// The position from which on the items are at hand.
    pub(crate) fn base(&self) -> u64
        ensures value { result ≡ self.now.base }
        ensures within { result ≤ length self.now.came }
    {
        self.base
    }

    /// A copy of the items from a position on, at most so many.
    pub(crate) fn copy_since(
        &self,
        alloc: Global,
        position: u64,
        most: usize,
    ) -> Result<History, AllocError>
        requires { self.now.base ≤ position }
        ensures { IfOk result (λ items. items ≡ take most (drop position self.now.came)) }
    {
        let first = (position - self.base).min(self.items.len() as u64) as usize;
        let count = most.min(self.items.len() - first);
        let mut items = Vec::with_capacity(alloc, count)?;
        for offset in 0..count {
            items.push(self.items[first + offset])?;
        }
        Ok(History::from_vec(items))
    }

    /// Adds items at the end, or changes nothing. Refuses for want of memory alone.
    pub(crate) fn append(&mut self, items: &[i64]) -> Result<(), AllocError>
        requires { length self.old.came + length items.now ≤ MAX_COUNT }
        ensures ok { OnOk result (self.new ≡ record (self.old) { came = self.old.came ++ items.now }) }
        ensures err { OnErr result (self.new ≡ self.old) }
    {
        self.items.reserve(items.len())?;
        push_each(&mut self.items, items);
        note_each(&mut self.later, items);
        Ok(())
    }

    /// Lets go of the items before a position. Changes nothing where the position isn't one from the base to the end.
    pub(crate) fn let_go(&mut self, position: u64)
        ensures came { self.new.came ≡ self.old.came }
        ensures gone { self.old.base ≤ position → position ≤ length self.old.came → self.new.base ≡ position }
        ensures otherwise { ¬ ((self.old.base ≤ position) × (position ≤ length self.old.came)) → self.new ≡ self.old }
    {
        if self.base <= position && position <= self.count() {
            drop_front(&mut self.items, position - self.base);
            self.base = position;
        }
    }
}
