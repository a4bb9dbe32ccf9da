//! What is unread of a history.

ghost use Rattle.std.specs.Prelude.{◌≡◌, ◌==◌, [], ◌∷◌, List, ℤ, IfOk, IfSome, IfNone, length, slice_set};
ghost use Rattle.kahn_net.specs.Common.{history_of};

use kahn_net::History;
use std::alloc::{AllocError, Global};
use std::marker::Model;

/// A list of items, of which a front is read: the items that are left.
#[derive(Debug, Drop)]
pub struct Unread<'a> {
    items: &'a [i64],
    next: usize,
}

impl<'a> Model for Unread<'a> {
    ghost use Rattle.std.specs.Prelude.{List, ℤ, drop, length, ◌≤◌};

    ghost Value = { List ℤ };

    ghost view = { λ u. drop u.next u.items.now };

    ghost invariant = { λ u. u.next ≤ length u.items.now };
}

impl<'a> Unread<'a> {
    pub fn new(items: &'a [i64]) -> Self
        ensures { result ≡ items.now }
    {
        Unread { items, next: 0 }
    }

    /// How many items are left.
    pub fn len(&self) -> usize
        ensures { result ≡ length self.now }
    {
        self.items.len() - self.next
    }

    pub fn is_empty(&self) -> bool
        ensures { result ≡ (length self.now == 0) }
    {
        self.next == self.items.len()
    }

    /// The next item, if there is one.
    pub fn take(&mut self) -> Option<i64>
        ensures some { IfSome result (λ item. self.old ≡ item ∷ self.new) }
        ensures none { IfNone result ((self.old ≡ []) × (self.new ≡ [])) }
    {
        if self.next == self.items.len() {
            return None;
        }
        let item = self.items[self.next];
        self.next += 1;
        Some(item)
    }
}

/// All of these histories, unread.
pub fn all_unread<'a>(
    alloc: Global,
    histories: &'a [History],
) -> Result<Vec<Unread<'a>>, AllocError>
    ensures { IfOk result (λ all. all.items ≡ histories.now) }
{
    let mut all = Vec::new(alloc);
    for history in histories {
        all.push(Unread::new(history.as_slice()))?;
    }
    Ok(all)
}

/// Takes the next item of a channel, if there is one.
pub fn take_item(unread: &mut [Unread<'_>], channel: usize) -> Option<i64>
    ensures some { IfSome result
        (λ item. (left : List ℤ) × (history_of unread.old channel ≡ item ∷ left)
        × (unread.new ≡ slice_set unread.old channel left)) }
    ensures none { IfNone result
        ((history_of unread.old channel ≡ []) × (unread.new ≡ unread.old)) }
{
    if channel < unread.len() {
        let items = &mut unread[channel];
        items.take()
    } else {
        None
    }
}
