//! A history for each channel of a network.

ghost use Rattle.std.specs.Bool.{MatchBool};
ghost use Rattle.std.specs.Prelude.{◌≡◌, ◌↔◌, IsTrue, IfOk};
ghost use Rattle.stream_eq.specs.Limits.{AreShort, HasLongList};

use kahn_net::{History, MAX_HISTORY_ITEMS};
use std::alloc::{AllocError, Global};
use std::marker::Model;

/// A history for each channel number of a network: the items that go over it, in order.
#[derive(Debug, Drop)]
pub struct Histories {
    channels: Vec<History>,
}

impl Model for Histories {
    ghost use Rattle.std.specs.Prelude.{List, ℤ};

    ghost Value = { List (List ℤ) };

    ghost view = { λ h. h.channels.items };
}

impl Histories {
    pub fn from_vec(channels: Vec<History>) -> Self
        ensures { result ≡ channels.items }
    {
        Histories { channels }
    }

    /// The history of each channel.
    pub fn as_slice(&self) -> &[History]
        ensures { result.now ≡ self.now }
    {
        self.channels.as_slice()
    }
}

/// A copy of each history.
pub fn copies(alloc: Global, histories: &[History]) -> Result<Vec<History>, AllocError>
    ensures { IfOk result (λ all. all.items ≡ histories.now) }
{
    let mut all = Vec::new(alloc);
    for history in histories {
        all.push(history.copy(alloc)?)?;
    }
    Ok(all)
}

/// Whether no history has more than 1,048,576 items.
pub fn are_short(histories: &[History]) -> bool
    ensures { MatchBool result (AreShort histories.now) (HasLongList histories.now) }
{
    for history in histories {
        if history.len() > MAX_HISTORY_ITEMS {
            return false;
        }
    }
    true
}

/// Whether two histories are equal.
fn is_same(left: &History, right: &History) -> bool
    ensures { IsTrue result ↔ (left.now ≡ right.now) }
{
    left.as_slice() == right.as_slice()
}

/// Whether two lists of histories are equal.
pub fn are_same(left: &[History], right: &[History]) -> bool
    ensures { IsTrue result ↔ (left.now ≡ right.now) }
{
    if left.len() != right.len() {
        return false;
    }
    for (c, history) in left.iter().enumerate() {
        if !is_same(history, &right[c]) {
            return false;
        }
    }
    true
}
