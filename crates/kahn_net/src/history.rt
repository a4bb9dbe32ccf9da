//! The items of a channel, in order.

ghost use Rattle.std.specs.Prelude.{◌≡◌, ◌==◌, [], ◌∷◌, ◌++◌, length, slice_get, IfOk, OnOk, OnErr};

use std::alloc::{AllocError, Global};
use std::marker::Model;

/// The items of a channel, in order.
#[derive(Debug)]
pub struct History {
    items: Vec<i64>,
}

// Written out, since each crate above would go through a derived one again.
impl Drop for History {
    fn drop(self) {
        let Self { items } = self;
    }
}

impl Model for History {
    ghost use Rattle.std.specs.Prelude.{List, ℤ};

    ghost Value = { List ℤ };

    ghost view = { λ h. h.items.items };
}

impl History {
    pub fn new(alloc: Global) -> Self
        ensures { result ≡ [] }
    {
        History {
            items: Vec::new(alloc),
        }
    }

    pub fn from_vec(items: Vec<i64>) -> Self
        ensures { result ≡ items.items }
    {
        History { items }
    }

    /// The items, moved.
    pub fn into_vec(self) -> Vec<i64>
        ensures { result.items ≡ self }
    {
        let Self { items } = self;
        items
    }

    pub fn as_slice(&self) -> &[i64]
        ensures { result.now ≡ self.now }
    {
        self.items.as_slice()
    }

    pub fn len(&self) -> usize
        ensures { result ≡ length self.now }
    {
        self.items.len()
    }

    pub fn is_empty(&self) -> bool
        ensures { result ≡ (length self.now == 0) }
    {
        self.items.is_empty()
    }

    pub fn get(&self, position: usize) -> Option<i64>
        ensures { result ≡ slice_get self.now position }
    {
        self.items.get(position).copied()
    }

    /// Adds an item at the end, or changes nothing.
    pub fn push(&mut self, item: i64) -> Result<(), AllocError>
        ensures ok { OnOk result (self.new ≡ self.old ++ item ∷ []) }
        ensures err { OnErr result (self.new ≡ self.old) }
    {
        self.items.push(item)?;
        Ok(())
    }

    /// Adds items at the end, or changes nothing.
    pub fn append(&mut self, items: &[i64]) -> Result<(), AllocError>
        ensures ok { OnOk result (self.new ≡ self.old ++ items.now) }
        ensures err { OnErr result (self.new ≡ self.old) }
    {
        self.items.extend_from_slice(items)?;
        Ok(())
    }

    pub fn copy(&self, alloc: Global) -> Result<Self, AllocError>
        ensures { IfOk result (λ copy. copy ≡ self.now) }
    {
        Ok(History {
            items: Vec::from_slice(alloc, self.items.as_slice())?,
        })
    }
}
