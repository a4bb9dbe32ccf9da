// The list of needs that a packet carries.
ghost use Rattle.std.specs.Prelude.{◌≡◌, ◌++◌, [], ◌∷◌, length, IsTrue, ◌↔◌, OnOk, OnErr};
ghost use Rattle.std.specs.List.Sorted.{IsStrictlyIncreasing};
ghost use Rattle.datagram.specs.PacketText.{channels};
ghost use Rattle.datagram.specs.Reading.{are_ascending};

use crate::packet::Need;
use std::alloc::{AllocError, Global};
use std::marker::Model;

/// A list of needs, which contracts see as a list.
#[derive(Debug, Drop)]
pub struct Needs {
    list: Vec<Need>,
}

impl Model for Needs {
    ghost use Rattle.std.specs.Prelude.{List};
    ghost use Rattle.datagram.specs.declared.packet.Need.{Need};

    ghost Value = { List Need };

    ghost view = { λ needs. needs.list.items };
}

// Whether each channel is above the one before it.
fn are_in_order(needs: &[Need]) -> bool
    ensures { result ≡ are_ascending 0 needs.now }
{
    let mut least: u32 = 0;
    for need in needs {
        if (need.channel as u32) < least {
            return false;
        }
        least = need.channel as u32 + 1;
    }
    true
}

impl Needs {
    /// No needs.
    pub fn new(alloc: Global) -> Needs
        ensures { result ≡ [] }
    {
        Needs {
            list: Vec::new(alloc),
        }
    }

    /// Adds a need at the end.
    pub fn push(&mut self, need: Need) -> Result<(), AllocError>
        ensures ok { OnOk result (self.new ≡ self.old ++ need ∷ []) }
        ensures err { OnErr result (self.new ≡ self.old) }
    {
        self.list.push(need)?;
        Ok(())
    }

    /// The needs, the first one first.
    pub fn as_slice(&self) -> &[Need]
        ensures { result.now ≡ self.now }
    {
        self.list.as_slice()
    }

    /// How many needs there are.
    pub fn len(&self) -> usize
        ensures { result ≡ length self.now }
    {
        self.list.len()
    }

    /// Whether there is no need.
    pub fn is_empty(&self) -> bool
        ensures { IsTrue result ↔ (self.now ≡ []) }
    {
        self.list.is_empty()
    }

    pub(crate) fn ascends(&self) -> bool
        ensures { result ≡ are_ascending 0 self.now }
    {
        are_in_order(self.list.as_slice())
    }

    /// Whether each need's channel is above the one before it.
    pub fn is_ascending(&self) -> bool
        ensures { IsTrue result ↔ IsStrictlyIncreasing (channels self.now) }
    {
        self.ascends()
    }
}
