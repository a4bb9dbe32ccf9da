//! The items for a network's inputs.

ghost use Rattle.std.specs.Prelude.{◌≡◌, ◌↔◌, ◌+◌, ◌++◌, ◌<◌, ◌≤◌, ℤ, IfOk, IsTrue, List, OnErr, OnOk, length, slice_set};
ghost use Rattle.kahn_net.specs.Common.{Fits, network_of};
ghost use Rattle.kahn_net.specs.Fits.{AreCounted, IsEmptyInside, IsEmptyWhereMade};
ghost use Rattle.kahn_net.specs.Streams.{history_of};
ghost use Rattle.kahn_net.specs.declared.limits.TheConstants.{MAX_COUNT};

use crate::net::Net;
use kahn_net::{Channel, History, Port};
use std::alloc::{AllocError, Global};
use std::marker::Model;

/// The items that come from outside: one list for each channel number, empty where the channel is no input.
#[derive(Debug)]
pub struct Inputs {
    lists: Vec<History>,
}

// Written out, since each crate above would go through a derived one again.
impl Drop for Inputs {
    fn drop(self) {
        let Self { lists } = self;
    }
}

impl Model for Inputs {
    ghost use Rattle.std.specs.Prelude.{List, ℤ};
    ghost use Rattle.kahn_net.specs.Fits.{AreCounted};

    ghost Value = { List (List ℤ) };

    ghost view = { λ i. i.lists.items };

    ghost invariant = { λ i. AreCounted i.lists.items };
}

// The same lists once more.
fn copy_lists(alloc: Global, lists: &[History]) -> Result<Vec<History>, AllocError>
    ensures { IfOk result (λ copies. copies.items ≡ lists.now) }
{
    let mut copies = Vec::with_capacity(alloc, lists.len())?;
    for list in lists {
        copies.push(list.copy(alloc)?)?;
    }
    Ok(copies)
}

impl Inputs {
    pub(crate) fn from_lists(lists: Vec<History>) -> Self
        requires { AreCounted lists.items }
        ensures { result ≡ lists.items }
    {
        Inputs { lists }
    }

    /// Adds items at the end of a channel's list, or changes nothing. Refuses for want of memory alone.
    pub fn append(&mut self, channel: usize, items: &[i64]) -> Result<(), AllocError>
        requires here { channel < length self.old }
        requires few { length (history_of self.old channel) + length items.now ≤ MAX_COUNT }
        ensures ok { OnOk result
            (self.new ≡ slice_set self.old channel (history_of self.old channel ++ items.now)) }
        ensures err { OnErr result (self.new ≡ self.old) }
    {
        self.lists[channel].append(items)
    }

    /// The same lists once more, in memory of their own.
    pub fn copy(&self, alloc: Global) -> Result<Inputs, AllocError>
        ensures { IfOk result (λ copy. copy ≡ self.now) }
    {
        Ok(Inputs {
            lists: copy_lists(alloc, self.lists.as_slice())?,
        })
    }

    /// The list of each channel, moved.
    pub fn into_lists(self) -> Vec<History>
        ensures lists { result.items ≡ self }
        ensures counted { AreCounted result.items }
    {
        let Self { lists } = self;
        lists
    }

    /// The list of each channel.
    pub fn as_slice(&self) -> &[History]
        ensures { result.now ≡ self.now }
    {
        self.lists.as_slice()
    }
}

/// Whether these are inputs for this network: a list for each channel, and none but an empty one for a channel on
/// which a process puts.
pub fn fits(net: &Net, inputs: &Inputs) -> bool
    ensures { IsTrue result ↔ Fits (network_of net.now.program) inputs.now }
{
    net.program.channels.len() == inputs.lists.len()
        && are_inner_empty(&net.program.channels, inputs.as_slice())
}

/// Whether the list is empty if a process puts on the channel.
fn is_empty_where_made(channel: &Channel, list: &History) -> bool
    ensures { IsTrue result ↔ IsEmptyWhereMade channel.now list.now }
{
    match channel.producer {
        Port::Outside => true,
        Port::Process(_) => list.is_empty(),
    }
}

/// Whether each channel on which a process puts has an empty list.
fn are_inner_empty(channels: &[Channel], lists: &[History]) -> bool
    requires { length channels.now ≡ length lists.now }
    ensures { IsTrue result ↔ IsEmptyInside channels.now lists.now }
{
    for (c, channel) in channels.iter().enumerate() {
        if !is_empty_where_made(channel, &lists[c]) {
            return false;
        }
    }
    true
}
