// All inputs of a network, of which items may be let go of.
ghost use Rattle.std.specs.Prelude.{◌≡◌, ◌+◌, ◌<◌, ◌≤◌, ◌++◌, length, map, take, drop, slice_set, IfOk, OnOk, OnErr};
ghost use Rattle.kahn_net.specs.Fits.{AreCounted};
ghost use Rattle.kahn_net.specs.Streams.{history_of};
ghost use Rattle.kahn_net.specs.declared.limits.TheConstants.{MAX_COUNT};
ghost use Rattle.arrived.specs.ArrivedView.{base_of, began, none_gone, MayLetGo};

use crate::list::ArrivedList;
use kahn_net::History;
use net_check::Inputs;
use std::alloc::{AllocError, Global};
use std::marker::Model;

/// What came on a network's inputs: one list for each channel number, empty where the channel is no input. Clauses see whole
/// lists, and memory has of each what wasn't let go of.
pub struct Arrived {
    lists: Vec<ArrivedList>,
}

// Written out, since each crate above would go through a derived one again.
impl Drop for Arrived {
    fn drop(self) {
        let Self { lists } = self;
    }
}

impl Model for Arrived {
    ghost use Rattle.kahn_net.specs.Fits.{AreCounted};
    ghost use Rattle.arrived.specs.ArrivedView.{ArrivedView, arrived_view};

    ghost Value = { ArrivedView };

    ghost view = { λ arrived. arrived_view arrived.lists.items };

    ghost invariant = { λ arrived. AreCounted (arrived_view arrived.lists.items).came };
}

// Each of these lists, with nothing let go of.
fn list_each(alloc: Global, histories: Vec<History>) -> Result<Vec<ArrivedList>, AllocError>
    requires { AreCounted histories.items }
    ensures { IfOk result (λ lists. lists.items ≡ map began histories.items) }
{
    let mut lists = Vec::with_capacity(alloc, histories.len())?;
    for history in histories {
        lists.push(ArrivedList::from_history(history))?;
    }
    Ok(lists)
}

impl Arrived {
    /// These inputs, with nothing let go of. No item is copied.
    pub fn new(alloc: Global, inputs: Inputs) -> Result<Arrived, AllocError>
        ensures came { IfOk result (λ arrived. arrived.came ≡ inputs) }
        ensures bases { IfOk result (λ arrived. arrived.bases ≡ none_gone (length inputs)) }
    {
        Ok(Arrived {
            lists: list_each(alloc, inputs.into_lists())?,
        })
    }

    /// How many channels there are.
    pub fn channels(&self) -> usize
        ensures lists { result ≡ length self.now.came }
        ensures bases { result ≡ length self.now.bases }
    {
        self.lists.len()
    }

    /// How many items came on a channel: none where there is no such channel.
    pub fn count(&self, channel: usize) -> u64
        ensures { result ≡ length (history_of self.now.came channel) }
    {
        match self.lists.get(channel) {
            Some(list) => list.count(),
            None => 0,
        }
    }

    /// The position from which on the items of a channel are at hand: 0 where there is no such channel.
    pub fn base(&self, channel: usize) -> u64
        ensures value { result ≡ base_of self.now.bases channel }
        ensures within { result ≤ length (history_of self.now.came channel) }
    {
        match self.lists.get(channel) {
            Some(list) => list.base(),
            None => 0,
        }
    }

    /// A copy of the items of a channel from a position on, at most so many: none where there is no such channel.
    pub fn copy_since(
        &self,
        alloc: Global,
        channel: usize,
        position: u64,
        most: usize,
    ) -> Result<History, AllocError>
        requires at_hand { base_of self.now.bases channel ≤ position }
        ensures { IfOk result (λ items. items ≡ take most (drop position (history_of self.now.came channel))) }
    {
        match self.lists.get(channel) {
            Some(list) => list.copy_since(alloc, position, most),
            None => Ok(History::new(alloc)),
        }
    }

    /// Adds items at the end of a channel's list, or changes nothing. Refuses for want of memory alone.
    pub fn append(&mut self, channel: usize, items: &[i64]) -> Result<(), AllocError>
        requires here { channel < length self.old.came }
        requires few { length (history_of self.old.came channel) + length items.now ≤ MAX_COUNT }
        ensures came { OnOk result
            (self.new.came ≡ slice_set self.old.came channel (history_of self.old.came channel ++ items.now)) }
        ensures bases { self.new.bases ≡ self.old.bases }
        ensures err { OnErr result (self.new ≡ self.old) }
    {
        self.lists[channel].append(items)
    }

    /// Lets go of the items of a channel before a position. What came stays. Changes nothing where there is no such channel, or
    /// where the position isn't one from its base to its end. Takes no memory.
    pub fn let_go(&mut self, channel: usize, position: u64)
        ensures came { self.new.came ≡ self.old.came }
        ensures gone { MayLetGo self.old channel position
            → self.new.bases ≡ slice_set self.old.bases channel position }
        ensures otherwise { ¬ (MayLetGo self.old channel position) → self.new ≡ self.old }
    {
        if channel < self.lists.len() {
            self.lists[channel].let_go(position);
        }
    }
}
