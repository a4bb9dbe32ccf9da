//! Images: where a node's processes stand, and what it has of its channels.
ghost use Rattle.std.specs.Prelude.{◌≡◌, ◌↔◌, ◌+◌, ◌≤◌, IsTrue, IsSome, IfOk, IsErrOf, OnErr, OnOk, None, Some, length, IfSome, option_copied};
ghost use Rattle.record.specs.Ascending.{AreAscending, HasNoneOf, IsPlaceOf, ascend_from};
ghost use Rattle.record.specs.Changes.{LogTakes, counted, pushed, trimmed_end, trimmed_image};
ghost use Rattle.record.specs.Ends.{base_of, end_of, log_at, log_of, received_at, received_of, sent_of};

use kahn_net::{MAX_COUNT, ProcState};
use retained::{Log, LogFault};
use std::alloc::{AllocError, Global};
use std::marker::Model;

/// A process's part of an image.
pub struct SavedProcess {
    pub number: u8,
    pub state: ProcState,
}

// Written out, since each crate above would go through a derived one again.
impl Drop for SavedProcess {
    fn drop(self) {
        let Self { number, state } = self;
    }
}

impl Model for SavedProcess {
    ghost use Rattle.kahn_net.specs.Common.{standing_of};
    ghost use Rattle.record.specs.ProcessView.{SavedProcessView};

    ghost Value = { SavedProcessView };

    ghost view = { λ saved. record { number = saved.number; standing = standing_of saved.state } };
}

impl SavedProcess {
    pub fn copy(&self, alloc: Global) -> Result<SavedProcess, AllocError>
        ensures { IfOk result (λ copy. copy ≡ self.now) }
    {
        Ok(SavedProcess {
            number: self.number,
            state: self.state.copy(alloc)?,
        })
    }
}

/// What a node has of one end of a channel, or of both where the channel stays on the node.
#[derive(Drop)]
pub enum End {
    /// A process of the node gets from the channel, and has got so many items.
    Receives { received: u64 },
    /// A process of the node puts on the channel, and the log retains the last items that it put.
    Sends { log: Log },
    /// Both, of a channel that stays on the node.
    Both { received: u64, log: Log },
}

impl End {
    pub fn copy(&self, alloc: Global) -> Result<End, AllocError>
        ensures { IfOk result (λ copy. copy ≡ self.now) }
    {
        match self {
            End::Receives { received } => Ok(End::Receives {
                received: *received,
            }),
            End::Sends { log } => Ok(End::Sends {
                log: log.copy(alloc)?,
            }),
            End::Both { received, log } => Ok(End::Both {
                received: *received,
                log: log.copy(alloc)?,
            }),
        }
    }

    /// Puts all items behind those of the log, or none. Refuses for want of memory alone.
    pub fn push_all(&mut self, items: &[i64]) -> Result<(), LogFault>
        requires { LogTakes (length items.now) (log_at (Some self.old)) }
        ensures ok { OnOk result (self.new ≡ pushed items.now self.old) }
        ensures err { OnErr result (self.new ≡ self.old) }
        ensures full { ¬ (IsErrOf result LogFault.Full) }
    {
        match self {
            End::Receives { .. } => Ok(()),
            End::Sends { log } => log.push_all(items),
            End::Both { log, .. } => log.push_all(items),
        }
    }

    /// Takes as many items as were just put back from the log's end.
    pub fn take_back(&mut self, items: &[i64])
        ensures { (before : End) → self.old ≡ pushed items.now before → self.new ≡ before }
    {
        match self {
            End::Receives { .. } => {}
            End::Sends { log } => log.cut(log.end().saturating_sub(items.len() as u64)),
            End::Both { log, .. } => log.cut(log.end().saturating_sub(items.len() as u64)),
        }
    }

    /// Counts items that were got. The log of a channel that stays on the node lets go of them.
    pub fn count(&mut self, taken: usize)
        requires { received_at (Some self.old) + taken ≤ MAX_COUNT }
        ensures { self.new ≡ counted taken self.old }
    {
        match self {
            End::Receives { received } => *received += taken as u64,
            End::Sends { .. } => {}
            End::Both { received, log } => {
                *received += taken as u64;
                log.trim(*received);
            }
        }
    }

    /// Drops what lies before a position from the log.
    pub fn trim(&mut self, position: u64)
        ensures { self.new ≡ trimmed_end position self.old }
    {
        match self {
            End::Receives { .. } => {}
            End::Sends { log } => log.trim(position),
            End::Both { log, .. } => log.trim(position),
        }
    }
}

/// A channel's part of an image.
pub struct SavedEnd {
    pub channel: u8,
    pub end: End,
}

// Written out, since each crate above would go through a derived one again.
impl Drop for SavedEnd {
    fn drop(self) {
        let Self { channel, end } = self;
    }
}

impl SavedEnd {
    pub fn copy(&self, alloc: Global) -> Result<SavedEnd, AllocError>
        ensures { IfOk result (λ copy. copy ≡ self.now) }
    {
        Ok(SavedEnd {
            channel: self.channel,
            end: self.end.copy(alloc)?,
        })
    }
}

/// An image of a node: each process's state, and for each end of a channel its received count or its retained log. The ends
/// stand in order of their channels.
pub struct Image {
    pub processes: Vec<SavedProcess>,
    pub ends: Vec<SavedEnd>,
    pub ghost ordered: { AreAscending ends.items },
}

// Written out, since each crate above would go through a derived one again.
impl Drop for Image {
    fn drop(self) {
        let Self { processes, ends } = self;
    }
}

impl Model for Image {
    ghost use Rattle.record.specs.ImageView.{ImageView};

    ghost Value = { ImageView };

    ghost view = { λ image. record { processes = image.processes.items; ends = image.ends.items } };
}

fn copy_processes(alloc: Global, saved: &[SavedProcess]) -> Result<Vec<SavedProcess>, AllocError>
    ensures { IfOk result (λ copies. copies.items ≡ saved.now) }
{
    let mut copies = Vec::with_capacity(alloc, saved.len())?;
    for process in saved {
        copies.push(process.copy(alloc)?)?;
    }
    Ok(copies)
}

fn copy_ends(alloc: Global, saved: &[SavedEnd]) -> Result<Vec<SavedEnd>, AllocError>
    ensures { IfOk result (λ copies. copies.items ≡ saved.now) }
{
    let mut copies = Vec::with_capacity(alloc, saved.len())?;
    for end in saved {
        copies.push(end.copy(alloc)?)?;
    }
    Ok(copies)
}

// Whether each channel is above the one before it.
fn ascends(ends: &[SavedEnd]) -> bool
    ensures { result ≡ ascend_from 0 ends.now }
{
    let mut least: u16 = 0;
    for saved in ends {
        if (saved.channel as u16) < least {
            return false;
        }
        least = saved.channel as u16 + 1;
    }
    true
}

fn are_in_order(ends: &[SavedEnd]) -> bool
    ensures { IsTrue result ↔ AreAscending ends.now }
{
    ascends(ends)
}

impl Image {
    /// An image of these processes and ends of channels. None where the ends don't stand in order of their channels.
    pub fn new(processes: Vec<SavedProcess>, ends: Vec<SavedEnd>) -> Option<Image>
        ensures made { IfSome result
            (λ image. image ≡ record { processes = processes.items; ends = ends.items }) }
        ensures ordered { IsSome result ↔ AreAscending ends.items }
    {
        if !are_in_order(ends.as_slice()) {
            return None;
        }
        Some(Image { processes, ends })
    }

    // The place of the end of a channel.
    fn place(&self, channel: u8) -> Option<usize>
        ensures there { IfSome result (λ place. IsPlaceOf self.now.ends channel place) }
        ensures nowhere { result ≡ None → HasNoneOf self.now.ends channel }
    {
        match self
            .ends
            .binary_search_by_key(&channel, |saved| saved.channel)
        {
            Ok(place) => Some(place),
            Err(_) => None,
        }
    }

    /// The end of a channel.
    pub fn end(&self, channel: u8) -> Option<&End>
        ensures { option_copied result ≡ end_of self.now channel }
    {
        match self.place(channel) {
            Some(place) => Some(&self.ends[place].end),
            None => None,
        }
    }

    /// How many items were received from a channel: 0 where no process of the node gets from it.
    pub fn received(&self, channel: u8) -> u64
        ensures { result ≡ received_of self.now channel }
    {
        match self.end(channel) {
            Some(End::Receives { received }) | Some(End::Both { received, .. }) => *received,
            Some(End::Sends { .. }) | None => 0,
        }
    }

    /// The retained log of what was put on a channel.
    pub fn log(&self, channel: u8) -> Option<&Log>
        ensures { option_copied result ≡ log_of self.now channel }
    {
        match self.end(channel) {
            Some(End::Sends { log }) | Some(End::Both { log, .. }) => Some(log),
            Some(End::Receives { .. }) | None => None,
        }
    }

    /// How many items were put on a channel: those before its log and those in it. 0 where no process of the node puts on it.
    pub fn sent(&self, channel: u8) -> u64
        ensures { result ≡ sent_of self.now channel }
    {
        match self.log(channel) {
            Some(log) => log.end(),
            None => 0,
        }
    }

    /// How many items were put on a channel before those that its log retains.
    pub fn base(&self, channel: u8) -> u64
        ensures { result ≡ base_of self.now channel }
    {
        match self.log(channel) {
            Some(log) => log.base(),
            None => 0,
        }
    }

    pub fn copy(&self, alloc: Global) -> Result<Image, AllocError>
        ensures { IfOk result (λ copy. copy ≡ self.now) }
    {
        Ok(Image {
            processes: copy_processes(alloc, self.processes.as_slice())?,
            ends: copy_ends(alloc, self.ends.as_slice())?,
        })
    }

    /// Drops what lies before a position from the log of a channel.
    pub fn trim(&mut self, channel: u8, position: u64)
        ensures { self.new ≡ trimmed_image channel position self.old }
    {
        if let Some(place) = self.place(channel) {
            self.ends[place].end.trim(position);
        }
    }
}
