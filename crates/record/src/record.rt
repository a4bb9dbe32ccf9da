//! What a node keeps over a crash.
ghost use Rattle.std.specs.Prelude.{◌≡◌, IfOk};

use crate::image::Image;
use std::alloc::{AllocError, Global};
use std::marker::Model;

/// The most decisions of a record: with so many unsettled, a node begins no checkpoint.
pub const MAX_DECISIONS: usize = 8;

/// The coordinator's decision that a checkpoint is permanent, with the nodes that haven't confirmed it yet.
pub struct Decision {
    pub number: u64,
    pub participants: Vec<u8>,
}

// Written out, since each crate above would go through a derived one again.
impl Drop for Decision {
    fn drop(self) {
        let Self {
            number,
            participants,
        } = self;
    }
}

impl Model for Decision {
    ghost use Rattle.record.specs.DecisionView.{DecisionView};

    ghost Value = { DecisionView };

    ghost view = { λ decision. record
        { number = decision.number; participants = decision.participants.items } };
}

impl Decision {
    pub fn copy(&self, alloc: Global) -> Result<Decision, AllocError>
        ensures { IfOk result (λ copy. copy ≡ self.now) }
    {
        Ok(Decision {
            number: self.number,
            participants: Vec::from_slice(alloc, self.participants.as_slice())?,
        })
    }
}

/// A checkpoint that isn't decided yet.
#[derive(Drop)]
pub struct Tentative {
    pub initiator: u8,
    pub number: u64,
    pub image: Image,
}

impl Tentative {
    pub fn copy(&self, alloc: Global) -> Result<Tentative, AllocError>
        ensures { IfOk result (λ copy. copy ≡ self.now) }
    {
        Ok(Tentative {
            initiator: self.initiator,
            number: self.number,
            image: self.image.copy(alloc)?,
        })
    }
}

/// All that a node keeps over a crash.
pub struct Record {
    /// The node that keeps it.
    pub node: u8,
    pub epoch: u64,
    /// The highest number seen of each initiator, by node.
    pub highest: Vec<u64>,
    /// The decisions that some node hasn't confirmed yet, by ascending numbers: `MAX_DECISIONS` at most.
    pub decisions: Vec<Decision>,
    /// The last permanent checkpoint.
    pub permanent: Image,
    pub tentative: Option<Tentative>,
}

// Written out, since each crate above would go through a derived one again.
impl Drop for Record {
    fn drop(self) {
        let Self {
            node,
            epoch,
            highest,
            decisions,
            permanent,
            tentative,
        } = self;
    }
}

impl Model for Record {
    ghost use Rattle.record.specs.RecordView.{RecordView};

    ghost Value = { RecordView };

    ghost view = { λ kept. record {
      node = kept.node;
      epoch = kept.epoch;
      highest = kept.highest.items;
      decisions = kept.decisions.items;
      permanent = kept.permanent;
      tentative = kept.tentative;
    } };
}

fn copy_decisions(alloc: Global, decisions: &[Decision]) -> Result<Vec<Decision>, AllocError>
    ensures { IfOk result (λ copy. copy.items ≡ decisions.now) }
{
    let mut copies = Vec::with_capacity(alloc, decisions.len())?;
    for decision in decisions {
        copies.push(decision.copy(alloc)?)?;
    }
    Ok(copies)
}

fn copy_tentative(
    alloc: Global,
    tentative: &Option<Tentative>,
) -> Result<Option<Tentative>, AllocError>
    ensures { IfOk result (λ copy. copy ≡ tentative.now) }
{
    match tentative {
        Some(tentative) => Ok(Some(tentative.copy(alloc)?)),
        None => Ok(None),
    }
}

impl Record {
    pub fn copy(&self, alloc: Global) -> Result<Record, AllocError>
        ensures { IfOk result (λ copy. copy ≡ self.now) }
    {
        Ok(Record {
            node: self.node,
            epoch: self.epoch,
            highest: Vec::from_slice(alloc, self.highest.as_slice())?,
            decisions: copy_decisions(alloc, self.decisions.as_slice())?,
            permanent: self.permanent.copy(alloc)?,
            tentative: copy_tentative(alloc, &self.tentative)?,
        })
    }
}
