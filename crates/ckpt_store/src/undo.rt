//! What takes a move of a record back.
ghost use Rattle.std.specs.Prelude.{◌≡◌, ◌<◌, length};
ghost use Rattle.ckpt_store.specs.Restoring.{untaken, demoted, with_held, lowered};

use record::{Decision, Image, Record, Tentative};
use std::mem;

/// What takes a move of a record back: the parts that it replaced.
#[derive(Drop)]
pub enum Undo {
    /// A tentative image was taken: the entry of its initiator, as it was.
    Take {
        initiator: u8,
        entry: u64,
    },
    /// That of an instance became permanent: the permanent one before.
    Promote {
        initiator: u8,
        number: u64,
        permanent: Image,
    },
    /// And decisions took the place of these.
    Decide {
        initiator: u8,
        number: u64,
        permanent: Image,
        decisions: Vec<Decision>,
    },
    /// A tentative image went: the one that was held.
    GiveUp {
        held: Option<Tentative>,
    },
    /// Decisions took the place of these.
    Settle {
        decisions: Vec<Decision>,
    },
    /// The epoch rose: the tentative image that went with it, if one did.
    Raise {
        own: Option<Tentative>,
    },
}

fn untake(kept: &mut Record, initiator: u8, entry: u64)
    requires { initiator < length kept.old.highest }
    ensures { kept.new ≡ untaken initiator entry kept.old }
{
    kept.highest[usize::from(initiator)] = entry;
    kept.tentative = None;
}

fn demote(kept: &mut Record, initiator: u8, number: u64, permanent: Image)
    ensures { kept.new ≡ demoted initiator number permanent kept.old }
{
    let image = mem::replace(&mut kept.permanent, permanent);
    kept.tentative = Some(Tentative {
        initiator,
        number,
        image,
    });
}

fn hold(kept: &mut Record, held: Option<Tentative>)
    ensures { kept.new ≡ with_held held kept.old }
{
    kept.tentative = held;
}

fn lower(kept: &mut Record, own: Option<Tentative>)
    ensures { kept.new ≡ lowered own kept.old }
{
    kept.epoch = kept.epoch.saturating_sub(1);
    if own.is_some() {
        kept.tentative = own;
    }
}

impl Undo {
    ghost use Rattle.ckpt_store.specs.Undoing.{undone, IsUndoable};

    /// Gives the record its parts back.
    pub fn undo(self, kept: &mut Record)
        requires { IsUndoable self kept.old }
        ensures { kept.new ≡ undone self kept.old }
    {
        match self {
            Undo::Take { initiator, entry } => untake(kept, initiator, entry),
            Undo::Promote {
                initiator,
                number,
                permanent,
            } => demote(kept, initiator, number, permanent),
            Undo::Decide {
                initiator,
                number,
                permanent,
                decisions,
            } => {
                kept.decisions = decisions;
                demote(kept, initiator, number, permanent);
            }
            Undo::GiveUp { held } => hold(kept, held),
            Undo::Settle { decisions } => kept.decisions = decisions,
            Undo::Raise { own } => lower(kept, own),
        }
    }
}
