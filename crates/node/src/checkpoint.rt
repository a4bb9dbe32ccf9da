// Checkpoints: a node begins one, and decides it; and how each event ends that puts the record.
ghost use Rattle.std.specs.Prelude.{◌≡◌, ◌<◌, ◌≤◌, false, length, IfOk, IsTrue, OnErr, OnOk, Some};
ghost use Rattle.protocol.specs.Node.Common.{cell_in, restart_after, crashed, start_prospect, IsLikeNow};
ghost use Rattle.protocol.specs.Node.Common.{decide_prospect, network_of, MAX_NODES, highest_seen, RecordView};
ghost use Rattle.node.specs.Planned.{CanBeMade, prospect_view};
ghost use Rattle.node.specs.NodeView.{node_view};
ghost use Rattle.node.specs.StoredView.{IsCrashed, IsAnswer, has_failed, put_outcome};
ghost use Rattle.node.specs.Then.{MayFollow, then_node};
ghost use Rattle.node.specs.Said.{MayBeDecided};

use crate::mode::Mode;
use crate::plan::{Change, Effect, Plan, Prospect, Said};
use crate::state::{NodeState, next_after};
use ckpt_store::{Store, StoreFault};
use decide_core::{Initiator, may_decide};
use kahn_net::MAX_COUNT;
use net_check::Net;
use node_memory::Running;
use protocol::{Outcome, Refusal};
use record::{Image, Record};
use rollback_core::Restored;
use slot_cell::SlotCell;
use std::alloc::{AllocError, Global};

// What comes of an event whose put the store did, or refused. (A node's own events give it no cause for any refusal but those of a put.)
fn outcome_of(put: &Result<(), StoreFault>) -> Result<Outcome, AllocError>
    ensures { IsAnswer (put_outcome put.now) result }
{
    match put {
        Ok(()) => Ok(Outcome::Made),
        Err(StoreFault::NoMemory) => Err(AllocError),
        Err(StoreFault::Device) => Ok(Outcome::Failed),
        Err(StoreFault::TooLarge) => Ok(Outcome::Refused(Refusal::TooLarge)),
        Err(StoreFault::Spent) => Ok(Outcome::Refused(Refusal::Spent)),
        Err(_) => Ok(Outcome::NotDue),
    }
}

// Whether the device failed in a put.
fn has_failed(put: &Result<(), StoreFault>) -> bool
    ensures { result ≡ has_failed put.now }
{
    matches!(put, Err(StoreFault::Device))
}

// The device failed: the node goes down in the same event, or stays so, and what its cell holds is settled.
fn go_down<C: SlotCell>(state: &mut NodeState, store: &mut Store<C>, round: u64)
    ensures store { IsCrashed store.old store.new }
    ensures state { (kept : RecordView) → node_view kept state.new
        ≡ crashed (restart_after state.old.armed.items (C.failed_call (cell_in store.new)) round)
        (node_view kept state.old) }
{
    store.crash(None);
    let restart = state.restart_after(store.failed_call(), round);
    state.stop(restart);
}

// Ends an event by what came of its put.
pub(crate) fn end_put<C: SlotCell>(
    put: Result<(), StoreFault>,
    state: &mut NodeState,
    store: &mut Store<C>,
    round: u64,
) -> Result<Outcome, AllocError>
    ensures answer { IsAnswer (put_outcome put) result }
    ensures stays { has_failed put ≡ false → (store.new ≡ store.old) × (state.new ≡ state.old) }
    ensures failed { IsTrue (has_failed put) → IsCrashed store.old store.new
        × ((kept : RecordView) → node_view kept state.new
        ≡ crashed (restart_after state.old.armed.items (C.failed_call (cell_in store.new)) round)
        (node_view kept state.old)) }
{
    if !has_failed(&put) {
        return outcome_of(&put);
    }
    go_down(state, store, round);
    Ok(Outcome::Failed)
}

/// What becomes of a node's memory: alone, or behind a put that was made.
#[derive(Drop)]
pub(crate) enum Then {
    /// It stays.
    Stays,
    /// It collects answers for this checkpoint, or for none.
    Collects(Option<Initiator>),
    /// What was asked of a channel for the checkpoint of this number is kept for good.
    Covers {
        number: u64,
        channel: u16,
    },
    /// The receiver of a channel keeps so many items for good.
    Cuts {
        channel: u8,
        count: u64,
    },
    /// An epoch of a channel's sender was handled.
    Notes {
        channel: u16,
        epoch: u64,
    },
    /// Where it was in doubt it runs, with what it restored.
    Runs(Option<Restored>),
    /// It goes back to this image, in this epoch of its own, and notes that of a channel's sender.
    GoesBack {
        image: Image,
        own: u64,
        channel: u16,
        epoch: u64,
    },
}

pub(crate) fn carry_on(alloc: Global, then: Then, state: &mut NodeState)
    requires { MayFollow then }
    ensures { (kept : RecordView) → node_view kept state.new
        ≡ then_node then (node_view kept state.old) }
{
    match then {
        Then::Stays => {}
        Then::Collects(live) => {
            if let Mode::Running(running) = &mut state.mode {
                running.live = live;
            }
        }
        Then::Covers { number, channel } => {
            if let Mode::Running(running) = &mut state.mode {
                running.on_covered(number, channel);
            }
        }
        Then::Cuts { channel, count } => {
            if let Mode::Running(running) = &mut state.mode {
                running.cut(channel, count);
            }
        }
        Then::Notes { channel, epoch } => {
            if let Mode::Running(running) = &mut state.mode {
                running.note_epoch(channel, epoch);
            }
        }
        Then::Runs(None) => {}
        Then::Runs(Some(restored)) => {
            if let Mode::InDoubt = &state.mode {
                state.mode = Mode::Running(Running::from_restored(restored));
            }
        }
        Then::GoesBack {
            image,
            own,
            channel,
            epoch,
        } => {
            state.version = next_after(state.version);
            if let Mode::Running(running) = &mut state.mode {
                running.go_back(alloc, image, own, channel, epoch);
            }
        }
    }
}

/// Ends an event by what came of its put; behind one that was made its memory changes so.
pub(crate) fn end_put_then<C: SlotCell>(
    alloc: Global,
    put: Result<(), StoreFault>,
    then: Then,
    state: &mut NodeState,
    store: &mut Store<C>,
    round: u64,
) -> Result<Outcome, AllocError>
    requires { MayFollow then }
    ensures answer { IsAnswer (put_outcome put) result }
    ensures store { has_failed put ≡ false → store.new ≡ store.old }
    ensures done { OnOk put ((kept : RecordView) → node_view kept state.new
        ≡ then_node then (node_view kept state.old)) }
    ensures stays { OnErr put (has_failed put ≡ false → state.new ≡ state.old) }
    ensures failed { IsTrue (has_failed put) → IsCrashed store.old store.new
        × ((kept : RecordView) → node_view kept state.new
        ≡ crashed (restart_after state.old.armed.items (C.failed_call (cell_in store.new)) round)
        (node_view kept state.old)) }
{
    match put {
        Ok(()) => {
            carry_on(alloc, then, state);
            Ok(Outcome::Made)
        }
        Err(fault) => end_put(Err(fault), state, store, round),
    }
}

// The highest number that a node has used.
fn highest_seen(kept: &Record, number: u8) -> u64
    requires { number < length kept.now.highest }
    ensures { result ≡ highest_seen number kept.now }
{
    kept.highest[usize::from(number)]
}

// Of how many nodes a record lists a number.
fn count_nodes(kept: &Record) -> u8
    requires { length kept.now.highest ≤ MAX_NODES }
    ensures { result ≡ length kept.now.highest }
{
    kept.highest.len() as u8
}

/// How a node with this record begins a checkpoint now: it takes a tentative image of where it stands, under its next number, collects
/// answers for it, and asks.
pub(crate) fn plan_start(
    alloc: Global,
    net: &Net,
    number: u8,
    state: &NodeState,
    kept: &Record,
) -> Result<Prospect, AllocError>
    requires listed { number < length kept.now.highest }
    requires like { IsLikeNow (node_view kept.now state.now) }
    ensures view { IfOk result (λ prospect. prospect_view (node_view kept.now state.now) prospect
        ≡ start_prospect (network_of net.now.program) number (node_view kept.now state.now)) }
    ensures can { IfOk result (λ prospect. CanBeMade (node_view kept.now state.now) prospect) }
{
    let Mode::Running(running) = &state.mode else {
        return Ok(Prospect::Undue);
    };
    if !state.can_start(kept) {
        return Ok(Prospect::Undue);
    }
    let highest = highest_seen(kept, number);
    if highest >= MAX_COUNT {
        return Ok(Prospect::Exhausted);
    }
    let live = Initiator::begin(alloc, net, number, kept, &running.current)?;
    let image = running.current.copy(alloc)?;
    let mut asks = Vec::new(alloc);
    live.add_asks(&mut asks, net, number)?;
    Ok(Prospect::Planned(Plan {
        effect: Effect::Puts {
            change: Change::Takes {
                image,
                initiator: number,
                number: highest + 1,
            },
            then: Then::Collects(Some(live)),
        },
        said: Said {
            made: asks,
            declined: Vec::new(alloc),
        },
    }))
}

/// How a node with this record decides the checkpoint for which it collected answers: its image becomes permanent, and the decision
/// names who took part, who are told.
pub(crate) fn plan_decide(
    alloc: Global,
    number: u8,
    state: &NodeState,
    kept: &Record,
) -> Result<Prospect, AllocError>
    requires named { kept.now.node ≡ number }
    requires decided { MayBeDecided number (node_view kept.now state.now) }
    ensures view { IfOk result (λ prospect. prospect_view (node_view kept.now state.now) prospect
        ≡ decide_prospect number (node_view kept.now state.now)) }
    ensures can { IfOk result (λ prospect. CanBeMade (node_view kept.now state.now) prospect) }
{
    let Some(live) = state.live() else {
        return Ok(Prospect::Undue);
    };
    if !may_decide(number, kept, Some(live)) {
        return Ok(Prospect::Undue);
    }
    let nodes = count_nodes(kept);
    let participants = live.participants(alloc, nodes)?;
    let commits = live.commits(alloc, number, nodes)?;
    Ok(Prospect::Planned(Plan {
        effect: Effect::Puts {
            change: Change::Decides {
                number: live.number(),
                participants,
            },
            then: Then::Collects(None),
        },
        said: Said {
            made: commits,
            declined: Vec::new(alloc),
        },
    }))
}
