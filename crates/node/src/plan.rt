// An event of a node is planned once: what is put of its record, what becomes of its memory, and what it says. A plan changes nothing.
// So whoever sends what is said has the memory for it before anything is put; and one function carries a plan out.
ghost use Rattle.std.specs.Prelude.{◌≡◌, IsSome, List, true};
ghost use Rattle.protocol.specs.Node.Common.{Changes, cell_in, known_in, record_in, with_kept, Planned};
ghost use Rattle.datagram.specs.declared.packet.Packet.{Packet as PacketValue};
ghost use Rattle.protocol.specs.Node.Plans.{LeavesCell};
ghost use Rattle.node.specs.NodeView.{mode_view, node_view};
ghost use Rattle.node.specs.Planned.{CanBeMade, CanDo, CanPut, MayBePut, cause_of, change_grows, changed, plan_view, prospect_view};
ghost use Rattle.node.specs.Putting.{IsPutEvent};
ghost use Rattle.node.specs.StoredView.{HasRecord};
ghost use Rattle.node.specs.Then.{then_node};

use crate::checkpoint::{Then, carry_on, end_put_then};
use crate::state::NodeState;
use ckpt_store::{Store, StoreFault};
use datagram::{Body, Packet};
use protocol::{Outcome, Refusal};
use record::Image;
use slot_cell::SlotCell;
use std::alloc::{AllocError, Global};

/// A change of a node's record.
#[derive(Drop)]
pub(crate) enum Change {
    /// It holds this image, of the checkpoint of this number of this initiator.
    Takes {
        image: Image,
        initiator: u8,
        number: u64,
    },
    /// The image that it holds of its own checkpoint is permanent, and these nodes have to confirm that.
    Decides {
        number: u64,
        participants: Vec<u8>,
    },
    /// The image that it holds of this checkpoint is permanent.
    MakesPermanent {
        initiator: u8,
        number: u64,
    },
    /// The image that it holds of this checkpoint is dropped.
    Drops {
        initiator: u8,
        number: u64,
    },
    /// This node has confirmed the decision of this number.
    Confirms {
        number: u64,
        node: u8,
    },
    /// It is in its next epoch.
    Raises,
}

/// What becomes of a node.
#[derive(Drop)]
pub(crate) enum Effect {
    /// Its memory changes, and its record stays.
    Remembers(Then),
    /// It hears what a packet says of a channel, and may want memory for that.
    Hears(Body),
    /// A change of its record is put, and behind that its memory changes.
    Puts { change: Change, then: Then },
}

/// What a node says: where the event is made, and where it takes no part in a checkpoint since its record would be too large.
#[derive(Drop)]
pub struct Said {
    pub made: Vec<Packet>,
    pub declined: Vec<Packet>,
}

/// What becomes of a node by an event that can be made, and what it says.
#[derive(Drop)]
pub struct Plan {
    pub(crate) effect: Effect,
    pub said: Said,
}

/// What an event comes to.
#[derive(Drop)]
pub enum Prospect {
    /// It can't be made.
    Undue,
    /// A number would pass the greatest.
    Exhausted,
    Planned(Plan),
}

// Puts a change of the record.
fn put<C: SlotCell>(alloc: Global, change: Change, store: &mut Store<C>) -> Result<(), StoreFault>
    requires known { IsSome (known_in store.old) }
    requires may { MayBePut change (record_in store.old) }
    ensures { Changes (cause_of change) (changed change) store.old store.new result }
{
    match change {
        Change::Takes {
            image,
            initiator,
            number,
        } => store.take_tentative(alloc, image, initiator, number),
        Change::Decides {
            number,
            participants,
        } => store.decide(alloc, number, participants),
        Change::MakesPermanent { initiator, number } => {
            store.make_permanent(alloc, initiator, number)
        }
        Change::Drops { initiator, number } => store.drop_tentative(alloc, initiator, number),
        Change::Confirms { number, node } => store.confirm(alloc, number, node),
        Change::Raises => store.raise_epoch(alloc),
    }
}

// Puts a change of the record. Behind one that was put the memory changes so; where the device fails the node goes down.
fn put_then<C: SlotCell>(
    alloc: Global,
    number: u8,
    change: Change,
    then: Then,
    state: &mut NodeState,
    store: &mut Store<C>,
    round: u64,
) -> Result<Outcome, AllocError>
    requires kept { HasRecord number (mode_view state.old.mode) store.old }
    requires can { CanPut (node_view (record_in store.old) state.old) change then }
    ensures kept { HasRecord number (mode_view state.new.mode) store.new }
    // Whatever is said.
    ensures event { (packets refused : List PacketValue) → IsPutEvent (Planned (record {
      node = then_node then (with_kept (changed change (record_in store.old))
          (node_view (record_in store.old) state.old));
      puts = true;
      grows = change_grows change;
      packets = packets;
      refused = refused;
    })) round (node_view (record_in store.old) state.old) (node_view (record_in store.new) state.new)
        store.old store.new result }
    ensures unchanged { LeavesCell result → cell_in store.new ≡ cell_in store.old }
{
    let put = put(alloc, change, store);
    end_put_then(alloc, put, then, state, store, round)
}

// Carries out a plan.
fn make<C: SlotCell>(
    alloc: Global,
    number: u8,
    plan: Plan,
    state: &mut NodeState,
    store: &mut Store<C>,
    round: u64,
) -> Result<Outcome, AllocError>
    requires kept { HasRecord number (mode_view state.old.mode) store.old }
    requires can { CanDo (node_view (record_in store.old) state.old) plan.effect }
    ensures kept { HasRecord number (mode_view state.new.mode) store.new }
    ensures event { IsPutEvent (Planned (plan_view (node_view (record_in store.old) state.old) plan))
        round (node_view (record_in store.old) state.old) (node_view (record_in store.new) state.new)
        store.old store.new result }
    ensures unchanged { LeavesCell result → cell_in store.new ≡ cell_in store.old }
{
    let Plan { effect, .. } = plan;
    match effect {
        Effect::Remembers(then) => {
            carry_on(alloc, then, state);
            Ok(Outcome::Made)
        }
        Effect::Hears(body) => {
            state.hear(&body)?;
            Ok(Outcome::Made)
        }
        Effect::Puts { change, then } => put_then(alloc, number, change, then, state, store, round),
    }
}

/// Carries out what an event comes to. Where the device fails the node goes down. Refuses for want of memory alone, and then nothing
/// is changed.
pub(crate) fn carry_out<C: SlotCell>(
    alloc: Global,
    number: u8,
    prospect: Prospect,
    state: &mut NodeState,
    store: &mut Store<C>,
    round: u64,
) -> Result<Outcome, AllocError>
    requires kept { HasRecord number (mode_view state.old.mode) store.old }
    requires can { CanBeMade (node_view (record_in store.old) state.old) prospect }
    ensures kept { HasRecord number (mode_view state.new.mode) store.new }
    ensures event { IsPutEvent (prospect_view (node_view (record_in store.old) state.old) prospect)
        round (node_view (record_in store.old) state.old) (node_view (record_in store.new) state.new)
        store.old store.new result }
    ensures unchanged { LeavesCell result → cell_in store.new ≡ cell_in store.old }
{
    match prospect {
        Prospect::Undue => Ok(Outcome::NotDue),
        Prospect::Exhausted => Ok(Outcome::Refused(Refusal::Spent)),
        Prospect::Planned(plan) => make(alloc, number, plan, state, store, round),
    }
}
