// A node crashes, and comes back.
ghost use Rattle.std.specs.Prelude.{◌≡◌, false, not, IfOk, IsSome, IsTrue, None, OnErr};
ghost use Rattle.protocol.specs.Node.Common.{network_of, Only, cell_in, known_in, record_in, crashed, is_down};
ghost use Rattle.protocol.specs.Node.Common.{recover_prospect};
ghost use Rattle.rollback_core.specs.RestoredView.{recovery_mode};
ghost use Rattle.node.specs.NodeView.{mode_view, node_view};
ghost use Rattle.node.specs.Putting.{IsPutEvent};
ghost use Rattle.node.specs.StoredView.{HasRecord, IsRaised, LeavesAsBefore, LeavesDevice};

use crate::checkpoint::end_put;
use crate::mode::Mode;
use crate::state::NodeState;
use ckpt_store::{Store, StoreFault};
use kahn_net::MAX_COUNT;
use net_check::Net;
use node_memory::Running;
use protocol::Outcome;
use rollback_core::{Recovery, recover};
use slot_cell::SlotCell;
use std::alloc::{AllocError, Global};

// A node that is up crashes; says whether it was. What its cell holds is settled by this byte, where one is given.
pub(crate) fn crash<C: SlotCell>(
    number: u8,
    state: &mut NodeState,
    store: &mut Store<C>,
    fill: Option<u8>,
    restart: u64,
) -> bool
    requires { HasRecord number (mode_view state.old.mode) store.old }
    ensures kept { HasRecord number (mode_view state.new.mode) store.new }
    ensures up { result ≡ not (is_down (mode_view state.old.mode)) }
    ensures step { IsTrue result → node_view (record_in store.new) state.new
        ≡ crashed restart (node_view (record_in store.old) state.old) }
    ensures any_moment { LeavesAsBefore store.old store.new }
    ensures same_setup { LeavesDevice store.old store.new }
    ensures failures { C.failure_count (cell_in store.new) ≡ C.failure_count (cell_in store.old) }
    ensures unknown { IsTrue result → known_in store.new ≡ None }
    ensures unchanged { result ≡ false → (store.new ≡ store.old) × (state.new ≡ state.old) }
{
    if state.is_down() {
        return false;
    }
    store.crash(fill);
    state.stop(restart);
    true
}

// The mode of a node that comes back so.
fn mode_from(recovery: Recovery) -> Mode
    ensures { mode_view result ≡ recovery_mode recovery }
{
    match recovery {
        Recovery::InDoubt => Mode::InDoubt,
        Recovery::Running(restored) => Mode::Running(Running::from_restored(restored)),
    }
}

// Makes what a node comes back with, whose store is open, and then raises its epoch.
fn raise_open<C: SlotCell>(
    alloc: Global,
    net: &Net,
    home: u8,
    store: &mut Store<C>,
) -> Result<Recovery, StoreFault>
    requires known { IsSome (known_in store.old) }
    requires settled { Only (C.whole (cell_in store.old)) (C.may_leave_whole (cell_in store.old)) }
    ensures { IsRaised (network_of net.now.program) home store.old store.new result }
{
    let Ok(kept) = store.record() else {
        return Err(StoreFault::Reopen);
    };
    if kept.epoch >= MAX_COUNT {
        return Err(StoreFault::Spent);
    }
    let Ok(recovery) = recover(alloc, net, home, kept) else {
        return Err(StoreFault::NoMemory);
    };
    match store.raise_epoch(alloc) {
        Ok(()) => Ok(recovery),
        Err(fault) => Err(fault),
    }
}

// Reopens the store of a node that is down, and raises its epoch.
fn raise<C: SlotCell>(
    alloc: Global,
    net: &Net,
    home: u8,
    store: &mut Store<C>,
) -> Result<Recovery, StoreFault>
    requires { Only (C.whole (cell_in store.old)) (C.may_leave_whole (cell_in store.old)) }
    ensures { IsRaised (network_of net.now.program) home store.old store.new result }
{
    match store.reopen(alloc) {
        Ok(()) => raise_open(alloc, net, home, store),
        Err(fault) => Err(fault),
    }
}

// A node that is down comes back in its next epoch, without a tentative image of its own, and runs from its permanent image
// unless it holds another's.
pub(crate) fn come_back<C: SlotCell>(
    alloc: Global,
    net: &Net,
    number: u8,
    state: &mut NodeState,
    store: &mut Store<C>,
    round: u64,
) -> Result<Outcome, AllocError>
    requires { HasRecord number (mode_view state.old.mode) store.old }
    ensures kept { HasRecord number (mode_view state.new.mode) store.new }
    ensures event { IsPutEvent (recover_prospect (network_of net.now.program) number
        (node_view (record_in store.old) state.old))
        round (node_view (record_in store.old) state.old) (node_view (record_in store.new) state.new)
        store.old store.new result }
    ensures unchanged { IfOk result (λ outcome. outcome ≡ Outcome.NotDue → store.new ≡ store.old) }
    ensures held { OnErr result (LeavesAsBefore store.old store.new) }
{
    if !state.is_down() {
        return Ok(Outcome::NotDue);
    }
    match raise(alloc, net, number, store) {
        Ok(recovery) => {
            state.mode = mode_from(recovery);
            Ok(Outcome::Made)
        }
        Err(fault) => end_put(Err(fault), state, store, round),
    }
}
