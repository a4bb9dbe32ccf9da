// A fault is armed on a node's disk.
ghost use Rattle.std.specs.Prelude.{◌≡◌, ◌++◌, [], ◌∷◌, OnErr, OnOk};
ghost use Rattle.protocol.specs.Node.Common.{cell_in, record_in, with_armed};
ghost use Rattle.node.specs.NodeView.{mode_view, node_view};
ghost use Rattle.node.specs.StoredView.{HasRecord, LeavesAsBefore};

use crate::state::NodeState;
use ckpt_store::Store;
use protocol::ArmedRestart;
use sector_disk::ArmedFault;
use slot_cell::SlotCell;
use std::alloc::AllocError;

// Arms a fault, and notes for how many rounds it is to keep the node down. The room for the note is taken first, so that the
// disk isn't armed where the node couldn't note it.
pub(crate) fn arm<C: SlotCell>(
    number: u8,
    state: &mut NodeState,
    store: &mut Store<C>,
    fault: ArmedFault,
    rounds: u64,
) -> Result<(), AllocError>
    requires { HasRecord number (mode_view state.old.mode) store.old }
    ensures kept { HasRecord number (mode_view state.new.mode) store.new }
    ensures armed { OnOk result (node_view (record_in store.new) state.new
        ≡ with_armed fault.call rounds (node_view (record_in store.old) state.old)) }
    ensures refused { OnErr result (node_view (record_in store.new) state.new
        ≡ node_view (record_in store.old) state.old) }
    ensures any_moment { LeavesAsBefore store.old store.new }
    ensures same_slot_room { C.slot_capacity (cell_in store.new)
        ≡ C.slot_capacity (cell_in store.old) }
    ensures on_device { OnOk result
        (C.armed (cell_in store.new) ≡ C.armed (cell_in store.old) ++ fault ∷ []) }
    ensures not_armed { OnErr result (C.armed (cell_in store.new) ≡ C.armed (cell_in store.old)) }
    ensures same_calls { C.call_count (cell_in store.new) ≡ C.call_count (cell_in store.old) }
    ensures failures { C.failure_count (cell_in store.new) ≡ C.failure_count (cell_in store.old) }
{
    state.armed.reserve(1)?;
    store.arm(fault)?;
    state.armed.push_reserved(ArmedRestart {
        call: fault.call,
        rounds,
    });
    Ok(())
}

// Begins the count of the device's calls anew.
pub(crate) fn recount<C: SlotCell>(number: u8, state: &NodeState, store: &mut Store<C>)
    requires { HasRecord number (mode_view state.now.mode) store.old }
    ensures kept { HasRecord number (mode_view state.now.mode) store.new }
    ensures record { record_in store.new ≡ record_in store.old }
    ensures any_moment { LeavesAsBefore store.old store.new }
    ensures same_slot_room { C.slot_capacity (cell_in store.new)
        ≡ C.slot_capacity (cell_in store.old) }
    ensures same_faults { C.armed (cell_in store.new) ≡ C.armed (cell_in store.old) }
    ensures none_counted { C.call_count (cell_in store.new) ≡ 0 }
    ensures none_failed { C.failed_call (cell_in store.new) ≡ 0 }
    ensures failures { C.failure_count (cell_in store.new) ≡ C.failure_count (cell_in store.old) }
{
    store.recount();
}
