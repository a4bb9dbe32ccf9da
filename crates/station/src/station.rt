//! A node with its outputs, and what turn-taking remembers of it.
ghost use Rattle.std.specs.Prelude.{◌≡◌};

use crate::output::Output;
use ckpt_store::Store;
use node::Node;
use outlet::Outlet;
use protocol::RoundTurns;
use slot_cell::SlotCell;

/// A node and the outputs on which its processes put.
pub struct Station<C: SlotCell, O: Outlet> {
    pub node: Node<C>,
    pub outputs: Vec<Output<O>>,
    pub turns: RoundTurns,
}

// Written out, since each crate above would go through a derived one again.
impl<C: SlotCell, O: Outlet> Drop for Station<C, O> {
    fn drop(self) {
        let Self {
            node,
            outputs,
            turns,
        } = self;
    }
}

impl<C: SlotCell, O: Outlet> Station<C, O> {
    ghost use Rattle.protocol.specs.World.Steps.{is_done_with};
    ghost use Rattle.protocol.specs.World.Turns.{no_turns};
    ghost use Rattle.station.specs.StationView.{station_view};

    /// The station of a node before its first event.
    pub fn new(node: Node<C>, outputs: Vec<Output<O>>) -> Station<C, O>
        ensures node { result.node ≡ node }
        ensures outputs { result.outputs ≡ outputs }
        ensures turns { result.turns ≡ no_turns 0 }
    {
        Station {
            node,
            outputs,
            turns: RoundTurns::new(0),
        }
    }

    /// The store of its node, and its outputs. All else is gone.
    pub fn into_parts(self) -> (Store<C>, Vec<Output<O>>)
        ensures store { result.0 ≡ self.node.store }
        ensures outputs { result.1 ≡ self.outputs }
    {
        let Self {
            node,
            outputs,
            turns: _,
        } = self;
        (node.into_store(), outputs)
    }

    /// Whether the round need not wait for this node: it has idled, or it is down and not to be recovered yet. Takes no memory.
    pub fn is_done_with(&self, round: u64) -> bool
        ensures { result ≡ is_done_with round (station_view O.taken O.failures self.now) }
    {
        let node = &self.node;
        self.turns.of(round).idled || (node.state.is_down() && node.state.restart > round)
    }
}
