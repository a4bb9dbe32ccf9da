// What a world is made of, to be read.
ghost use Rattle.std.specs.Prelude.{◌≡◌, ◌<◌, ◌≤◌, false, None, Some, MatchOption, is_some, slice_get};
ghost use Rattle.std.specs.List.{position_from};
ghost use Rattle.protocol.specs.World.Common.{flights_to, is_due};
ghost use Rattle.wire.specs.declared.queue.TheConstants.{NODES};
ghost use Rattle.world.specs.WholeView.{arrived_in, net_in, nodes_in, stations_in, world_of};

use crate::world::World;
use arrived::Arrived;
use net_check::Net;
use outlet::Outlet;
use slot_cell::SlotCell;
use station::Station;
use std::sync::Arc;
use wire::NODES;

impl<C: SlotCell, O: Outlet> World<C, O> {
    /// Its network.
    pub fn net(&self) -> &Arc<Net>
        ensures { result.now ≡ net_in self.now }
    {
        &self.net
    }

    /// What has come on its inputs.
    pub fn inputs(&self) -> &Arrived
        ensures { result.now ≡ arrived_in self.now }
    {
        &self.inputs
    }

    /// How many nodes it has.
    pub fn nodes(&self) -> usize
        ensures { result ≡ nodes_in self.now }
    {
        self.stations.len()
    }

    /// The station of this node, if it has one.
    pub fn station(&self, node: u8) -> Option<&Station<C, O>>
        ensures { MatchOption result (slice_get (stations_in self.now) node ≡ None)
            (λ station. slice_get (stations_in self.now) node ≡ Some station.now) }
    {
        self.stations.get(usize::from(node))
    }

    /// Whether a packet is due for a node.
    pub fn has_packet(&self, node: u8) -> bool
        ensures due { node < NODES → result ≡ is_some (position_from (is_due (world_of self.now).round) 0
            (flights_to (world_of self.now).traffic node)) }
        ensures none { NODES ≤ node → result ≡ false }
    {
        if usize::from(node) >= NODES {
            return false;
        }
        self.wire.first_due(node, self.round).is_some()
    }
}
