// Which event is next for a node, and what is in flight to it.
ghost use Rattle.std.specs.Prelude.{◌≡◌, ◌<◌, option_map, slice_get};
ghost use Rattle.protocol.specs.World.Common.{choice, flights_to, traffic_of, NODES};
ghost use Rattle.protocol.specs.World.Choice.{flying_to};
ghost use Rattle.station.specs.EventView.{event_view};
ghost use Rattle.world.specs.WholeView.{world_of};

use crate::world::World;
use outlet::Outlet;
use protocol::Deed;
use slot_cell::SlotCell;
use station::Event;
use wire::Wire;

// The bytes of the packet at a place, if there is one.
fn packet_at(wire: &Wire, to: u8, place: usize) -> Option<&[u8]>
    requires { to < NODES }
    ensures { option_map (λ bytes. bytes.now) result
        ≡ option_map (λ flight. flight.packet)
        (slice_get (flights_to (traffic_of wire.now) to) place) }
{
    wire.packet(to, place)
}

impl<C: SlotCell, O: Outlet> World<C, O> {
    /// The event that is next for a node: a recovery, the delivery of the first packet that is due, a release, a grant (at most
    /// 64 a round), a decision, a start, a send, or else letting its turn pass. Takes no memory.
    pub fn pick(&self, node: u8) -> Event
        ensures { event_view result ≡ choice (world_of self.now) node }
    {
        match self.stations.get(usize::from(node)) {
            Some(station) => station.pick(
                &self.net,
                &self.inputs,
                &self.channel_rooms,
                &self.wire,
                self.stations.len(),
                self.round,
            ),
            None => Event::by_node(node, Deed::Idle),
        }
    }

    /// The bytes of the packet at a place, from 0, of those in flight to a node; none where there is none. Takes no memory.
    pub fn packet(&self, node: u8, place: usize) -> Option<&[u8]>
        ensures { option_map (λ bytes. bytes.now) result ≡ flying_to (world_of self.now) node place }
    {
        if usize::from(node) >= self.stations.len() {
            return None;
        }
        packet_at(&self.wire, node, place)
    }
}
