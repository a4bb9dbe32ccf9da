// When nothing is to be done in a world.
ghost use Rattle.std.specs.Prelude.{◌≡◌, map};
ghost use Rattle.std.specs.List.{list_all};
ghost use Rattle.protocol.specs.Node.Common.{network_of};
ghost use Rattle.protocol.specs.World.Still.{is_still};
ghost use Rattle.station.specs.StationView.{station_view};
ghost use Rattle.world.specs.Stillness.{is_still_world};
ghost use Rattle.world.specs.WholeView.{world_of};

use crate::world::World;
use arrived::Arrived;
use net_check::Net;
use outlet::Outlet;
use protocol::Rooms;
use slot_cell::SlotCell;
use station::Station;

// Whether nothing is to be done at any of these stations.
fn are_still<C: SlotCell, O: Outlet>(
    net: &Net,
    inputs: &Arrived,
    rooms: &Rooms,
    stations: &[Station<C, O>],
) -> bool
    ensures { result ≡ list_all (is_still (network_of net.now.program) inputs.now.came rooms.now
        (map (station_view O.taken O.failures) stations.now))
        (map (station_view O.taken O.failures) stations.now) }
{
    for station in stations {
        if !station.is_still(net, inputs, rooms, stations) {
            return false;
        }
    }
    true
}

impl<C: SlotCell, O: Outlet> World<C, O> {
    /// Whether nothing is to be done with the room that channels have now: each node runs and holds no image, each has kept all that it
    /// got and put, all that was put has left, nothing more comes from one node to another or is let go of, and no job can be granted. More
    /// room for channels may let it go on, where none has all of its share yet. Takes no memory.
    pub fn is_still(&self) -> bool
        ensures { result ≡ is_still_world (world_of self.now) }
    {
        are_still(&self.net, &self.inputs, &self.channel_rooms, &self.stations)
    }
}
