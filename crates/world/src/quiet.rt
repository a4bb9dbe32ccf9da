// When nothing is left to do.
ghost use Rattle.std.specs.Prelude.{◌≡◌, IsTrue};
ghost use Rattle.protocol.specs.World.Common.{are_quiet};
ghost use Rattle.protocol.specs.World.Quiet.{is_node_quiet, AreWhole};
ghost use Rattle.world.specs.WholeView.{world_of};

use crate::world::World;
use outlet::Outlet;
use slot_cell::SlotCell;

impl<C: SlotCell, O: Outlet> World<C, O> {
    /// Whether nothing is left to do at a node; true of one that isn't of this world. Where it answers no, the world isn't complete.
    /// Takes no memory.
    pub fn is_quiet(&self, node: u8) -> bool
        ensures { result ≡ is_node_quiet (world_of self.now) node }
    {
        match self.stations.get(usize::from(node)) {
            Some(station) => { station.is_complete(&self.net, &self.inputs, &self.stations) }
            None => true,
        }
    }

    /// Whether nothing is left to do: each node runs, each process has finished or waits for an item that nobody will
    /// put, no job is out, and each outlet has all that was put. Takes no memory.
    pub fn complete(&self) -> bool
        // It says just that, of each station.
        ensures quiet { result ≡ are_quiet (world_of self.now) }
        // And then the approximations have come to rest, at the network's least solution, and each stream that has left
        // is its channel's whole history there.
        ensures whole { IsTrue result → AreWhole (world_of self.now) }
    {
        let inputs = &self.inputs;
        for station in &self.stations {
            if !station.is_complete(&self.net, inputs, &self.stations) {
                return false;
            }
        }
        true
    }
}
