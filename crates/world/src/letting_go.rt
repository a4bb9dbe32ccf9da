// What nobody asks for any more of a world's inputs.
ghost use Rattle.std.specs.Prelude.{◌≡◌, true, false, max, slice_set};
ghost use Rattle.arrived.specs.ArrivedView.{base_of};
ghost use Rattle.protocol.specs.Node.Common.{network_of};
ghost use Rattle.protocol.specs.World.Still.{kept_for_good};
ghost use Rattle.world.specs.Feeding.{is_input};
ghost use Rattle.world.specs.WholeView.{bases_in, closed_in, inputs_in, net_in, stations_in, wire_in, world_of};

use crate::feeding::is_input;
use crate::world::World;
use outlet::Outlet;
use slot_cell::SlotCell;
use station::kept_for_good;

impl<C: SlotCell, O: Outlet> World<C, O> {
    /// Lets go of the items of an input that the node which gets them keeps for good, where it runs. Nobody asks for these any more, wherever
    /// nodes crash: it would start again behind them. They take no memory from now on, and all that is said of the inputs stays as it
    /// was. Of a channel that is no input nothing is let go of. Takes no memory.
    pub fn let_go(&mut self, input: u8)
        ensures gone { is_input (network_of (net_in self.old).value.program) input ≡ true
            → bases_in self.new ≡ slice_set (bases_in self.old) input
            (max (base_of (bases_in self.old) input)
            (kept_for_good (network_of (net_in self.old).value.program) (world_of self.old).stations input)) }
        ensures none { is_input (network_of (net_in self.old).value.program) input ≡ false
            → bases_in self.new ≡ bases_in self.old }
        ensures same { (world_of self.new ≡ world_of self.old) × (net_in self.new ≡ net_in self.old)
            × (inputs_in self.new ≡ inputs_in self.old) × (stations_in self.new ≡ stations_in self.old)
            × (wire_in self.new ≡ wire_in self.old) × (closed_in self.new ≡ closed_in self.old) }
    {
        if !is_input(&self.net, usize::from(input)) {
            return;
        }
        let kept = kept_for_good(&self.net, &self.stations, input);
        self.inputs.let_go(usize::from(input), kept);
    }
}
