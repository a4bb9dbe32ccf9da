// Who looks at a run by turns.

use crate::job_watch::NoWatch;
use outlet::Outlet;
use slot_cell::SlotCell;
use world::World;

/// Who looks at a run by turns while it goes on, on the thread that takes the turns.
pub trait TurnWatch {
    /// Called before each turn of node 0, with the world as it is then. The run waits for it, so it should return soon.
    fn look<C: SlotCell, O: Outlet>(&mut self, world: &World<C, O>);

    /// Called once no turn is taken any more, also where a call was refused.
    fn over(&mut self);
}

impl TurnWatch for NoWatch {
    fn look<C: SlotCell, O: Outlet>(&mut self, _world: &World<C, O>) {}

    fn over(&mut self) {}
}
