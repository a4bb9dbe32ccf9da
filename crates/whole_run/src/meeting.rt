// What the calls of a world promise is what may happen in a run.
ghost use Rattle.whole_run.specs.Premises.{CrashIsFound, EventGoesOn, NewBegins, ResumedBegins, StopGoesOn};

use outlet::Outlet;
use rerun::Rerun;
use sector_disk::Disk;
use slot_cell::{SlotCell, SplitCell};
use world::World;

/// What `World::apply` and `World::step` promise of an event, made or refused, is what may happen next in a run.
pub fn event_law<C: SlotCell, O: Outlet>(before: &World<C, O>, after: &World<C, O>)
    ensures { EventGoesOn before.now after.now }
{}

/// What may be found inside an event of a run, made or refused, is what `World::apply` speaks of in its clause `line`: the records which a
/// crash of all nodes leaves, each at a moment of its own.
pub fn crash_law<C: SlotCell, O: Outlet>(before: &World<C, O>, after: &World<C, O>)
    ensures { CrashIsFound before.now after.now }
{}

/// A world that `World::open` opens over what `World::close` gave back is what may come next in a run.
pub fn stop_law<D: Disk, O: Outlet>(before: &World<SplitCell<D>, O>, after: &World<SplitCell<D>, O>)
    ensures { StopGoesOn before.now after.now }
{}

/// A run begins with a world that `World::new` or `World::new_from` makes.
pub fn new_law<D: Disk, O: Outlet>(world: &World<SplitCell<D>, O>)
    ensures { NewBegins world.now }
{}

/// A run begins with a world that `resuming::resume` opens.
pub fn resumed_law<D: Disk, O: Outlet>(rerun: &Rerun, world: &World<SplitCell<D>, O>)
    ensures { ResumedBegins rerun.now world.now }
{}
