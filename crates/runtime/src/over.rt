// That a run is stopped.
ghost use Rattle.std.specs.Prelude.{◌≡◌, is_some};

use crate::hub_run::HubRun;
use crate::locked::Locked;
use outlet::Outlet;
use slot_cell::SlotCell;
use std::marker::PhantomData;

/// Whoever has this has seen, under the hub's lock, that the run is stopped. It stays so.
#[derive(Drop)]
pub struct Over<ThisRun: HubRun> {
    of: PhantomData<ThisRun>,
}

impl<ThisRun: HubRun> Over<ThisRun> {
    /// That the run of what is locked is stopped, if it is.
    pub(crate) fn seen<C: SlotCell, O: Outlet>(
        locked: &Locked<C, O, ThisRun>,
    ) -> Option<Over<ThisRun>>
        ensures { is_some result ≡ locked.now.log.stopped }
    {
        if locked.log.is_stopped() {
            Some(Over { of: PhantomData })
        } else {
            None
        }
    }
}
