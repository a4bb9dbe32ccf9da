// A refusal that the hub has to be told.
ghost use Rattle.std.specs.Prelude.{◌≡◌, false, true, Some};
ghost use Rattle.runtime.specs.declared.cause.Cause.TheVariants.{Refused};

use crate::cause::Cause;
use crate::hub_run::HubRun;
use crate::locked::Locked;
use outlet::Outlet;
use run_log::HubFault;
use slot_cell::SlotCell;

/// Why a call was refused of which the hub has to be told. It can't be dropped: whoever has it tells the hub, which stops the run for it.
pub(crate) struct Refusal {
    fault: HubFault,
}

impl Refusal {
    pub fn new(fault: HubFault) -> Refusal
        ensures { result.fault ≡ fault }
    {
        Refusal { fault }
    }

    /// Stops the run for it, unless that is stopped already. It answers why the call was refused.
    pub fn tell<C: SlotCell, O: Outlet, ThisRun: HubRun>(
        self,
        locked: &mut Locked<C, O, ThisRun>,
    ) -> HubFault
        ensures fault { result ≡ self.fault }
        ensures stopped { locked.new.log.stopped ≡ true }
        ensures noted { locked.old.log.stopped ≡ false → locked.new.cause ≡ Some (Refused self.fault) }
        ensures same { locked.new.log.armed ≡ locked.old.log.armed }
    {
        let Refusal { fault } = self;
        locked.end(Cause::Refused(fault));
        fault
    }
}
