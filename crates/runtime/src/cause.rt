// Why a hub is stopped.

use run_log::HubFault;

/// Why a hub is stopped. It is noted under the lock, once, where the run is stopped.
#[derive(Clone, Copy, Debug, PartialEq, Eq)]
pub(crate) enum Cause {
    /// The run is over: nothing is left to do, the rounds are over, or each output has the items that are asked for.
    Over,
    /// A call was refused.
    Refused(HubFault),
    /// Somebody stopped it who may.
    Asked,
}
