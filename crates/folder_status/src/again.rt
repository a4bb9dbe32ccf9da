// The processes of a folder's network, run again.

ghost use Rattle.std.specs.Prelude.{◌≡◌, IfOk, IsTrue, map};
ghost use Rattle.kahn_net.specs.Fits.{Fits};
ghost use Rattle.kahn_net.specs.Syntax.{network_of};
ghost use Rattle.protocol.specs.World.Common.{output_channels};
ghost use Rattle.rerun.specs.Resting.{IsAll};
ghost use Rattle.rerun.specs.Tables.{KeepsLimits, first_table};
ghost use Rattle.rerun.specs.Whole.{inputs_in, net_in, table_in};
ghost use Rattle.resuming.specs.CatchingUp.{HaveTakenAll, StoppedSince};
ghost use Rattle.station.specs.OutputView.{outputs_view};
ghost use Rattle.folder_status.specs.Endings.{IsStopped, limits_from};

use crate::comparing::first_short;
use crate::kept::KeptOutput;
use crate::limits::{MOST_MORE, list_limits};
use net_check::{Inputs, Net};
use outlet::{ListOutlet, Outlet};
use rerun::{Rerun, Stopped};
use resuming::catch_up;
use retained::MAX_LOG_ITEMS;
use std::alloc::{AllocError, Global};
use std::sync::Arc;
use world::{Output, list_outputs};

// So often the limits are raised, to `MOST_MORE`.
const RAISES: u32 = 21;

/// Processes that were run again until they stopped, and what they put on the outputs.
#[derive(Drop)]
pub(crate) struct Again {
    pub rerun: Rerun,
    pub outputs: Vec<Output<ListOutlet>>,
    pub stopped: Stopped,
    pub ghost listed: { map (λ output. output.channel) outputs.items ≡ output_channels 0 (net_in rerun).channels },
    pub ghost taken: { HaveTakenAll (net_in rerun) (inputs_in rerun) (table_in rerun) (outputs_view (λ taken. taken) outputs.items) },
    pub ghost since: { IsStopped (net_in rerun) (inputs_in rerun) (table_in rerun) stopped },
}

// The processes go on, up to these limits.
fn go_on(
    alloc: Global,
    rerun: Rerun,
    outputs: Vec<Output<ListOutlet>>,
    limits: &[u64],
) -> Result<Again, AllocError>
    requires listed { map (λ output. output.channel) outputs.items ≡ output_channels 0 (net_in rerun).channels }
    requires taken { HaveTakenAll (net_in rerun) (inputs_in rerun) (table_in rerun) (outputs_view (λ taken. taken) outputs.items) }
    ensures since { IfOk result (λ again. StoppedSince (net_in rerun) (inputs_in rerun) limits.now (table_in again.rerun) again.stopped) }
    ensures within { IfOk result (λ again. KeepsLimits (net_in rerun) limits.now (table_in rerun) (table_in again.rerun)) }
    ensures net { IfOk result (λ again. net_in again.rerun ≡ net_in rerun) }
    ensures inputs { IfOk result (λ again. inputs_in again.rerun ≡ inputs_in rerun) }
{
    match catch_up(alloc, rerun, outputs, limits) {
        Ok(caught) => Ok(Again {
            rerun: caught.rerun,
            outputs: caught.outputs,
            stopped: caught.stopped,
        }),
        Err(_) => Err(AllocError),
    }
}

/// The processes of a network, run on these inputs until each output has what its file holds.
pub(crate) fn run_up_to(
    alloc: Global,
    net: &Arc<Net>,
    inputs: &Arc<Inputs>,
    kept: &[KeptOutput],
    room: u64,
) -> Result<Again, AllocError>
    requires { Fits (network_of net.now.value.program) inputs.now.value }
    ensures net { IfOk result (λ again. net_in again.rerun ≡ network_of net.now.value.program) }
    ensures inputs { IfOk result (λ again. inputs_in again.rerun ≡ inputs.now.value) }
    ensures since { IfOk result (λ again. StoppedSince (net_in again.rerun) (inputs_in again.rerun)
        (limits_from kept.now room 0 0 (net_in again.rerun).channels) (table_in again.rerun) again.stopped) }
    ensures within { IfOk result (λ again. KeepsLimits (net_in again.rerun)
        (limits_from kept.now room 0 0 (net_in again.rerun).channels) (first_table (net_in again.rerun)) (table_in again.rerun)) }
{
    let limits = list_limits(alloc, &net.program.channels, kept, room, 0)?;
    let outputs = list_outputs(alloc, net)?;
    let rerun = Rerun::new(alloc, Arc::try_clone(net)?, Arc::try_clone(inputs)?)?;
    go_on(alloc, rerun, outputs, &limits)
}

impl Again {
    /// Whether the processes have put all that there is.
    pub(crate) fn has_all(&self) -> bool
        ensures { IsTrue result → ∥ IsAll (net_in self.now.rerun) (inputs_in self.now.rerun) (table_in self.now.rerun) ∥₁ }
    {
        match self.stopped {
            Stopped::Rests => !self.rerun.is_to_put(),
            Stopped::Reached | Stopped::Sweeps => false,
        }
    }

    // Whether going on tells nothing more: all was put that there is, or nothing comes any more; or each file's items were met, and an item that
    // a file lacks.
    fn tells_all(&self, kept: &[KeptOutput]) -> bool {
        match self.stopped {
            Stopped::Reached | Stopped::Sweeps => true,
            Stopped::Rests => {
                !self.rerun.is_to_put()
                    || (has_met_all(kept, &self.outputs)
                        && first_short(kept, &self.outputs).is_some())
            }
        }
    }
}

// Whether each file's items were met.
fn has_met_all(kept: &[KeptOutput], outputs: &[Output<ListOutlet>]) -> bool {
    for (place, one) in kept.iter().enumerate() {
        if let Some(output) = outputs.get(place) {
            if output.outlet.len() < one.items.len() as u64 {
                return false;
            }
        }
    }
    true
}

/// They go on: until some output has an item that its file lacks, and each file's items were met, or all was put that there is. An output may have
/// one item more than its file, and then twice as many as before, again and again; and so it is with what may lie between two processes.
pub(crate) fn run_further(
    alloc: Global,
    again: Again,
    kept: &[KeptOutput],
    room: u64,
) -> Result<Again, AllocError>
    ensures net { IfOk result (λ now. net_in now.rerun ≡ net_in again.rerun) }
    ensures inputs { IfOk result (λ now. inputs_in now.rerun ≡ inputs_in again.rerun) }
{
    let mut again = again;
    let mut more = 1;
    for _ in 0..RAISES {
        let inner = room.saturating_mul(more).min(MAX_LOG_ITEMS as u64);
        let limits = list_limits(
            alloc,
            &again.rerun.net().program.channels,
            kept,
            inner,
            more,
        )?;
        let Again { rerun, outputs, .. } = again;
        again = go_on(alloc, rerun, outputs, &limits)?;
        if again.tells_all(kept) {
            break;
        }
        more = (more * 2).min(MOST_MORE);
    }
    Ok(again)
}
