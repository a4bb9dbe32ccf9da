//! Processes are run again up to what their outputs held.
ghost use Rattle.std.specs.Prelude.{◌≡◌, ℕ, false, IfErr, IfOk, IfSome, OnOk, length, map};
ghost use Rattle.kahn_net.specs.Streams.{IsPrefix};
ghost use Rattle.protocol.specs.World.Sound.{output_channels};
ghost use Rattle.rerun.specs.Tables.{KeepsLimits};
ghost use Rattle.rerun.specs.Whole.{inputs_in, net_in, table_in};
ghost use Rattle.resuming.specs.CatchingUp.{AllFollow, Follows, HasAll, HasCaughtUp, HaveAll, HaveGoneOn, HaveTakenAll};
ghost use Rattle.resuming.specs.CatchingUp.{IsBehindBy, IsCounted, KeepsEnds, StoppedSince, failures_by};
ghost use Rattle.station.specs.OutputView.{output_view, outputs_view};

use outlet::{Outlet, OutletFault, release};
use rerun::{Rerun, Stopped};
use std::alloc::Global;
use world::Output;

/// After so many sweeps in which nothing was put on any output it stops: a stream that is asked for may be longer than the network's.
pub const IDLE_SWEEPS: u64 = 4_096;

/// Processes that were run again, with their outputs, and why they stopped.
#[derive(Drop)]
pub struct CaughtUp<O: Outlet> {
    pub rerun: Rerun,
    pub outputs: Vec<Output<O>>,
    pub stopped: Stopped,
}

/// Outputs of processes that weren't run again to the end, and why.
#[derive(Drop)]
pub struct Behind<O: Outlet> {
    pub outputs: Vec<Output<O>>,
    pub fault: OutletFault,
}

// An output takes what its log has. Answers whether there was an item.
fn hand_one<O: Outlet>(rerun: &Rerun, output: &mut Output<O>) -> Result<bool, OutletFault>
    requires { Follows (net_in rerun.now) (inputs_in rerun.now) (table_in rerun.now) (output_view O.taken output.old) }
    ensures all { OnOk result (HasAll (net_in rerun.now) (inputs_in rerun.now) (table_in rerun.now)
        (output_view O.taken output.new)) }
    ensures still { IfOk result (λ moved. moved ≡ false
        → output_view O.taken output.new ≡ output_view O.taken output.old) }
    ensures gone_on { IsPrefix (O.taken output.old.outlet) (O.taken output.new.outlet) }
    ensures unfailed { OnOk result (O.failures output.new.outlet ≡ O.failures output.old.outlet) }
    ensures fault { IfErr result (IsCounted (O.failures output.old.outlet) (O.failures output.new.outlet)) }
    ensures channel { output.new.channel ≡ output.old.channel }
{
    let Some(log) = rerun.put_on(output.channel as usize) else {
        // There is a log for each channel.
        unreachable!()
    };
    let end = log.end();
    if output.outlet.len() == end {
        return Ok(false);
    }
    release(&mut output.outlet, log, end)?;
    Ok(true)
}

// Each output takes what its log has. Answers whether there was an item.
fn hand_over<O: Outlet>(rerun: &Rerun, outputs: &mut Vec<Output<O>>) -> Result<bool, OutletFault>
    requires { AllFollow (net_in rerun.now) (inputs_in rerun.now) (table_in rerun.now)
        (outputs_view O.taken outputs.old.items) }
    ensures all { OnOk result (HaveAll (net_in rerun.now) (inputs_in rerun.now) (table_in rerun.now)
        (outputs_view O.taken outputs.new.items)) }
    ensures still { IfOk result (λ moved. moved ≡ false
        → outputs_view O.taken outputs.new.items ≡ outputs_view O.taken outputs.old.items) }
    ensures gone_on { HaveGoneOn (outputs_view O.taken outputs.old.items) (outputs_view O.taken outputs.new.items) }
    ensures unfailed { OnOk result (failures_by O.failures outputs.new.items ≡ failures_by O.failures outputs.old.items) }
    ensures fault { IfErr result (IsBehindBy (failures_by O.failures outputs.old.items) (failures_by O.failures outputs.new.items)) }
{
    let mut any = false;
    for place in 0..outputs.len() {
        let moved = hand_one(rerun, &mut outputs[place])?;
        any = any || moved;
    }
    Ok(any)
}

// The logs of outputs that have taken all let go of it.
fn let_go_all<O: Outlet>(rerun: &mut Rerun, outputs: &[Output<O>])
    requires { HaveAll (net_in rerun.old) (inputs_in rerun.old) (table_in rerun.old)
        (outputs_view O.taken outputs.now) }
    ensures taken { HaveTakenAll (net_in rerun.old) (inputs_in rerun.old) (table_in rerun.new)
        (outputs_view O.taken outputs.now) }
    ensures ends { KeepsEnds (table_in rerun.old) (table_in rerun.new) }
    ensures net { net_in rerun.new ≡ net_in rerun.old }
    ensures inputs { inputs_in rerun.new ≡ inputs_in rerun.old }
{
    for output in outputs {
        rerun.let_go(output.channel as usize, output.outlet.len());
    }
}

// The processes go on for `IDLE_SWEEPS` sweeps at most, and the outputs take what they put. Answers why that was the last round, if it
// was.
fn go_round<O: Outlet>(
    alloc: Global,
    rerun: &mut Rerun,
    outputs: &mut Vec<Output<O>>,
    limits: &[u64],
) -> Result<Option<Stopped>, OutletFault>
    requires listed { map (λ output. output.channel) (outputs_view O.taken outputs.old.items)
        ≡ output_channels 0 (net_in rerun.old).channels }
    requires taken { HaveTakenAll (net_in rerun.old) (inputs_in rerun.old) (table_in rerun.old)
        (outputs_view O.taken outputs.old.items) }
    ensures taken { OnOk result (HaveTakenAll (net_in rerun.old) (inputs_in rerun.old) (table_in rerun.new)
        (outputs_view O.taken outputs.new.items)) }
    ensures since { IfOk result (λ last. IfSome last (StoppedSince (net_in rerun.old) (inputs_in rerun.old) limits.now
        (table_in rerun.new))) }
    ensures gone_on { HaveGoneOn (outputs_view O.taken outputs.old.items) (outputs_view O.taken outputs.new.items) }
    ensures unfailed { OnOk result (failures_by O.failures outputs.new.items ≡ failures_by O.failures outputs.old.items) }
    ensures fault { IfErr result (IsBehindBy (failures_by O.failures outputs.old.items) (failures_by O.failures outputs.new.items)) }
    ensures within { KeepsLimits (net_in rerun.old) limits.now (table_in rerun.old) (table_in rerun.new) }
    ensures net { net_in rerun.new ≡ net_in rerun.old }
    ensures inputs { inputs_in rerun.new ≡ inputs_in rerun.old }
{
    let stopped = rerun.run(alloc, limits, IDLE_SWEEPS)?;
    if !hand_over(rerun, outputs)? {
        return Ok(Some(stopped));
    }
    let_go_all(rerun, outputs);
    match stopped {
        Stopped::Reached => Ok(Some(Stopped::Reached)),
        // Where something left there may be room for more.
        Stopped::Rests | Stopped::Sweeps => Ok(None),
    }
}

/// Runs the processes on until each output has what its limit says, or none can move, or nothing was put on an output for `IDLE_SWEEPS`
/// sweeps. Meanwhile each output takes what is put there. The limits are those of `Rerun::go_on`.
///
/// Stops where memory is missing (1), and at the first item that an outlet refuses (60). The outputs come back then.
pub fn catch_up<O: Outlet>(
    alloc: Global,
    mut rerun: Rerun,
    mut outputs: Vec<Output<O>>,
    limits: &[u64],
) -> Result<CaughtUp<O>, Behind<O>>
    // There is an output for each of the network's, by channel.
    requires listed { map (λ output. output.channel) outputs.items ≡ output_channels 0 (net_in rerun).channels }
    requires taken { HaveTakenAll (net_in rerun) (inputs_in rerun) (table_in rerun) (outputs_view O.taken outputs.items) }
    ensures caught_up { IfOk result (λ caught. HasCaughtUp (net_in rerun) (inputs_in rerun) limits.now (table_in rerun)
        (outputs_view O.taken outputs.items) (table_in caught.rerun) (outputs_view O.taken caught.outputs.items)
        caught.stopped) }
    ensures net { IfOk result (λ caught. net_in caught.rerun ≡ net_in rerun) }
    ensures inputs { IfOk result (λ caught. inputs_in caught.rerun ≡ inputs_in rerun) }
    ensures unfailed { IfOk result (λ caught. failures_by O.failures caught.outputs.items
        ≡ failures_by O.failures outputs.items) }
    // What the outputs had taken they have yet.
    ensures behind { IfErr result (λ behind. HaveGoneOn (outputs_view O.taken outputs.items)
        (outputs_view O.taken behind.outputs.items)) }
    // It says that an outlet failed only where one did.
    ensures cause { IfErr result (λ behind. IsBehindBy (failures_by O.failures outputs.items)
        (failures_by O.failures behind.outputs.items) behind.fault) }
{
    // No run has so many rounds, but a loop has to end.
    for _round in 0..u64::MAX {
        match go_round(alloc, &mut rerun, &mut outputs, limits) {
            Ok(Some(stopped)) => {
                return Ok(CaughtUp {
                    rerun,
                    outputs,
                    stopped,
                });
            }
            Ok(None) => {}
            Err(fault) => return Err(Behind { outputs, fault }),
        }
    }
    Err(Behind {
        outputs,
        fault: OutletFault::NoMemory,
    })
}
