//! One round: what all producers make of histories.

ghost use Rattle.std.specs.Prelude.{◌≡◌, length, map, IfOk, OnOk, IsErrOf};
ghost use Rattle.kahn_net.specs.Common.{code_of, network_of, Fits};
ghost use Rattle.kahn_net.specs.Approximations.{next_histories};
ghost use Rattle.stream_eq.specs.Limits.{IsWithin, GoesPast};
ghost use Rattle.stream_eq.specs.Play.{AllHavePassingLoops, put_by_all};

use crate::fault::Fault;
use crate::histories::copies;
use crate::process::put_outputs;
use kahn_net::{History, Process};
use net_check::Net;
use std::alloc::Global;

/// Puts what each of these processes puts by its function of the histories, unless that goes past a
/// channel's limit.
fn put_all(
    alloc: Global,
    processes: &[Process],
    histories: &[History],
    limits: &[usize],
    after: &mut [History],
) -> Result<(), Fault>
    requires passing { AllHavePassingLoops (map code_of processes.now) }
    requires count { length limits.now ≡ length after.old }
    ensures put { OnOk result
        (after.new ≡ put_by_all (map code_of processes.now) histories.now after.old) }
    ensures within { OnOk result (IsWithin limits.now after.old → IsWithin limits.now after.new) }
    ensures long { IsErrOf result Fault.Long
        → GoesPast limits.now (put_by_all (map code_of processes.now) histories.now after.old) }
{
    for process in processes {
        put_outputs(alloc, process, histories, limits, after)?;
    }
    Ok(())
}

/// What the producers make of these histories, unless that goes past a channel's limit: an input is
/// as it came, and each other channel has what its process's function gives.
pub fn next(
    alloc: Global,
    net: &Net,
    inputs: &[History],
    histories: &[History],
    limits: &[usize],
) -> Result<Vec<History>, Fault>
    requires fits { Fits (network_of net.now.program) inputs.now }
    requires count { length limits.now ≡ length inputs.now }
    ensures next { IfOk result
        (λ after. after.items ≡ next_histories
        (network_of net.now.program) inputs.now histories.now) }
    ensures within { IfOk result
        (λ after. IsWithin limits.now inputs.now → IsWithin limits.now after.items) }
    ensures long { IsErrOf result Fault.Long
        → GoesPast limits.now (next_histories
        (network_of net.now.program) inputs.now histories.now) }
{
    let mut after = copies(alloc, inputs)?;
    put_all(alloc, &net.program.processes, histories, limits, &mut after)?;
    Ok(after)
}
