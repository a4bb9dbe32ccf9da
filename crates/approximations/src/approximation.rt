//! The approximations of a network's histories, each from the one before: an approximation takes time for what is added
//! to it, and a little for each process and channel.

ghost use Rattle.std.specs.Prelude.{◌≡◌, IfOk, OnOk, IsErrOf};
ghost use Rattle.kahn_net.specs.Common.{network_of, Fits, approximation};
ghost use Rattle.stream_eq.specs.Limits.{HasLongHistory};

use crate::adding::{append_all, are_empty, copies};
use crate::progress::beginnings;
use crate::round::advance_all;
use kahn_net::History;
use net_check::{Inputs, Net};
use std::alloc::Global;
use std::sync::Arc;
use stream_eq::{Fault, Histories, are_short};

/// The n-th approximation, from a list of items for each channel.
fn histories_at(
    alloc: Global,
    net: &Arc<Net>,
    inputs: &[History],
    n: u64,
) -> Result<Vec<History>, Fault>
    requires { Fits (network_of net.now.value.program) inputs.now }
    ensures value { IfOk result
        (λ histories. histories.items ≡ approximation (network_of net.now.value.program) inputs.now n) }
    ensures long { IsErrOf result Fault.Long → HasLongHistory (network_of net.now.value.program) inputs.now n }
    ensures not_long { OnOk result (¬ HasLongHistory (network_of net.now.value.program) inputs.now n) }
{
    if !are_short(inputs) {
        // The inputs are approximation 0.
        return Err(Fault::Long);
    }
    let mut histories = copies(alloc, inputs)?;
    let mut all = beginnings(alloc, &net.program.processes, net.program.channels.len())?;
    for round in 0..n {
        let added = advance_all(alloc, net, &histories, &mut all)?;
        if are_empty(&added) {
            // Once two in a row agree, all later ones do.
            return Ok(histories);
        }
        append_all(&mut histories, &added)?;
    }
    Ok(histories)
}

/// The n-th approximation of a network's histories: at first the inputs are whole and every other history is empty;
/// then, n times, each process goes on from where it stood as far as it can on the approximation before.
///
/// Refused with 19 exactly where an approximation up to the n-th has a history of more than 1,048,576 items, unless
/// memory is refused.
pub fn approximate(
    alloc: Global,
    net: &Arc<Net>,
    inputs: &Inputs,
    n: u64,
) -> Result<Histories, Fault>
    requires { Fits (network_of net.now.value.program) inputs.now }
    ensures value { IfOk result
        (λ histories. histories ≡ approximation (network_of net.now.value.program) inputs.now n) }
    ensures long { IsErrOf result Fault.Long → HasLongHistory (network_of net.now.value.program) inputs.now n }
    ensures not_long { OnOk result (¬ HasLongHistory (network_of net.now.value.program) inputs.now n) }
{
    Ok(Histories::from_vec(histories_at(alloc, net, inputs.as_slice(), n)?))
}
