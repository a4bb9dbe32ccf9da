//! The approximations of a network's histories.

ghost use Rattle.std.specs.Prelude.{◌≡◌, replicate, IfOk, OnOk, IsErrOf};
ghost use Rattle.kahn_net.specs.Common.{network_of, Fits, approximation};
ghost use Rattle.stream_eq.specs.Limits.{HasLongHistory};

use crate::fault::Fault;
use crate::histories::{Histories, are_same, are_short, copies};
use crate::round::next;
use kahn_net::{History, MAX_HISTORY_ITEMS};
use net_check::{Inputs, Net};
use std::alloc::{AllocError, Global};

/// The same limit for each of so many channels.
fn same_limits(alloc: Global, channels: usize) -> Result<Vec<usize>, AllocError>
    ensures { IfOk result (λ limits. limits.items ≡ replicate channels MAX_HISTORY_ITEMS) }
{
    vec![in alloc; MAX_HISTORY_ITEMS; channels]
}

/// The n-th approximation, from a list of items for each channel.
fn approximate(alloc: Global, net: &Net, inputs: &[History], n: u64) -> Result<Histories, Fault>
    requires { Fits (network_of net.now.program) inputs.now }
    ensures value { IfOk result
        (λ histories. histories ≡ approximation (network_of net.now.program) inputs.now n) }
    ensures long { IsErrOf result Fault.Long
        → HasLongHistory (network_of net.now.program) inputs.now n }
    ensures not_long { OnOk result (¬ HasLongHistory (network_of net.now.program) inputs.now n) }
{
    if !are_short(inputs) {
        // The inputs are approximation 0.
        return Err(Fault::Long);
    }
    let limits = same_limits(alloc, inputs.len())?;
    let mut histories = copies(alloc, inputs)?;
    for round in 0..n {
        let after = next(alloc, net, inputs, &histories, &limits)?;
        if are_same(&histories, &after) {
            // Once two in a row agree, all later ones do.
            return Ok(Histories::from_vec(histories));
        }
        histories = after;
    }
    Ok(Histories::from_vec(histories))
}

/// The n-th approximation of a network's histories, slow and plain: at first the inputs are whole
/// and every other history is empty; then, n times, each process puts what its function gives on
/// the approximation before.
///
/// Refused with 19 exactly where an approximation up to the n-th has a history of more than
/// 1,048,576 items, unless memory is refused.
pub fn approx(alloc: Global, net: &Net, inputs: &Inputs, n: u64) -> Result<Histories, Fault>
    requires { Fits (network_of net.now.program) inputs.now }
    ensures value { IfOk result
        (λ histories. histories ≡ approximation (network_of net.now.program) inputs.now n) }
    ensures long { IsErrOf result Fault.Long
        → HasLongHistory (network_of net.now.program) inputs.now n }
    ensures not_long { OnOk result (¬ HasLongHistory (network_of net.now.program) inputs.now n) }
{
    approximate(alloc, net, inputs.as_slice(), n)
}
