//! Whether histories solve a network's equations.

ghost use Rattle.std.specs.Prelude.{◌≡◌, ◌↔◌, length, map, IsTrue, IfOk, IfErr};
ghost use Rattle.kahn_net.specs.Common.{network_of, Fits};
ghost use Rattle.kahn_net.specs.Approximations.{IsSolution};

use crate::fault::Fault;
use crate::histories::{Histories, are_same};
use crate::round::next;
use kahn_net::History;
use net_check::{Inputs, Net};
use std::alloc::{AllocError, Global};

/// How long each history is.
fn lengths(alloc: Global, histories: &[History]) -> Result<Vec<usize>, AllocError>
    ensures { IfOk result (λ limits. limits.items ≡ map length histories.now) }
{
    let mut limits = Vec::new(alloc);
    for history in histories {
        limits.push(history.len())?;
    }
    Ok(limits)
}

/// Whether a list of items for each channel is a solution.
fn solves(
    alloc: Global,
    net: &Net,
    inputs: &[History],
    histories: &[History],
) -> Result<bool, Fault>
    requires { Fits (network_of net.now.program) inputs.now }
    ensures answer { IfOk result
        (λ answer. IsTrue answer ↔ IsSolution
        (network_of net.now.program) inputs.now histories.now) }
    ensures memory { IfErr result (λ fault. fault ≡ Fault.NoMemory) }
{
    let limits = lengths(alloc, histories)?;
    if limits.len() != inputs.len() {
        return Ok(false);
    }
    match next(alloc, net, inputs, histories, &limits) {
        Ok(after) => Ok(are_same(histories, &after)),
        // Some process puts more on a channel than is there.
        Err(Fault::Long) => Ok(false),
        Err(Fault::NoMemory) => Err(Fault::NoMemory),
    }
}

/// Whether these histories solve a network's equations on these inputs: there is one for each
/// channel, the inputs are as they came, and each other channel has what its process's function
/// gives on these histories.
///
/// Histories of any length are judged; only want of memory is refused.
pub fn is_solution(
    alloc: Global,
    net: &Net,
    inputs: &Inputs,
    histories: &Histories,
) -> Result<bool, Fault>
    requires { Fits (network_of net.now.program) inputs.now }
    ensures answer { IfOk result
        (λ answer. IsTrue answer ↔ IsSolution
        (network_of net.now.program) inputs.now histories.now) }
    ensures memory { IfErr result (λ fault. fault ≡ Fault.NoMemory) }
{
    solves(alloc, net, inputs.as_slice(), histories.as_slice())
}
