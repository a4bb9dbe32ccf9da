//! One round: from an approximation to the next.

ghost use Rattle.std.specs.Prelude.{◌≡◌, [], IfOk, IsErrOf, length};
ghost use Rattle.kahn_net.specs.Common.{network_of};
ghost use Rattle.approximations.specs.Progress.{AreOn, AreShortWith, GivesLongSomewhere, HaveAllPut, IsInside};

use crate::adding::empty_histories;
use crate::advance::advance;
use crate::progress::Progress;
use kahn_net::History;
use net_check::Net;
use std::alloc::Global;
use std::sync::Arc;
use stream_eq::Fault;

/// Lets every process go on on these histories as far as it can. Answers what they add to each channel.
pub fn advance_all(
    alloc: Global,
    net: &Arc<Net>,
    histories: &[History],
    all: &mut [Progress],
) -> Result<Vec<History>, Fault>
    requires histories { length histories.now ≡ length net.now.value.program.channels.items }
    requires on { AreOn (network_of net.now.value.program) histories.now all.old [] }
    requires short { AreShortWith histories.now [] }
    ensures on { IfOk result (λ added. AreOn (network_of net.now.value.program) histories.now all.new added.items) }
    ensures put { IfOk result (λ added. HaveAllPut (network_of net.now.value.program) histories.now added.items) }
    ensures inside { IfOk result (λ added. IsInside (network_of net.now.value.program) added.items) }
    ensures short { IfOk result (λ added. AreShortWith histories.now added.items) }
    ensures channels { IfOk result (λ added. length added.items ≡ length histories.now) }
    ensures long { IsErrOf result Fault.Long → GivesLongSomewhere (network_of net.now.value.program) histories.now }
{
    let mut added = empty_histories(alloc, histories.len())?;
    for process in 0..all.len() {
        advance(
            alloc,
            net,
            histories,
            process,
            &mut all[process],
            &mut added,
        )?;
    }
    Ok(added)
}
