//! A process goes on as far as it can.

ghost use Rattle.std.specs.Prelude.{◌≡◌, ◌<◌, false, true, IfOk, IsErrOf, OnOk, length};
ghost use Rattle.kahn_net.specs.Common.{network_of};
ghost use Rattle.approximations.specs.AtHand.{left_from};
ghost use Rattle.approximations.specs.Progress.{AreShortWith, GivesLong, HasPutAll, IsOn, IsSameElsewhere};

use crate::adding::add_all_sent;
use crate::at_hand::make_turn;
use crate::progress::{Progress, count_taken, is_nothing};
use kahn_net::History;
use net_check::Net;
use proc_step::Done;
use std::alloc::Global;
use std::sync::Arc;
use stream_eq::Fault;

/// Makes a turn of a process on these histories, and adds what it sends. Answers whether it took an item: where it
/// didn't, it has done all that it can do there.
fn take_turn(
    alloc: Global,
    net: &Arc<Net>,
    histories: &[History],
    process: usize,
    progress: &mut Progress,
    added: &mut [History],
) -> Result<bool, Fault>
    requires here { process < length net.now.value.program.processes.items }
    requires histories { length histories.now ≡ length net.now.value.program.channels.items }
    requires channels { length added.old ≡ length net.now.value.program.channels.items }
    requires counts { length progress.old.got.items ≡ length net.now.value.program.channels.items }
    requires on { IsOn (network_of net.now.value.program) process histories.now progress.old added.old }
    requires short { AreShortWith histories.now added.old }
    ensures on { OnOk result (IsOn (network_of net.now.value.program) process histories.now progress.new added.new) }
    ensures fewer { IfOk result (λ took. took ≡ true → left_from 0 histories.now progress.new.got.items
        < left_from 0 histories.now progress.old.got.items) }
    ensures all { IfOk result (λ took. took ≡ false
        → HasPutAll (network_of net.now.value.program) process histories.now added.new) }
    ensures counts { OnOk result (length progress.new.got.items ≡ length progress.old.got.items) }
    ensures elsewhere { OnOk result (IsSameElsewhere (network_of net.now.value.program) process added.old added.new) }
    ensures short { OnOk result (AreShortWith histories.now added.new) }
    ensures long { IsErrOf result Fault.Long → GivesLong (network_of net.now.value.program) process histories.now }
{
    let Done {
        state,
        taken,
        sent,
        ..
    } = make_turn(alloc, net, histories, process, progress)?;
    count_taken(&mut progress.got, &taken);
    progress.state = state;
    add_all_sent(histories, added, &sent)?;
    Ok(!is_nothing(&taken))
}

/// Lets a process go on on these histories as far as it can, and adds what it sends.
pub fn advance(
    alloc: Global,
    net: &Arc<Net>,
    histories: &[History],
    process: usize,
    progress: &mut Progress,
    added: &mut [History],
) -> Result<(), Fault>
    requires here { process < length net.now.value.program.processes.items }
    requires histories { length histories.now ≡ length net.now.value.program.channels.items }
    requires channels { length added.old ≡ length net.now.value.program.channels.items }
    requires counts { length progress.old.got.items ≡ length net.now.value.program.channels.items }
    requires on { IsOn (network_of net.now.value.program) process histories.now progress.old added.old }
    requires short { AreShortWith histories.now added.old }
    ensures on { OnOk result (IsOn (network_of net.now.value.program) process histories.now progress.new added.new) }
    ensures all { OnOk result (HasPutAll (network_of net.now.value.program) process histories.now added.new) }
    ensures counts { OnOk result (length progress.new.got.items ≡ length progress.old.got.items) }
    ensures elsewhere { OnOk result (IsSameElsewhere (network_of net.now.value.program) process added.old added.new) }
    ensures short { OnOk result (AreShortWith histories.now added.new) }
    ensures long { IsErrOf result Fault.Long → GivesLong (network_of net.now.value.program) process histories.now }
{
    while progress.can_go_on(net, process, histories) {
        if !take_turn(alloc, net, histories, process, progress, added)? {
            // It waits or has finished: every turn but the last takes an item of those that are left.
            return Ok(());
        }
    }
    Ok(())
}
