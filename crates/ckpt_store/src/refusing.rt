// For which changes a record gives cause to refuse.
ghost use Rattle.std.specs.Prelude.{◌≡◌, ◌<◌, ◌≤◌, length, nat_le};
ghost use Rattle.ckpt_codec.specs.Common.{decided_below, decided_by, MAX_DECISIONS};
ghost use Rattle.ckpt_store.specs.Refusals.{is_held, is_other_held, refusal_to_take, refusal_to_decide, names, is_named_by};
ghost use Rattle.ckpt_store.specs.Restoring.{is_own};

use crate::fault::StoreFault;
use kahn_net::MAX_COUNT;
use record::{Decision, MAX_DECISIONS, Record};

/// Whether exactly this instance is held.
pub fn is_held(kept: &Record, initiator: u8, number: u64) -> bool
    ensures { result ≡ is_held initiator number kept.now.tentative }
{
    match &kept.tentative {
        Some(held) => held.initiator == initiator && held.number == number,
        None => false,
    }
}

// Whether another instance is held.
fn is_other_held(kept: &Record, initiator: u8, number: u64) -> bool
    ensures { result ≡ is_other_held initiator number kept.now.tentative }
{
    match &kept.tentative {
        Some(held) => !(held.initiator == initiator && held.number == number),
        None => false,
    }
}

/// Whether an instance of the node's own is held.
pub fn is_own_held(kept: &Record) -> bool
    ensures { result ≡ is_own kept.now.node kept.now.tentative }
{
    match &kept.tentative {
        Some(held) => held.initiator == kept.node,
        None => false,
    }
}

/// Why a tentative image of this instance isn't taken.
pub fn refusal_to_take(kept: &Record, initiator: u8, number: u64) -> Option<StoreFault>
    requires { initiator < length kept.now.highest }
    ensures { result ≡ refusal_to_take initiator number kept.now }
{
    if is_other_held(kept, initiator, number) {
        Some(StoreFault::HoldsOther)
    } else if number <= kept.highest[usize::from(initiator)] {
        Some(StoreFault::PastNumber)
    } else if initiator == kept.node && kept.decisions.len() >= MAX_DECISIONS {
        Some(StoreFault::Unsettled)
    } else if number > MAX_COUNT {
        Some(StoreFault::Spent)
    } else {
        None
    }
}

// How many decisions have a lower number.
fn count_below(decisions: &[Decision], number: u64) -> usize
    ensures value { result ≡ length (decided_below number decisions.now) }
    ensures bound { result ≤ length decisions.now }
{
    decisions
        .iter()
        .filter(|decision| decision.number < number)
        .count()
}

// Whether the record has place for a decision of this number that these nodes have to confirm.
fn has_place(kept: &Record, number: u64, participants: &[u8]) -> bool
    requires { length kept.now.decisions ≤ MAX_DECISIONS }
    ensures { result ≡ nat_le
        (length (decided_by number participants.now kept.now.decisions)) MAX_DECISIONS }
{
    participants.is_empty() || count_below(kept.decisions.as_slice(), number) < MAX_DECISIONS
}

/// Why the node's own instance of this number isn't decided, with these nodes to confirm it.
pub fn refusal_to_decide(kept: &Record, number: u64, participants: &[u8]) -> Option<StoreFault>
    requires { length kept.now.decisions ≤ MAX_DECISIONS }
    ensures { result ≡ refusal_to_decide number participants.now kept.now }
{
    if !is_held(kept, kept.node, number) {
        Some(StoreFault::NotHeld)
    } else if !has_place(kept, number, participants) {
        Some(StoreFault::Unsettled)
    } else {
        None
    }
}

// Whether a decision is of this number and names a node.
fn names(decision: &Decision, number: u64, node: u8) -> bool
    ensures { result ≡ names number node decision.now }
{
    decision.number == number && decision.participants.contains(&node)
}

/// Whether a decision of this number names a node.
pub fn is_named(kept: &Record, number: u64, node: u8) -> bool
    ensures { result ≡ is_named_by number node kept.now.decisions }
{
    some_names(kept.decisions.as_slice(), number, node)
}

// Whether one of these decisions is of this number and names a node.
fn some_names(decisions: &[Decision], number: u64, node: u8) -> bool
    ensures { result ≡ is_named_by number node decisions.now }
{
    let [decision, behind @ ..] = decisions else {
        return false;
    };
    names(decision, number, node) || some_names(behind, number, node)
}
