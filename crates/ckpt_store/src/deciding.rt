// The decisions of a record after one is added, and after a node has confirmed one: how many bytes they take, and the
// lists themselves.
ghost use Rattle.std.specs.Prelude.{◌≡◌, ℕ, List, ◌<◌, ◌≤◌, ◌*◌, ◌^◌, ◌++◌, All, IfOk, OnOk, length, sum_by};
ghost use Rattle.std.specs.Option.{option_to_list};
ghost use Rattle.ckpt_codec.specs.Common.{confirmed, decided_below, decided_by, decision_by};
ghost use Rattle.record.specs.Common.{confirmed_one, without_node};
ghost use Rattle.ckpt_store.specs.Decided.{below_one};
ghost use Rattle.ckpt_codec.specs.Lengths.{decision_length, decisions_length};
ghost use Rattle.ckpt_codec.specs.Spelling.{AreShortDecisions, IsShortDecision};

use record::Decision;
use std::alloc::{AllocError, Global};

// How many bytes a decision takes that names so many nodes; with none there is no decision.
fn named_bytes(count: usize) -> usize
    requires { count < 256 }
    ensures value { (number : ℕ) (nodes : List ℕ) → length nodes ≡ count
        → result ≡ sum_by decision_length (decision_by number nodes) }
    ensures bound { result ≤ 264 }
{
    if count == 0 { 0 } else { 9 + count }
}

// How many bytes the decisions of lower numbers take.
fn bytes_below(decisions: &[Decision], number: u64) -> usize
    requires each { All IsShortDecision decisions.now }
    requires few { length decisions.now < 256 }
    ensures value { result ≡ sum_by decision_length (decided_below number decisions.now) }
    ensures bound { result ≤ 264 * length decisions.now }
{
    let [decision, behind @ ..] = decisions else {
        return 0;
    };
    let rest = bytes_below(behind, number);
    if decision.number < number {
        9 + decision.participants.len() + rest
    } else {
        rest
    }
}

/// How many bytes the decisions take once that of this number is among them, which so many nodes have to confirm.
pub fn decided_bytes(decisions: &[Decision], number: u64, count: usize) -> usize
    requires short { AreShortDecisions decisions.now }
    requires some { (0 < count) × (count < 256) }
    ensures value { (nodes : List ℕ) → length nodes ≡ count
        → result ≡ decisions_length (decided_by number nodes decisions.now) }
    ensures bound { result < 2 ^ 32 }
{
    1 + bytes_below(decisions, number) + named_bytes(count)
}

fn count_without(participants: &[u8], node: u8) -> usize
    ensures value { result ≡ length (without_node node participants.now) }
    ensures bound { result ≤ length participants.now }
{
    participants.iter().filter(|p| **p != node).count()
}

// How many bytes are left of a decision once a node has confirmed that of this number.
fn confirmed_one_bytes(decision: &Decision, number: u64, node: u8) -> usize
    requires { IsShortDecision decision.now }
    ensures value { result ≡ sum_by decision_length (confirmed_one number node decision.now) }
    ensures bound { result ≤ 264 }
{
    let participants = decision.participants.as_slice();
    if decision.number == number {
        named_bytes(count_without(participants, node))
    } else {
        9 + participants.len()
    }
}

fn each_confirmed_bytes(decisions: &[Decision], number: u64, node: u8) -> usize
    requires each { All IsShortDecision decisions.now }
    requires few { length decisions.now < 256 }
    ensures value { result ≡ sum_by decision_length (confirmed number node decisions.now) }
    ensures bound { result ≤ 264 * length decisions.now }
{
    let [decision, behind @ ..] = decisions else {
        return 0;
    };
    confirmed_one_bytes(decision, number, node) + each_confirmed_bytes(behind, number, node)
}

/// How many bytes the decisions take once a node has confirmed that of this number.
pub fn confirmed_bytes(decisions: &[Decision], number: u64, node: u8) -> usize
    requires { AreShortDecisions decisions.now }
    ensures value { result ≡ decisions_length (confirmed number node decisions.now) }
    ensures bound { result < 2 ^ 32 }
{
    1 + each_confirmed_bytes(decisions, number, node)
}

// A copy of a decision, if its number is lower.
fn copy_below(
    alloc: Global,
    decision: &Decision,
    number: u64,
) -> Result<Option<Decision>, AllocError>
    ensures { IfOk result (λ copy. option_to_list copy ≡ below_one number decision.now) }
{
    if decision.number < number {
        Ok(Some(decision.copy(alloc)?))
    } else {
        Ok(None)
    }
}

// Puts a decision behind others, if there is one.
fn push_some(all: &mut Vec<Decision>, decision: Option<Decision>) -> Result<(), AllocError>
    ensures { OnOk result (all.new.items ≡ all.old.items ++ option_to_list decision) }
{
    if let Some(decision) = decision {
        all.push(decision)?;
    }
    Ok(())
}

/// The decisions, with one of this number among them that these nodes have to confirm, of which there are some.
pub fn decided_by(
    alloc: Global,
    decisions: &[Decision],
    number: u64,
    participants: Vec<u8>,
) -> Result<Vec<Decision>, AllocError>
    requires { 0 < length participants.items }
    ensures { IfOk result
        (λ all. all.items ≡ decided_by number participants.items decisions.now) }
{
    let mut all = copies_below(alloc, decisions, number)?;
    all.push(Decision {
        number,
        participants,
    })?;
    Ok(all)
}

// Copies of the decisions of lower numbers.
fn copies_below(
    alloc: Global,
    decisions: &[Decision],
    number: u64,
) -> Result<Vec<Decision>, AllocError>
    ensures { IfOk result (λ all. all.items ≡ decided_below number decisions.now) }
{
    let mut all = Vec::new(alloc);
    for decision in decisions {
        let copy = copy_below(alloc, decision, number)?;
        push_some(&mut all, copy)?;
    }
    Ok(all)
}

// The nodes of a decision but one.
fn nodes_without(alloc: Global, participants: &[u8], node: u8) -> Result<Vec<u8>, AllocError>
    ensures { IfOk result (λ left. left.items ≡ without_node node participants.now) }
{
    participants
        .iter()
        .filter(|p| **p != node)
        .copied()
        .collect(alloc)
}

// What is left of a decision once a node has confirmed that of this number, if anything is.
fn confirmed_one(
    alloc: Global,
    decision: &Decision,
    number: u64,
    node: u8,
) -> Result<Option<Decision>, AllocError>
    ensures { IfOk result (λ left. option_to_list left ≡ confirmed_one number node decision.now) }
{
    if decision.number != number {
        return Ok(Some(decision.copy(alloc)?));
    }
    let participants = nodes_without(alloc, decision.participants.as_slice(), node)?;
    if participants.is_empty() {
        return Ok(None);
    }
    Ok(Some(Decision {
        number,
        participants,
    }))
}

/// The decisions once a node has confirmed that of this number.
pub fn confirmed_by(
    alloc: Global,
    decisions: &[Decision],
    number: u64,
    node: u8,
) -> Result<Vec<Decision>, AllocError>
    ensures { IfOk result (λ left. left.items ≡ confirmed number node decisions.now) }
{
    let mut left = Vec::new(alloc);
    for decision in decisions {
        let one = confirmed_one(alloc, decision, number, node)?;
        push_some(&mut left, one)?;
    }
    Ok(left)
}
