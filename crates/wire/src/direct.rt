// Packets that go straight into the wire's queues, where no rule is for any of them.
//
// All memory is taken before the first queue changes: a refusal leaves each as it was.
ghost use Rattle.std.specs.Prelude.{◌≡◌, ◌≤◌, ◌<◌, ◌+◌, ℕ, [], All, length, IsTrue, OnOk};
ghost use Rattle.std.specs.List.{AllZip};
ghost use Rattle.wire.specs.Index.{plain_fate};
ghost use Rattle.wire.specs.RoomFor.{FindsRoom};
ghost use Rattle.wire.specs.Rules.{capped, fate_of};
ghost use Rattle.wire.specs.Staging.{HasNoLessRoom, IsFree, ruled};
ghost use Rattle.wire.specs.Traffic.{AreNodes, all_sent, queues_traffic, traffic_sent};
ghost use Rattle.wire.specs.Wire.{nth_in};
ghost use Rattle.wire.specs.declared.sending.Sending.{Sending as SendingValue};

use crate::queue::{NODES, Queue};
use crate::rule::capped_sum;
use crate::rules::Rules;
use crate::sending::Sending;
use std::alloc::AllocError;

// So many packets are few: it is asked of each number whether a rule is for it.
const FEW: usize = 4;

// Whether no rule is for any of so many packets that come next from the node that sends this one. Of more than a few it may be
// said that one is.
fn is_free(queue: &Queue, rules: &Rules, sending: &Sending, count: usize) -> bool
    requires { AreNodes sending.now }
    ensures { IsTrue result → (ahead : ℕ) → ahead < count
        → fate_of rules.now sending.now.from sending.now.to
        (capped (nth_in queue.now.counts sending.now.from + ahead)) ≡ plain_fate }
{
    let next = queue.next_number(sending.from);
    if rules.is_none_between(next, capped_sum(next, count as u64)) {
        return true;
    }
    if count > FEW {
        return false;
    }
    for ahead in 0..count {
        if rules.is_for(sending.from, sending.to, capped_sum(next, ahead as u64)) {
            return false;
        }
    }
    true
}

/// Whether no rule is for any of these, wherever each stands among them. Of more than a few it may be said that one is.
pub(crate) fn are_free(queues: &[Queue], rules: &Rules, packets: &[Sending]) -> bool
    requires nodes { All AreNodes packets.now }
    requires there { NODES ≤ length queues.now }
    ensures { IsTrue result
        → All (IsFree (ruled rules.now queues.now) (length packets.now)) packets.now }
{
    for sending in packets {
        if !is_free(&queues[sending.to as usize], rules, sending, packets.len()) {
            return false;
        }
    }
    true
}

/// Makes room in the queue of each of these packets for as many as they are.
pub(crate) fn make_room_for(queues: &mut [Queue], packets: &[Sending]) -> Result<(), AllocError>
    requires nodes { All AreNodes packets.now }
    requires there { NODES ≤ length queues.old }
    ensures same { queues_traffic queues.new ≡ queues_traffic queues.old }
    ensures len { length queues.new ≡ length queues.old }
    ensures room { OnOk result (All (FindsRoom queues.new (length packets.now)) packets.now) }
    ensures more { AllZip HasNoLessRoom queues.old queues.new }
{
    for sending in packets {
        queues[sending.to as usize].reserve(packets.len())?;
    }
    Ok(())
}

// One packet goes last in its queue, where there is room.
fn put(queues: &mut [Queue], sending: Sending, round: u64)
    requires nodes { AreNodes sending }
    requires there { NODES ≤ length queues.old }
    requires room { FindsRoom queues.old 1 sending }
    ensures len { length queues.new ≡ length queues.old }
    ensures sent { ruled [] queues.new
        ≡ traffic_sent sending.from sending.to sending.packet round (ruled [] queues.old) }
    ensures room { (count : ℕ) (other : SendingValue) → FindsRoom queues.old (count + 1) other
        → FindsRoom queues.new count other }
{
    queues[sending.to as usize].put(sending, round);
}

/// These go last one after the other, where there is room for as many in the queue of each.
pub(crate) fn put_all(queues: &mut [Queue], packets: Vec<Sending>, round: u64)
    requires nodes { All AreNodes packets.items }
    requires there { NODES ≤ length queues.old }
    requires room { All (FindsRoom queues.old (length packets.items)) packets.items }
    ensures len { length queues.new ≡ length queues.old }
    ensures sent { ruled [] queues.new ≡ all_sent round packets.items (ruled [] queues.old) }
{
    for sending in packets {
        put(queues, sending, round);
    }
}
