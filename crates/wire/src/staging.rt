// Packets that are made ready in queues of their own, and then put last all at once.
//
// All memory is taken before the first queue changes: a refusal leaves each as it was.
ghost use Rattle.std.specs.Prelude.{◌≡◌, ◌≤◌, ◌<◌, All, length, map, IfOk, OnOk};
ghost use Rattle.std.specs.List.{AllZip};
ghost use Rattle.wire.specs.Traffic.{AreNodes, queues_traffic, traffic_sent, all_sent};
ghost use Rattle.wire.specs.Staging.{all_joined, unsent, HasNoLessRoom, HasRoom, IsStaged, ruled};

use crate::queue::{NODES, Queue};
use crate::rules::Rules;
use crate::sending::Sending;
use std::alloc::{AllocError, Global};
use std::marker::Model;

// A queue for each, which counts on from there, with nothing in flight.
fn unsent_queues(alloc: Global, queues: &[Queue]) -> Result<Vec<Queue>, AllocError>
    ensures { IfOk result (λ staged. queues_traffic staged.items
        ≡ map unsent (queues_traffic queues.now)) }
{
    let mut staged = Vec::with_capacity(alloc, queues.len())?;
    for queue in queues {
        staged.push(queue.unsent(alloc))?;
    }
    Ok(staged)
}

// One packet goes last.
fn stage(
    alloc: Global,
    staged: &mut [Queue],
    rules: &Rules,
    sending: Sending,
    round: u64,
) -> Result<(), AllocError>
    requires nodes { AreNodes sending }
    requires there { sending.to < length staged.old }
    ensures len { length staged.new ≡ length staged.old }
    ensures ok { OnOk result (ruled rules.now staged.new
        ≡ traffic_sent sending.from sending.to sending.packet round (ruled rules.now staged.old)) }
{
    let queue = &mut staged[sending.to as usize];
    queue.add(alloc, rules, sending, round)
}

// One after the other.
fn stage_all(
    alloc: Global,
    staged: &mut [Queue],
    rules: &Rules,
    packets: Vec<Sending>,
    round: u64,
) -> Result<(), AllocError>
    requires nodes { All AreNodes packets.items }
    requires there { NODES ≤ length staged.old }
    ensures len { length staged.new ≡ length staged.old }
    ensures ok { OnOk result (ruled rules.now staged.new
        ≡ all_sent round packets.items (ruled rules.now staged.old)) }
{
    for sending in packets {
        stage(alloc, staged, rules, sending, round)?;
    }
    Ok(())
}

/// Packets that are ready to be sent in a round. Where no rule is for any of them they are kept as they are, and else there is a
/// queue for each node with what is to go last there.
#[derive(Drop)]
pub struct Batch {
    pub(crate) straight: Vec<Sending>,
    pub(crate) round: u64,
    pub(crate) queues: Vec<Queue>,
}

impl Model for Batch {
    ghost use Rattle.wire.specs.Staging.{BatchState};

    ghost Value = { BatchState };

    ghost view = { λ batch. record {
      straight = batch.straight.items;
      round = batch.round;
      queues = batch.queues.items;
    } };
}

// What is to go last in each of these queues, where these packets are sent.
pub(crate) fn staged(
    alloc: Global,
    queues: &[Queue],
    rules: &Rules,
    packets: Vec<Sending>,
    round: u64,
) -> Result<Vec<Queue>, AllocError>
    requires nodes { All AreNodes packets.items }
    requires there { length queues.now ≡ NODES }
    ensures count { IfOk result (λ staged. length staged.items ≡ NODES) }
    ensures ready { IfOk result (λ staged. IsStaged (ruled rules.now queues.now) round packets.items
        staged.items) }
{
    let mut staged = unsent_queues(alloc, queues)?;
    stage_all(alloc, &mut staged, rules, packets, round)?;
    Ok(staged)
}

/// Makes room in each queue for what is to go last in it.
pub(crate) fn reserve_all(queues: &mut [Queue], staged: &[Queue]) -> Result<(), AllocError>
    requires { length queues.old ≡ length staged.now }
    ensures same { queues_traffic queues.new ≡ queues_traffic queues.old }
    ensures len { length queues.new ≡ length queues.old }
    ensures room { OnOk result (AllZip HasRoom queues.new staged.now) }
    ensures more { AllZip HasNoLessRoom queues.old queues.new }
{
    for place in 0..queues.len() {
        queues[place].reserve(staged[place].len())?;
    }
    Ok(())
}

/// Puts what is to go last in each queue there, where there is room.
pub(crate) fn join_all(queues: &mut [Queue], staged: Vec<Queue>)
    requires { AllZip HasRoom queues.old staged.items }
    ensures traffic { queues_traffic queues.new
        ≡ all_joined (queues_traffic queues.old) (queues_traffic staged.items) }
    ensures len { length queues.new ≡ length queues.old }
{
    let mut place = 0;
    for more in staged {
        queues[place].join(more);
        place += 1;
    }
}
