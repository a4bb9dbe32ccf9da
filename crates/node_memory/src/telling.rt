// What a node says of checkpoints in its turn.
ghost use Rattle.std.specs.Prelude.{◌≡◌, ◌++◌, OnOk};
ghost use Rattle.std.specs.List.{flat_map};
ghost use Rattle.protocol.specs.Node.Common.{network_of, live_asks, commit_to};
ghost use Rattle.protocol.specs.Node.Telling.{decision_packets, verdicts_told};

use datagram::Packet;
use decide_core::{Initiator, commit_to, query};
use net_check::Net;
use record::{Decision, Record};
use std::alloc::AllocError;

/// Adds the questions that aren't answered, if answers are collected.
pub(crate) fn add_live_asks(
    packets: &mut Vec<Packet>,
    net: &Net,
    home: u8,
    live: &Option<Initiator>,
) -> Result<(), AllocError>
    ensures { OnOk result (packets.new.items ≡ packets.old.items
        ++ live_asks (network_of net.now.program) home live.now) }
{
    match live {
        Some(live) => live.add_asks(packets, net, home),
        None => Ok(()),
    }
}

// Adds what each node is told that a decision names.
fn add_decision(packets: &mut Vec<Packet>, home: u8, decision: &Decision) -> Result<(), AllocError>
    ensures { OnOk result (packets.new.items ≡ packets.old.items
        ++ decision_packets home decision.now) }
{
    for node in decision.participants.as_slice() {
        packets.push(commit_to(home, decision.number, *node))?;
    }
    Ok(())
}

fn add_decisions(
    packets: &mut Vec<Packet>,
    home: u8,
    decisions: &[Decision],
) -> Result<(), AllocError>
    ensures { OnOk result (packets.new.items ≡ packets.old.items
        ++ flat_map (decision_packets home) decisions.now) }
{
    for decision in decisions {
        add_decision(packets, home, decision)?;
    }
    Ok(())
}

/// Adds what is said of decisions that stand, and the question for the verdict that is missing.
pub fn add_verdicts(packets: &mut Vec<Packet>, home: u8, kept: &Record) -> Result<(), AllocError>
    ensures { OnOk result (packets.new.items ≡ packets.old.items ++ verdicts_told home kept.now) }
{
    add_decisions(packets, home, kept.decisions.as_slice())?;
    if let Some(packet) = query(home, &kept.tentative) {
        packets.push(packet)?;
    }
    Ok(())
}
