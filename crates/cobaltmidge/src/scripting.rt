//! What a script's lines do, as events.

ghost use Rattle.std.specs.Prelude.{◌≡◌, map, IfOk};
ghost use Rattle.cobaltmidge.specs.Scripts.{armed_call, armed_packet, at_node, event_of, scripted_of};

use fail_script::{Act, ScriptLine};
use protocol::{Deed, PlainEvent};
use replay::{ArmedCrash, RunEvent, ScriptedEvent};
use sector_disk::ArmedFault;
use std::alloc::{AllocError, Global};
use wire::{Change, Rule};

// The byte by which a crash settles a disk that merely failed, and after how many rounds the node may be recovered.
const FILL_OF_A_FAILURE: u8 = 0;

const ROUNDS_OF_A_FAILURE: u64 = 1;

// A packet of this number, from one node to another, is changed so.
fn armed_packet(from: u8, to: u8, count: u32, change: Change) -> RunEvent
    ensures { result ≡ armed_packet from to count change }
{
    RunEvent::World(PlainEvent::arm_packet(Rule {
        from,
        to,
        nth: u64::from(count),
        change,
    }))
}

// A node does this, or this is done to it.
fn at_node(node: u8, deed: Deed) -> RunEvent
    ensures { result ≡ at_node node deed }
{
    RunEvent::World(PlainEvent::ByNode { node, deed })
}

// A device call of this number fails, a crash then settles by this byte, and the node may be recovered so many rounds later.
fn armed_call(node: u8, count: u32, fill: u8, rounds: u64) -> RunEvent
    ensures { result ≡ armed_call node count fill rounds }
{
    let fault = ArmedFault {
        call: u64::from(count),
        fill,
    };
    at_node(node, Deed::Arm { fault, rounds })
}

/// The event of what a line does. What is to happen at a packet, a delivery or a device call of a number is armed.
fn event_of(act: Act) -> RunEvent
    ensures { result ≡ event_of act }
{
    match act {
        Act::Lose { from, to, count } => armed_packet(from, to, count, Change::Lose),
        Act::Repeat { from, to, count } => armed_packet(from, to, count, Change::Repeat),
        Act::Delay {
            from,
            to,
            count,
            rounds,
        } => armed_packet(from, to, count, Change::Delay(u64::from(rounds))),
        Act::Crash { node, fill, rounds } => at_node(
            node,
            Deed::Crash {
                fill,
                rounds: u64::from(rounds),
            },
        ),
        Act::CrashAtDelivery {
            node,
            count,
            fill,
            rounds,
        } => RunEvent::ArmCrash(ArmedCrash {
            node,
            delivery: u64::from(count),
            fill,
            rounds: u64::from(rounds),
        }),
        Act::StopAtCall {
            node,
            count,
            fill,
            rounds,
        } => armed_call(node, count, fill, u64::from(rounds)),
        Act::FailCall { node, count } => {
            armed_call(node, count, FILL_OF_A_FAILURE, ROUNDS_OF_A_FAILURE)
        }
        Act::Start { node } => at_node(node, Deed::Start),
    }
}

fn scripted_of(line: &ScriptLine) -> ScriptedEvent
    ensures { result ≡ scripted_of line.now }
{
    ScriptedEvent {
        round: u64::from(line.round),
        event: event_of(line.act),
    }
}

/// The events of these lines, each with its round. Refuses for want of memory alone.
pub fn events_of(alloc: Global, lines: &[ScriptLine]) -> Result<Vec<ScriptedEvent>, AllocError>
    ensures { IfOk result (λ events. events.items ≡ map scripted_of lines.now) }
{
    lines.iter().map(scripted_of).collect(alloc)
}
