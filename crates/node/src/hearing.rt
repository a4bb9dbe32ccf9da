// A packet comes to a node: what becomes of the node, and what it says.
ghost use Rattle.std.specs.Prelude.{◌≡◌, ◌<◌, ◌≤◌, [], All, None, false, true, length, IfOk, option_copied, option_map};
ghost use Rattle.protocol.specs.Node.Common.{node_count, network_of, MAX_RETAINED_ITEMS, names_right, in_front};
ghost use Rattle.protocol.specs.Node.Common.{refused_prospect, took_prospect, hear_prospect, is_down, Planned};
ghost use Rattle.protocol.specs.Node.Common.{IsLikeNow, commit_prospect, ended_prospect, settled_prospect};
ghost use Rattle.protocol.specs.Node.Common.{undone_prospect, IsRestorable, IsPacket, MAX_CHANNELS, MAX_COUNT};
ghost use Rattle.ckpt_codec.specs.SizeLaws.{IsRecordWithin};
ghost use Rattle.protocol.specs.Node.Answering.{ask_prospect};
ghost use Rattle.node.specs.NodeView.{mode_view, node_view};
ghost use Rattle.node.specs.Planned.{CanDo, plan_view};
ghost use Rattle.node.specs.Said.{held_image, restored_if_doubtful};
ghost use Rattle.node.specs.declared.checkpoint.Then.TheVariants as then_is;
ghost use Rattle.node.specs.declared.plan.Change.TheVariants as change_is;
ghost use Rattle.node.specs.declared.plan.Effect.TheVariants as effect_is;
ghost use Rattle.rollback_core.specs.RestoredView.{restored_view};
ghost use Rattle.rollback_core.specs.StoredCounts.{HasCounts};

use crate::checkpoint::Then;
use crate::mode::Mode;
use crate::plan::{Change, Effect, Plan, Said};
use crate::state::NodeState;
use ckpt_core::{AskAnswer, Question, answer_to_ask, holds, refusal, say_answer, settled};
use datagram::{Body, Need, Needs, Packet, Reason};
use decide_core::{TookAnswer, answer_to_took, loses, names, verdict_of};
use net_check::Net;
use record::{Image, Record};
use rollback_core::{Restored, UndoneAnswer, answer_to_undone, restore};
use std::alloc::{AllocError, Global};

// A list of this packet, or of none.
fn list_of(alloc: Global, packet: Option<Packet>) -> Result<Vec<Packet>, AllocError>
    ensures { IfOk result (λ packets. packets.items ≡ in_front packet []) }
{
    let mut packets = Vec::new(alloc);
    if let Some(packet) = packet {
        packets.push(packet)?;
    }
    Ok(packets)
}

// The question that an Ask is.
fn question(initiator: u8, number: u64, channel: u16, count: u64) -> Question
    requires { channel < MAX_CHANNELS }
    ensures { result ≡ record { initiator = initiator; number = number; channel = channel; count = count } }
{
    Question {
        initiator,
        number,
        channel: channel as u8,
        count,
    }
}

// Nothing is said where the event is made, but for this packet.
fn only(alloc: Global, packet: Option<Packet>) -> Result<Said, AllocError>
    ensures { IfOk result (λ said. (said.made.items ≡ in_front packet [])
        × (said.declined.items ≡ [])) }
{
    Ok(Said {
        made: list_of(alloc, packet)?,
        declined: Vec::new(alloc),
    })
}

// A plan by which the memory changes so, and nothing is said.
fn silently(alloc: Global, then: Then) -> Plan
    ensures { (result.effect ≡ effect_is.Remembers then) × (result.said.made.items ≡ [])
        × (result.said.declined.items ≡ []) }
{
    Plan {
        effect: Effect::Remembers(then),
        said: Said {
            made: Vec::new(alloc),
            declined: Vec::new(alloc),
        },
    }
}

// A plan by which this change is put, the memory then changes so, and nothing is said.
fn putting(alloc: Global, change: Change, then: Then) -> Plan
    ensures { (result.effect ≡ effect_is.Puts change then) × (result.said.made.items ≡ [])
        × (result.said.declined.items ≡ []) }
{
    Plan {
        effect: Effect::Puts { change, then },
        said: Said {
            made: Vec::new(alloc),
            declined: Vec::new(alloc),
        },
    }
}

// A node is asked to take part in another's checkpoint: where its answer says so, what it has now becomes its tentative image.
fn on_ask(
    alloc: Global,
    net: &Net,
    home: u8,
    state: &NodeState,
    kept: &Record,
    question: Question,
) -> Result<Plan, AllocError>
    requires up { is_down (mode_view state.now.mode) ≡ false }
    requires like { IsLikeNow (node_view kept.now state.now) }
    requires listed { question.initiator < length kept.now.highest }
    requires other { question.initiator ≡ kept.now.node → ⊥ }
    requires small { question.number ≤ MAX_COUNT }
    ensures view { IfOk result (λ plan. Planned (plan_view (node_view kept.now state.now) plan)
        ≡ ask_prospect (network_of net.now.program) home question.initiator question.number
        question.channel question.count (node_view kept.now state.now)) }
    ensures can { IfOk result (λ plan. CanDo (node_view kept.now state.now) plan.effect) }
{
    let current = state.current();
    let answer = answer_to_ask(kept, current, question);
    let packet = say_answer(alloc, net, home, kept, current, question, answer)?;
    let said = Said {
        made: list_of(alloc, packet)?,
        declined: list_of(alloc, Some(refusal(home, question, Reason::TooLarge)))?,
    };
    let AskAnswer::TakesNow = answer else {
        return Ok(Plan {
            effect: Effect::Remembers(Then::Stays),
            said,
        });
    };
    let Some(current) = current else {
        return Ok(Plan {
            effect: Effect::Remembers(Then::Stays),
            said,
        });
    };
    let image = current.copy(alloc)?;
    Ok(Plan {
        effect: Effect::Puts {
            change: Change::Takes {
                image,
                initiator: question.initiator,
                number: question.number,
            },
            then: Then::Stays,
        },
        said,
    })
}

// The checkpoint of this number, for which answers are collected, is given up: its image is dropped.
fn give_up(alloc: Global, home: u8, number: u64) -> Plan
    ensures { (result.effect ≡ effect_is.Puts (change_is.Drops home number) (then_is.Collects None))
        × (result.said.made.items ≡ []) × (result.said.declined.items ≡ []) }
{
    let change = Change::Drops {
        initiator: home,
        number,
    };
    putting(alloc, change, Then::Collects(None))
}

// The word of a node that it takes part: it is noted, and its needs are asked for; or the checkpoint is given up.
fn on_took(
    alloc: Global,
    net: &Net,
    home: u8,
    state: &NodeState,
    kept: &Record,
    from: u8,
    number: u64,
    channel: u16,
    needs: &Needs,
) -> Result<Plan, AllocError>
    requires bounded { IsRecordWithin MAX_RETAINED_ITEMS kept.now }
    requires up { is_down (mode_view state.now.mode) ≡ false }
    requires needs { All (λ (need : Need). need.channel < MAX_CHANNELS) needs.now }
    ensures view { IfOk result (λ plan. Planned (plan_view (node_view kept.now state.now) plan)
        ≡ took_prospect (network_of net.now.program) home from number channel needs.now
        (node_view kept.now state.now)) }
    ensures can { IfOk result (λ plan. CanDo (node_view kept.now state.now) plan.effect) }
{
    let needs = needs.as_slice();
    let Some(live) = state.live() else {
        return Ok(silently(alloc, Then::Stays));
    };
    match answer_to_took(net, home, number, channel, needs, kept, Some(live)) {
        TookAnswer::Ignores => Ok(silently(alloc, Then::Stays)),
        TookAnswer::Joins => {
            let (joined, asks) = live.on_took(alloc, net, home, from, channel, needs)?;
            Ok(Plan {
                effect: Effect::Remembers(Then::Collects(Some(joined))),
                said: Said {
                    made: asks,
                    declined: Vec::new(alloc),
                },
            })
        }
        TookAnswer::GivesUp => Ok(give_up(alloc, home, number)),
    }
}

// The word of a node that it takes no part ends the checkpoint.
fn on_refused(alloc: Global, home: u8, state: &NodeState, kept: &Record, number: u64) -> Plan
    requires bounded { IsRecordWithin MAX_RETAINED_ITEMS kept.now }
    requires up { is_down (mode_view state.now.mode) ≡ false }
    ensures view { Planned (plan_view (node_view kept.now state.now) result)
        ≡ refused_prospect home number (node_view kept.now state.now) }
    ensures can { CanDo (node_view kept.now state.now) result.effect }
{
    if !loses(home, number, kept, state.live()) {
        return silently(alloc, Then::Stays);
    }
    give_up(alloc, home, number)
}

// What a node runs with that was in doubt, once the verdict makes this image its permanent one; nothing where it wasn't.
fn restore_if_doubtful(
    alloc: Global,
    net: &Net,
    home: u8,
    state: &NodeState,
    image: &Image,
    epoch: u64,
) -> Result<Option<Restored>, AllocError>
    requires counts { IsRestorable image.now }
    requires epoch { epoch ≤ MAX_COUNT }
    ensures { IfOk result (λ restored. option_map restored_view restored
        ≡ restored_if_doubtful (network_of net.now.program) home (mode_view state.now.mode) image.now epoch) }
{
    match &state.mode {
        Mode::InDoubt => Ok(Some(restore(alloc, net, home, image, epoch)?)),
        Mode::Down | Mode::Running(_) => Ok(None),
    }
}

// The image that is held, of this initiator's checkpoint of this number.
fn held_image(kept: &Record, initiator: u8, number: u64) -> Option<&Image>
    ensures { option_copied result ≡ held_image initiator number kept.now.tentative }
{
    match &kept.tentative {
        Some(held) if held.initiator == initiator && held.number == number => Some(&held.image),
        _ => None,
    }
}

// The verdict that a checkpoint is decided: its image becomes permanent where it is held, and that is confirmed.
fn on_commit(
    alloc: Global,
    net: &Net,
    home: u8,
    state: &NodeState,
    kept: &Record,
    from: u8,
    number: u64,
) -> Result<Plan, AllocError>
    requires up { is_down (mode_view state.now.mode) ≡ false }
    requires counts { HasCounts kept.now }
    requires listed { from < length kept.now.highest }
    ensures view { IfOk result (λ plan. Planned (plan_view (node_view kept.now state.now) plan)
        ≡ commit_prospect (network_of net.now.program) home from number
        (node_view kept.now state.now)) }
    ensures can { IfOk result (λ plan. CanDo (node_view kept.now state.now) plan.effect) }
{
    let said = only(alloc, settled(home, from, number, kept))?;
    let Some(image) = held_image(kept, from, number) else {
        return Ok(Plan {
            effect: Effect::Remembers(Then::Stays),
            said,
        });
    };
    let restored = restore_if_doubtful(alloc, net, home, state, image, kept.epoch)?;
    Ok(Plan {
        effect: Effect::Puts {
            change: Change::MakesPermanent {
                initiator: from,
                number,
            },
            then: Then::Runs(restored),
        },
        said,
    })
}

// The verdict that a checkpoint is over: its image is dropped where it is held.
fn on_ended(
    alloc: Global,
    net: &Net,
    home: u8,
    state: &NodeState,
    kept: &Record,
    from: u8,
    number: u64,
) -> Result<Plan, AllocError>
    requires bounded { IsRecordWithin MAX_RETAINED_ITEMS kept.now }
    requires up { is_down (mode_view state.now.mode) ≡ false }
    requires counts { HasCounts kept.now }
    ensures view { IfOk result (λ plan. Planned (plan_view (node_view kept.now state.now) plan)
        ≡ ended_prospect (network_of net.now.program) home from number
        (node_view kept.now state.now)) }
    ensures can { IfOk result (λ plan. CanDo (node_view kept.now state.now) plan.effect) }
{
    if !holds(&kept.tentative, from, number) {
        return Ok(silently(alloc, Then::Stays));
    }
    let restored = restore_if_doubtful(alloc, net, home, state, &kept.permanent, kept.epoch)?;
    let change = Change::Drops {
        initiator: from,
        number,
    };
    Ok(putting(alloc, change, Then::Runs(restored)))
}

// A node has done what it was told: it leaves the decision that names it.
fn on_settled(alloc: Global, state: &NodeState, kept: &Record, from: u8, number: u64) -> Plan
    requires bounded { IsRecordWithin MAX_RETAINED_ITEMS kept.now }
    requires up { is_down (mode_view state.now.mode) ≡ false }
    ensures view { Planned (plan_view (node_view kept.now state.now) result)
        ≡ settled_prospect from number (node_view kept.now state.now) }
    ensures can { CanDo (node_view kept.now state.now) result.effect }
{
    if !names(kept.decisions.as_slice(), number, from) {
        return silently(alloc, Then::Stays);
    }
    let change = Change::Confirms { number, node: from };
    putting(alloc, change, Then::Stays)
}

// The sender of a channel restored an image that had put so many items, in this epoch: the node notes that, or goes back to its
// permanent image, in its next epoch.
fn on_undone(
    alloc: Global,
    state: &NodeState,
    kept: &Record,
    channel: u16,
    epoch: u64,
    sent: u64,
) -> Result<Plan, AllocError>
    requires up { is_down (mode_view state.now.mode) ≡ false }
    requires counts { HasCounts kept.now }
    ensures view { IfOk result (λ plan. Planned (plan_view (node_view kept.now state.now) plan)
        ≡ undone_prospect channel epoch sent (node_view kept.now state.now)) }
    ensures can { IfOk result (λ plan. CanDo (node_view kept.now state.now) plan.effect) }
{
    match answer_to_undone(kept, state.inboxes(), channel, epoch, sent) {
        UndoneAnswer::PassesOver => Ok(silently(alloc, Then::Stays)),
        UndoneAnswer::Notes => Ok(silently(alloc, Then::Notes { channel, epoch })),
        UndoneAnswer::GoesBack => {
            let then = Then::GoesBack {
                image: kept.permanent.copy(alloc)?,
                own: kept.epoch + 1,
                channel,
                epoch,
            };
            Ok(putting(alloc, Change::Raises, then))
        }
    }
}

// It hears what a packet says of a channel.
fn hears(alloc: Global, body: Body) -> Plan
    ensures { (result.effect ≡ effect_is.Hears body) × (result.said.made.items ≡ [])
        × (result.said.declined.items ≡ []) }
{
    Plan {
        effect: Effect::Hears(body),
        said: Said {
            made: Vec::new(alloc),
            declined: Vec::new(alloc),
        },
    }
}

/// How a node that is up, with this record, hears a packet for it. Refuses for want of memory alone.
pub(crate) fn plan_packet(
    alloc: Global,
    net: &Net,
    home: u8,
    state: &NodeState,
    kept: &Record,
    packet: &Packet,
) -> Result<Plan, AllocError>
    requires named { kept.now.node ≡ home }
    requires bounded { IsRecordWithin MAX_RETAINED_ITEMS kept.now }
    requires counts { HasCounts kept.now }
    requires up { is_down (mode_view state.now.mode) ≡ false }
    requires like { IsLikeNow (node_view kept.now state.now) }
    requires right { names_right (network_of net.now.program) packet.now ≡ true }
    requires allowed { IsPacket packet.now }
    requires here { packet.now.to ≡ home }
    requires listed { length kept.now.highest ≡ node_count (network_of net.now.program) }
    ensures view { IfOk result (λ plan. Planned (plan_view (node_view kept.now state.now) plan)
        ≡ hear_prospect (network_of net.now.program) home packet.now.from packet.now.body
        (node_view kept.now state.now)) }
    ensures can { IfOk result (λ plan. CanDo (node_view kept.now state.now) plan.effect) }
{
    let from = packet.from;
    match &packet.body {
        Body::Data {
            channel,
            position,
            item,
        } => Ok(hears(
            alloc,
            Body::Data {
                channel: *channel,
                position: *position,
                item: *item,
            },
        )),
        Body::Ack {
            channel,
            epoch,
            next,
        } => Ok(hears(
            alloc,
            Body::Ack {
                channel: *channel,
                epoch: *epoch,
                next: *next,
            },
        )),
        Body::Kept { channel, count } => {
            let then = Then::Cuts {
                channel: *channel as u8,
                count: *count,
            };
            Ok(silently(alloc, then))
        }
        Body::Ask {
            number,
            channel,
            count,
        } => {
            let question = question(from, *number, *channel, *count);
            on_ask(alloc, net, home, state, kept, question)
        }
        Body::Took {
            number,
            channel,
            needs,
            ..
        } => on_took(
            alloc, net, home, state, kept, from, *number, *channel, needs,
        ),
        Body::Covered {
            number,
            channel,
            ..
        } => {
            let then = Then::Covers {
                number: *number,
                channel: *channel,
            };
            Ok(silently(alloc, then))
        }
        Body::Refused { number, .. } => Ok(on_refused(alloc, home, state, kept, *number)),
        Body::Query { number } => Ok(Plan {
            effect: Effect::Remembers(Then::Stays),
            said: only(alloc, verdict_of(home, from, *number, kept, state.live()))?,
        }),
        Body::Commit { number } => on_commit(alloc, net, home, state, kept, from, *number),
        Body::Ended { number } => on_ended(alloc, net, home, state, kept, from, *number),
        Body::Settled { number } => Ok(on_settled(alloc, state, kept, from, *number)),
        Body::Undone {
            channel,
            epoch,
            sent,
        } => on_undone(alloc, state, kept, *channel, *epoch, *sent),
    }
}
