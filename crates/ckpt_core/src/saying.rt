//! What a node says of checkpoints in which it takes part.
ghost use Rattle.std.specs.Prelude.{◌≡◌, ℕ, [], ◌<◌, length, IfOk, Some, option_copied};
ghost use Rattle.kahn_net.specs.Syntax.{network_of};
ghost use Rattle.protocol.specs.Node.Answering.{answer_packets, kept_then, with_current_as};
ghost use Rattle.protocol.specs.Node.Beginning.{in_front};
ghost use Rattle.protocol.specs.Node.Needs.{held_needs, is_needed, need_on, needs_of};
ghost use Rattle.protocol.specs.Node.Telling.{query_packets};
ghost use Rattle.protocol.specs.Node.Verdicts.{settled_packets};
ghost use Rattle.ckpt_core.specs.AskView.{answer_view, mode_with};
ghost use Rattle.kahn_net.specs.declared.limits.TheConstants.{MAX_CHANNELS};

use crate::asking::{AskAnswer, Question};
use datagram::{Body, Need, Needs, Packet, Reason};
use layout::is_incoming;
use net_check::Net;
use record::{Image, Record, Tentative};
use std::alloc::{AllocError, Global};

// Whether an image received more of a channel from another node than the permanent one did.
fn is_needed(net: &Net, home: u8, permanent: &Image, image: &Image, channel: usize) -> bool
    requires { channel < length net.now.program.channels.items }
    ensures { result
        ≡ is_needed (network_of net.now.program) home permanent.now image.now channel }
{
    is_incoming(net, home, channel)
        && permanent.received(channel as u8) < image.received(channel as u8)
}

// How many items of a channel an image received.
fn need_on(image: &Image, channel: usize) -> Need
    requires { channel < MAX_CHANNELS }
    ensures { result ≡ need_on image.now channel }
{
    Need {
        channel: channel as u16,
        count: image.received(channel as u8),
    }
}

/// What an image needs of other nodes, channels ascending. Refuses for want of memory alone.
pub fn needs_of(
    alloc: Global,
    net: &Net,
    home: u8,
    permanent: &Image,
    image: &Image,
) -> Result<Needs, AllocError>
    ensures { IfOk result (λ needs. needs
        ≡ needs_of (network_of net.now.program) home permanent.now image.now) }
{
    let mut needs = Needs::new(alloc);
    for channel in 0..net.program.channels.len() {
        if is_needed(net, home, permanent, image, channel) {
            needs.push(need_on(image, channel))?;
        }
    }
    Ok(needs)
}

// That a node took part with an image of these needs, as the initiator is told.
fn took(home: u8, question: Question, needs: Needs) -> Packet
    ensures { result ≡ record {
      from = home;
      to = question.initiator;
      body = Body.Took question.number question.channel question.count needs;
    } }
{
    Packet {
        from: home,
        to: question.initiator,
        body: Body::Took {
            number: question.number,
            channel: u16::from(question.channel),
            count: question.count,
            needs,
        },
    }
}

// What the image that is held needs of other nodes: nothing where none is held.
fn held_needs(alloc: Global, net: &Net, home: u8, kept: &Record) -> Result<Needs, AllocError>
    ensures { IfOk result (λ needs. needs ≡ held_needs (network_of net.now.program) home
        kept.now.permanent kept.now.tentative) }
{
    match &kept.tentative {
        Some(held) => needs_of(alloc, net, home, &kept.permanent, &held.image),
        None => Ok(Needs::new(alloc)),
    }
}

/// That a node takes no part, as the initiator is told.
pub fn refusal(home: u8, question: Question, reason: Reason) -> Packet
    ensures { result ≡ record {
      from = home;
      to = question.initiator;
      body = Body.Refused question.number question.channel reason;
    } }
{
    Packet {
        from: home,
        to: question.initiator,
        body: Body::Refused {
            number: question.number,
            channel: u16::from(question.channel),
            reason,
        },
    }
}

// That the permanent image has put so many, as the initiator is told.
fn covered(home: u8, question: Question) -> Packet
    ensures { result ≡ record {
      from = home;
      to = question.initiator;
      body = Body.Covered question.number question.channel question.count;
    } }
{
    Packet {
        from: home,
        to: question.initiator,
        body: Body::Covered {
            number: question.number,
            channel: u16::from(question.channel),
            count: question.count,
        },
    }
}

// What the image would need of other nodes that a node takes now: the one that is held where it is in doubt.
fn needs_now(
    alloc: Global,
    net: &Net,
    home: u8,
    kept: &Record,
    current: Option<&Image>,
) -> Result<Needs, AllocError>
    ensures { (x n : ℕ) → IfOk result (λ needs. needs ≡ held_needs (network_of net.now.program) home
        (with_current_as x n (mode_with (option_copied current.entry)) kept.now).permanent
        (with_current_as x n (mode_with (option_copied current.entry)) kept.now).tentative) }
{
    match current {
        Some(image) => needs_of(alloc, net, home, &kept.permanent, image),
        None => held_needs(alloc, net, home, kept),
    }
}

/// What the initiator is told by a node with this record, and with this current image unless it is in doubt, whose answer is
/// this. Refuses for want of memory alone.
pub fn say_answer(
    alloc: Global,
    net: &Net,
    home: u8,
    kept: &Record,
    current: Option<&Image>,
    question: Question,
    answer: AskAnswer,
) -> Result<Option<Packet>, AllocError>
    ensures { IfOk result (λ packet. in_front packet [] ≡ answer_packets (network_of net.now.program)
        home question.initiator question.number question.channel question.count
        (kept_then question.initiator question.number (answer_view answer)
        (mode_with (option_copied current.entry)) kept.now) (answer_view answer)) }
{
    match answer {
        AskAnswer::Silent => Ok(None),
        AskAnswer::CoveredBefore => Ok(Some(covered(home, question))),
        AskAnswer::TookBefore => {
            let needs = held_needs(alloc, net, home, kept)?;
            Ok(Some(took(home, question, needs)))
        }
        AskAnswer::TakesNow => {
            let needs = needs_now(alloc, net, home, kept, current)?;
            Ok(Some(took(home, question, needs)))
        }
        AskAnswer::Declines(reason) => Ok(Some(refusal(home, question, reason))),
    }
}

/// That a node has done what it was told of a checkpoint of this initiator: said by one that has seen its number.
pub fn settled(home: u8, initiator: u8, number: u64, kept: &Record) -> Option<Packet>
    requires { initiator < length kept.now.highest }
    ensures { in_front result [] ≡ settled_packets home initiator number kept.now }
{
    if number > kept.highest[usize::from(initiator)] {
        return None;
    }
    Some(Packet {
        from: home,
        to: initiator,
        body: Body::Settled { number },
    })
}

/// The question for the verdict, of a node that holds another's image.
pub fn query(home: u8, tentative: &Option<Tentative>) -> Option<Packet>
    ensures { in_front result [] ≡ query_packets home tentative.now }
{
    match tentative {
        Some(held) if held.initiator != home => Some(Packet {
            from: home,
            to: held.initiator,
            body: Body::Query {
                number: held.number,
            },
        }),
        _ => None,
    }
}
