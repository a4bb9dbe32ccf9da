//! The checkpoint for which a node collects answers.
ghost use Rattle.std.specs.Prelude.{◌≡◌, ◌++◌, ◌<◌, ◌≤◌, [], length, map, take, IfOk, OnOk, OnErr, Some, slice_get};
ghost use Rattle.kahn_net.specs.Syntax.{network_of};
ghost use Rattle.protocol.specs.Node.Beginning.{in_front, live_asks, live_begun, open_question, open_questions};
ghost use Rattle.protocol.specs.Node.Collecting.{answered_by, is_open, is_open_at, awaits, covered_live, joined_asks, joined_live, needs_no_question, new_ask, new_asks, was_asked, with_answer, with_need, with_needs, with_taker};
ghost use Rattle.protocol.specs.Node.Needs.{question_on, questions_of};
ghost use Rattle.protocol.specs.Node.Verdicts.{all_answered, commit_packets, commit_to, participants_of};
ghost use Rattle.record.specs.Moves.{highest_seen};
ghost use Rattle.decide_core.specs.InitiatorView.{answer_view, question_view};
ghost use Rattle.kahn_net.specs.declared.limits.TheConstants.{MAX_CHANNELS, MAX_COUNT};

use crate::hearing::has_node;
use datagram::{Body, Need, Packet};
use layout::{is_incoming, producer_node};
use net_check::Net;
use record::{Image, Record};
use std::alloc::{AllocError, Global};
use std::marker::Model;

/// How a question was answered.
#[derive(Clone, Copy, Debug, PartialEq, Eq)]
pub enum Answer {
    Awaited,
    /// The node takes part.
    ByTook,
    /// The node's permanent image had put so many items.
    ByCovered,
}

/// So many items of a channel were asked for.
#[derive(Clone, Copy, Debug, PartialEq, Eq)]
pub struct Asked {
    pub count: u64,
    pub answer: Answer,
}

/// A checkpoint that this node began, with what it asked, at the place of each channel, and who took part, in the order in
/// which they first said so.
pub struct Initiator {
    number: u64,
    questions: Vec<Option<Asked>>,
    takers: Vec<u8>,
}

// Written out, since each crate above would go through a derived one again.
impl Drop for Initiator {
    fn drop(self) {
        let Self {
            number,
            questions,
            takers,
        } = self;
    }
}

impl Model for Initiator {
    ghost use Rattle.protocol.specs.Node.LiveView.{LiveView};
    ghost use Rattle.decide_core.specs.InitiatorView.{question_view};
    ghost use Rattle.kahn_net.specs.declared.limits.TheConstants.{MAX_CHANNELS};
    ghost use Rattle.std.specs.Prelude.{◌≤◌, length, map};

    ghost Value = { LiveView };

    ghost view = { λ initiator. record {
      number = initiator.number;
      questions = map question_view initiator.questions.items;
      takers = initiator.takers.items;
    } };

    ghost invariant = { λ initiator. length initiator.questions.items ≤ MAX_CHANNELS };
}

// ---- questions

// Whether an answer to this question is missing.
fn is_open(question: &Option<Asked>) -> bool
    ensures { result ≡ is_open (question_view question.now) }
{
    match question {
        Some(asked) => matches!(asked.answer, Answer::Awaited),
        None => false,
    }
}

// What was asked, with this answer.
fn answered(question: &Option<Asked>, answer: Answer) -> Option<Asked>
    ensures { question_view result ≡ answered_by (answer_view answer) (question_view question.now) }
{
    match question {
        Some(asked) => Some(Asked {
            count: asked.count,
            answer,
        }),
        None => None,
    }
}

// Notes this answer to what was asked of a channel, if something was.
fn note(questions: &mut [Option<Asked>], place: usize, answer: Answer)
    ensures { map question_view questions.new
        ≡ with_answer (answer_view answer) place (map question_view questions.old) }
{
    if place < questions.len() {
        questions[place] = answered(&questions[place], answer);
    }
}

// What is asked of a channel, where an image received more of it than the permanent one did.
fn question_on(
    net: &Net,
    home: u8,
    permanent: &Image,
    image: &Image,
    channel: usize,
) -> Option<Asked>
    requires { channel < length net.now.program.channels.items }
    ensures { question_view result
        ≡ question_on (network_of net.now.program) home permanent.now image.now channel }
{
    if !is_incoming(net, home, channel) {
        return None;
    }
    let channel = channel as u8;
    let count = image.received(channel);
    if permanent.received(channel) < count {
        Some(Asked {
            count,
            answer: Answer::Awaited,
        })
    } else {
        None
    }
}

// What is asked of all channels, each at its place.
fn questions_of(
    alloc: Global,
    net: &Net,
    home: u8,
    permanent: &Image,
    image: &Image,
) -> Result<Vec<Option<Asked>>, AllocError>
    ensures { IfOk result (λ questions. map question_view questions.items
        ≡ questions_of (network_of net.now.program) home permanent.now image.now) }
{
    let channels = net.program.channels.len();
    let mut questions = Vec::with_capacity(alloc, channels)?;
    for channel in 0..channels {
        questions.push(question_on(net, home, permanent, image, channel))?;
    }
    Ok(questions)
}

// Adds the question whether so many items of a channel are kept for good, if it isn't answered.
fn add_ask(
    packets: &mut Vec<Packet>,
    net: &Net,
    home: u8,
    number: u64,
    channel: usize,
    question: &Option<Asked>,
) -> Result<(), AllocError>
    requires { channel < MAX_CHANNELS }
    ensures ok { OnOk result (packets.new.items ≡ packets.old.items ++ in_front
        (open_question (network_of net.now.program) home number channel
        (question_view question.now)) []) }
    ensures err { OnErr result (packets.new.items ≡ packets.old.items) }
{
    match question {
        Some(
            Asked {
                count,
                answer: Answer::Awaited,
            },
        ) => {
            packets.push(Packet {
                from: home,
                to: producer_node(net, channel),
                body: Body::Ask {
                    number,
                    channel: channel as u16,
                    count: *count,
                },
            })?;
            Ok(())
        }
        _ => Ok(()),
    }
}

// Adds those of these questions that aren't answered, channels ascending. Where memory is missing, some may stand there.
fn add_open_asks(
    packets: &mut Vec<Packet>,
    net: &Net,
    home: u8,
    number: u64,
    questions: &[Option<Asked>],
) -> Result<(), AllocError>
    requires { length questions.now ≤ MAX_CHANNELS }
    ensures ok { OnOk result (packets.new.items ≡ packets.old.items
        ++ open_questions (network_of net.now.program) home number 0
        (map question_view questions.now)) }
    ensures err { OnErr result
        (take (length packets.old.items) packets.new.items ≡ packets.old.items) }
{
    for (channel, question) in questions.iter().enumerate() {
        add_ask(packets, net, home, number, channel, question)?;
    }
    Ok(())
}

// ---- needs of who takes part

// Whether something was asked of a channel.
fn was_asked(questions: &[Option<Asked>], channel: u16) -> bool
    ensures { result ≡ was_asked channel (map question_view questions.now) }
{
    match questions.get(usize::from(channel)) {
        Some(question) => question.is_some(),
        None => false,
    }
}

// Whether a need isn't asked for: it is of a channel of the node's own, or was asked for before.
fn needs_no_question(net: &Net, home: u8, need: Need, questions: &[Option<Asked>]) -> bool
    ensures { result ≡ needs_no_question (network_of net.now.program) home need
        (map question_view questions.now) }
{
    producer_node(net, usize::from(need.channel)) == home || was_asked(questions, need.channel)
}

// Notes the question that a need makes, if it makes one.
fn note_need(net: &Net, home: u8, need: Need, questions: &mut [Option<Asked>])
    ensures { map question_view questions.new
        ≡ with_need (network_of net.now.program) home need (map question_view questions.old) }
{
    let place = usize::from(need.channel);
    if !needs_no_question(net, home, need, questions) && place < questions.len() {
        questions[place] = Some(Asked {
            count: need.count,
            answer: Answer::Awaited,
        });
    }
}

// Adds the question that a need makes, if it makes one.
fn add_new_ask(
    packets: &mut Vec<Packet>,
    net: &Net,
    home: u8,
    number: u64,
    need: Need,
    questions: &[Option<Asked>],
) -> Result<(), AllocError>
    ensures ok { OnOk result (packets.new.items ≡ packets.old.items ++ in_front
        (new_ask (network_of net.now.program) home number need (map question_view questions.now))
        []) }
    ensures err { OnErr result (packets.new.items ≡ packets.old.items) }
{
    if needs_no_question(net, home, need, questions) {
        return Ok(());
    }
    packets.push(Packet {
        from: home,
        to: producer_node(net, usize::from(need.channel)),
        body: Body::Ask {
            number,
            channel: need.channel,
            count: need.count,
        },
    })?;
    Ok(())
}

// Adds the questions that needs make, and notes each.
fn add_new_asks(
    packets: &mut Vec<Packet>,
    net: &Net,
    home: u8,
    number: u64,
    needs: &[Need],
    questions: &mut [Option<Asked>],
) -> Result<(), AllocError>
    ensures ok { OnOk result (packets.new.items ≡ packets.old.items
        ++ new_asks (network_of net.now.program) home number needs.now
        (map question_view questions.old)) }
    ensures noted { OnOk result (map question_view questions.new
        ≡ with_needs (network_of net.now.program) home needs.now (map question_view questions.old)) }
{
    for need in needs {
        add_new_ask(packets, net, home, number, *need, questions)?;
        note_need(net, home, *need, questions);
    }
    Ok(())
}

// Notes that a node took part of which a channel was asked, and then, of each of its needs, the question that it makes; adds those.
// What a need makes depends on what the needs before it made.
fn add_asks_behind(
    packets: &mut Vec<Packet>,
    net: &Net,
    home: u8,
    number: u64,
    channel: u16,
    needs: &[Need],
    questions: &mut [Option<Asked>],
) -> Result<(), AllocError>
    ensures ok { OnOk result (packets.new.items ≡ packets.old.items
        ++ new_asks (network_of net.now.program) home number needs.now
        (with_answer (answer_view Answer.ByTook) channel (map question_view questions.old))) }
    ensures noted { OnOk result (map question_view questions.new
        ≡ with_needs (network_of net.now.program) home needs.now
        (with_answer (answer_view Answer.ByTook) channel (map question_view questions.old))) }
{
    note(questions, usize::from(channel), Answer::ByTook);
    add_new_asks(packets, net, home, number, needs, questions)
}

// ---- who takes part

// Notes who took part, behind those that took part before, unless it is one of them.
fn note_taker(node: u8, takers: &mut Vec<u8>) -> Result<(), AllocError>
    ensures ok { OnOk result (takers.new.items ≡ with_taker node takers.old.items) }
    ensures err { OnErr result (takers.new.items ≡ takers.old.items) }
{
    if has_node(node, takers.as_slice()) {
        return Ok(());
    }
    takers.push(node)?;
    Ok(())
}

impl Initiator {
    /// A checkpoint under the next number of a node with this record, from this image: each node is asked of which the image
    /// received more than the permanent one did. Nobody has answered yet. Refuses for want of memory alone.
    pub fn begin(
        alloc: Global,
        net: &Net,
        home: u8,
        kept: &Record,
        image: &Image,
    ) -> Result<Initiator, AllocError>
        requires listed { home < length kept.now.highest }
        requires less { highest_seen home kept.now < MAX_COUNT }
        ensures { IfOk result (λ initiator. initiator
            ≡ live_begun (network_of net.now.program) home kept.now image.now) }
    {
        let highest = kept.highest[usize::from(home)];
        Ok(Initiator {
            number: highest + 1,
            questions: questions_of(alloc, net, home, &kept.permanent, image)?,
            takers: Vec::new(alloc),
        })
    }

    /// Its number.
    pub fn number(&self) -> u64
        ensures { result ≡ self.now.number }
    {
        self.number
    }

    /// Whether something was asked of a channel.
    pub fn was_asked(&self, channel: u16) -> bool
        ensures { result ≡ was_asked channel self.now.questions }
    {
        was_asked(self.questions.as_slice(), channel)
    }

    /// Whether no answer is missing.
    pub fn is_answered(&self) -> bool
        ensures { result ≡ all_answered self.now.questions }
    {
        let questions = self.questions.as_slice();
        for question in questions {
            if is_open(question) {
                return false;
            }
        }
        true
    }

    /// Adds the questions that aren't answered, channels ascending. Refuses for want of memory alone, and then adds none.
    pub fn add_asks(&self, packets: &mut Vec<Packet>, net: &Net, home: u8) -> Result<(), AllocError>
        ensures ok { OnOk result (packets.new.items ≡ packets.old.items
            ++ live_asks (network_of net.now.program) home (Some self.now)) }
        ensures err { OnErr result (packets.new.items ≡ packets.old.items) }
    {
        let before = packets.len();
        let end = add_open_asks(packets, net, home, self.number, self.questions.as_slice());
        if end.is_err() {
            packets.truncate(before);
        }
        end
    }

    // Whether an answer is missing of this channel.
    fn is_open_at(&self, channel: usize) -> bool
        ensures { result ≡ is_open_at (slice_get self.now.questions channel) }
    {
        match self.questions.get(channel) {
            Some(question) => is_open(question),
            None => false,
        }
    }

    // Whether an answer is missing of this channel, for the checkpoint of this number.
    fn awaits(&self, number: u64, channel: usize) -> bool
        ensures { result ≡ awaits number channel (Some self.now) }
    {
        self.number == number && self.is_open_at(channel)
    }

    /// A node says that what was asked for is kept for good. Nothing changes where no answer is missing.
    pub fn on_covered(&mut self, number: u64, channel: u16)
        ensures { Some self.new ≡ covered_live number channel (Some self.old) }
    {
        let place = usize::from(channel);
        if self.awaits(number, place) {
            note(self.questions.as_mut_slice(), place, Answer::ByCovered);
        }
    }

    fn copy(&self) -> Result<Initiator, AllocError>
        ensures { IfOk result (λ copy. copy ≡ self.now) }
    {
        Ok(Initiator {
            number: self.number,
            questions: self.questions.clone()?,
            takers: self.takers.clone()?,
        })
    }

    /// The same checkpoint once a node took part of which this channel was asked, and that has these needs; and the questions that
    /// its needs make. Refuses for want of memory alone.
    pub fn on_took(
        &self,
        alloc: Global,
        net: &Net,
        home: u8,
        from: u8,
        channel: u16,
        needs: &[Need],
    ) -> Result<(Initiator, Vec<Packet>), AllocError>
        ensures joined { IfOk result (λ made. made.0
            ≡ joined_live (network_of net.now.program) home from channel needs.now self.now) }
        ensures asks { IfOk result (λ made. made.1.items
            ≡ joined_asks (network_of net.now.program) home channel needs.now (Some self.now)) }
    {
        let mut joined = self.copy()?;
        note_taker(from, &mut joined.takers)?;
        let mut asks = Vec::new(alloc);
        add_asks_behind(
            &mut asks,
            net,
            home,
            self.number,
            channel,
            needs,
            joined.questions.as_mut_slice(),
        )?;
        Ok((joined, asks))
    }

    /// Who takes part, of so many nodes, ascending.
    pub fn participants(&self, alloc: Global, nodes: u8) -> Result<Vec<u8>, AllocError>
        ensures { IfOk result
            (λ participants. participants.items ≡ participants_of nodes self.now.takers) }
    {
        let takers = self.takers.as_slice();
        let mut participants = Vec::new(alloc);
        for node in 0..nodes {
            if has_node(node, takers) {
                participants.push(node)?;
            }
        }
        Ok(participants)
    }

    /// What those who take part are told, of so many nodes, once it is decided.
    pub fn commits(&self, alloc: Global, home: u8, nodes: u8) -> Result<Vec<Packet>, AllocError>
        ensures { IfOk result
            (λ packets. packets.items ≡ commit_packets home nodes (Some self.now)) }
    {
        let participants = self.participants(alloc, nodes)?;
        let mut packets = Vec::with_capacity(alloc, participants.len())?;
        for node in participants.as_slice() {
            packets.push(commit_to(home, self.number, *node))?;
        }
        Ok(packets)
    }
}

/// That a checkpoint of this number is decided, as a node that takes part is told.
pub fn commit_to(home: u8, number: u64, to: u8) -> Packet
    ensures { result ≡ commit_to home number to }
{
    Packet {
        from: home,
        to,
        body: Body::Commit { number },
    }
}
