//! A node is asked whether it keeps so many items of a channel for good.
ghost use Rattle.std.specs.Prelude.{◌≡◌, ◌<◌, length, option_copied};
ghost use Rattle.protocol.specs.Node.Answering.{holds, is_past, answer_of_holder, answer_of_free, answer_above, answer_to_ask};
ghost use Rattle.ckpt_core.specs.AskView.{answer_view, mode_with};

use datagram::Reason;
use record::{Image, Record, Tentative};

/// What a node does that is asked.
#[derive(Clone, Copy, Debug, PartialEq, Eq)]
pub enum AskAnswer {
    /// It answers nothing.
    Silent,
    /// Its permanent image has put so many items.
    CoveredBefore,
    /// It holds an image of the checkpoint, which has put so many.
    TookBefore,
    /// It takes part: what it has now becomes its tentative image.
    TakesNow,
    /// It takes no part.
    Declines(Reason),
}

/// The question of an initiator: has so many items of a channel been put for good, for its checkpoint of this number?
#[derive(Clone, Copy, Debug, PartialEq, Eq)]
pub struct Question {
    pub initiator: u8,
    pub number: u64,
    pub channel: u8,
    pub count: u64,
}

/// Whether exactly the image of this initiator's checkpoint of this number is held.
pub fn holds(tentative: &Option<Tentative>, initiator: u8, number: u64) -> bool
    ensures { result ≡ holds initiator number tentative.now }
{
    match tentative {
        Some(held) => held.initiator == initiator && held.number == number,
        None => false,
    }
}

// Whether the number was seen, of a checkpoint that isn't held any more.
fn is_past(kept: &Record, question: Question) -> bool
    requires { question.initiator < length kept.now.highest }
    ensures { result ≡ is_past question.initiator question.number kept.now }
{
    question.number <= kept.highest[usize::from(question.initiator)]
        && !holds(&kept.tentative, question.initiator, question.number)
}

// The answer of a node that holds this image, of the question's checkpoint or of another.
fn answer_of_holder(
    held: &Tentative,
    same: bool,
    current: Option<&Image>,
    question: Question,
) -> AskAnswer
    ensures { answer_view result
        ≡ answer_of_holder question.channel question.count (mode_with (option_copied current.entry)) same held.now }
{
    if same {
        if question.count <= held.image.sent(question.channel) {
            AskAnswer::TookBefore
        } else {
            AskAnswer::Declines(Reason::Behind)
        }
    } else if current.is_some() {
        AskAnswer::Declines(Reason::Busy)
    } else {
        AskAnswer::Declines(Reason::Recovering)
    }
}

// The answer of a node that holds none.
fn answer_of_free(current: Option<&Image>, question: Question) -> AskAnswer
    ensures { answer_view result ≡ answer_of_free question.channel question.count (mode_with (option_copied current.entry)) }
{
    match current {
        None => AskAnswer::Silent,
        Some(image) => {
            if image.sent(question.channel) < question.count {
                AskAnswer::Declines(Reason::Behind)
            } else {
                AskAnswer::TakesNow
            }
        }
    }
}

// The answer where the permanent image hasn't put so many.
fn answer_above(
    tentative: &Option<Tentative>,
    current: Option<&Image>,
    question: Question,
) -> AskAnswer
    ensures { answer_view result ≡ answer_above question.initiator question.number question.channel
        question.count (mode_with (option_copied current.entry)) tentative.now }
{
    match tentative {
        Some(held) => {
            let same = holds(tentative, question.initiator, question.number);
            answer_of_holder(held, same, current, question)
        }
        None => answer_of_free(current, question),
    }
}

/// The answer of a node with this record, and with this current image unless it is in doubt: by the first rule that holds.
pub fn answer_to_ask(kept: &Record, current: Option<&Image>, question: Question) -> AskAnswer
    requires { question.initiator < length kept.now.highest }
    ensures { answer_view result ≡ answer_to_ask question.initiator question.number question.channel
        question.count kept.now (mode_with (option_copied current.entry)) }
{
    if is_past(kept, question) {
        AskAnswer::Silent
    } else if question.count <= kept.permanent.sent(question.channel) {
        AskAnswer::CoveredBefore
    } else {
        answer_above(&kept.tentative, current, question)
    }
}
