//! What a line does.

ghost use Rattle.std.specs.Prelude.{◌≡◌, ◌||◌, ◌∷◌, map, IfOk, IfErr};
ghost use Rattle.std.specs.List.{list_all};
ghost use Rattle.net_text.specs.InputLines.{is_space, is_comment};
ghost use Rattle.fail_script.specs.Reading.{packet_in, crash_in, act_in, has_form, is_in_network};
ghost use Rattle.fail_script.specs.Reading.{IsLineRead, IsTextRead, IsTextFault};
ghost use Rattle.fail_script.specs.declared.words.Form.TheVariants as form;

use crate::act::{Act, ScriptLine};
use crate::fault::ScriptFault;
use crate::limits::{MAX_COUNT, MAX_ROUND, MAX_ROUNDS};
use crate::numbers::{are_apart, byte_in, node_in, number_in};
use crate::words::{Form, form_of, read_words};

// The two nodes of a packet, which differ, and its count.
fn packet_in(from: &[u8], to: &[u8], count: &[u8]) -> Option<(u8, u8, u32)>
    ensures { result ≡ packet_in from.now to.now count.now }
{
    let sender = node_in(from)?;
    let receiver = node_in(to)?;
    let count = number_in(count, 1, MAX_COUNT)?;
    if sender == receiver && !are_apart(from, to) {
        return None;
    }
    Some((sender, receiver, count))
}

// The byte to fill with at a crash, and the rounds until the node may come back.
fn crash_in(fill: &[u8], rounds: &[u8]) -> Option<(u8, u32)>
    ensures { result ≡ crash_in fill.now rounds.now }
{
    let fill = byte_in(fill)?;
    let rounds = number_in(rounds, 1, MAX_ROUNDS)?;
    Some((fill, rounds))
}

// What words of a packet that is lost do.
fn loss_of(words: &[&[u8]]) -> Option<Act>
    requires { has_form form.Lose (map (λ w. w.now) words.now) }
    ensures { result ≡ act_in form.Lose (map (λ w. w.now) words.now) }
{
    let (from, to, count) = packet_in(words[1], words[2], words[3])?;
    Some(Act::Lose { from, to, count })
}

// What words of a packet that comes twice do.
fn repeat_of(words: &[&[u8]]) -> Option<Act>
    requires { has_form form.Repeat (map (λ w. w.now) words.now) }
    ensures { result ≡ act_in form.Repeat (map (λ w. w.now) words.now) }
{
    let (from, to, count) = packet_in(words[1], words[2], words[3])?;
    Some(Act::Repeat { from, to, count })
}

// What words of a packet that is late do.
fn delay_of(words: &[&[u8]]) -> Option<Act>
    requires { has_form form.Delay (map (λ w. w.now) words.now) }
    ensures { result ≡ act_in form.Delay (map (λ w. w.now) words.now) }
{
    let (from, to, count) = packet_in(words[1], words[2], words[3])?;
    let rounds = number_in(words[4], 1, MAX_ROUNDS)?;
    Some(Act::Delay {
        from,
        to,
        count,
        rounds,
    })
}

// What words of a crash at once do.
fn crash_of(words: &[&[u8]]) -> Option<Act>
    requires { has_form form.Crash (map (λ w. w.now) words.now) }
    ensures { result ≡ act_in form.Crash (map (λ w. w.now) words.now) }
{
    let node = node_in(words[1])?;
    let (fill, rounds) = crash_in(words[3], words[4])?;
    Some(Act::Crash { node, fill, rounds })
}

// What words of a crash at a delivery do.
fn crash_at_delivery_of(words: &[&[u8]]) -> Option<Act>
    requires { has_form form.CrashAtDelivery (map (λ w. w.now) words.now) }
    ensures { result ≡ act_in form.CrashAtDelivery (map (λ w. w.now) words.now) }
{
    let node = node_in(words[1])?;
    let count = number_in(words[3], 1, MAX_COUNT)?;
    let (fill, rounds) = crash_in(words[4], words[5])?;
    Some(Act::CrashAtDelivery {
        node,
        count,
        fill,
        rounds,
    })
}

// What words of a crash inside a device call do.
fn stop_of(words: &[&[u8]]) -> Option<Act>
    requires { has_form form.StopAtCall (map (λ w. w.now) words.now) }
    ensures { result ≡ act_in form.StopAtCall (map (λ w. w.now) words.now) }
{
    let node = node_in(words[1])?;
    let count = number_in(words[3], 1, MAX_COUNT)?;
    let (fill, rounds) = crash_in(words[4], words[5])?;
    Some(Act::StopAtCall {
        node,
        count,
        fill,
        rounds,
    })
}

// What words of a device call that fails do.
fn failure_of(words: &[&[u8]]) -> Option<Act>
    requires { has_form form.FailCall (map (λ w. w.now) words.now) }
    ensures { result ≡ act_in form.FailCall (map (λ w. w.now) words.now) }
{
    let node = node_in(words[1])?;
    let count = number_in(words[3], 1, MAX_COUNT)?;
    Some(Act::FailCall { node, count })
}

// What words of a checkpoint do.
fn start_of(words: &[&[u8]]) -> Option<Act>
    requires { has_form form.Start (map (λ w. w.now) words.now) }
    ensures { result ≡ act_in form.Start (map (λ w. w.now) words.now) }
{
    let node = node_in(words[1])?;
    Some(Act::Start { node })
}

/// What words of this form do.
pub fn act_of(form: Form, words: &[&[u8]]) -> Option<Act>
    requires { has_form form (map (λ w. w.now) words.now) }
    ensures { result ≡ act_in form (map (λ w. w.now) words.now) }
{
    match form {
        Form::Lose => loss_of(words),
        Form::Repeat => repeat_of(words),
        Form::Delay => delay_of(words),
        Form::Crash => crash_of(words),
        Form::CrashAtDelivery => crash_at_delivery_of(words),
        Form::StopAtCall => stop_of(words),
        Form::FailCall => failure_of(words),
        Form::Start => start_of(words),
    }
}

// Whether the nodes that an act names are among so many.
fn is_in_network(act: &Act, nodes: u8) -> bool
    ensures { result ≡ is_in_network nodes act.now }
{
    match act {
        Act::Lose { from, to, .. } | Act::Repeat { from, to, .. } | Act::Delay { from, to, .. } => {
            *from < nodes && *to < nodes
        }
        Act::Crash { node, .. }
        | Act::CrashAtDelivery { node, .. }
        | Act::StopAtCall { node, .. }
        | Act::FailCall { node, .. }
        | Act::Start { node } => *node < nodes,
    }
}

// The line that a round and the words behind it write.
fn line_with(round: &[u8], others: &[&[u8]]) -> Option<ScriptLine>
    ensures { IsLineRead (round.now ∷ map (λ w. w.now) others.now) result }
{
    let round = number_in(round, 0, MAX_ROUND)?;
    let form = form_of(others)?;
    let act = act_of(form, others)?;
    Some(ScriptLine { round, act })
}

// The line that words write.
fn line_of(words: &[&[u8]]) -> Option<ScriptLine>
    ensures { IsLineRead (map (λ w. w.now) words.now) result }
{
    match words {
        [round, others @ ..] => line_with(round, others),
        [] => None,
    }
}

// Nothing but spaces.
fn are_spaces(bytes: &[u8]) -> bool
    ensures { result ≡ list_all is_space bytes.now }
{
    bytes.iter().all(|b| *b == b' ')
}

// Nothing but spaces, or a comment.
fn is_blank(bytes: &[u8]) -> bool
    ensures { result ≡ (list_all is_space bytes.now || is_comment bytes.now) }
{
    if bytes.is_empty() {
        return true;
    }
    are_spaces(bytes) || bytes[0] == b'#'
}

/// What is read of the line of this number, behind a line of this round, in a network of so many nodes. Its words are left in
/// `words`, so that the next line finds room for its own there.
pub fn read_line<'a>(
    words: &mut Vec<&'a [u8]>,
    text: &'a [u8],
    number: usize,
    nodes: u8,
    round: u32,
) -> Result<Option<ScriptLine>, ScriptFault>
    ensures ok { IfOk result (IsTextRead nodes round text.now) }
    ensures err { IfErr result (IsTextFault nodes number round text.now) }
{
    if is_blank(text) {
        return Ok(None);
    }
    read_words(words, text)?;
    let Some(line) = line_of(words) else {
        return Err(ScriptFault::BadLine { line: number });
    };
    if line.round < round {
        return Err(ScriptFault::BadLine { line: number });
    }
    if !is_in_network(&line.act, nodes) {
        return Err(ScriptFault::UnknownNode { line: number });
    }
    Ok(Some(line))
}
