//! A process on whole histories: what it puts on each channel.

ghost use Rattle.std.specs.Prelude.{◌≡◌, ℕ, List, ◌<◌, ◌≤◌, [], ◌∷◌, ◌++◌, length, slice_index, slice_set};
ghost use Rattle.std.specs.Prelude.{IsTrue, IfOk, OnOk, IsErrOf};
ghost use Rattle.kahn_net.specs.Common.{history_of, Nothing, block_of, code_of, then_of, is_passing, rounds};
ghost use Rattle.kahn_net.specs.Common.{trace_of, HasPassingLoop, put_after};
ghost use Rattle.stream_eq.specs.Limits.{IsWithin, GoesPast};
ghost use Rattle.stream_eq.specs.Play.{IsPlayed, put_by_passes, put_by_process};

use crate::evaluate::{is_zero, set_variable, value};
use crate::fault::Fault;
use crate::unread::{Unread, all_unread, take_item};
use kahn_net::{History, Process, Statement};
use std::alloc::Global;

/// Puts an item on a channel, unless that goes past the channel's limit.
fn put_item(sent: &mut [History], limits: &[usize], channel: usize, item: i64) -> Result<(), Fault>
    requires { length limits.now ≡ length sent.old }
    ensures ok { OnOk result (sent.new
        ≡ slice_set sent.old channel (history_of sent.old channel ++ item ∷ [])) }
    ensures room { OnOk result
        (channel < length sent.old
        → length (history_of sent.old channel) < slice_index limits.now channel) }
    ensures long_here { IsErrOf result Fault.Long → channel < length sent.old }
    ensures long { IsErrOf result Fault.Long
        → slice_index limits.now channel ≤ length (history_of sent.old channel) }
{
    if channel >= sent.len() {
        return Ok(());
    }
    let history = &mut sent[channel];
    if history.len() >= limits[channel] {
        return Err(Fault::Long);
    }
    history.push(item)?;
    Ok(())
}

/// Makes the acts of a statement until one waits or stops, and puts their items. Answers whether it
/// ended.
#[cycle(play)]
fn play_statement(
    statement: &Statement,
    variables: &mut [i64],
    unread: &mut [Unread<'_>],
    limits: &[usize],
    sent: &mut [History],
) -> Result<bool, Fault>
    requires { length limits.now ≡ length sent.old }
    ensures played { IfOk result
        (λ ended. (site : ℕ) (left : List ℕ) → IsPlayed
        (trace_of site left (then_of statement.now Nothing) variables.old unread.old) sent.old
        sent.new ended variables.new unread.new) }
    ensures within { OnOk result (IsWithin limits.now sent.old → IsWithin limits.now sent.new) }
    ensures long { IsErrOf result Fault.Long
        → (site : ℕ) (left : List ℕ) → GoesPast limits.now
        (put_after (trace_of site left
        (then_of statement.now Nothing) variables.old unread.old).steps sent.old) }
{
    match statement {
        Statement::Get { variable, channel } => {
            let Some(item) = take_item(unread, *channel) else {
                return Ok(false);
            };
            set_variable(variables, *variable, item);
            Ok(true)
        }
        Statement::Assign {
            variable,
            value: expr,
        } => {
            let item = value(expr, variables);
            set_variable(variables, *variable, item);
            Ok(true)
        }
        Statement::Put {
            value: expr,
            channel,
        } => {
            let item = value(expr, variables);
            put_item(sent, limits, *channel, item)?;
            Ok(true)
        }
        Statement::Stop => Ok(false),
        Statement::If {
            test,
            first,
            second,
        } => {
            if is_zero(test, variables) {
                play_statements(second, variables, unread, limits, sent)
            } else {
                play_statements(first, variables, unread, limits, sent)
            }
        }
        Statement::Repeat { times, body } => {
            play_repeated(body, *times, variables, unread, limits, sent)
        }
    }
}

/// Makes the acts of these statements so many times, until one waits or stops, and puts their items. Answers whether
/// they ended.
#[cycle(play)]
fn play_repeated(
    body: &[Statement],
    times: u16,
    variables: &mut [i64],
    unread: &mut [Unread<'_>],
    limits: &[usize],
    sent: &mut [History],
) -> Result<bool, Fault>
    requires { length limits.now ≡ length sent.old }
    ensures played { IfOk result
        (λ ended. (site : ℕ) (left : List ℕ) → IsPlayed
        (rounds times (λ k. trace_of site (left ++ k ∷ []) (block_of body.now)) variables.old
        unread.old) sent.old sent.new ended variables.new unread.new) }
    ensures within { OnOk result (IsWithin limits.now sent.old → IsWithin limits.now sent.new) }
    ensures long { IsErrOf result Fault.Long
        → (site : ℕ) (left : List ℕ) → GoesPast limits.now
        (put_after (rounds times (λ k. trace_of site (left ++ k ∷ []) (block_of body.now))
        variables.old unread.old).steps sent.old) }
{
    for _ in 0..times {
        if !play_statements(body, variables, unread, limits, sent)? {
            return Ok(false);
        }
    }
    Ok(true)
}

/// Makes the acts of these statements until one waits or stops, and puts their items. Answers
/// whether they ended.
#[cycle(play)]
fn play_statements(
    statements: &[Statement],
    variables: &mut [i64],
    unread: &mut [Unread<'_>],
    limits: &[usize],
    sent: &mut [History],
) -> Result<bool, Fault>
    requires { length limits.now ≡ length sent.old }
    ensures played { IfOk result
        (λ ended. (site : ℕ) (left : List ℕ) → IsPlayed
        (trace_of site left (block_of statements.now) variables.old unread.old) sent.old sent.new
        ended variables.new unread.new) }
    ensures within { OnOk result (IsWithin limits.now sent.old → IsWithin limits.now sent.new) }
    ensures long { IsErrOf result Fault.Long
        → (site : ℕ) (left : List ℕ) → GoesPast limits.now
        (put_after (trace_of site left
        (block_of statements.now) variables.old unread.old).steps sent.old) }
{
    for statement in statements {
        if !play_statement(statement, variables, unread, limits, sent)? {
            return Ok(false);
        }
    }
    Ok(true)
}

/// Makes the acts of a loop's body again and again until one waits or stops, and puts their items.
fn play_loop(
    body: &[Statement],
    variables: &mut [i64],
    unread: &mut [Unread<'_>],
    limits: &[usize],
    sent: &mut [History],
) -> Result<(), Fault>
    requires passing { IsTrue (is_passing (block_of body.now)) }
    requires count { length limits.now ≡ length sent.old }
    ensures played { OnOk result
        ((site : ℕ) → sent.new ≡ put_by_passes site
        (block_of body.now) variables.old unread.old sent.old) }
    ensures within { OnOk result (IsWithin limits.now sent.old → IsWithin limits.now sent.new) }
    ensures long { IsErrOf result Fault.Long
        → (site : ℕ) → GoesPast limits.now
        (put_by_passes site (block_of body.now) variables.old unread.old sent.old) }
{
    while play_statements(body, variables, unread, limits, sent)? {}
    Ok(())
}

/// Makes the acts of a process from its first variables on, and puts their items.
fn play(
    process: &Process,
    variables: &mut [i64],
    unread: &mut [Unread<'_>],
    limits: &[usize],
    sent: &mut [History],
) -> Result<(), Fault>
    requires first { variables.old ≡ (code_of process.now).vars }
    requires passing { HasPassingLoop (code_of process.now) }
    requires count { length limits.now ≡ length sent.old }
    ensures played { OnOk result
        (sent.new ≡ put_by_process (code_of process.now) unread.old sent.old) }
    ensures within { OnOk result (IsWithin limits.now sent.old → IsWithin limits.now sent.new) }
    ensures long { IsErrOf result Fault.Long
        → GoesPast limits.now (put_by_process (code_of process.now) unread.old sent.old) }
{
    let ended = play_statements(&process.prelude, variables, unread, limits, sent)?;
    if !ended {
        return Ok(());
    }
    let Some(body) = &process.body else {
        return Ok(());
    };
    play_loop(body, variables, unread, limits, sent)
}

/// Puts what a process puts on each channel by its function of these histories, unless that goes
/// past a channel's limit.
pub fn put_outputs(
    alloc: Global,
    process: &Process,
    histories: &[History],
    limits: &[usize],
    sent: &mut [History],
) -> Result<(), Fault>
    requires passing { HasPassingLoop (code_of process.now) }
    requires count { length limits.now ≡ length sent.old }
    ensures played { OnOk result
        (sent.new ≡ put_by_process (code_of process.now) histories.now sent.old) }
    ensures within { OnOk result (IsWithin limits.now sent.old → IsWithin limits.now sent.new) }
    ensures long { IsErrOf result Fault.Long
        → GoesPast limits.now (put_by_process (code_of process.now) histories.now sent.old) }
{
    let mut variables = Vec::from_slice(alloc, process.variables.as_slice())?;
    let mut unread = all_unread(alloc, histories)?;
    play(process, &mut variables, &mut unread, limits, sent)
}
