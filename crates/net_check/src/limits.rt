//! What each process has to keep to: at most 4,096 units, repetitions that are within their limits, and a loop each pass
//! of which gets an item or stops. Each statement is one unit, and so is each literal, each variable in an expression,
//! each operator and each minus of one value; a repetition's number is a literal.

ghost use Rattle.std.specs.Prelude.{◌≡◌, ◌+◌, ◌<◌, ◌≤◌, ◌↔◌, ℕ, map, slice_get, Some, IsTrue, IfErr, MatchOption, OnOk, true};
ghost use Rattle.net_text.specs.Trees.{NothingTree, ProcessTree, block_tree, expr_tree, process_tree, repeated_tree, then_tree};
ghost use Rattle.net_check.specs.Ready.{FaultOfProcess, FaultOfProcesses, IsFit};
ghost use Rattle.net_check.specs.Texts.{block_units_text, expr_units_text, is_passing_text, loop_past_line, loop_units_text, past_line, process_past_line, process_units_text};
ghost use Rattle.kahn_net.specs.Common.{is_repeat_within};

use crate::fault::NetFault;
use kahn_net::{MAX_NESTED_TIMES, MAX_REPEATS, MAX_TIMES, MAX_UNITS};
use net_text::{ExprText, LoopText, ProcessText, StatementText};

/// What is left of so many units after an expression.
fn units_after_expr(expr: &ExprText, left: usize) -> Option<usize>
    ensures { MatchOption result (left < expr_units_text (expr_tree expr.now))
        (λ r. r + expr_units_text (expr_tree expr.now) ≡ left) }
{
    match expr {
        ExprText::Literal(_) => left.checked_sub(1),
        ExprText::Variable(_) => left.checked_sub(1),
        ExprText::Negate(value) => {
            let rest = left.checked_sub(1)?;
            units_after_expr(value, rest)
        }
        ExprText::Chain { first, links } => {
            let mut rest = units_after_expr(first, left)?;
            for link in links {
                if rest == 0 {
                    return None;
                }
                rest = units_after_expr(&link.value, rest - 1)?;
            }
            Some(rest)
        }
    }
}

/// What is left of so many units after a statement.
#[cycle(units)]
fn units_after_statement(statement: &StatementText, left: usize) -> Option<usize>
    ensures { MatchOption result (left < block_units_text (then_tree statement.now NothingTree))
        (λ r. r + block_units_text (then_tree statement.now NothingTree) ≡ left) }
{
    if left == 0 {
        return None;
    }
    match statement {
        StatementText::Get { .. } => Some(left - 1),
        StatementText::Assign { value, .. } => units_after_expr(value, left - 1),
        StatementText::Put { value, .. } => units_after_expr(value, left - 1),
        StatementText::Stop => Some(left - 1),
        StatementText::If {
            test,
            first,
            second,
        } => {
            let rest = units_after_expr(test, left - 1)?;
            let rest = units_after(first, rest)?;
            units_after(second, rest)
        }
        StatementText::Repeat { body, .. } => {
            let rest = (left - 1).checked_sub(1)?;
            units_after(body, rest)
        }
    }
}

/// What is left of so many units after these statements.
#[cycle(units)]
fn units_after(statements: &[StatementText], left: usize) -> Option<usize>
    ensures { MatchOption result (left < block_units_text (block_tree statements.now))
        (λ r. r + block_units_text (block_tree statements.now) ≡ left) }
{
    let mut rest = left;
    for statement in statements {
        match units_after_statement(statement, rest) {
            Some(less) => rest = less,
            None => return None,
        }
    }
    Some(rest)
}

/// Whether a loop has no more than so many units.
fn has_loop_within(repeated: &Option<LoopText>, left: usize) -> bool
    ensures { IsTrue result ↔ (loop_units_text (repeated_tree repeated.now) ≤ left) }
{
    match repeated {
        Some(repeated) => units_after(&repeated.body, left).is_some(),
        None => true,
    }
}

/// Whether a process has at most 4,096 units.
fn has_few_units(process: &ProcessText) -> bool
    ensures { IsTrue result ↔ (process_units_text (process_tree process.now) ≤ MAX_UNITS) }
{
    match units_after(&process.prelude, MAX_UNITS) {
        Some(left) => has_loop_within(&process.repeated, left),
        None => false,
    }
}

/// Whether a statement gets an item or stops, whatever it tests.
#[cycle(passing)]
fn is_passing_statement(statement: &StatementText) -> bool
    ensures { result ≡ is_passing_text (then_tree statement.now NothingTree) }
{
    match statement {
        StatementText::Get { .. } | StatementText::Stop => true,
        StatementText::Assign { .. } | StatementText::Put { .. } => false,
        StatementText::If { first, second, .. } => {
            if !is_passing(first) {
                return false;
            }
            is_passing(second)
        }
        StatementText::Repeat { times, body, .. } => {
            if *times == 0 {
                return false;
            }
            is_passing(body)
        }
    }
}

/// Whether one of these statements gets an item or stops, whatever they test.
#[cycle(passing)]
fn is_passing(statements: &[StatementText]) -> bool
    ensures { result ≡ is_passing_text (block_tree statements.now) }
{
    for statement in statements {
        if is_passing_statement(statement) {
            return true;
        }
    }
    false
}

/// Whether a repetition of this number is within its limits, where so many more may be opened and those round it are made
/// so often in all.
fn is_repeat_within(open_yet: usize, round: u32, times: u16) -> bool
    requires { round ≤ MAX_NESTED_TIMES }
    ensures { result ≡ is_repeat_within open_yet round times }
{
    open_yet > 0
        && times > 0
        && times <= MAX_TIMES
        && round as u64 * times as u64 <= MAX_NESTED_TIMES as u64
}

/// The line of the first repetition in a statement that is past its limits.
#[cycle(past)]
fn past_line_of(statement: &StatementText, open_yet: usize, round: u32) -> Option<usize>
    requires { round ≤ MAX_NESTED_TIMES }
    ensures { result ≡ past_line open_yet round (then_tree statement.now NothingTree) }
{
    match statement {
        StatementText::If { first, second, .. } => match past_line(first, open_yet, round) {
            Some(line) => Some(line),
            None => past_line(second, open_yet, round),
        },
        StatementText::Repeat { times, line, body } => {
            if !is_repeat_within(open_yet, round, *times) {
                return Some(*line);
            }
            past_line(body, open_yet - 1, round * *times as u32)
        }
        _ => None,
    }
}

/// The line of the first repetition in these statements that is past its limits, where so many more may be opened and
/// those round them are made so often in all.
#[cycle(past)]
fn past_line(statements: &[StatementText], open_yet: usize, round: u32) -> Option<usize>
    requires { round ≤ MAX_NESTED_TIMES }
    ensures { result ≡ past_line open_yet round (block_tree statements.now) }
{
    for statement in statements {
        if let Some(line) = past_line_of(statement, open_yet, round) {
            return Some(line);
        }
    }
    None
}

fn loop_past_line(repeated: &Option<LoopText>) -> Option<usize>
    ensures { result ≡ loop_past_line (repeated_tree repeated.now) }
{
    match repeated {
        Some(repeated) => past_line(&repeated.body, MAX_REPEATS, 1),
        None => None,
    }
}

/// The line of the first repetition of a process that is past its limits.
fn process_past_line(process: &ProcessText) -> Option<usize>
    ensures { result ≡ process_past_line (process_tree process.now) }
{
    match past_line(&process.prelude, MAX_REPEATS, 1) {
        Some(line) => Some(line),
        None => loop_past_line(&process.repeated),
    }
}

/// 15, then 14.
fn check_limits(process: &ProcessText) -> Result<(), NetFault>
    ensures ok { OnOk result (IsFit (process_tree process.now)) }
    ensures err { IfErr result (FaultOfProcess (process_tree process.now)) }
{
    if !has_few_units(process) {
        return Err(NetFault::Limit { line: process.line });
    }
    if let Some(line) = process_past_line(process) {
        return Err(NetFault::Limit { line });
    }
    if let Some(repeated) = &process.repeated
        && !is_passing(&repeated.body)
    {
        return Err(NetFault::LoopWithoutGet {
            line: repeated.line,
        });
    }
    Ok(())
}

/// 15 and 14, process by process.
pub(crate) fn check_all_limits(processes: &[ProcessText]) -> Result<(), NetFault>
    ensures ok { OnOk result ((p : ℕ) (process : ProcessTree) → slice_get
        (map process_tree processes.now) p ≡ Some process → IsFit process) }
    ensures err { IfErr result (FaultOfProcesses (map process_tree processes.now)) }
{
    for process in processes {
        check_limits(process)?;
    }
    Ok(())
}
