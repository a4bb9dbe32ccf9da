//! Names replaced by numbers, use by use in order of the text: 11, 12 and 13. Of an `if` the test comes first, then the
//! first block, then the second.

ghost use Rattle.std.specs.Prelude.{◌≡◌, ◌<◌, ℕ, map, length, slice_get, Some, IfErr, IfOk};
ghost use Rattle.net_text.specs.Trees.{NothingTree, block_tree, expr_tree, process_tree, then_tree, repeated_tree};
ghost use Rattle.net_text.specs.declared.tree.Role.TheVariants.{Input, Output};
ghost use Rattle.net_check.specs.Claims.{AreResolved, Claims, FaultOfText, NameFault, UseFault};
ghost use Rattle.net_check.specs.Ready.{AreDeclared};
ghost use Rattle.net_text.specs.Trees.{ProcessTree};
ghost use Rattle.net_check.specs.Resolution.{ResolvesBlock, ResolvesExpr, ResolvesLoop, ResolvesProcess, channel_names, initials, variable_names};
ghost use Rattle.kahn_net.specs.Common.{Nothing, block_of, code_of, then_of, tree_of, block_gets, block_puts};
ghost use Rattle.kahn_net.specs.Common.{code_gets, code_puts};
ghost use Rattle.kahn_net.specs.Syntax.{body_of};
ghost use Rattle.net_check.specs.Uses.{block_uses, expr_uses, loop_uses, process_uses};
ghost use Rattle.kahn_net.specs.Valid.{body_gets, body_puts};

use crate::declared::Declared;
use crate::ends::{Ends, Scope};
use crate::fault::NetFault;
use kahn_net::{Expr, Link, Process, Statement};
use net_text::{ChannelText, ExprText, LoopText, ProcessText, StatementText, VariableText};
use std::alloc::{AllocError, Global};

fn resolve_expr(alloc: Global, scope: &Scope, expr: &ExprText) -> Result<Expr, NetFault>
    ensures ok { IfOk result (λ e. ResolvesExpr (variable_names scope.now.variables.now)
        (expr_tree expr.now) (tree_of e)) }
    ensures err { IfErr result
        (NameFault (channel_names scope.now.channels.now) (variable_names scope.now.variables.now)
        (expr_uses (expr_tree expr.now))) }
{
    match expr {
        ExprText::Literal(n) => Ok(Expr::Literal(*n)),
        ExprText::Variable(name) => {
            let variable = scope.variable(name)?;
            Ok(Expr::Variable(variable))
        }
        ExprText::Negate(value) => {
            let value = resolve_expr(alloc, scope, value)?;
            let value = Box::new(alloc, value)?;
            Ok(Expr::Negate(value))
        }
        ExprText::Chain { first, links } => {
            let first = resolve_expr(alloc, scope, first)?;
            let first = Box::new(alloc, first)?;
            let mut resolved = Vec::new(alloc);
            for link in links {
                let value = resolve_expr(alloc, scope, &link.value)?;
                resolved.push(Link {
                    operator: link.operator,
                    value,
                })?;
            }
            Ok(Expr::Chain {
                first,
                links: resolved,
            })
        }
    }
}

#[cycle(statements)]
fn resolve_statement(
    alloc: Global,
    scope: &Scope,
    ends: &mut Ends,
    statement: &StatementText,
) -> Result<Statement, NetFault>
    requires producers { length ends.old.producers ≡ length scope.now.channels.now }
    requires consumers { length ends.old.consumers ≡ length scope.now.channels.now }
    ensures ok { IfOk result (λ s. ResolvesBlock (channel_names scope.now.channels.now)
        (variable_names scope.now.variables.now) (then_tree statement.now NothingTree)
        (then_of s Nothing)) }
    ensures puts { IfOk result
        (λ s. Claims scope.now.channels.now Input scope.now.process
        (λ c. block_puts c (then_of s Nothing)) ends.old.producers ends.new.producers) }
    ensures gets { IfOk result
        (λ s. Claims scope.now.channels.now Output scope.now.process
        (λ c. block_gets c (then_of s Nothing)) ends.old.consumers ends.new.consumers) }
    ensures err { IfErr result
        (UseFault scope.now.channels.now
        (variable_names scope.now.variables.now) scope.now.process ends.old.producers
        ends.old.consumers (block_uses (then_tree statement.now NothingTree))) }
{
    match statement {
        StatementText::Get { variable, channel } => {
            let variable = scope.variable(variable)?;
            let channel = ends.get_from(scope, channel)?;
            Ok(Statement::Get { variable, channel })
        }
        StatementText::Assign { variable, value } => {
            let variable = scope.variable(variable)?;
            let value = resolve_expr(alloc, scope, value)?;
            Ok(Statement::Assign { variable, value })
        }
        StatementText::Put { value, channel } => {
            let value = resolve_expr(alloc, scope, value)?;
            let channel = ends.put_on(scope, channel)?;
            Ok(Statement::Put { value, channel })
        }
        StatementText::Stop => Ok(Statement::Stop),
        StatementText::If {
            test,
            first,
            second,
        } => {
            let test = resolve_expr(alloc, scope, test)?;
            let first = resolve_statements(alloc, scope, ends, first)?;
            let second = resolve_statements(alloc, scope, ends, second)?;
            Ok(Statement::If {
                test,
                first,
                second,
            })
        }
        StatementText::Repeat { times, body, .. } => {
            let body = resolve_statements(alloc, scope, ends, body)?;
            Ok(Statement::Repeat {
                times: *times,
                body,
            })
        }
    }
}

#[cycle(statements)]
fn resolve_statements(
    alloc: Global,
    scope: &Scope,
    ends: &mut Ends,
    statements: &[StatementText],
) -> Result<Vec<Statement>, NetFault>
    requires producers { length ends.old.producers ≡ length scope.now.channels.now }
    requires consumers { length ends.old.consumers ≡ length scope.now.channels.now }
    ensures ok { IfOk result (λ ss. ResolvesBlock (channel_names scope.now.channels.now)
        (variable_names scope.now.variables.now) (block_tree statements.now) (block_of ss.items)) }
    ensures puts { IfOk result
        (λ ss. Claims scope.now.channels.now Input scope.now.process
        (λ c. block_puts c (block_of ss.items)) ends.old.producers ends.new.producers) }
    ensures gets { IfOk result
        (λ ss. Claims scope.now.channels.now Output scope.now.process
        (λ c. block_gets c (block_of ss.items)) ends.old.consumers ends.new.consumers) }
    ensures err { IfErr result
        (UseFault scope.now.channels.now
        (variable_names scope.now.variables.now) scope.now.process ends.old.producers
        ends.old.consumers (block_uses (block_tree statements.now))) }
{
    let mut resolved = Vec::new(alloc);
    for statement in statements {
        let next = resolve_statement(alloc, scope, ends, statement)?;
        resolved.push(next)?;
    }
    Ok(resolved)
}

fn resolve_loop(
    alloc: Global,
    scope: &Scope,
    ends: &mut Ends,
    repeated: &Option<LoopText>,
) -> Result<Option<Vec<Statement>>, NetFault>
    requires producers { length ends.old.producers ≡ length scope.now.channels.now }
    requires consumers { length ends.old.consumers ≡ length scope.now.channels.now }
    ensures ok { IfOk result (λ body. ResolvesLoop (channel_names scope.now.channels.now)
        (variable_names scope.now.variables.now) (repeated_tree repeated.now) (body_of body)) }
    ensures puts { IfOk result
        (λ body. Claims scope.now.channels.now Input scope.now.process
        (λ c. body_puts c (body_of body)) ends.old.producers ends.new.producers) }
    ensures gets { IfOk result
        (λ body. Claims scope.now.channels.now Output scope.now.process
        (λ c. body_gets c (body_of body)) ends.old.consumers ends.new.consumers) }
    ensures err { IfErr result
        (UseFault scope.now.channels.now
        (variable_names scope.now.variables.now) scope.now.process ends.old.producers
        ends.old.consumers (loop_uses (repeated_tree repeated.now))) }
{
    match repeated {
        None => Ok(None),
        Some(repeated) => {
            let body = resolve_statements(alloc, scope, ends, &repeated.body)?;
            Ok(Some(body))
        }
    }
}

fn initial_values(alloc: Global, variables: &[VariableText]) -> Result<Vec<i64>, AllocError>
    ensures { IfOk result (λ values. values.items ≡ initials variables.now) }
{
    variables.iter().map(|v| v.initial).collect(alloc)
}

fn resolve_process(
    alloc: Global,
    channels: &[ChannelText],
    number: usize,
    ends: &mut Ends,
    process: &ProcessText,
) -> Result<Process, NetFault>
    requires producers { length ends.old.producers ≡ length channels.now }
    requires consumers { length ends.old.consumers ≡ length channels.now }
    requires node { process.now.node.number < 256 }
    ensures ok { IfOk result (λ p. ResolvesProcess (channel_names channels.now)
        (process_tree process.now) (code_of p)) }
    ensures puts { IfOk result
        (λ p. Claims channels.now Input number
        (λ c. code_puts c (code_of p)) ends.old.producers ends.new.producers) }
    ensures gets { IfOk result
        (λ p. Claims channels.now Output number
        (λ c. code_gets c (code_of p)) ends.old.consumers ends.new.consumers) }
    ensures err { IfErr result
        (UseFault channels.now (variable_names process.now.variables.items) number
        ends.old.producers ends.old.consumers (process_uses (process_tree process.now))) }
{
    let scope = Scope {
        channels,
        variables: &process.variables,
        process: number,
    };
    let prelude = resolve_statements(alloc, &scope, ends, &process.prelude)?;
    let body = resolve_loop(alloc, &scope, ends, &process.repeated)?;
    let variables = initial_values(alloc, &process.variables)?;
    Ok(Process {
        node: process.node.number as u8,
        variables,
        prelude,
        body,
    })
}

/// The processes of a text by number, and what stands at the ends of its channels.
#[derive(Drop)]
pub(crate) struct Resolved {
    pub processes: Vec<Process>,
    pub ends: Ends,
}

/// Resolves each process, in order of the text: 11, 12 and 13 in order of the uses.
pub(crate) fn resolve(alloc: Global, declared: &Declared) -> Result<Resolved, NetFault>
    requires { AreDeclared declared.now.channels.items
        (map process_tree declared.now.processes.items) }
    ensures ok { IfOk result (λ r. AreResolved declared.now.channels.items
        (map process_tree declared.now.processes.items)
        (map code_of r.processes.items) r.ends.producers r.ends.consumers) }
    ensures err { IfErr result
        (FaultOfText declared.now.channels.items (map process_tree declared.now.processes.items)) }
{
    resolve_all(alloc, &declared.channels, &declared.processes)
}

fn resolve_all(
    alloc: Global,
    channels: &[ChannelText],
    processes: &[ProcessText],
) -> Result<Resolved, NetFault>
    requires { (p : ℕ) (process : ProcessTree) → slice_get (map process_tree processes.now) p
        ≡ Some process → process.node.number < 256 }
    ensures ok { IfOk result (λ r. AreResolved channels.now (map process_tree processes.now)
        (map code_of r.processes.items) r.ends.producers r.ends.consumers) }
    ensures err { IfErr result (FaultOfText channels.now (map process_tree processes.now)) }
{
    let mut ends = Ends::outside(alloc, channels.len())?;
    let mut resolved = Vec::new(alloc);
    for (number, process) in processes.iter().enumerate() {
        let next = resolve_process(alloc, channels, number, &mut ends, process)?;
        resolved.push(next)?;
    }
    Ok(Resolved {
        processes: resolved,
        ends,
    })
}
