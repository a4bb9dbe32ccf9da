//! The code of expressions and statements, behind what was written so far.

ghost use Rattle.std.specs.Prelude.{◌≡◌, [], ◌∷◌, ◌++◌, IfOk, OnOk, length};
ghost use Rattle.kahn_net.specs.Common.{tree_of, then_of, block_of};
ghost use Rattle.kahn_net.specs.Syntax.{body_of};
ghost use Rattle.proc_code.specs.Translation.{code_to, link_to, operand_of, with_store, block_code, sites_at, loop_code, loop_sites};
ghost use Rattle.proc_code.specs.Emitting.{Emits};

use crate::instruction::{Destination, Instruction, Operand, Site, SiteAct};
use kahn_net::{Expr, Statement};
use std::alloc::AllocError;

/// One more instruction.
fn emit(code: &mut Vec<Instruction>, instruction: Instruction) -> Result<(), AllocError>
    ensures { OnOk result (code.new.items ≡ code.old.items ++ instruction ∷ []) }
{
    code.push(instruction)?;
    Ok(())
}

/// One more site, whose code is what is written next.
fn enter(sites: &mut Vec<Site>, act: SiteAct, entry: usize) -> Result<(), AllocError>
    ensures { OnOk result
        (sites.new.items ≡ sites.old.items ++ record { act = act; entry = entry } ∷ []) }
{
    sites.push(Site { act, entry })?;
    Ok(())
}

/// Where a link's value goes that so many links follow: the last one's to where that of the expression does.
fn link_to(to: Destination, later: usize) -> Destination
    ensures { result ≡ link_to to later }
{
    if later == 0 { to } else { Destination::Stack }
}

/// The code of an expression, and where its value is behind that: a variable and a number take no code, and the value of
/// any other goes there.
fn emit_expr(
    code: &mut Vec<Instruction>,
    expr: &Expr,
    to: Destination,
) -> Result<Operand, AllocError>
    ensures code { OnOk result (code.new.items ≡ code.old.items ++ code_to to (tree_of expr.now)) }
    ensures value { IfOk result (λ value. value ≡ operand_of (tree_of expr.now)) }
{
    match expr {
        Expr::Literal(value) => Ok(Operand::Literal(*value)),
        Expr::Variable(variable) => Ok(Operand::Variable(*variable)),
        Expr::Negate(value) => {
            let value = emit_expr(code, value, Destination::Stack)?;
            emit(code, Instruction::Negate { value, to })?;
            Ok(Operand::Top)
        }
        Expr::Chain { first, links } => {
            let mut later = links.len();
            let mut left = emit_expr(code, first, link_to(to, later))?;
            for link in links {
                later -= 1;
                let right = emit_expr(code, &link.value, Destination::Stack)?;
                emit(
                    code,
                    Instruction::Apply {
                        operator: link.operator,
                        left,
                        right,
                        to: link_to(to, later),
                    },
                )?;
                left = Operand::Top;
            }
            Ok(left)
        }
    }
}

/// The code by which a variable takes a value that is there. One that would be on the stack was put into the variable
/// where it was made.
fn emit_store(
    code: &mut Vec<Instruction>,
    variable: usize,
    value: Operand,
) -> Result<(), AllocError>
    ensures { OnOk result (code.new.items ≡ with_store value variable code.old.items) }
{
    if let Operand::Top = value {
        return Ok(());
    }
    emit(code, Instruction::Store { variable, value })
}

/// The code of a statement.
#[cycle(emitting)]
fn emit_statement(
    code: &mut Vec<Instruction>,
    sites: &mut Vec<Site>,
    statement: &Statement,
) -> Result<(), AllocError>
    ensures { OnOk result (Emits code.old.items sites.old.items code.new.items sites.new.items
        (then_of statement.now)) }
{
    match statement {
        Statement::Get { variable, channel } => {
            let site = sites.len();
            enter(sites, SiteAct::Get { channel: *channel }, code.len())?;
            emit(
                code,
                Instruction::Get {
                    variable: *variable,
                    channel: *channel,
                    site,
                },
            )
        }
        Statement::Assign { variable, value } => {
            let value = emit_expr(code, value, Destination::Variable(*variable))?;
            emit_store(code, *variable, value)
        }
        Statement::Put { value, channel } => {
            let site = sites.len();
            enter(sites, SiteAct::Put { channel: *channel }, code.len())?;
            let value = emit_expr(code, value, Destination::Stack)?;
            emit(
                code,
                Instruction::Put {
                    channel: *channel,
                    site,
                    value,
                },
            )
        }
        Statement::Stop => emit(code, Instruction::Stop),
        Statement::If {
            test,
            first,
            second,
        } => {
            let value = emit_expr(code, test, Destination::Stack)?;
            let test_end = code.len();
            emit(code, Instruction::JumpIfZero { target: 0, value })?;
            emit_statements(code, sites, first)?;
            let first_end = code.len();
            emit(code, Instruction::Jump { target: 0 })?;
            emit_statements(code, sites, second)?;
            // Only now is it known where the blocks begin and end.
            code[test_end] = Instruction::JumpIfZero {
                target: first_end + 1,
                value,
            };
            code[first_end] = Instruction::Jump { target: code.len() };
            Ok(())
        }
        Statement::Repeat { times, body } => {
            let opening = code.len();
            emit(
                code,
                Instruction::Repeat {
                    times: *times,
                    behind: 0,
                },
            )?;
            emit_statements(code, sites, body)?;
            emit(
                code,
                Instruction::Again {
                    target: opening + 1,
                },
            )?;
            // Only now is it known where it ends.
            code[opening] = Instruction::Repeat {
                times: *times,
                behind: code.len(),
            };
            Ok(())
        }
    }
}

/// The code of statements.
#[cycle(emitting)]
pub(crate) fn emit_statements(
    code: &mut Vec<Instruction>,
    sites: &mut Vec<Site>,
    statements: &[Statement],
) -> Result<(), AllocError>
    ensures code { OnOk result (code.new.items ≡ code.old.items
        ++ block_code (length code.old.items) (length sites.old.items) (block_of statements.now)) }
    ensures sites { OnOk result (sites.new.items ≡ sites.old.items
        ++ sites_at (length code.old.items) (length sites.old.items) (block_of statements.now)) }
{
    for statement in statements {
        emit_statement(code, sites, statement)?;
    }
    Ok(())
}

/// The code of a loop with this body; where there is none, the end.
pub(crate) fn emit_loop(
    code: &mut Vec<Instruction>,
    sites: &mut Vec<Site>,
    body: &Option<Vec<Statement>>,
) -> Result<(), AllocError>
    ensures code { OnOk result (code.new.items ≡ code.old.items
        ++ loop_code (length code.old.items) (length sites.old.items) (body_of body.now)) }
    ensures sites { OnOk result (sites.new.items ≡ sites.old.items
        ++ loop_sites (length code.old.items) (length sites.old.items) (body_of body.now)) }
{
    let Some(body) = body else {
        return emit(code, Instruction::End);
    };
    let target = code.len();
    emit_statements(code, sites, body)?;
    emit(code, Instruction::Jump { target })
}
