//! From a process to its code.

ghost use Rattle.std.specs.Prelude.{◌≡◌, ◌+◌, ◌<◌, ◌^◌, map, IfOk};
ghost use Rattle.kahn_net.specs.Common.{code_of};
ghost use Rattle.proc_code.specs.CodeView.{code_view};
ghost use Rattle.proc_code.specs.Translation.{flat_code, greatest_height, height_after, height_behind, height_with, greatest_nesting, nesting_after};

use crate::code::Code;
use crate::emitting::{emit_loop, emit_statements};
use crate::fault::Fault;
use crate::instruction::{Destination, Instruction, Operand};
use kahn_net::Process;
use std::alloc::Global;

/// How many values are on the stack once this one was taken, where so many were before.
fn height_behind(value: Operand, height: usize) -> usize
    ensures { result ≡ height_behind value height }
{
    match value {
        Operand::Top => height.saturating_sub(1),
        Operand::Variable(_) | Operand::Literal(_) => height,
    }
}

/// How many values are on the stack once one went there, where so many were before.
fn height_with(to: Destination, height: usize) -> usize
    requires { height + 1 < 2 ^ 64 }
    ensures { result ≡ height_with to height }
{
    match to {
        Destination::Stack => height + 1,
        Destination::Variable(_) => height,
    }
}

/// How many values are on the stack behind an instruction, where so many were before it.
fn height_after(instruction: Instruction, height: usize) -> usize
    requires { height + 1 < 2 ^ 64 }
    ensures { result ≡ height_after instruction height }
{
    match instruction {
        Instruction::Negate { value, to } => height_with(to, height_behind(value, height)),
        Instruction::Apply {
            left,
            right,
            to,
            ..
        } => height_with(to, height_behind(left, height_behind(right, height))),
        Instruction::Store { value, .. }
        | Instruction::Put { value, .. }
        | Instruction::JumpIfZero { value, .. } => height_behind(value, height),
        Instruction::Get { .. }
        | Instruction::Jump { .. }
        | Instruction::Repeat { .. }
        | Instruction::Again { .. }
        | Instruction::Stop
        | Instruction::End => height,
    }
}

/// The most values that are on the stack at once.
fn deepest(code: &[Instruction]) -> usize
    ensures { result ≡ greatest_height 0 0 code.now }
{
    let mut height = 0;
    let mut deepest = 0;
    for instruction in code {
        height = height_after(*instruction, height);
        deepest = deepest.max(height);
    }
    deepest
}

/// How many repetitions are open behind an instruction, where so many were before it.
fn nesting_after(instruction: Instruction, nesting: usize) -> usize
    requires { nesting + 1 < 2 ^ 64 }
    ensures { result ≡ nesting_after instruction nesting }
{
    match instruction {
        Instruction::Repeat { .. } => nesting + 1,
        Instruction::Again { .. } => nesting.saturating_sub(1),
        _ => nesting,
    }
}

/// The most repetitions that are open at once.
fn most_nested(code: &[Instruction]) -> usize
    ensures { result ≡ greatest_nesting 0 0 code.now }
{
    let mut nesting = 0;
    let mut greatest = 0;
    for instruction in code {
        nesting = nesting_after(*instruction, nesting);
        greatest = greatest.max(nesting);
    }
    greatest
}

/// The code of a process. Refuses for want of memory alone.
pub fn compile(alloc: Global, process: &Process) -> Result<Code, Fault>
    ensures { IfOk result (λ code. code_view code ≡ flat_code (code_of process.now)) }
{
    let mut instructions = Vec::new(alloc);
    let mut sites = Vec::new(alloc);
    emit_statements(&mut instructions, &mut sites, &process.prelude)?;
    emit_loop(&mut instructions, &mut sites, &process.body)?;
    let deepest = deepest(&instructions);
    let nesting = most_nested(&instructions);
    Ok(Code {
        instructions,
        sites,
        deepest,
        nesting,
    })
}

/// The code of each of these processes, in order. Refuses for want of memory alone.
pub fn compile_all(alloc: Global, processes: &[Process]) -> Result<Vec<Code>, Fault>
    ensures { IfOk result
        (λ codes. map code_view codes.items ≡ map flat_code (map code_of processes.now)) }
{
    let mut codes = Vec::with_capacity(alloc, processes.len())?;
    for process in processes {
        codes.push(compile(alloc, process)?)?;
    }
    Ok(codes)
}
