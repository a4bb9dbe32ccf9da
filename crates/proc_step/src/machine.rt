//! The machine of a turn: it carries out a process's code from where the process stands.
//!
//! Between an item that it takes and the next one a process carries out each of its instructions twice at most, and
//! as often more as the repetitions round it are made. So the loops here are counted: a round is as many stretches of
//! instructions one behind the other as the code has instructions, and each is one instruction at least; a pass is as
//! many rounds as repetitions may be made, and a pass for each item at hand and two more are enough for all that it can
//! do.

ghost use Rattle.std.specs.Prelude.{◌≡◌, ◌+◌, ◌-◌, ◌*◌, ℕ, [], ◌∷◌, ◌++◌, nat_lt, true, false, length};
ghost use Rattle.std.specs.Prelude.{IfOk, OnOk};
ghost use Rattle.kahn_net.specs.Common.{Trace, total};
ghost use Rattle.kahn_net.specs.Syntax.{Code as Syntax};
ghost use Rattle.proc_code.specs.CodeView.{code_view};
ghost use Rattle.proc_code.specs.Machine.{behind_value, innermost, round_it, stack_with, value_in, vars_with};
ghost use Rattle.proc_code.specs.Translation.{flat_code};
ghost use Rattle.proc_step.specs.Parts.{Part, passes_in, place_in};
ghost use Rattle.proc_step.specs.Stepping.{Performed, RunsTo, WentOn, held};
ghost use Rattle.proc_step.specs.Turns.{nothing_sent};

use crate::room::{empty_histories, has_room, send};
use crate::stack::Stack;
use kahn_net::{History, MAX_NESTED_TIMES, Mode, ProcState};
use proc_code::{Code, Destination, Instruction, Operand};
use std::alloc::{AllocError, Global};
use std::mem;
use stream_eq::{Unread, all_unread, operate, set_variable, take_item};

/// How a process stopped.
#[derive(Clone, Copy)]
pub enum Flow {
    /// Past its last statement.
    RanOut,
    /// At a stop.
    Stopped,
    /// Before this site: a get with no item left, or a put with no room left.
    Stands(usize),
}

/// What follows an instruction.
#[derive(Clone, Copy)]
pub enum Next {
    /// The instruction behind it.
    Behind,
    /// The one at this place.
    To(usize),
    /// Nothing: the process stops.
    Stop(Flow),
}

/// What a turn changes. What is fixed for the turn, the code and the places of room, is lent to each method instead: so
/// no contract has to say that it stays the same.
#[derive(Drop)]
pub struct Machine<'a> {
    /// The place of the next instruction.
    pub place: usize,
    /// The values that instructions made within an expression.
    pub stack: Stack,
    /// The passes that remain of each repetition round the place.
    pub left: Vec<u16>,
    pub variables: Vec<i64>,
    /// What is unread of the items at hand.
    pub unread: Vec<Unread<'a>>,
    /// What was sent on each channel.
    pub sent: Vec<History>,
}

/// The value on which an instruction works. One on the stack is taken off it.
fn take_value(stack: &mut Stack, variables: &[i64], value: Operand) -> i64
    ensures value { result ≡ value_in value stack.old variables.now }
    ensures rest { stack.new ≡ behind_value value stack.old }
{
    match value {
        Operand::Top => stack.pop(),
        Operand::Variable(variable) => variables.get(variable).copied().unwrap_or(0),
        Operand::Literal(number) => number,
    }
}

/// A value goes there that an instruction made.
fn put_value(
    stack: &mut Stack,
    variables: &mut [i64],
    to: Destination,
    value: i64,
) -> Result<(), AllocError>
    ensures stack { OnOk result (stack.new ≡ stack_with to value stack.old) }
    ensures variables { OnOk result (variables.new ≡ vars_with to value variables.old) }
{
    match to {
        Destination::Stack => stack.push(value)?,
        Destination::Variable(variable) => set_variable(variables, variable, value),
    }
    Ok(())
}

/// Opens a repetition of so many passes.
fn open(left: &mut Vec<u16>, times: u16) -> Result<(), AllocError>
    ensures { OnOk result (left.new.items ≡ left.old.items ++ times ∷ []) }
{
    left.push(times)?;
    Ok(())
}

/// A pass of the innermost repetition is through: one less remains, or the repetition is taken off the stack of passes
/// where none does. Answers whether one remains.
fn pass_through(left: &mut Vec<u16>) -> Result<bool, AllocError>
    ensures remains { IfOk result (λ more. more ≡ nat_lt 1 (innermost left.old.items)) }
    ensures back { IfOk result (λ more. more ≡ true
        → left.new.items ≡ round_it left.old.items ++ (innermost left.old.items - 1) ∷ []) }
    ensures on { IfOk result (λ more. more ≡ false → left.new.items ≡ round_it left.old.items) }
{
    match left.pop() {
        Some(remaining) => {
            if remaining > 1 {
                left.push(remaining - 1)?;
                return Ok(true);
            }
            Ok(false)
        }
        None => Ok(false),
    }
}

/// The passes that remain where a process is so far, with room for those that its code may open.
fn passes_of(alloc: Global, mode: &Mode, nesting: usize) -> Result<Vec<u16>, AllocError>
    ensures { IfOk result (λ left. left.items ≡ passes_in mode.now) }
{
    let mut left = Vec::with_capacity(alloc, nesting)?;
    if let Mode::At(place) = mode {
        left.extend_from_slice(place.left.as_slice())?;
    }
    Ok(left)
}

/// The place from which a process goes on that is so far; behind its last instruction where it has finished.
fn place_of(code: &Code, mode: &Mode) -> usize
    ensures { (process : Syntax) → code_view code.now ≡ flat_code process
        → result ≡ place_in process mode.now }
{
    match mode {
        Mode::NotBegun => 0,
        Mode::At(place) => code.entry(place.site),
        Mode::Finished => code.instructions.len(),
    }
}

impl<'a> Machine<'a> {
    /// A machine where a process of this code is in this state, with nothing taken and nothing sent. The stacks have
    /// their room, so that no instruction asks for more.
    pub fn new(
        alloc: Global,
        code: &Code,
        state: &ProcState,
        items: &'a [History],
        room: &[usize],
    ) -> Result<Self, AllocError>
        ensures place { IfOk result (λ machine. (process : Syntax)
            → code_view code.now ≡ flat_code process → machine.place ≡ place_in process state.now.mode) }
        ensures empty { IfOk result (λ machine. machine.stack ≡ []) }
        ensures passes { IfOk result (λ machine. machine.left.items ≡ passes_in state.now.mode) }
        ensures variables { IfOk result (λ machine. machine.variables.items ≡ state.now.variables.items) }
        ensures untaken { IfOk result (λ machine. machine.unread.items ≡ items.now) }
        ensures unsent { IfOk result (λ machine. machine.sent.items ≡ nothing_sent room.now) }
    {
        Ok(Machine {
            place: place_of(code, &state.mode),
            stack: Stack::new(alloc, code.deepest)?,
            left: passes_of(alloc, &state.mode, code.nesting)?,
            variables: Vec::from_slice(alloc, state.variables.as_slice())?,
            unread: all_unread(alloc, items)?,
            sent: empty_histories(alloc, room)?,
        })
    }

    /// Carries out this instruction, which is the next one, on these values. A get with no item left and a put with no room
    /// left stop before they change anything but the stack of values, which is let go of.
    fn perform(
        &mut self,
        stack: &mut Stack,
        instruction: &Instruction,
        room: &[usize],
    ) -> Result<Next, AllocError>
        requires { length self.old.sent.items ≡ length room.now }
        ensures { IfOk result (λ next. (place : ℕ) → Performed instruction.now room.now
            (held self.old place stack.old) next (held self.new place stack.new)) }
    {
        match *instruction {
            Instruction::Store { variable, value } => {
                let value = take_value(stack, &self.variables, value);
                set_variable(&mut self.variables, variable, value);
                Ok(Next::Behind)
            }
            Instruction::Negate { value, to } => {
                let value = take_value(stack, &self.variables, value);
                put_value(stack, &mut self.variables, to, value.wrapping_neg())?;
                Ok(Next::Behind)
            }
            Instruction::Apply {
                operator,
                left,
                right,
                to,
            } => {
                let right = take_value(stack, &self.variables, right);
                let left = take_value(stack, &self.variables, left);
                put_value(
                    stack,
                    &mut self.variables,
                    to,
                    operate(operator, left, right),
                )?;
                Ok(Next::Behind)
            }
            Instruction::Get {
                variable,
                channel,
                site,
            } => {
                let Some(item) = take_item(&mut self.unread, channel) else {
                    return Ok(Next::Stop(Flow::Stands(site)));
                };
                set_variable(&mut self.variables, variable, item);
                Ok(Next::Behind)
            }
            Instruction::Put {
                channel,
                site,
                value,
            } => {
                if !has_room(&self.sent, room, channel) {
                    return Ok(Next::Stop(Flow::Stands(site)));
                }
                let item = take_value(stack, &self.variables, value);
                send(&mut self.sent, channel, item)?;
                Ok(Next::Behind)
            }
            Instruction::Jump { target } => Ok(Next::To(target)),
            Instruction::JumpIfZero { target, value } => {
                if take_value(stack, &self.variables, value) == 0 {
                    return Ok(Next::To(target));
                }
                Ok(Next::Behind)
            }
            Instruction::Repeat { times, behind } => {
                if times == 0 {
                    return Ok(Next::To(behind));
                }
                open(&mut self.left, times)?;
                Ok(Next::Behind)
            }
            Instruction::Again { target } => {
                if pass_through(&mut self.left)? {
                    return Ok(Next::To(target));
                }
                Ok(Next::Behind)
            }
            Instruction::Stop => Ok(Next::Stop(Flow::Stopped)),
            Instruction::End => Ok(Next::Stop(Flow::RanOut)),
        }
    }

    /// Carries out the next instructions, up to the first from which the process goes on elsewhere than behind it. Past
    /// the last one the process has ended.
    fn go_straight(
        &mut self,
        stack: &mut Stack,
        code: &[Instruction],
        room: &[usize],
    ) -> Result<Option<Flow>, AllocError>
        requires { length self.old.sent.items ≡ length room.now }
        ensures { IfOk result (λ stop. WentOn code.now 1 room.now
            (held self.old self.old.place stack.old) stop
            (held self.new self.new.place stack.new)) }
    {
        let Some(rest) = code.get(self.place..) else {
            return Ok(Some(Flow::RanOut));
        };
        for instruction in rest {
            match self.perform(stack, instruction, room)? {
                Next::Behind => {}
                Next::To(target) => {
                    self.place = target;
                    return Ok(None);
                }
                Next::Stop(flow) => return Ok(Some(flow)),
            }
        }
        Ok(Some(Flow::RanOut))
    }

    /// As many times as the code has instructions, unless the process stops before.
    fn play_round(
        &mut self,
        stack: &mut Stack,
        code: &[Instruction],
        room: &[usize],
    ) -> Result<Option<Flow>, AllocError>
        requires { length self.old.sent.items ≡ length room.now }
        ensures { IfOk result (λ stop. WentOn code.now (length code.now) room.now
            (held self.old self.old.place stack.old) stop
            (held self.new self.new.place stack.new)) }
    {
        for _ in 0..code.len() {
            if let Some(flow) = self.go_straight(stack, code, room)? {
                return Ok(Some(flow));
            }
        }
        Ok(None)
    }

    /// So many passes, unless the process stops before.
    fn play_rounds(
        &mut self,
        stack: &mut Stack,
        code: &[Instruction],
        passes: usize,
        room: &[usize],
    ) -> Result<Option<Flow>, AllocError>
        requires { length self.old.sent.items ≡ length room.now }
        ensures { IfOk result (λ stop. WentOn code.now
            (passes * (MAX_NESTED_TIMES * length code.now)) room.now
            (held self.old self.old.place stack.old) stop
            (held self.new self.new.place stack.new)) }
    {
        // The rounds of so many passes may be more than 64 bits can count.
        let rounds = passes as u128 * u128::from(MAX_NESTED_TIMES);
        for _ in 0..rounds {
            if let Some(flow) = self.play_round(stack, code, room)? {
                return Ok(Some(flow));
            }
        }
        Ok(None)
    }

    /// So many passes, unless the process stops before. Meanwhile the values are held beside the machine, in a variable
    /// of this function: so they are in registers, as far as an instruction touches them.
    fn play_passes(
        &mut self,
        alloc: Global,
        code: &[Instruction],
        passes: usize,
        room: &[usize],
    ) -> Result<Option<Flow>, AllocError>
        requires { length self.old.sent.items ≡ length room.now }
        ensures { IfOk result (λ stop. WentOn code.now
            (passes * (MAX_NESTED_TIMES * length code.now)) room.now self.old stop self.new) }
    {
        let mut stack = mem::replace(&mut self.stack, Stack::empty(alloc));
        let stop = self.play_rounds(&mut stack, code, passes, room)?;
        self.stack = stack;
        Ok(stop)
    }

    /// Carries out instructions until the process stops, in two passes and one for each item. Their count may pass
    /// every number of the machine, so it isn't taken.
    pub fn play(
        &mut self,
        alloc: Global,
        code: &[Instruction],
        items: &[History],
        room: &[usize],
    ) -> Result<Flow, AllocError>
        requires { length self.old.sent.items ≡ length room.now }
        ensures { IfOk result (λ flow. (t : Trace)
            → RunsTo code.now ((total items.now + 2) * (MAX_NESTED_TIMES * length code.now)) self.old t
            → Part t room.now self.old.unread.items self.old.sent.items flow self.new) }
    {
        if let Some(flow) = self.play_passes(alloc, code, 2, room)? {
            return Ok(flow);
        }
        for list in items {
            if let Some(flow) = self.play_passes(alloc, code, list.len(), room)? {
                return Ok(flow);
            }
        }
        // So many passes are enough, so this isn't reached.
        Ok(Flow::RanOut)
    }
}
