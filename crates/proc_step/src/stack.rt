//! The stack of values that expressions left.

ghost use Rattle.std.specs.Prelude.{◌≡◌, [], ◌∷◌, IfOk, OnOk, OnErr};
ghost use mathlib.Core.List.{reverse};
ghost use Rattle.proc_code.specs.Machine.{top, below};

use std::alloc::{AllocError, Global};
use std::marker::Model;

/// A stack of values. Its topmost value is a number by itself, which a processor can hold in a register: so what one
/// instruction leaves there the next one needn't fetch from memory.
#[derive(Drop)]
pub struct Stack {
    /// The values under the topmost one, which stands last. The first is no value of the stack, but a 0 below all of them.
    under: Vec<i64>,
    /// The topmost value; where the stack is empty, that 0.
    highest: i64,
}

impl Model for Stack {
    ghost use Rattle.std.specs.Prelude.{◌≡◌, List, ℤ, pos};
    ghost use mathlib.Core.List.{reverse};
    ghost use Rattle.proc_step.specs.Stacked.{above_lowest, lowest};

    ghost Value = { List ℤ };

    ghost view = { λ stack. above_lowest stack.highest (reverse stack.under.items) };

    ghost invariant = { λ stack. lowest stack.highest (reverse stack.under.items) ≡ pos 0 };
}

/// Takes the last value of a list; 0 where it has none.
fn take_last(values: &mut Vec<i64>) -> i64
    ensures value { result ≡ top (reverse values.old.items) }
    ensures rest { reverse values.new.items ≡ below (reverse values.old.items) }
{
    values.pop().unwrap_or(0)
}

/// Puts a value behind a list whose room is used up. The list gets more, which takes its time, so it isn't done in the loop.
#[cold]
#[inline(never)]
fn put_past_room(values: &mut Vec<i64>, value: i64) -> Result<(), AllocError>
    ensures put { OnOk result (reverse values.new.items ≡ value ∷ reverse values.old.items) }
    ensures same { OnErr result (values.new.items ≡ values.old.items) }
{
    values.push(value)?;
    Ok(())
}

/// Puts a value behind a list.
fn put_last(values: &mut Vec<i64>, value: i64) -> Result<(), AllocError>
    ensures put { OnOk result (reverse values.new.items ≡ value ∷ reverse values.old.items) }
    ensures same { OnErr result (values.new.items ≡ values.old.items) }
{
    if values.len() >= values.capacity() {
        return put_past_room(values, value);
    }
    values.push(value)?;
    Ok(())
}

impl Stack {
    /// An empty stack without room.
    pub fn empty(alloc: Global) -> Stack
        ensures { result ≡ [] }
    {
        Stack {
            under: Vec::new(alloc),
            highest: 0,
        }
    }

    /// An empty stack with room for so many values.
    pub fn new(alloc: Global, room: usize) -> Result<Stack, AllocError>
        ensures { IfOk result (λ stack. stack ≡ []) }
    {
        Ok(Stack {
            under: Vec::with_capacity(alloc, room)?,
            highest: 0,
        })
    }

    /// Takes the topmost value; 0 where the stack is empty.
    pub fn pop(&mut self) -> i64
        ensures value { result ≡ top self.old }
        ensures rest { self.new ≡ below self.old }
    {
        let value = self.highest;
        self.highest = take_last(&mut self.under);
        value
    }

    /// Puts a value on the stack.
    pub fn push(&mut self, value: i64) -> Result<(), AllocError>
        ensures { OnOk result (self.new ≡ value ∷ self.old) }
    {
        let highest = self.highest;
        put_last(&mut self.under, highest)?;
        self.highest = value;
        Ok(())
    }
}
