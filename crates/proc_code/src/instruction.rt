//! Instructions, and the acts of sites.

use kahn_net::Operator;

/// Where an instruction finds a value that it works on. Of the values of expressions only those stand on the stack that an
/// instruction has made: variables and numbers are read where they stand.
#[derive(Clone, Copy, Debug, PartialEq, Eq)]
pub enum Operand {
    /// It takes the topmost value off the stack.
    Top,
    /// A variable's value; 0 where there is no such variable.
    Variable(usize),
    Literal(i64),
}

/// Where an instruction puts the value that it makes.
#[derive(Clone, Copy, Debug, PartialEq, Eq)]
pub enum Destination {
    /// On the stack of values.
    Stack,
    Variable(usize),
}

/// An instruction of a process's code. What is made within an expression is kept on a stack of values; jumps name the index of
/// the instruction that comes next.
#[derive(Clone, Copy, Debug, PartialEq, Eq)]
pub enum Instruction {
    /// Takes a value into a variable.
    Store {
        variable: usize,
        value: Operand,
    },
    /// Makes 0 less a value, modulo 2^64.
    Negate {
        value: Operand,
        to: Destination,
    },
    /// Makes what the operator makes of two values. The right one is taken first.
    Apply {
        operator: Operator,
        left: Operand,
        right: Operand,
        to: Destination,
    },
    /// Takes the channel's next item into a variable. With no item at hand the process stands at this site.
    Get {
        variable: usize,
        channel: usize,
        site: usize,
    },
    /// Puts a value on the channel. With no room there the process stands at this site, which is before its expression.
    Put {
        channel: usize,
        site: usize,
        value: Operand,
    },
    Jump {
        target: usize,
    },
    /// Jumps where a value is 0.
    JumpIfZero {
        target: usize,
        value: Operand,
    },
    /// Opens a repetition: puts its number on the stack of passes and goes on with its block. One of no
    /// passes is through, and goes on behind it.
    Repeat {
        times: u16,
        behind: usize,
    },
    /// A pass of the innermost repetition is through. Where more than one remained, it goes back to this instruction
    /// with one less; else it takes the repetition off the stack of passes and goes on.
    Again {
        target: usize,
    },
    /// The process finishes: a stop.
    Stop,
    /// The process finishes: past its last statement.
    End,
}

/// What a process does at a site.
#[derive(Clone, Copy, Debug, PartialEq, Eq)]
pub enum SiteAct {
    Get { channel: usize },
    Put { channel: usize },
}

/// A site in the code: what is done there, and the instruction from which a process goes on that stands there, which is
/// a get's own, and the first one of a put's expression.
#[derive(Clone, Copy, Debug, PartialEq, Eq)]
pub struct Site {
    pub act: SiteAct,
    pub entry: usize,
}
