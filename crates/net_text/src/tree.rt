//! The tree of a network's text, with the lines that a fault may have to name.

use crate::name::Name;
use kahn_net::Operator;

/// What stands outside the network at a channel's end.
#[derive(Clone, Copy, Debug, PartialEq, Eq)]
pub enum Role {
    /// The items come from outside.
    Input,
    /// Both ends are processes'.
    Inner,
    /// The items go outside.
    Output,
}

/// The declaration of a channel.
#[derive(Debug, Drop)]
pub struct ChannelText {
    pub role: Role,
    pub name: Name,
    /// The line of the declaration's first word.
    pub line: usize,
}

/// The declaration of a variable, with its first value.
#[derive(Debug, Drop)]
pub struct VariableText {
    pub name: Name,
    pub initial: i64,
    /// The line of the declaration's first word.
    pub line: usize,
}

/// An expression.
#[derive(Debug, Drop)]
#[cycle(expression)]
pub enum ExprText {
    Literal(i64),
    Variable(Name),
    /// 0 less the value, modulo 2^64.
    Negate(Box<ExprText>),
    /// A value, and operators with the value to the right of each, which group from the left.
    Chain {
        first: Box<ExprText>,
        links: Vec<LinkText>,
    },
}

/// An operator with the value to its right.
#[derive(Debug, Drop)]
#[cycle(expression)]
pub struct LinkText {
    pub operator: Operator,
    pub value: ExprText,
}

/// A statement.
#[derive(Debug, Drop)]
pub enum StatementText {
    Get {
        variable: Name,
        channel: Name,
    },
    Assign {
        variable: Name,
        value: ExprText,
    },
    Put {
        value: ExprText,
        channel: Name,
    },
    /// Finishes the process.
    Stop,
    /// Does the first statements where the test isn't 0, and else the second, which are none
    /// where the text has no `else`.
    If {
        test: ExprText,
        first: Vec<StatementText>,
        second: Vec<StatementText>,
    },
    /// Does its statements so many times.
    Repeat {
        times: u16,
        /// The line of the word `repeat`.
        line: usize,
        body: Vec<StatementText>,
    },
}

/// A loop's body, repeated without end.
#[derive(Debug, Drop)]
pub struct LoopText {
    pub body: Vec<StatementText>,
    /// The line of the word `loop`.
    pub line: usize,
}

/// The number of the node on which a process runs, with its line.
#[derive(Clone, Copy, Debug, PartialEq, Eq)]
pub struct NodeText {
    pub number: u64,
    pub line: usize,
}

/// The declaration of a process.
#[derive(Debug, Drop)]
pub struct ProcessText {
    pub name: Name,
    pub node: NodeText,
    pub variables: Vec<VariableText>,
    /// What is done once, before the loop.
    pub prelude: Vec<StatementText>,
    /// The loop, unless the process finishes after its prelude.
    pub repeated: Option<LoopText>,
    /// The line of the word `process`.
    pub line: usize,
}

/// A declaration, in order of the text.
#[derive(Debug, Drop)]
pub enum Declaration {
    Channel(ChannelText),
    Process(ProcessText),
}

/// The text of a network.
#[derive(Debug, Drop)]
pub struct NetText {
    pub declarations: Vec<Declaration>,
}
