//! A network with its channels and variables by number, in order of declaration, from 0.

/// What joins two values in an expression. Sums, differences and products wrap modulo 2^64. A
/// quotient truncates toward zero, and a remainder is what it leaves, `a - b * (a div b)`: both
/// wrap, and both are 0 where the right value is 0. A comparison gives 1 or 0.
#[derive(Clone, Copy, Debug, PartialEq, Eq)]
pub enum Operator {
    Add,
    Subtract,
    Multiply,
    Divide,
    Remainder,
    Equal,
    NotEqual,
    Less,
    LessOrEqual,
    Greater,
    GreaterOrEqual,
}

/// An expression over the variables of a process.
#[derive(Debug, Drop)]
#[cycle(expression)]
pub enum Expr {
    Literal(i64),
    Variable(usize),
    /// 0 less the value, modulo 2^64.
    Negate(Box<Expr>),
    /// A value, and operators with the value to the right of each, which group from the left.
    Chain { first: Box<Expr>, links: Vec<Link> },
}

/// An operator with the value to its right.
#[derive(Debug, Drop)]
#[cycle(expression)]
pub struct Link {
    pub operator: Operator,
    pub value: Expr,
}

/// A statement of a process.
#[derive(Debug, Drop)]
pub enum Statement {
    Get {
        variable: usize,
        channel: usize,
    },
    Assign {
        variable: usize,
        value: Expr,
    },
    Put {
        value: Expr,
        channel: usize,
    },
    /// Finishes the process.
    Stop,
    /// Does the first statements where the test isn't 0, and else the second.
    If {
        test: Expr,
        first: Vec<Statement>,
        second: Vec<Statement>,
    },
    /// Does its statements so many times.
    Repeat {
        times: u16,
        body: Vec<Statement>,
    },
}

/// A process: its node, its variables' first values, what it does first, and what it does again and again.
#[derive(Debug)]
pub struct Process {
    pub node: u8,
    pub variables: Vec<i64>,
    pub prelude: Vec<Statement>,
    /// The body of the loop, unless the process finishes after its prelude.
    pub body: Option<Vec<Statement>>,
}

// Written out, since each crate above would go through a derived one again.
impl Drop for Process {
    fn drop(self) {
        let Self {
            node,
            variables,
            prelude,
            body,
        } = self;
    }
}

/// What stands at an end of a channel.
#[derive(Clone, Copy, Debug, PartialEq, Eq)]
pub enum Port {
    Outside,
    /// The process of this number.
    Process(usize),
}

/// A channel, by what puts on it and what gets from it. An input comes from outside, an output goes outside.
#[derive(Clone, Copy, Debug, PartialEq, Eq)]
pub struct Channel {
    pub producer: Port,
    pub consumer: Port,
}

/// A network's channels and processes, by number.
#[derive(Debug)]
pub struct Program {
    pub channels: Vec<Channel>,
    pub processes: Vec<Process>,
}

// Written out, since each crate above would go through a derived one again.
impl Drop for Program {
    fn drop(self) {
        let Self {
            channels,
            processes,
        } = self;
    }
}
