//! Why a network's text, or the items for its inputs, are refused.

ghost use Rattle.std.specs.Prelude.{◌≡◌};
ghost use Rattle.net_check.specs.Faults.{number_of, line_of};
ghost use Rattle.net_check.specs.declared.fault.NetFault.TheVariants.{NoMemory};

use proc_code::Fault;
use std::alloc::{AllocError, AllocFailed};
use thiserror::Error;

/// What is wrong with a network's text or with the items for its inputs, and the line on which it is found.
#[derive(Clone, Copy, Debug, PartialEq, Eq, Error)]
pub enum NetFault {
    /// Refusal 1. The text says nothing of it.
    #[error("no memory")]
    NoMemory,
    /// Refusal 10, at the second use: two channels, two processes, two variables of one process or two lines of
    /// an inputs text have one name.
    #[error("line {line}: named twice")]
    TwiceNamed { line: usize },
    /// Refusal 11, at the name used: nothing that it could mean is declared.
    #[error("line {line}: unknown name")]
    UnknownName { line: usize },
    /// Refusal 12, at the name used: it puts on a channel that is an input, or on which another process puts.
    #[error("line {line}: two producers")]
    TwoProducers { line: usize },
    /// Refusal 13, at the name used: it gets from a channel that is an output, or from which another process gets.
    #[error("line {line}: two consumers")]
    TwoConsumers { line: usize },
    /// Refusal 14, at the word `loop`: a pass of the loop need neither get an item nor stop.
    #[error("line {line}: a loop without a get")]
    LoopWithoutGet { line: usize },
    /// Refusal 15: more channels, processes, variables, units or items than there may be, or a node that may not be.
    #[error("line {line}: past a limit")]
    Limit { line: usize },
    /// Refusal 16, at the declaration: no process puts on a channel that is no input.
    #[error("line {line}: no producer")]
    NoProducer { line: usize },
    /// Refusal 17, at the declaration: no process gets from a channel that is no output.
    #[error("line {line}: no consumer")]
    NoConsumer { line: usize },
    /// Refusal 18, on no line: an input has no items, not even an empty line of its own.
    #[error("an input is missing")]
    MissingInput,
}

impl NetFault {
    /// The refusal's number.
    pub fn number(self) -> u8
        ensures { result ≡ number_of self }
    {
        match self {
            NetFault::NoMemory => 1,
            NetFault::TwiceNamed { .. } => 10,
            NetFault::UnknownName { .. } => 11,
            NetFault::TwoProducers { .. } => 12,
            NetFault::TwoConsumers { .. } => 13,
            NetFault::LoopWithoutGet { .. } => 14,
            NetFault::Limit { .. } => 15,
            NetFault::NoProducer { .. } => 16,
            NetFault::NoConsumer { .. } => 17,
            NetFault::MissingInput => 18,
        }
    }

    /// The line, where there is one: not for want of memory, nor for an input that is missing.
    pub fn line(self) -> Option<usize>
        ensures { result ≡ line_of self }
    {
        match self {
            NetFault::NoMemory | NetFault::MissingInput => None,
            NetFault::TwiceNamed { line }
            | NetFault::UnknownName { line }
            | NetFault::TwoProducers { line }
            | NetFault::TwoConsumers { line }
            | NetFault::LoopWithoutGet { line }
            | NetFault::Limit { line }
            | NetFault::NoProducer { line }
            | NetFault::NoConsumer { line } => Some(line),
        }
    }
}

impl From<AllocError> for NetFault {
    ghost from_gives = { λ _ e. e ≡ NoMemory };

    fn from(_: AllocError) -> Self {
        NetFault::NoMemory
    }
}

impl<T: Drop> From<AllocFailed<T>> for NetFault {
    ghost from_gives = { λ _ e. e ≡ NoMemory };

    fn from(_: AllocFailed<T>) -> Self {
        NetFault::NoMemory
    }
}

impl From<Fault> for NetFault {
    ghost from_gives = { λ _ e. e ≡ NoMemory };

    fn from(_: Fault) -> Self {
        NetFault::NoMemory
    }
}
