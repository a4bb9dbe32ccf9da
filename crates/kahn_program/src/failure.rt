//! Why the program ends without a report, and what it then prints and answers.

ghost use Rattle.std.specs.Prelude.{◌≡◌, Some};
ghost use Rattle.kahn_program.specs.Failures.{failure_text, source_text, status_of};
ghost use Rattle.kahn_program.specs.Runnable.{run_failure};

use cobaltmidge::RunFault;
use std::fmt;

/// A text that the program reads.
#[derive(Clone, Copy, Debug, PartialEq, Eq)]
pub enum Source {
    Net,
    Inputs,
    Script,
}

/// Why the program ends without a report.
#[derive(Clone, Copy, Debug, PartialEq, Eq)]
pub enum Failure {
    /// A text is refused at a line.
    Line {
        source: Source,
        line: usize,
        number: u8,
    },
    /// A text is refused as a whole.
    Whole {
        source: Source,
        number: u8,
    },
    /// A text isn't UTF-8.
    NotText(Source),
    /// A text's file can't be opened or read.
    Unreadable(Source),
    /// An approximation is refused.
    Approximation {
        number: u8,
    },
    /// There is no memory.
    NoMemory,
    /// What outlasts the run is refused, or failed.
    State {
        number: u8,
    },
    /// Another run is at work where what left is kept.
    InUse,
    /// What happened can't be written.
    Unwritten,
    /// A refusal that is no text's.
    Other {
        number: u8,
    },
}

impl fmt::Display for Source {
    ghost output = { λ source. Some (source_text source) };

    fn fmt<W: fmt::Write>(&self, f: &mut fmt::Formatter<W>) -> fmt::Result {
        match self {
            Source::Net => f.write_str("net"),
            Source::Inputs => f.write_str("inputs"),
            Source::Script => f.write_str("script"),
        }
    }
}

impl fmt::Display for Failure {
    ghost output = { λ failure. Some (failure_text failure) };

    fn fmt<W: fmt::Write>(&self, f: &mut fmt::Formatter<W>) -> fmt::Result {
        match self {
            Failure::Line {
                source,
                line,
                number,
            } => write!(f, "{source} line {line}: refusal {number}"),
            Failure::Whole { source, number } => write!(f, "{source}: refusal {number}"),
            Failure::NotText(source) => write!(f, "{source}: not text"),
            Failure::Unreadable(source) => write!(f, "{source}: cannot be read"),
            Failure::Approximation { number } => write!(f, "approx: refusal {number}"),
            Failure::NoMemory => f.write_str("no memory"),
            Failure::State { number } => write!(f, "state: refusal {number}"),
            Failure::InUse => f.write_str("state: in use"),
            Failure::Unwritten => f.write_str("history: cannot be written"),
            Failure::Other { number } => write!(f, "refusal {number}"),
        }
    }
}

impl Failure {
    /// The program's exit status, where the line is written: 2 for a text that is refused, 1 for all else.
    pub fn status(self) -> u8
        ensures { result ≡ status_of self }
    {
        match self {
            Failure::Line { .. } | Failure::Whole { .. } | Failure::NotText(_) => 2,
            Failure::Unreadable(_)
            | Failure::Approximation { .. }
            | Failure::NoMemory
            | Failure::State { .. }
            | Failure::InUse
            | Failure::Unwritten
            | Failure::Other { .. } => 1,
        }
    }
}

/// What a fault of a run comes to.
pub(crate) fn run_failure(fault: RunFault) -> Failure
    ensures { result ≡ run_failure fault }
{
    match fault {
        RunFault::NoMemory => Failure::NoMemory,
        RunFault::Device | RunFault::PastNumber => Failure::Other {
            number: fault.number(),
        },
    }
}
