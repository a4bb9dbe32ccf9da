//! Why a text is refused, or a run comes to no end.

ghost use Rattle.std.specs.Prelude.{◌≡◌, None, Some, codes};
ghost use Rattle.net_text.specs.Faults as text;
ghost use Rattle.net_check.specs.Faults as net;
ghost use Rattle.fail_script.specs.Faults as script;
ghost use Rattle.cobaltmidge.specs.Failing.{run_fault_number};
ghost use Rattle.cobaltmidge.specs.Errors.{error_line, error_number, error_text, error_words, inputs_error, inputs_text_error, net_error, net_text_error};
ghost use Rattle.cobaltmidge.specs.Errors.{net_words, refusal_text, run_words, script_words, script_error, text_words};
ghost use Rattle.cobaltmidge.specs.Errors.{run_error};
ghost use Rattle.cobaltmidge.specs.declared.error.Error.TheVariants.{NoMemory};

use crate::fault::RunFault;
use fail_script::ScriptFault;
use net_check::NetFault;
use net_text::TextFault;
use std::alloc::{AllocError, AllocFailed};
use std::{error, fmt};

/// Why a text is refused, or a run comes to no end. It reads as `net line 6: refusal 14: a loop that may go round without an item`:
/// which text, on which line, by which number, and in words.
#[derive(Clone, Copy, Debug, PartialEq, Eq)]
pub enum Error {
    /// There is no memory.
    NoMemory,
    /// The text of a network isn't one.
    NetText(TextFault),
    /// The network of a text isn't valid.
    Net(NetFault),
    /// The text of inputs isn't one.
    InputsText(TextFault),
    /// The items of a text aren't for the network's inputs.
    Inputs(NetFault),
    /// The text of a failure script isn't one.
    Script(ScriptFault),
    /// A run comes to no end.
    Run(RunFault),
}

// What a refusal reads as.
#[derive(Clone, Copy)]
struct Refusal {
    source: &'static str,
    line: Option<usize>,
    number: u8,
    words: &'static str,
}

impl fmt::Display for Refusal {
    ghost output = { λ refusal. Some (refusal_text refusal.source.now refusal.line refusal.number
        refusal.words.now) };

    fn fmt<W: fmt::Write>(&self, f: &mut fmt::Formatter<W>) -> fmt::Result {
        let Refusal {
            source,
            line,
            number,
            words,
        } = *self;
        match line {
            Some(line) => write!(f, "{source} line {line}: refusal {number}: {words}"),
            None => write!(f, "{source}: refusal {number}: {words}"),
        }
    }
}

fn text_words(fault: TextFault) -> &'static str
    ensures { result.now ≡ text_words fault }
{
    match fault {
        TextFault::NoMemory => "no memory",
        TextFault::BadToken { .. } => "a character that can't stand there",
        TextFault::Unexpected { .. } => "the text can't go on so",
        TextFault::NumberRange { .. } => "a number past its range",
        TextFault::TooLong { .. } => "a name, a nesting or a text that is too long",
    }
}

fn net_words(fault: NetFault) -> &'static str
    ensures { result.now ≡ net_words fault }
{
    match fault {
        NetFault::NoMemory => "no memory",
        NetFault::TwiceNamed { .. } => "named twice",
        NetFault::UnknownName { .. } => "nothing of this name is declared",
        NetFault::TwoProducers { .. } => "a second producer of a channel",
        NetFault::TwoConsumers { .. } => "a second consumer of a channel",
        NetFault::LoopWithoutGet { .. } => "a loop that may go round without an item",
        NetFault::Limit { .. } => "past a limit",
        NetFault::NoProducer { .. } => "a channel on which nobody puts",
        NetFault::NoConsumer { .. } => "a channel from which nobody gets",
        NetFault::MissingInput => "an input without its line",
    }
}

fn script_words(fault: ScriptFault) -> &'static str
    ensures { result.now ≡ script_words fault }
{
    match fault {
        ScriptFault::NoMemory => "no memory",
        ScriptFault::BadLine { .. } => "no line of a failure script",
        ScriptFault::UnknownNode { .. } => "a node that the network doesn't have",
    }
}

fn run_words(fault: RunFault) -> &'static str
    ensures { result.now ≡ run_words fault }
{
    match fault {
        RunFault::NoMemory => "no memory",
        RunFault::Device => "a disk failed while the world was made",
        RunFault::PastNumber => "a count of the history would pass 2^63 - 1",
    }
}

// A text that isn't in its grammar.
fn of_text(source: &'static str, fault: TextFault) -> Refusal
    ensures source { result.source.now ≡ source.now }
    ensures line { result.line ≡ text.line_of fault }
    ensures number { result.number ≡ text.number_of fault }
    ensures words { result.words.now ≡ text_words fault }
{
    Refusal {
        source,
        line: fault.line(),
        number: fault.number(),
        words: text_words(fault),
    }
}

// A network that isn't valid, or items that aren't for its inputs.
fn of_net(source: &'static str, fault: NetFault) -> Refusal
    ensures source { result.source.now ≡ source.now }
    ensures line { result.line ≡ net.line_of fault }
    ensures number { result.number ≡ net.number_of fault }
    ensures words { result.words.now ≡ net_words fault }
{
    Refusal {
        source,
        line: fault.line(),
        number: fault.number(),
        words: net_words(fault),
    }
}

// A script that isn't one.
fn of_script(fault: ScriptFault) -> Refusal
    ensures source { result.source.now ≡ codes "script" }
    ensures line { result.line ≡ script.line_of fault }
    ensures number { result.number ≡ script.number_of fault }
    ensures words { result.words.now ≡ script_words fault }
{
    Refusal {
        source: "script",
        line: fault.line(),
        number: fault.number(),
        words: script_words(fault),
    }
}

// A run that comes to no end.
fn of_run(fault: RunFault) -> Refusal
    ensures source { result.source.now ≡ codes "run" }
    ensures line { result.line ≡ None }
    ensures number { result.number ≡ run_fault_number fault }
    ensures words { result.words.now ≡ run_words fault }
{
    Refusal {
        source: "run",
        line: None,
        number: fault.number(),
        words: run_words(fault),
    }
}

impl fmt::Display for Error {
    ghost output = { λ error. Some (error_text error) };

    fn fmt<W: fmt::Write>(&self, f: &mut fmt::Formatter<W>) -> fmt::Result {
        match *self {
            Error::NoMemory => f.write_str("no memory"),
            Error::NetText(fault) => write!(f, "{}", of_text("net", fault)),
            Error::Net(fault) => write!(f, "{}", of_net("net", fault)),
            Error::InputsText(fault) => write!(f, "{}", of_text("inputs", fault)),
            Error::Inputs(fault) => write!(f, "{}", of_net("inputs", fault)),
            Error::Script(fault) => write!(f, "{}", of_script(fault)),
            Error::Run(fault) => write!(f, "{}", of_run(fault)),
        }
    }
}

impl error::Error for Error {}

impl Error {
    /// The refusal's number, as docs/FORMATS.md has it.
    pub fn number(self) -> u8
        ensures { result ≡ error_number self }
    {
        match self {
            Error::NoMemory => 1,
            Error::NetText(fault) | Error::InputsText(fault) => fault.number(),
            Error::Net(fault) | Error::Inputs(fault) => fault.number(),
            Error::Script(fault) => fault.number(),
            Error::Run(fault) => fault.number(),
        }
    }

    /// The line of the text that is refused, from 1, where one is.
    pub fn line(self) -> Option<usize>
        ensures { result ≡ error_line self }
    {
        match self {
            Error::NoMemory | Error::Run(_) => None,
            Error::NetText(fault) | Error::InputsText(fault) => fault.line(),
            Error::Net(fault) | Error::Inputs(fault) => fault.line(),
            Error::Script(fault) => fault.line(),
        }
    }

    /// Why, in words.
    pub fn words(self) -> &'static str
        ensures { result.now ≡ error_words self }
    {
        match self {
            Error::NoMemory => "no memory",
            Error::NetText(fault) | Error::InputsText(fault) => text_words(fault),
            Error::Net(fault) | Error::Inputs(fault) => net_words(fault),
            Error::Script(fault) => script_words(fault),
            Error::Run(fault) => run_words(fault),
        }
    }
}

impl From<AllocError> for Error {
    ghost from_gives = { λ _ e. e ≡ NoMemory };

    fn from(_: AllocError) -> Self {
        Error::NoMemory
    }
}

impl<T: Drop> From<AllocFailed<T>> for Error {
    ghost from_gives = { λ _ e. e ≡ NoMemory };

    fn from(_: AllocFailed<T>) -> Self {
        Error::NoMemory
    }
}

impl From<RunFault> for Error {
    ghost from_gives = { λ fault e. e ≡ run_error fault };

    fn from(fault: RunFault) -> Self {
        run_error(fault)
    }
}

/// What a fault of a run comes to.
pub(crate) fn run_error(fault: RunFault) -> Error
    ensures { result ≡ run_error fault }
{
    match fault {
        RunFault::NoMemory => Error::NoMemory,
        _ => Error::Run(fault),
    }
}

/// What a fault of a network's text comes to.
pub(crate) fn net_text_error(fault: TextFault) -> Error
    ensures { result ≡ net_text_error fault }
{
    match fault {
        TextFault::NoMemory => Error::NoMemory,
        _ => Error::NetText(fault),
    }
}

/// What a fault of a network comes to.
pub(crate) fn net_error(fault: NetFault) -> Error
    ensures { result ≡ net_error fault }
{
    match fault {
        NetFault::NoMemory => Error::NoMemory,
        _ => Error::Net(fault),
    }
}

/// What a fault of an inputs text comes to.
pub(crate) fn inputs_text_error(fault: TextFault) -> Error
    ensures { result ≡ inputs_text_error fault }
{
    match fault {
        TextFault::NoMemory => Error::NoMemory,
        _ => Error::InputsText(fault),
    }
}

/// What a fault of the items for a network's inputs comes to.
pub(crate) fn inputs_error(fault: NetFault) -> Error
    ensures { result ≡ inputs_error fault }
{
    match fault {
        NetFault::NoMemory => Error::NoMemory,
        _ => Error::Inputs(fault),
    }
}

/// What a fault of a script comes to.
pub(crate) fn script_error(fault: ScriptFault) -> Error
    ensures { result ≡ script_error fault }
{
    match fault {
        ScriptFault::NoMemory => Error::NoMemory,
        _ => Error::Script(fault),
    }
}
