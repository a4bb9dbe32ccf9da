//! Why the streams end early, and what is then printed.

ghost use Rattle.std.specs.Prelude.{◌≡◌, ◌++◌, IfOk, OnOk, codes, string_bytes};
ghost use Rattle.stream_program.specs.Failures.{failure_line, input_of, item_fault_line, item_words, line_words, name_of, of_input, place_words, port_fault_line, refusal_end, status_of};

use host_ports::{BadItem, PortFault};
use kahn_program::Failure;
use net_text::Name;
use std::alloc::{AllocError, Global};
use stream_words::InputSource;

/// Why the streams end early.
#[derive(Clone, Copy, Debug, PartialEq, Eq)]
pub enum StreamFailure {
    /// The network's text or that of its inputs can't be read or is refused, or the network can't be opened.
    Text(Failure),
    /// The source in this place of the command line is for what is no input (11), or for one that has a source already (10).
    Refused { place: usize, number: u8 },
    /// No source is given for this input, nor a text of the inputs.
    Missing { input: u8 },
    /// The items of one output alone are asked for, and there are more outputs or none.
    NotOne,
    /// A source, an item that came, or standard output.
    Port(PortFault),
    /// An input would have more items than a count goes.
    Full,
}

// The name of a channel.
fn name_of(names: &[Name], channel: u8) -> &str
    ensures { result.now ≡ name_of names.now channel }
{
    match names.get(usize::from(channel)) {
        Some(name) => name.as_str(),
        None => "",
    }
}

// The input that a source is for.
fn input_of(sources: &[InputSource], place: usize) -> &str
    ensures { result.now ≡ input_of sources.now place }
{
    match sources.get(place) {
        Some(source) => source.input.as_str(),
        None => "",
    }
}

// The word `input` and its name.
fn of_input(alloc: Global, name: &str) -> Result<String, AllocError>
    ensures { IfOk result (λ line. string_bytes line ≡ of_input name.now) }
{
    let mut line = String::from_str(alloc, "input ")?;
    line.push_str(name)?;
    Ok(line)
}

// Adds the number of a refusal, and a line feed.
fn add_refusal(line: &mut String, number: u8) -> Result<(), AllocError>
    ensures { OnOk result (string_bytes line.new ≡ string_bytes line.old ++ refusal_end number) }
{
    write!(line, ": refusal {number}\n")
}

// Adds the number of a line.
fn add_line(line: &mut String, number: u64) -> Result<(), AllocError>
    ensures { OnOk result (string_bytes line.new ≡ string_bytes line.old ++ line_words number) }
{
    write!(line, " line {number}")
}

// Adds the number of an item.
fn add_item(line: &mut String, number: u64) -> Result<(), AllocError>
    ensures { OnOk result (string_bytes line.new ≡ string_bytes line.old ++ item_words number) }
{
    write!(line, " item {number}")
}

// Adds where in what came a fault stands.
fn add_place(line: &mut String, fault: BadItem) -> Result<(), AllocError>
    ensures { OnOk result (string_bytes line.new ≡ string_bytes line.old ++ place_words fault) }
{
    match fault {
        BadItem::InText(fault) => add_line(line, fault.line()),
        BadItem::Cut { item } => add_item(line, item),
    }
}

// The line of an input that is refused.
fn refused_input(alloc: Global, name: &str, number: u8) -> Result<String, AllocError>
    ensures { IfOk result (λ line. string_bytes line ≡ of_input name.now ++ refusal_end number) }
{
    let mut line = of_input(alloc, name)?;
    add_refusal(&mut line, number)?;
    Ok(line)
}

// The line of an item that is refused.
fn item_line(alloc: Global, name: &str, fault: BadItem) -> Result<String, AllocError>
    ensures { IfOk result (λ line. string_bytes line ≡ item_fault_line name.now fault) }
{
    let mut line = of_input(alloc, name)?;
    add_place(&mut line, fault)?;
    add_refusal(&mut line, fault.number())?;
    Ok(line)
}

// The line of an input whose source can't be read.
fn unread_line(alloc: Global, name: &str) -> Result<String, AllocError>
    ensures { IfOk result (λ line. string_bytes line ≡ of_input name.now ++ codes ": cannot be read\n") }
{
    let mut line = of_input(alloc, name)?;
    line.push_str(": cannot be read\n")?;
    Ok(line)
}

// The line of what failed outside.
fn port_line(alloc: Global, names: &[Name], fault: PortFault) -> Result<String, AllocError>
    ensures { IfOk result (λ line. string_bytes line ≡ port_fault_line names.now fault) }
{
    match fault {
        PortFault::NoMemory => String::from_str(alloc, "no memory\n"),
        PortFault::Unread { input } => unread_line(alloc, name_of(names, input)),
        PortFault::Item { input, fault } => item_line(alloc, name_of(names, input), fault),
        PortFault::Unsaid => String::from_str(alloc, "output: cannot be written\n"),
    }
}

impl StreamFailure {
    /// The line that tells of it, with its line feed.
    pub fn line(
        self,
        alloc: Global,
        names: &[Name],
        sources: &[InputSource],
    ) -> Result<String, AllocError>
        ensures { IfOk result (λ line. string_bytes line ≡ failure_line names.now sources.now self) }
    {
        match self {
            StreamFailure::Text(failure) => format!(in alloc; "{failure}\n"),
            StreamFailure::Refused { place, number } => {
                refused_input(alloc, input_of(sources, place), number)
            }
            StreamFailure::Missing { input } => refused_input(alloc, name_of(names, input), 18),
            StreamFailure::NotOne => String::from_str(
                alloc,
                "--stream=bare: not exactly one output\n",
            ),
            StreamFailure::Port(fault) => port_line(alloc, names, fault),
            StreamFailure::Full => String::from_str(alloc, "refusal 50\n"),
        }
    }

    /// The program's exit status: 2 for a text, an item or a command line that is refused, 1 for all else.
    pub fn status(self) -> u8
        ensures { result ≡ status_of self }
    {
        match self {
            StreamFailure::Text(failure) => failure.status(),
            StreamFailure::Refused { .. }
            | StreamFailure::Missing { .. }
            | StreamFailure::NotOne
            | StreamFailure::Port(PortFault::Item { .. }) => 2,
            StreamFailure::Port(_) | StreamFailure::Full => 1,
        }
    }
}
