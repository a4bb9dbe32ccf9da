//! The command line of the streaming mode, as `clap` is told of it.

ghost use Rattle.std.specs.Prelude.{◌≡◌, ◌∷◌, [], IfOk, IsOkAnd, codes, false};
ghost use Rattle.clap.specs.Words.{HasKind, app_of, new_rule, rule_of, with_rule};
ghost use Rattle.clap.specs.declared.error.kind.ErrorKind.TheVariants as kind;
ghost use Rattle.stream_words.specs.CommandLine.{flag, kahnrun_stream, number, required, several};

use clap::builder::ValueParser;
use clap::error::ErrorKind;
use clap::{Arg, ArgAction, Command, Error};
use std::alloc::{AllocError, Global};

/// The number of this version, which the file VERSION at the top has too, and the logic of the kit for which the sources are.
pub const VERSION: &str = "0.9.0, for rattle-kit logic dac8208d650f15bf";

/// The least number of items that a channel may be let retain. It is `MIN_ROOM` of `protocol`, on which this crate doesn't stand.
pub const LEAST_ROOM: u64 = 64;

/// The greatest one, `MAX_RETAINED_ITEMS` of `ckpt_codec`.
pub const MOST_ROOM: u64 = 57_344;

const ABOUT: &str =
    "Runs a Kahn process network on items as they come, and prints each item that leaves at once.";

// What stands behind the options.
const AFTER_OPTIONS: &str = "\
An output's item is a line with its name, as `o 1`. --stream=bare prints the items alone, of a network with one output.

--binary has each item as eight bytes, in two's complement, the least significant byte first, and nothing between items.

Exit status:
   0  every input came to its end, and all that can leave has left
   2  a text, an item of an input or the command line is refused, or help or the version was asked for
   1  anything else

To add up numbers as they come:
  seq 1000000 | kahnrun --stream=bare --input i=- examples/running_sum.net | tail -1";

// The network's text.
fn net<'a>(alloc: Global) -> Arg<'a>
    ensures rule { rule_of result ≡ required (new_rule (codes "NET")) }
    ensures here { result.global ≡ false }
{
    Arg::new(alloc, "NET")
        .required(true)
        .help("The network's text")
}

// The inputs' text, which may be left out.
fn inputs<'a>(alloc: Global) -> Arg<'a>
    ensures rule { rule_of result ≡ new_rule (codes "INPUTS") }
    ensures here { result.global ≡ false }
{
    Arg::new(alloc, "INPUTS").help(
        "The items with which each input begins, a line for each: i: 1 2 3; left out where each input has an --input",
    )
}

// The flag that asks for this mode.
fn stream<'a>(alloc: Global) -> Arg<'a>
    ensures rule { rule_of result ≡ required (flag (codes "stream")) }
    ensures here { result.global ≡ false }
{
    Arg::new(alloc, "stream")
        .long("stream")
        .action(ArgAction::SetTrue)
        .required(true)
        .help(
            "Prints a line for each item that leaves; --stream=bare the items of the one output alone",
        )
}

// Where an input's items come from.
fn input<'a>(alloc: Global) -> Arg<'a>
    ensures rule { rule_of result ≡ several (codes "input") }
    ensures here { result.global ≡ false }
{
    Arg::new(alloc, "input")
        .long("input")
        .value_name("NAME=FILE")
        .action(ArgAction::Append)
        .help(
            "Takes the items of this input from this file, or from standard input where FILE is -; may come several times",
        )
}

// How items are spelled.
fn binary<'a>(alloc: Global) -> Arg<'a>
    ensures rule { rule_of result ≡ flag (codes "binary") }
    ensures here { result.global ≡ false }
{
    Arg::new(alloc, "binary")
        .long("binary")
        .action(ArgAction::SetTrue)
        .help(
            "Takes items from all sources, and prints them, as eight bytes each in place of text; needs --stream=bare",
        )
}

// How many items a channel retains at most.
fn room<'a>(alloc: Global) -> Arg<'a>
    ensures rule { rule_of result ≡ number (codes "room") LEAST_ROOM MOST_ROOM (codes "4096") }
    ensures here { result.global ≡ false }
{
    Arg::new(alloc, "room")
        .long("room")
        .value_name("N")
        .value_parser(ValueParser::unsigned(LEAST_ROOM, MOST_ROOM))
        .default_value("4096")
        .help("Lets each channel retain so many items at most")
}

// Whether a refusal is explained.
fn explain<'a>(alloc: Global) -> Arg<'a>
    ensures rule { rule_of result ≡ flag (codes "explain") }
    ensures here { result.global ≡ false }
{
    Arg::new(alloc, "explain")
        .long("explain")
        .action(ArgAction::SetTrue)
        .help(
            "Says where and why a text is refused, and shows its line; a terminal has that without being asked",
        )
}

// A command line, with one argument more.
fn and<'a>(
    command: Result<Command<'a>, AllocError>,
    arg: Arg<'a>,
) -> Result<Command<'a>, AllocError>
    ensures { arg.entry.global ≡ false → IfOk result (λ c. IsOkAnd command.entry
        (λ before. app_of c ≡ with_rule (app_of before) (rule_of arg.entry))) }
{
    match command {
        Ok(before) => before.arg(arg),
        Err(error) => Err(error),
    }
}

/// The command line: `kahnrun --stream[=bare] [--input NAME=FILE].. [--binary] [--room N] [--explain] NET [INPUTS]`.
pub(crate) fn command<'a>(alloc: Global) -> Result<Command<'a>, AllocError>
    ensures { IfOk result (λ c. app_of c ≡ kahnrun_stream) }
{
    let start = Command::new(alloc, "kahnrun")
        .version(VERSION)
        .about(ABOUT)
        .after_help(AFTER_OPTIONS);
    let with_net = and(Ok(start), net(alloc));
    let with_inputs = and(with_net, inputs(alloc));
    let with_stream = and(with_inputs, stream(alloc));
    let with_input = and(with_stream, input(alloc));
    let with_binary = and(with_input, binary(alloc));
    let with_room = and(with_binary, room(alloc));
    and(with_room, explain(alloc))
}

// The error of a value of `--input` that has no form NAME=FILE.
fn told(alloc: Global, value: &str) -> Result<Error, AllocError>
    ensures { IfOk result (HasKind (kind.ValueValidation ∷ [])) }
{
    let message = format!(in alloc;
        "invalid value '{value}' for '--input <NAME=FILE>': a name, `=` and a file are expected"
    )?;
    command(alloc)?.error(ErrorKind::ValueValidation, message.as_str())
}

/// The error of a value of `--input` that has no form NAME=FILE.
pub(crate) fn without_form(alloc: Global, value: &str) -> Error
    // Its kind, or want of memory.
    ensures { HasKind (kind.ValueValidation ∷ []) result }
{
    match told(alloc, value) {
        Ok(error) => error,
        Err(error) => error.into(),
    }
}

/// The error of a command line with `--binary` and no `--stream=bare`.
pub(crate) fn binary_named(alloc: Global) -> Error
    // Its kind, or want of memory.
    ensures { HasKind (kind.MissingRequiredArgument ∷ []) result }
{
    match command(alloc) {
        Ok(mut command) => {
            match command.error(
                ErrorKind::MissingRequiredArgument,
                "--binary prints no names of outputs, and --stream=bare was not given",
            ) {
                Ok(error) => error,
                Err(error) => error.into(),
            }
        }
        Err(error) => error.into(),
    }
}
