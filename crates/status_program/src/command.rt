//! The command line that asks what a folder holds, as `clap` is told of it.

ghost use Rattle.std.specs.Prelude.{◌≡◌, IfOk, IsOkAnd, codes, false};
ghost use Rattle.clap.specs.Words.{app_of, rule_of, with_rule};
ghost use Rattle.stream_words.specs.CommandLine.{flag, required};
ghost use Rattle.status_program.specs.StatusWords.{kahnrun_status, valued};

use clap::{Arg, ArgAction, Command};
use std::alloc::{AllocError, Global};
use stream_words::VERSION;

const ABOUT: &str =
    "Says what a folder of --state holds and how far its run has come, also while a run is at work there.";

// What stands behind the options.
const AFTER_OPTIONS: &str = "\
It reads the folder's files, and writes nothing. Then it runs the processes of the folder's network again, alone, as far as the files go.
The last line is `complete` where nothing more will come on these inputs, `partial` where an output lacks items, and `unsettled` where it can't be told.

Refusals, as in `state: refusal 81` on standard error:
  80  no folder of a run, or one that is damaged
  81  an item that the network doesn't put at its place
  82  a file of the folder that can't be read

Exit status:
   0  the last line is `complete`
   3  the last line is `partial` or `unsettled`
   2  the command line is refused, or help or the version was asked for
   1  anything else

To see how far a run has come:
  kahnrun --status mine";

// The folder.
fn status<'a>(alloc: Global) -> Arg<'a>
    ensures rule { rule_of result ≡ required (valued (codes "status")) }
    ensures here { result.global ≡ false }
{
    Arg::new(alloc, "status")
        .long("status")
        .value_name("FOLDER")
        .required(true)
        .help("Says what this folder holds, in which a run with --state keeps what leaves")
}

// Whether a refusal is explained.
fn explain<'a>(alloc: Global) -> Arg<'a>
    ensures rule { rule_of result ≡ flag (codes "explain") }
    ensures here { result.global ≡ false }
{
    Arg::new(alloc, "explain")
        .long("explain")
        .action(ArgAction::SetTrue)
        .help(
            "Says which file the folder is refused for, and why; a terminal has that without being asked",
        )
}

// A command line, with one argument more.
fn and<'a>(
    command: Result<Command<'a>, AllocError>,
    arg: Arg<'a>,
) -> Result<Command<'a>, AllocError>
    ensures { arg.entry.global ≡ false → IfOk result (λ c. IsOkAnd command.entry
        (λ before. app_of c ≡ with_rule (app_of before) (rule_of arg.entry))) }
{
    match command {
        Ok(before) => before.arg(arg),
        Err(error) => Err(error),
    }
}

/// The command line: `kahnrun --status FOLDER [--explain]`.
pub(crate) fn command<'a>(alloc: Global) -> Result<Command<'a>, AllocError>
    ensures { IfOk result (λ c. app_of c ≡ kahnrun_status) }
{
    let start = Command::new(alloc, "kahnrun")
        .version(VERSION)
        .about(ABOUT)
        .after_help(AFTER_OPTIONS);
    let with_status = and(Ok(start), status(alloc));
    and(with_status, explain(alloc))
}
