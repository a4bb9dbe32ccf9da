//! What the words of a command line ask for that asks what a folder holds.

ghost use Rattle.std.specs.Prelude.{IfErr, IfOk, map};
ghost use Rattle.clap.specs.Words.{HasKind, fault_of, found_of, matches_of, rows_of};
ghost use Rattle.status_program.specs.StatusWords.{IsStatusAsked, kahnrun_status};

use crate::command::command;
use clap::{ArgMatches, Error};
use std::alloc::{AllocError, Global};
use std::convert::AsStr;

/// What a command line with `--status` asks for.
#[derive(Debug, Drop)]
pub struct StatusOptions {
    /// The folder.
    pub folder: String,
    /// Where the folder is refused, a second line says for which file, and why.
    pub explain: bool,
}

// What these matches ask for.
fn options_of(alloc: Global, matches: &ArgMatches<'_>) -> Result<StatusOptions, AllocError>
    ensures { IfOk result (IsStatusAsked (rows_of (found_of matches.now))) }
{
    let Some(folder) = matches.get_str("status") else {
        return Err(AllocError);
    };
    Ok(StatusOptions {
        folder: String::from_str(alloc, folder)?,
        explain: matches.get_flag("explain"),
    })
}

/// What these words ask for, of which the first is the program's name. Refuses by `clap`'s error, whose text is for the user: also where
/// they ask for help or for the version, and for want of memory.
pub fn status_options<S: AsStr>(alloc: Global, words: &[S]) -> Result<StatusOptions, Error>
    // Each value is that of the matches.
    ensures asked { IfOk result (IsStatusAsked (matches_of kahnrun_status (map S.text words.now))) }
    // Words are refused for what is wrong with them, or for want of memory.
    ensures refused { IfErr result (HasKind (fault_of kahnrun_status (map S.text words.now))) }
{
    let matches = command(alloc)?.try_get_matches_from(words)?;
    let options = options_of(alloc, &matches)?;
    Ok(options)
}
