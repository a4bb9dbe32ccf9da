//! What the words of the streaming mode ask for.

ghost use Rattle.std.specs.Prelude.{◌≡◌, ◌⊎◌, ◌∷◌, [], IfErr, IfOk, List, MatchResult, codes, map, option_map, string_bytes, true};
ghost use Rattle.std.specs.List.{AllZip, Any};
ghost use Rattle.clap.specs.Words.{HasKind, Text, fault_of, first_value, found_of, kind_of, matches_of, one_text, rows_of};
ghost use Rattle.clap.specs.declared.error.kind.ErrorKind.TheVariants as kind;
ghost use Rattle.stream_words.specs.CommandLine.{kahnrun_stream};
ghost use Rattle.stream_words.specs.Asked.{IsNumber, IsSource, IsSourceFault, IsStreamAsked, IsStreamRefusal, IsWithoutForm, values_of};
ghost use Rattle.stream_words.specs.FlagWords as spec;

use crate::command::{LEAST_ROOM, MOST_ROOM, binary_named, command, without_form};
use crate::flags::{asks_for_bare, given_words};
use crate::sources::{InputSource, SourceFault, sources_of};
use clap::{ArgMatches, Error};
use std::alloc::{AllocError, Global};
use std::convert::AsStr;

/// What a command line with `--stream` asks for.
#[derive(Debug, Drop)]
pub struct StreamOptions {
    /// The file of the network's text.
    pub net: String,
    /// The file of the inputs' text, if there is one.
    pub inputs: Option<String>,
    /// The inputs whose items come from a file of their own or from standard input, as they stand in the command line.
    pub sources: Vec<InputSource>,
    /// The items of the one output are printed alone. Else each has its output's name before it.
    pub bare: bool,
    /// Items come and leave as eight bytes each. Else they are decimal text.
    pub binary: bool,
    /// How many items a channel retains at most at first, from `LEAST_ROOM` to `MOST_ROOM`.
    pub room: u64,
    /// Where a text is refused, a second line says at which column, and in words.
    pub explain: bool,
}

// The sources that the values of `--input` name, in order.
fn sources_given<'a>(
    alloc: Global,
    matches: &ArgMatches<'a>,
) -> Result<Vec<InputSource>, SourceFault<'a>>
    ensures { MatchResult result (λ sources. AllZip IsSource (values_of (codes "input") (rows_of (found_of matches.now))) sources.items)
        (IsSourceFault (values_of (codes "input") (rows_of (found_of matches.now)))) }
{
    match matches.get_strs("input") {
        Some(values) => sources_of(alloc, values),
        None => Ok(Vec::new(alloc)),
    }
}

// The name of the inputs' file, if there is one.
fn inputs_given(alloc: Global, matches: &ArgMatches<'_>) -> Result<Option<String>, AllocError>
    ensures { IfOk result (λ name. first_value (found_of matches.now) (codes "INPUTS") ≡ option_map string_bytes name) }
{
    match matches.get_str("INPUTS") {
        Some(name) => Ok(Some(String::from_str(alloc, name)?)),
        None => Ok(None),
    }
}

// How many items a channel retains at most. (Its parser let no other text through, so the error isn't met.)
fn room_given(matches: &ArgMatches<'_>) -> Result<u64, AllocError>
    ensures { IfOk result (IsNumber LEAST_ROOM MOST_ROOM (one_text (found_of matches.now) (codes "room"))) }
{
    match matches.try_get_one::<u64>("room") {
        Ok(Some(number)) if LEAST_ROOM <= number && number <= MOST_ROOM => Ok(number),
        _ => Err(AllocError),
    }
}

// What these matches ask for, with these sources.
fn options_of(
    alloc: Global,
    matches: &ArgMatches<'_>,
    sources: Vec<InputSource>,
    bare: bool,
) -> Result<StreamOptions, AllocError>
    ensures asked { AllZip IsSource (values_of (codes "input") (rows_of (found_of matches.now))) sources.items
        → IfOk result (IsStreamAsked (rows_of (found_of matches.now))) }
    ensures bare { IfOk result (λ options. options.bare ≡ bare) }
{
    let Some(net) = matches.get_str("NET") else {
        return Err(AllocError);
    };
    Ok(StreamOptions {
        net: String::from_str(alloc, net)?,
        inputs: inputs_given(alloc, matches)?,
        sources,
        bare,
        binary: matches.get_flag("binary"),
        room: room_given(matches)?,
        explain: matches.get_flag("explain"),
    })
}

// The matches of these words, to which `--stream` is a flag.
fn matches_by<'a>(alloc: Global, words: &'a [&'a str]) -> Result<ArgMatches<'a>, Error>
    ensures rows { IfOk result (λ matches. rows_of (found_of matches) ≡ matches_of kahnrun_stream (map (λ word. word.now) words.now)) }
    ensures right { IfOk result (λ _. fault_of kahnrun_stream (map (λ word. word.now) words.now) ≡ []) }
    ensures refused { IfErr result (HasKind (fault_of kahnrun_stream (map (λ word. word.now) words.now))) }
{
    let matches = command(alloc)?.try_get_matches_from(words)?;
    Ok(matches)
}

// The error for want of memory.
fn no_memory() -> Error
    ensures { kind_of result ≡ kind.OutOfMemory }
{
    AllocError.into()
}

// The error of values that give no sources.
fn fault_error(alloc: Global, fault: SourceFault<'_>) -> Error
    ensures { (values : List Text) → IsSourceFault values fault.entry
        → (kind_of result ≡ kind.OutOfMemory) ⊎ (Any IsWithoutForm values × HasKind (kind.ValueValidation ∷ []) result) }
{
    match fault {
        SourceFault::NoMemory => no_memory(),
        SourceFault::WithoutForm(value) => without_form(alloc, value),
    }
}

// What these words ask for, to which `--stream` is a flag.
fn options_by(alloc: Global, words: &[&str], bare: bool) -> Result<StreamOptions, Error>
    ensures asked { IfOk result (IsStreamAsked (matches_of kahnrun_stream (map (λ word. word.now) words.now))) }
    ensures bare { IfOk result (λ options. options.bare ≡ bare) }
    ensures right { IfOk result (λ _. fault_of kahnrun_stream (map (λ word. word.now) words.now) ≡ []) }
    ensures together { IfOk result (λ options. options.binary ≡ true → bare ≡ true) }
    ensures refused { IfErr result (IsStreamRefusal bare (map (λ word. word.now) words.now)) }
{
    let matches = match matches_by(alloc, words) {
        Ok(matches) => matches,
        Err(error) => return Err(error),
    };
    let sources = match sources_given(alloc, &matches) {
        Ok(sources) => sources,
        Err(fault) => return Err(fault_error(alloc, fault)),
    };
    let options = match options_of(alloc, &matches, sources, bare) {
        Ok(options) => options,
        Err(_) => return Err(no_memory()),
    };
    if options.binary && !bare {
        return Err(binary_named(alloc));
    }
    Ok(options)
}

/// What these words ask for, of which the first is the program's name. Refuses by `clap`'s error, whose text is for the user: also where
/// they ask for help or for the version, and for want of memory.
pub fn stream_options<S: AsStr>(alloc: Global, words: &[S]) -> Result<StreamOptions, Error>
    // Each value is that of the matches, defaults included, and within its bounds; and the sources are the values of `--input`, in order.
    ensures asked { IfOk result (IsStreamAsked (matches_of kahnrun_stream (spec.given_words (map S.text words.now)))) }
    // Items are printed alone exactly where one of the words is `--stream=bare`, before a `--`.
    ensures bare { IfOk result (λ options. options.bare ≡ spec.asks_for_bare (map S.text words.now)) }
    // Items are bytes only where they are printed alone.
    ensures together { IfOk result (λ options. options.binary ≡ true → options.bare ≡ true) }
    // Nothing is wrong with words that are taken.
    ensures right { IfOk result (λ _. fault_of kahnrun_stream (spec.given_words (map S.text words.now)) ≡ []) }
    // Words are refused for what is wrong with them, for a value of `--input` that has no form NAME=FILE, for `--binary` without
    // `--stream=bare`, or for want of memory.
    ensures refused { IfErr result (IsStreamRefusal (spec.asks_for_bare (map S.text words.now)) (spec.given_words (map S.text words.now))) }
{
    match given_words(alloc, words) {
        Ok(given) => options_by(alloc, given.as_slice(), asks_for_bare(words)),
        Err(_) => Err(no_memory()),
    }
}
