//! The word `--stream`, with its value or without.

ghost use Rattle.std.specs.Prelude.{◌≡◌, ◌++◌, IfOk, OnOk, map};
ghost use Rattle.stream_words.specs.FlagWords as spec;

use std::alloc::{AllocError, Global};
use std::convert::AsStr;

// The word behind which no word is an option.
fn is_end(word: &str) -> bool
    ensures { result ≡ spec.is_end word.now }
{
    word == "--"
}

// `--stream`, alone or with a value behind `=`.
fn is_stream(word: &str) -> bool
    ensures { result ≡ spec.is_stream word.now }
{
    match word.split_once('=') {
        Some((name, _)) => name == "--stream",
        None => word == "--stream",
    }
}

// `--stream=bare`.
fn is_bare(word: &str) -> bool
    ensures { result ≡ spec.is_bare word.now }
{
    word == "--stream=bare"
}

// Whether one of these words is `--stream`, before a `--`.
fn has_stream<S: AsStr>(words: &[S]) -> bool
    ensures { result ≡ spec.has_option spec.is_stream (map S.text words.now) }
{
    for word in words {
        if is_end(word.as_str()) {
            return false;
        }
        if is_stream(word.as_str()) {
            return true;
        }
    }
    false
}

// Whether one of these words is `--stream=bare`, before a `--`.
fn has_bare<S: AsStr>(words: &[S]) -> bool
    ensures { result ≡ spec.has_option spec.is_bare (map S.text words.now) }
{
    for word in words {
        if is_end(word.as_str()) {
            return false;
        }
        if is_bare(word.as_str()) {
            return true;
        }
    }
    false
}

/// Whether these words, of which the first is the program's name, ask for items as they come.
pub fn asks_for_stream<S: AsStr>(words: &[S]) -> bool
    // One of them is `--stream`, alone or with a value behind `=`, and no `--` stands before it.
    ensures { result ≡ spec.asks_for_stream (map S.text words.now) }
{
    match words {
        [] => false,
        [_, rest @ ..] => has_stream(rest),
    }
}

/// Whether they ask for the items of the one output alone.
pub(crate) fn asks_for_bare<S: AsStr>(words: &[S]) -> bool
    ensures { result ≡ spec.asks_for_bare (map S.text words.now) }
{
    match words {
        [] => false,
        [_, rest @ ..] => has_bare(rest),
    }
}

// `--stream` in place of `--stream=bare`.
fn flag_word(word: &str) -> &str
    ensures { result.now ≡ spec.flag_word word.now }
{
    if is_bare(word) { "--stream" } else { word }
}

// Adds the words behind the program's name, with the flag alone where it has its value.
fn add_flag_words<'a, S: AsStr>(given: &mut Vec<&'a str>, words: &'a [S]) -> Result<(), AllocError>
    ensures { OnOk result (map (λ word. word.now) given.new.items
        ≡ map (λ word. word.now) given.old.items ++ spec.flag_words (map S.text words.now)) }
{
    let mut ended = false;
    for word in words {
        let word = word.as_str();
        ended = ended || is_end(word);
        given.push(if ended { word } else { flag_word(word) })?;
    }
    Ok(())
}

/// The words as `clap` is given them, to which `--stream` is a flag: a value that has to stand behind `=` and may be left out would keep
/// `clap` from saying exactly which words it refuses.
pub(crate) fn given_words<'a, S: AsStr>(
    alloc: Global,
    words: &'a [S],
) -> Result<Vec<&'a str>, AllocError>
    ensures { IfOk result (λ given. map (λ word. word.now) given.items ≡ spec.given_words (map S.text words.now)) }
{
    let mut given = Vec::new(alloc);
    match words {
        [] => {}
        [name, rest @ ..] => {
            given.push(name.as_str())?;
            add_flag_words(&mut given, rest)?;
        }
    }
    Ok(given)
}
