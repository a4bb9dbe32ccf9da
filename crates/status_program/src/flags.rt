//! The word `--status`, with its value behind `=` or in the next word.

ghost use Rattle.std.specs.Prelude.{◌≡◌, map};
ghost use Rattle.stream_words.specs.FlagWords.{has_option, is_end};
ghost use Rattle.status_program.specs.StatusWords as spec;

use std::convert::AsStr;

// The word behind which no word is an option.
fn is_end(word: &str) -> bool
    ensures { result ≡ is_end word.now }
{
    word == "--"
}

// `--status`, alone or with a value behind `=`.
fn is_status(word: &str) -> bool
    ensures { result ≡ spec.is_status word.now }
{
    match word.split_once('=') {
        Some((name, _)) => name == "--status",
        None => word == "--status",
    }
}

// Whether one of these words is `--status`, before a `--`.
fn has_status<S: AsStr>(words: &[S]) -> bool
    ensures { result ≡ has_option spec.is_status (map S.text words.now) }
{
    for word in words {
        if is_end(word.as_str()) {
            return false;
        }
        if is_status(word.as_str()) {
            return true;
        }
    }
    false
}

/// Whether these words, of which the first is the program's name, ask what a folder holds.
pub fn asks_for_status<S: AsStr>(words: &[S]) -> bool
    // One of them is `--status`, alone or with a value behind `=`, and no `--` stands before it.
    ensures { result ≡ spec.asks_for_status (map S.text words.now) }
{
    match words {
        [] => false,
        [_, rest @ ..] => has_status(rest),
    }
}
