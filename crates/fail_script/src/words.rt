//! The words of a line, and the form that they have.

ghost use Rattle.std.specs.Prelude.{◌≡◌, ◌≤◌, ◌++◌, map, MatchOption, OnOk, length};
ghost use Rattle.std.specs.List.{slice_range};
ghost use Rattle.std.specs.Str.{bytes_eq};
ghost use Rattle.fail_script.specs.Lines.{words_of};
ghost use Rattle.fail_script.specs.Reading.{has_form, word_in};

use std::alloc::AllocError;

/// What a line's words are, behind its round.
#[derive(Clone, Copy)]
pub enum Form {
    Lose,
    Repeat,
    Delay,
    Crash,
    CrashAtDelivery,
    StopAtCall,
    FailCall,
    Start,
}

// Whether a word is this one.
fn is(word: &[u8], wanted: &str) -> bool
    ensures { result ≡ bytes_eq word.now wanted.now }
{
    word == wanted.as_bytes()
}

/// The form of these words, by how many there are and those that are no numbers.
pub fn form_of(words: &[&[u8]]) -> Option<Form>
    ensures { MatchOption result ((f : Form) → has_form f (map (λ w. w.now) words.now) → ⊥)
        (λ f. has_form f (map (λ w. w.now) words.now)) }
{
    match words {
        [verb, _] if is(verb, "start") => Some(Form::Start),
        [verb, _, _, _] if is(verb, "lose") => Some(Form::Lose),
        [verb, _, _, _] if is(verb, "repeat") => Some(Form::Repeat),
        [verb, _, word, _] if is(verb, "fail") && is(word, "device") => Some(Form::FailCall),
        [verb, _, _, _, _] if is(verb, "delay") => Some(Form::Delay),
        [verb, _, word, _, _] if is(verb, "crash") && is(word, "now") => Some(Form::Crash),
        [verb, _, word, _, _, _] if is(verb, "crash") && is(word, "device") => {
            Some(Form::StopAtCall)
        }
        [verb, _, word, _, _, _] if is(verb, "crash") && is(word, "delivery") => {
            Some(Form::CrashAtDelivery)
        }
        _ => None,
    }
}

// Adds the word that stands between two places of a line, if any does.
fn add_word<'a>(
    words: &mut Vec<&'a [u8]>,
    line: &'a [u8],
    start: usize,
    end: usize,
) -> Result<(), AllocError>
    requires order { start ≤ end }
    requires within { end ≤ length line.now }
    ensures { OnOk result (map (λ w. w.now) words.new.items
        ≡ map (λ w. w.now) words.old.items ++ word_in (slice_range line.now start end)) }
{
    if start < end {
        words.push(&line[start..end])?;
    }
    Ok(())
}

/// Puts the words of a line into the place of others: what stands between its spaces.
pub fn read_words<'a>(words: &mut Vec<&'a [u8]>, line: &'a [u8]) -> Result<(), AllocError>
    ensures { OnOk result (map (λ w. w.now) words.new.items ≡ words_of line.now) }
{
    words.clear();
    let mut start = 0;
    for (at, byte) in line.iter().enumerate() {
        if *byte == b' ' {
            add_word(words, line, start, at)?;
            start = at + 1;
        }
    }
    add_word(words, line, start, line.len())
}
