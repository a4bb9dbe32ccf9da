//! Lines of a failure script for which a run was too short.

ghost use Rattle.std.specs.Prelude.{◌<◌, IfSome};

use crate::places::{after, count_to, line_from, rest, word};
use crate::script::round_of;
use crate::words::Grouped;
use std::fmt;

/// The first line of a script that never came due in a run. It reads as `script line 7 never came due: round 900; the run ended in round
/// 12`.
#[derive(Clone, Copy, Debug)]
pub struct NeverDue {
    /// Its number, from 1.
    pub line: usize,
    /// The round in which it would have come due.
    pub round: u64,
    /// How many such lines stand below it.
    pub others: usize,
    /// The round in which the run ended.
    pub ended: u64,
}

impl fmt::Display for NeverDue {
    fn fmt<W: fmt::Write>(&self, f: &mut fmt::Formatter<W>) -> fmt::Result {
        let line = self.line;
        let others = self.others;
        let round = Grouped(self.round);
        let ended = Grouped(self.ended);
        if others == 0 {
            write!(
                f,
                "script line {line} never came due: round {round}; the run ended in round {ended}"
            )
        } else {
            write!(
                f,
                "script line {line} and {others} below it never came due: round {round}; the run ended in round {ended}"
            )
        }
    }
}

// The line that begins at an offset, as one that may never have come due.
fn line_due(text: &str, start: usize, line: usize, ended: u64) -> Option<NeverDue>
    ensures { IfSome result (λ it. ended < it.round) }
{
    let len = line_from(text.as_bytes(), start).len();
    let round = round_of(word(text, start, after(start, len)))?;
    if round <= ended {
        return None;
    }
    Some(NeverDue {
        line,
        round,
        others: 0,
        ended,
    })
}

// The same line, with one more below it where there is one.
fn with_other(first: Option<NeverDue>, other: Option<NeverDue>) -> Option<NeverDue> {
    match (first, other) {
        (Some(first), Some(_)) => Some(NeverDue {
            others: first.others.wrapping_add(1),
            ..first
        }),
        (Some(first), None) => Some(first),
        (None, other) => other,
    }
}

/// The first line of a script whose round is behind the one in which a run ended, if there is one. (A line that came due but for which the
/// run had no turn left isn't told.)
pub fn never_due(script: &str, ended: u64) -> Option<NeverDue> {
    let bytes = script.as_bytes();
    let mut first = None;
    let mut start = 0;
    let mut number: usize = 1;
    for _ in 0..=bytes.len() {
        first = with_other(first, line_due(script, start, number, ended));
        let behind = rest(bytes, start);
        let len = count_to(behind, b'\n');
        if len >= behind.len() {
            return first;
        }
        start = after(start, after(len, 1));
        number = after(number, 1);
    }
    first
}
