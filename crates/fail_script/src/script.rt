//! Reading a failure script.

ghost use Rattle.std.specs.Prelude.{◌≡◌, ◌<◌, ◌^◌, ◌==◌, List, [], ◌∷◌, length, map, IfOk, IfErr, IfSome, IfNone, OnOk};
ghost use Rattle.std.specs.List.{slice_split};
ghost use Rattle.std.specs.Str.Lines.{strip_carriage_return};
ghost use Rattle.fail_script.specs.Lines.{AreScriptLines, IsScript, IsScriptFault, AnswersLines, IsRefusedBy};
ghost use Rattle.fail_script.specs.Reading.{IsLinesFault, lines_with, round_after};
ghost use Rattle.fail_script.specs.declared.act.ScriptLine.{ScriptLine as LineValue};
ghost use Rattle.fail_script.specs.declared.fault.ScriptFault.{ScriptFault as FaultValue};

use crate::act::{Script, ScriptLine};
use crate::fault::ScriptFault;
use crate::limits::MAX_SCRIPT_BYTES;
use crate::reading::read_line;
use memchr::memchr;
use std::alloc::{AllocError, Global};

// A line without the carriage return at its end.
fn without_return(line: &[u8]) -> &[u8]
    ensures { result.now ≡ strip_carriage_return line.now }
{
    match line {
        [content @ .., b'\r'] => content,
        _ => line,
    }
}

// Adds a line, if there is one, and gives the round of the last line then.
fn add_line(
    lines: &mut Vec<ScriptLine>,
    line: Option<ScriptLine>,
    round: u32,
) -> Result<u32, AllocError>
    ensures lines { OnOk result (lines.new.items ≡ lines_with line lines.old.items) }
    ensures round { IfOk result (λ after. after ≡ round_after round line) }
{
    match line {
        None => Ok(round),
        Some(line) => {
            lines.push(line)?;
            Ok(line.round)
        }
    }
}

// The lines of these parts of a text, in a network of so many nodes.
fn read_lines(alloc: Global, parts: &[&[u8]], nodes: u8) -> Result<Vec<ScriptLine>, ScriptFault>
    requires { length parts.now < 2 ^ 63 }
    ensures ok { IfOk result (λ lines. AreScriptLines nodes 0
        (map (λ part. strip_carriage_return part.now) parts.now) lines.items) }
    ensures err { IfErr result (IsLinesFault nodes
        (map (λ part. strip_carriage_return part.now) parts.now)) }
{
    let mut lines = Vec::new(alloc);
    let mut words = Vec::new(alloc);
    let mut round = 0;
    for (i, part) in parts.iter().enumerate() {
        let line = read_line(&mut words, without_return(part), i + 1, nodes, round)?;
        round = add_line(&mut lines, line, round)?;
    }
    Ok(lines)
}

// What stands before the first line feed, and what stands behind it.
fn split_line(text: &[u8]) -> Option<(&[u8], &[u8])>
    ensures some { IfSome result (λ parts. slice_split (λ b. b == 10) text.now
        ≡ parts.0.now ∷ slice_split (λ b. b == 10) parts.1.now) }
    ensures shorter { IfSome result (λ parts. length parts.1.now < length text.now) }
    ensures none { IfNone result (slice_split (λ b. b == 10) text.now ≡ text.now ∷ []) }
{
    match memchr(b'\n', text) {
        Some(at) => Some((&text[..at], &text[at + 1..])),
        None => None,
    }
}

// The parts of a text between its line feeds.
fn split_lines(alloc: Global, text: &str) -> Result<Vec<&[u8]>, AllocError>
    ensures { IfOk result (λ parts. map (λ part. part.now) parts.items
        ≡ slice_split (λ b. b == 10) text.now) }
{
    let mut parts = Vec::new(alloc);
    let mut rest = text.as_bytes();
    while let Some((line, behind)) = split_line(rest) {
        parts.push(line)?;
        rest = behind;
    }
    parts.push(rest)?;
    Ok(parts)
}

/// The lines of a failure script for a network of so many nodes. Blank lines and lines that begin with `#` are passed over;
/// a carriage return may end any line.
/// Refuses the first line that is no line of a script, or whose round is below that of a line before: 70; or that names a
/// node which the network doesn't have: 71; and an over-long script by 70 on line 1 before all else.
pub fn parse_script(alloc: Global, text: &str, nodes: u8) -> Result<Script, ScriptFault>
    ensures ok { IfOk result (λ script. IsScript nodes text.now script.lines.items) }
    // The first line that isn't right is named, with what is wrong there, and a script has no other fault.
    ensures err { IfErr result (IsScriptFault nodes text.now) }
    ensures each { (fault : FaultValue) → IsScriptFault nodes text.now fault
        → IsRefusedBy fault result }
    // A script of such lines is read, unless memory runs out.
    ensures only { (lines : List LineValue) → IsScript nodes text.now lines
        → AnswersLines (λ script. script.lines.items) result lines }
{
    if text.len() > MAX_SCRIPT_BYTES {
        return Err(ScriptFault::BadLine { line: 1 });
    }
    let parts = split_lines(alloc, text)?;
    let lines = read_lines(alloc, &parts, nodes)?;
    Ok(Script { lines })
}
