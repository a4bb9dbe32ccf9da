//! Reading an inputs text: lines of a name, a colon and items.

ghost use Rattle.std.specs.Prelude.{◌≡◌, ◌+◌, ◌==◌, List, [], ◌++◌, length, map, ◌||◌, ◌<◌, ◌^◌, IfOk, IfErr, OnOk, Option, Some, None};
ghost use Rattle.std.specs.List.{slice_split};
ghost use Rattle.std.specs.Str.{IsUtf8};
ghost use Rattle.std.specs.Str.Lines.{strip_carriage_return};
ghost use Rattle.net_text.specs.Trees.{InputTree, input_tree, inputs_tree};
ghost use Rattle.net_text.specs.InputLines.{is_space, is_comment, IsInputsText, IsInputsFault};
ghost use Rattle.net_text.specs.declared.fault.TextFault.{TextFault as FaultValue};
ghost use Rattle.net_text.specs.InputReading.{Gives, run, sign_len, item_at, items_at, after_name, entry_at, line_at, lines_at, entry_tree, with_entry};
ghost use Rattle.net_text.specs.Spellings.{continues_word};
ghost use Rattle.net_text.specs.Texts.{Answers, IsRefusedBy};

use crate::fault::TextFault;
use crate::lexer::{numeral_len, starts_word, word_len};
use crate::limits::{MAX_INPUTS_BYTES, MAX_NAME_BYTES};
use crate::name::Name;
use crate::raw_inputs::{InputLine, RawInputs};
use std::alloc::{AllocError, Global};

// How many spaces stand at the front.
fn space_len(bytes: &[u8]) -> usize
    ensures { result ≡ run is_space bytes.now }
{
    for (i, b) in bytes.iter().enumerate() {
        if *b != b' ' {
            return i;
        }
    }
    bytes.len()
}

// One where a minus stands at the front.
fn sign_len(bytes: &[u8]) -> usize
    ensures { result ≡ sign_len bytes.now }
{
    if !bytes.is_empty() && bytes[0] == b'-' {
        1
    } else {
        0
    }
}

// An item at the front, and what follows it.
#[tactic(auto, unfolding(crate::specs::InputReading::item_at))]
fn item(text: &str, line: usize) -> Result<(i64, &str), TextFault>
    ensures gives { Gives (λ x. (x.0, x.1.now)) result (item_at line text.now) }
    ensures text { IfOk result (λ x. IsUtf8 x.1.now) }
{
    let bytes = text.as_bytes();
    let sign = sign_len(bytes);
    let (_, unsigned) = bytes.split_at(sign);
    let digits = numeral_len(unsigned);
    if digits == 0 {
        return Err(TextFault::BadToken { line });
    }
    let (number, rest) = text.split_at(sign + digits);
    match number.parse::<i64>() {
        Ok(item) => Ok((item, rest)),
        Err(_) => Err(TextFault::NumberRange { line }),
    }
}

// The items of a line, past its colon.
#[tactic(auto, unfolding(crate::specs::InputReading::items_at))]
fn items(alloc: Global, text: &str, line: usize) -> Result<Vec<i64>, TextFault>
    ensures { Gives (λ v. v.items) result (items_at line text.now) }
{
    let mut items = Vec::new(alloc);
    let mut rest = text;
    'items: loop {
        let gap = space_len(rest.as_bytes());
        if gap == rest.len() {
            return Ok(items);
        }
        if gap == 0 {
            return Err(TextFault::BadToken { line });
        }
        let (_, next) = rest.split_at(gap);
        let (found, after) = item(next, line)?;
        items.push(found)?;
        rest = after;
    }
}

// The entry of a line that begins with a name of this length.
#[tactic(auto, unfolding(crate::specs::InputReading::after_name))]
fn after_name(alloc: Global, text: &str, len: usize, line: usize) -> Result<InputLine, TextFault>
    requires { len ≡ run continues_word text.now }
    ensures { Gives input_tree result (after_name line len text.now) }
{
    if len > MAX_NAME_BYTES {
        return Err(TextFault::TooLong { line });
    }
    let bytes = text.as_bytes();
    if len == bytes.len() {
        return Err(TextFault::Unexpected { line });
    }
    if bytes[len] != b':' {
        return Err(TextFault::BadToken { line });
    }
    let (name, _) = text.split_at(len);
    let (_, rest) = text.split_at(len + 1);
    let items = items(alloc, rest, line)?;
    let name = Name::new(String::from_str(alloc, name)?, line);
    Ok(InputLine { name, items })
}

#[tactic(auto, unfolding(crate::specs::InputReading::entry_at))]
fn entry(alloc: Global, text: &str, line: usize) -> Result<InputLine, TextFault>
    ensures { Gives input_tree result (entry_at line text.now) }
{
    let bytes = text.as_bytes();
    if bytes.is_empty() || !starts_word(bytes[0]) {
        return Err(TextFault::BadToken { line });
    }
    after_name(alloc, text, word_len(bytes), line)
}

fn is_blank(bytes: &[u8]) -> bool
    ensures { result ≡ ((run is_space bytes.now == length bytes.now) || is_comment bytes.now) }
{
    if bytes.is_empty() {
        return true;
    }
    space_len(bytes) == bytes.len() || bytes[0] == b'#'
}

// The entry of a line, if it has one.
#[tactic(auto, unfolding(crate::specs::InputReading::line_at))]
fn line_entry(alloc: Global, text: &str, line: usize) -> Result<Option<InputLine>, TextFault>
    ensures { Gives entry_tree result (line_at line text.now) }
{
    if is_blank(text.as_bytes()) {
        return Ok(None);
    }
    Ok(Some(entry(alloc, text, line)?))
}

// A line without the carriage return at its end.
fn without_return(line: &str) -> &str
    ensures { result.now ≡ strip_carriage_return line.now }
{
    let bytes = line.as_bytes();
    if bytes.is_empty() || bytes[bytes.len() - 1] != b'\r' {
        return line;
    }
    let (content, _) = line.split_at(bytes.len() - 1);
    content
}

// Adds a line's entry, if it has one.
fn add_entry(lines: &mut Vec<InputLine>, entry: Option<InputLine>) -> Result<(), AllocError>
    ensures { OnOk result (map input_tree lines.new.items ≡ map input_tree lines.old.items
        ++ with_entry (entry_tree entry) []) }
{
    if let Some(entry) = entry {
        lines.push(entry)?;
    }
    Ok(())
}

fn entries(alloc: Global, parts: &[&str]) -> Result<Vec<InputLine>, TextFault>
    requires { length parts.now < 2 ^ 63 }
    ensures { Gives (λ v. map input_tree v.items) result
        (lines_at 1 (map (λ part. strip_carriage_return part.now) parts.now)) }
{
    let mut lines = Vec::new(alloc);
    for (i, part) in parts.iter().enumerate() {
        let entry = line_entry(alloc, without_return(part), i + 1)?;
        add_entry(&mut lines, entry)?;
    }
    Ok(lines)
}

// The parts of a text between its line feeds.
fn split_lines(alloc: Global, text: &str) -> Result<Vec<&str>, AllocError>
    ensures { IfOk result (λ parts. map (λ part. part.now) parts.items
        ≡ slice_split (λ b. b == 10) text.now) }
{
    text.split('\n').collect(alloc)
}

/// The lines of an inputs text that name an input, in order. An entry is a name, `:` right
/// after it, and items with one or more spaces before each; blank lines and lines that begin with `#` are passed
/// over. A carriage return may end any of them.
/// Refuses the first line that is none of these: 2 at a character that can't stand at its place or at a line that
/// ends after a `-`, 3 at a line that ends before its `:`, 4 at an item past the signed 64 bits, 5 at a name of
/// more than 64 bytes; and an over-long text by 5 on line 1 before all else.
pub fn parse_inputs(alloc: Global, text: &str) -> Result<RawInputs, TextFault>
    ensures ok { IfOk result (λ inputs. IsInputsText text.now (inputs_tree inputs)) }
    // The first line that isn't right is named, with what is wrong there, and a text has no other fault.
    ensures err { IfErr result (IsInputsFault text.now) }
    ensures each { (fault : FaultValue) → IsInputsFault text.now fault
        → IsRefusedBy fault result }
    // A text in the grammar is read, unless memory runs out.
    ensures only { (es : List InputTree) → IsInputsText text.now es
        → Answers inputs_tree result es }
{
    if text.len() > MAX_INPUTS_BYTES {
        return Err(TextFault::TooLong { line: 1 });
    }
    let parts = split_lines(alloc, text)?;
    let lines = entries(alloc, &parts)?;
    Ok(RawInputs { lines })
}
