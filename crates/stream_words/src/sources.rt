//! Where the items of an input come from: the value of an `--input`, NAME=FILE.

ghost use Rattle.std.specs.Prelude.{◌≡◌, IfOk, MatchOption, MatchResult, map, string_bytes};
ghost use Rattle.std.specs.List.{AllZip};
ghost use Rattle.stream_words.specs.Asked.{IsSource, IsSourceFault, IsSplit, IsValueFault, IsWithoutForm};

use std::alloc::{AllocError, Global};

/// Where the items of an input come from.
#[derive(Debug, Drop)]
pub struct InputSource {
    /// The input's name in the network's text.
    pub input: String,
    /// The file that has its items, or `-` for standard input.
    pub path: String,
}

/// Why values give no sources.
#[derive(Drop)]
pub(crate) enum SourceFault<'a> {
    /// There is no memory.
    NoMemory,
    /// This value has no form NAME=FILE.
    WithoutForm(&'a str),
}

// The name and the file of a value NAME=FILE. A file may have a `=` in its name, and an input has none.
fn split_of(value: &str) -> Option<(&str, &str)>
    ensures { MatchOption result (IsWithoutForm value.now) (λ parts. IsSplit value.now parts.0.now parts.1.now) }
{
    let Some((name, path)) = value.split_once('=') else {
        return None;
    };
    if name.is_empty() {
        return None;
    }
    if path.is_empty() {
        return None;
    }
    Some((name, path))
}

// The source of this name and this file.
fn source(alloc: Global, name: &str, path: &str) -> Result<InputSource, AllocError>
    ensures { IfOk result (λ source. (string_bytes source.input ≡ name.now) × (string_bytes source.path ≡ path.now)) }
{
    Ok(InputSource {
        input: String::from_str(alloc, name)?,
        path: String::from_str(alloc, path)?,
    })
}

// The source that a value names.
fn source_of<'a>(alloc: Global, value: &'a str) -> Result<InputSource, SourceFault<'a>>
    ensures { MatchResult result (IsSource value.now) (IsValueFault value.now) }
{
    match split_of(value) {
        Some((name, path)) => match source(alloc, name, path) {
            Ok(source) => Ok(source),
            Err(_) => Err(SourceFault::NoMemory),
        },
        None => Err(SourceFault::WithoutForm(value)),
    }
}

/// The sources that these values name, in order.
pub(crate) fn sources_of<'a>(
    alloc: Global,
    values: &[&'a str],
) -> Result<Vec<InputSource>, SourceFault<'a>>
    ensures { MatchResult result (λ sources. AllZip IsSource (map (λ value. value.now) values.now) sources.items)
        (IsSourceFault (map (λ value. value.now) values.now)) }
{
    let mut sources = Vec::new(alloc);
    for value in values {
        match source_of(alloc, value) {
            Ok(source) => {
                if sources.push(source).is_err() {
                    return Err(SourceFault::NoMemory);
                }
            }
            Err(fault) => return Err(fault),
        }
    }
    Ok(sources)
}
