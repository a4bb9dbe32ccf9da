// Reading back what a file of lines holds.
ghost use Rattle.std.specs.Prelude.{◌≡◌, ◌<◌, ◌+◌, ◌++◌, [], ◌∷◌, ℕ, ℤ, List, length, take, drop, IfOk, IfErr, IfSome, IfNone, Ok, Err, Result, ◌⊎◌, IsErrOf, IsOk};
ghost use Rattle.std.specs.Fmt.{signed_decimal};
ghost use Rattle.output_file.specs.Lines.{lines_of, HoldsLines, HasNoFeed, IsNoItem};
ghost use Rattle.output_file.specs.Reading.{HasCause};
ghost use Rattle.output_file.specs.declared.fault.LinesFault.TheVariants.{NoMemory};

use crate::fault::LinesFault;
use itoa::Buffer;
use memchr::memchr;
use std::alloc::Global;
use std::str;

/// The items that a file holds, and how many bytes their lines are.
#[derive(Drop)]
pub struct HeldItems {
    pub items: Vec<i64>,
    pub bytes: u64,
    pub ghost measured: { bytes ≡ length (lines_of items.items) },
}

impl HeldItems {
    /// What a file holds in which nothing was written yet.
    pub fn none(alloc: Global) -> HeldItems
        ensures { result.items.items ≡ [] }
    {
        HeldItems {
            items: Vec::new(alloc),
            bytes: 0,
        }
    }
}

// The bytes before the first line feed, if there is one.
fn line_len(bytes: &[u8]) -> Option<usize>
    ensures some { IfSome result (λ len. len < length bytes.now) }
    ensures line { IfSome result (λ len. bytes.now ≡ take len bytes.now ++ 10 ∷ drop (len + 1) bytes.now) }
    ensures no_feed { IfSome result (λ len. HasNoFeed (take len bytes.now)) }
    ensures none { IfNone result (HasNoFeed bytes.now) }
{
    memchr(b'\n', bytes)
}

// The item that a line is, if it is written as an item is: no other digits, sign or space.
fn item_of(line: &[u8]) -> Option<i64>
    ensures some { IfSome result (λ item. line.now ≡ signed_decimal item) }
    ensures none { IfNone result (IsNoItem line.now) }
{
    let Ok(text) = str::from_utf8(line) else {
        return None;
    };
    let Ok(item) = text.parse::<i64>() else {
        return None;
    };
    let mut buffer = Buffer::new();
    if buffer.format(item).as_bytes() == line {
        Some(item)
    } else {
        None
    }
}

/// The items that a file's bytes hold, up to the line that was cut off at its end, which is left out. Items are read as
/// they are written: in decimal digits without needless zeros, behind `-` where they are negative, and before a line feed.
///
/// Refuses for want of memory, and with the number of the first line that ends with a line feed and is written otherwise.
pub fn read_items(alloc: Global, bytes: &[u8]) -> Result<HeldItems, LinesFault>
    // The lines of these items, and behind them a line that was cut off.
    ensures ok { IfOk result (λ held. HoldsLines bytes.now held.items.items (drop held.bytes bytes.now)) }
    ensures err { IfErr result (HasCause bytes.now) }
    // Lines of items are read, unless memory runs out.
    ensures only { (items : List ℤ) (tail : List ℕ) → HoldsLines bytes.now items tail
        → IsOk result ⊎ IsErrOf result NoMemory }
{
    let mut items = Vec::new(alloc);
    let mut read = 0;
    while let Some(len) = line_len(&bytes[read..]) {
        let Some(item) = item_of(&bytes[read..read + len]) else {
            return Err(LinesFault::NotAnItem {
                line: items.len() as u64 + 1,
            });
        };
        items.push(item)?;
        read += len + 1;
    }
    Ok(HeldItems {
        items,
        bytes: read as u64,
    })
}
