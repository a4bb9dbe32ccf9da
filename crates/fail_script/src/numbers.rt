//! The numbers that words write.

ghost use Rattle.std.specs.Prelude.{◌≡◌, ◌<◌, ◌-◌, ◌^◌, not, ◌==◌, IsTrue};
ghost use Rattle.net_text.specs.Numbers.{is_numeral, numeral_value};
ghost use Rattle.fail_script.specs.declared.limits.TheConstants.{MAX_FILL};
ghost use Rattle.fail_script.specs.Reading.{numeral_in, number_in, node_in, without_zeros};

use crate::limits::{BEYOND_NODES, MAX_FILL, PAST_NUMBERS};

// The number that digits write, one or more and nothing else. One past 32 bits is read as the least such number.
fn numeral(word: &[u8]) -> Option<u64>
    ensures { result ≡ numeral_in word.now }
{
    if word.is_empty() {
        return None;
    }
    let mut number: u64 = 0;
    for digit in word {
        if !digit.is_ascii_digit() {
            return None;
        }
        number = (number * 10 + u64::from(*digit - b'0')).min(PAST_NUMBERS);
    }
    Some(number)
}

/// The number that a word writes, from the least to the greatest one.
pub fn number_in(word: &[u8], least: u32, greatest: u32) -> Option<u32>
    ensures { result ≡ number_in least greatest word.now }
{
    let number = u32::try_from(numeral(word)?).ok()?;
    if least <= number && number <= greatest {
        Some(number)
    } else {
        None
    }
}

/// The byte that a word writes.
pub fn byte_in(word: &[u8]) -> Option<u8>
    ensures { result ≡ number_in 0 MAX_FILL word.now }
{
    match number_in(word, 0, MAX_FILL) {
        Some(number) => u8::try_from(number).ok(),
        None => None,
    }
}

/// The node that a word writes. One that is beyond all nodes is read as the greatest number there is.
pub fn node_in(word: &[u8]) -> Option<u8>
    ensures { result ≡ node_in word.now }
{
    match numeral(word) {
        Some(number) => Some(u8::try_from(number).unwrap_or(BEYOND_NODES)),
        None => None,
    }
}

// What is left of a numeral without the zeros in front.
fn without_zeros(numeral: &[u8]) -> &[u8]
    ensures { result.now ≡ without_zeros numeral.now }
{
    let mut rest = numeral;
    while let [b'0', shorter @ ..] = rest {
        rest = shorter;
    }
    rest
}

/// Whether two numerals write different numbers, however long they are.
pub fn are_apart(one: &[u8], other: &[u8]) -> bool
    requires one { IsTrue (is_numeral one.now) }
    requires other { IsTrue (is_numeral other.now) }
    ensures { result ≡ not (numeral_value one.now == numeral_value other.now) }
{
    without_zeros(one) != without_zeros(other)
}
