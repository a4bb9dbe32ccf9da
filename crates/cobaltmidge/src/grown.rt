//! Whether inputs have grown from those of another text: each list begins with what it had.

ghost use Rattle.std.specs.Prelude.{◌≡◌, ◌≢◌, ◌↔◌, ℕ, List, IfNone, IfOk, IfSome, IsTrue, IsUtf8, false};
ghost use Rattle.kahn_net.specs.Streams.{ArePrefixes, IsPrefix, history_of};
ghost use Rattle.cobaltmidge.specs.Accepting.{HaveGrownFrom};
ghost use Rattle.cobaltmidge.specs.Texts.{AreInputsOf, IsNetOf, IsTextOfInputs};
ghost use Rattle.cobaltmidge.specs.declared.error.Error.TheVariants.{NoMemory};

use crate::error::Error;
use crate::network::inputs_of_text;
use kahn_net::History;
use net_check::{Inputs, Net};
use std::alloc::{AllocError, Global};
use std::str;

// Whether these are the same items.
fn is_same(list: &[i64], other: &[i64]) -> bool
    ensures { IsTrue result ↔ (list.now ≡ other.now) }
{
    list == other
}

// Whether the whole begins with this part.
fn begins(part: &[i64], whole: &[i64]) -> bool
    ensures { IsTrue result ↔ IsPrefix part.now whole.now }
{
    part.len() <= whole.len() && is_same(part, &whole[..part.len()])
}

// The list of this number. It is empty where there is none.
fn list_of(lists: &[History], number: usize) -> &[i64]
    ensures { result.now ≡ history_of lists.now number }
{
    match lists.get(number) {
        Some(list) => list.as_slice(),
        None => &[],
    }
}

// Whether each of these lists begins with what the one at its place had.
fn have_grown(before: &[History], lists: &[History]) -> bool
    ensures { IsTrue result ↔ ArePrefixes before.now lists.now }
{
    for number in 0..before.len() {
        if !begins(list_of(before, number), list_of(lists, number)) {
            return false;
        }
    }
    true
}

// Whether memory is missing.
fn is_memory(error: Error) -> bool
    ensures memory { IsTrue result → error ≡ NoMemory }
    ensures other { result ≡ false → error ≢ NoMemory }
{
    match error {
        Error::NoMemory => true,
        _ => false,
    }
}

// The items that a text gives the network's inputs. None where it is no such text.
fn inputs_before(alloc: Global, net: &Net, kept: &Vec<u8>) -> Result<Option<Inputs>, AllocError>
    ensures utf8 { IfOk result (λ before. IfSome before (λ inputs. IsUtf8 kept.now.items)) }
    ensures inputs { IfOk result (λ before. IfSome before (AreInputsOf kept.now.items net.now)) }
    ensures none { IfOk result (λ before. IfNone before (IsUtf8 kept.now.items → ¬ (IsTextOfInputs net.now kept.now.items))) }
{
    let Ok(text) = str::from_utf8(kept.as_slice()) else {
        return Ok(None);
    };
    match inputs_of_text(alloc, text, net) {
        Ok(inputs) => Ok(Some(inputs)),
        Err(error) => if is_memory(error) {
            Err(AllocError)
        } else {
            Ok(None)
        },
    }
}

/// Whether these inputs of a network have grown from those of a text.
pub(crate) fn have_grown_from(
    alloc: Global,
    net: &Net,
    inputs: &Inputs,
    kept: &Vec<u8>,
) -> Result<bool, AllocError>
    ensures grown { IfOk result (λ grown. IsTrue grown → HaveGrownFrom net.now inputs.now kept.now.items) }
    // A text gives the inputs of its network no other lists.
    ensures changed { IfOk result (λ grown. grown ≡ false
        → (text : List ℕ) → IsNetOf text net.now → ¬ (HaveGrownFrom net.now inputs.now kept.now.items)) }
{
    match inputs_before(alloc, net, kept)? {
        Some(before) => Ok(have_grown(before.as_slice(), inputs.as_slice())),
        None => Ok(false),
    }
}
