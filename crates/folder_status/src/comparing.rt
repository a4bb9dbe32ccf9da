// What files hold beside what the processes put.

ghost use Rattle.std.specs.Prelude.{◌≡◌, ◌↔◌, IfNone, IfOk, IfSome, IsTrue, Some, length, slice_get};
ghost use Rattle.folder_status.specs.Endings.{AreRight, AreSame, BeginAlike, IsRight, IsShortAt, IsWrongAt, are_compared};

use crate::kept::KeptOutput;
use outlet::{ListOutlet, Outlet};
use std::alloc::{AllocError, Global};
use world::Output;

// Whether these are the same.
fn is_same(kept: &[i64], taken: &[i64]) -> bool
    ensures { IsTrue result ↔ (kept.now ≡ taken.now) }
{
    kept == taken
}

// Whether these are the same as far as both go.
fn begin_alike(kept: &[i64], taken: &[i64]) -> bool
    ensures { IsTrue result ↔ BeginAlike kept.now taken.now }
{
    let count = kept.len().min(taken.len());
    is_same(&kept[..count], &taken[..count])
}

// Whether a file's items are those that were put, where all was put (`all`) or not.
fn is_right(one: &KeptOutput, output: &Output<ListOutlet>, all: bool) -> bool
    ensures { IsTrue result ↔ IsRight all one.now output.now }
{
    let kept = one.items.as_slice();
    let taken = output.outlet.items();
    if all && taken.len() < kept.len() {
        return false;
    }
    begin_alike(kept, taken)
}

/// The first file of which the items aren't those that were put.
pub(crate) fn first_wrong(
    kept: &[KeptOutput],
    outputs: &[Output<ListOutlet>],
    all: bool,
) -> Option<usize>
    requires { length outputs.now ≡ length kept.now }
    ensures none { IfNone result (AreRight all kept.now outputs.now) }
    ensures some { IfSome result (IsWrongAt all kept.now outputs.now) }
{
    for (place, one) in kept.iter().enumerate() {
        if !is_right(one, &outputs[place], all) {
            return Some(place);
        }
    }
    None
}

/// Whether each file has just what was put.
pub(crate) fn are_same(kept: &[KeptOutput], outputs: &[Output<ListOutlet>]) -> bool
    requires { length outputs.now ≡ length kept.now }
    ensures { IsTrue result → AreSame kept.now outputs.now }
{
    for (place, one) in kept.iter().enumerate() {
        if !is_same(one.items.as_slice(), outputs[place].outlet.items()) {
            return false;
        }
    }
    true
}

// The output at this place, if there are so many.
fn nth_of(outputs: &[Output<ListOutlet>], place: usize) -> Option<&Output<ListOutlet>>
    ensures { IfSome result (λ one. slice_get outputs.now place ≡ Some one.now) }
{
    outputs.get(place)
}

/// The first file that lacks an item which was put.
pub(crate) fn first_short(kept: &[KeptOutput], outputs: &[Output<ListOutlet>]) -> Option<usize>
    ensures { IfSome result (IsShortAt kept.now outputs.now) }
{
    for (place, one) in kept.iter().enumerate() {
        if let Some(output) = nth_of(outputs, place) {
            if (one.items.len() as u64) < output.outlet.len() {
                return Some(place);
            }
        }
    }
    None
}

/// How many items of each file were compared.
pub(crate) fn list_compared(
    alloc: Global,
    kept: &[KeptOutput],
    outputs: &[Output<ListOutlet>],
) -> Result<Vec<u64>, AllocError>
    requires { length outputs.now ≡ length kept.now }
    ensures { IfOk result (λ compared. compared.items ≡ are_compared kept.now outputs.now) }
{
    let mut compared = Vec::with_capacity(alloc, kept.len())?;
    for (place, one) in kept.iter().enumerate() {
        compared.push((one.items.len() as u64).min(outputs[place].outlet.len()))?;
    }
    Ok(compared)
}

/// What there is to say of the first item of a file that isn't the one that was put: its line, and both.
pub(crate) fn difference_words(
    alloc: Global,
    path: &String,
    one: &KeptOutput,
    taken: &[i64],
) -> Result<String, AllocError> {
    for (place, held) in one.items.iter().enumerate() {
        let line = (place as u64).wrapping_add(1);
        match taken.get(place) {
            Some(item) => {
                if *item != *held {
                    return format!(in alloc;
                        "{path}: line {line} is {held}, but the item of this run is {item}"
                    );
                }
            }
            None => {
                return format!(in alloc;
                    "{path}: line {line} is {held}, but a run has no more items"
                );
            }
        }
    }
    String::from_str(alloc, path.as_str())
}
