//! What is put behind histories.

ghost use Rattle.std.specs.Prelude.{◌≡◌, ◌<◌, ◌+◌, ◌≤◌, ◌++◌, [], ℕ, IfOk, IsErrOf, OnOk, length, replicate, IsTrue};
ghost use Rattle.kahn_net.specs.Common.{history_of};
ghost use Rattle.kahn_net.specs.declared.limits.TheConstants.{MAX_HISTORY_ITEMS};
ghost use Rattle.approximations.specs.Adding.{AreAllEmpty, IsAdded, IsPast};

use kahn_net::{History, MAX_HISTORY_ITEMS};
use std::alloc::{AllocError, Global};
use stream_eq::Fault;

/// So many histories without items.
pub fn empty_histories(alloc: Global, channels: usize) -> Result<Vec<History>, AllocError>
    ensures { IfOk result (λ all. all.items ≡ replicate channels []) }
{
    let mut all = Vec::with_capacity(alloc, channels)?;
    for _ in 0..channels {
        all.push(History::new(alloc))?;
    }
    Ok(all)
}

/// A copy of each history.
pub fn copies(alloc: Global, histories: &[History]) -> Result<Vec<History>, AllocError>
    ensures { IfOk result (λ all. all.items ≡ histories.now) }
{
    let mut all = Vec::new(alloc);
    for history in histories {
        all.push(history.copy(alloc)?)?;
    }
    Ok(all)
}

/// Whether none of these has an item.
pub fn are_empty(all: &[History]) -> bool
    ensures { IsTrue result → AreAllEmpty all.now }
{
    for history in all {
        if !history.is_empty() {
            return false;
        }
    }
    true
}

/// Puts items behind those of a channel.
fn append(history: &mut History, items: &[i64]) -> Result<(), AllocError>
    ensures { OnOk result (history.new ≡ history.old ++ items.now) }
{
    for item in items {
        history.push(*item)?;
    }
    Ok(())
}

/// Puts behind each history what was added to it.
pub fn append_all(histories: &mut [History], added: &[History]) -> Result<(), AllocError>
    requires { length added.now ≡ length histories.old }
    ensures { OnOk result (IsAdded added.now histories.old histories.new) }
{
    for channel in 0..histories.len() {
        append(&mut histories[channel], added[channel].as_slice())?;
    }
    Ok(())
}

/// Puts what was sent on a channel behind what was added to it, unless its history, which has so many items besides,
/// is too long then.
fn add_sent(had: usize, items: &mut History, sent: &[i64]) -> Result<(), Fault>
    requires { had + length items.old ≤ MAX_HISTORY_ITEMS }
    ensures added { OnOk result (items.new ≡ items.old ++ sent.now) }
    ensures short { OnOk result (had + length items.old + length sent.now ≤ MAX_HISTORY_ITEMS) }
    ensures long { IsErrOf result Fault.Long → MAX_HISTORY_ITEMS < had + length items.old + length sent.now }
{
    if sent.len() > MAX_HISTORY_ITEMS - (had + items.len()) {
        return Err(Fault::Long);
    }
    append(items, sent)?;
    Ok(())
}

/// The items that were sent on a channel.
fn sent_on(sent: &[History], channel: usize) -> &[i64]
    ensures { result.now ≡ history_of sent.now channel }
{
    match sent.get(channel) {
        Some(items) => items.as_slice(),
        None => &[],
    }
}

/// Puts what was sent on each channel behind what was added to it, unless a history is too long then.
pub fn add_all_sent(
    histories: &[History],
    added: &mut [History],
    sent: &[History],
) -> Result<(), Fault>
    requires count { length added.old ≡ length histories.now }
    requires short { (c : ℕ) → length (history_of histories.now c) + length (history_of added.old c) ≤ MAX_HISTORY_ITEMS }
    ensures added { OnOk result (IsAdded sent.now added.old added.new) }
    ensures short { OnOk result ((c : ℕ) → c < length added.old → length (history_of histories.now c)
        + length (history_of added.old c) + length (history_of sent.now c) ≤ MAX_HISTORY_ITEMS) }
    ensures long { IsErrOf result Fault.Long → IsPast histories.now added.old sent.now }
{
    for channel in 0..added.len() {
        add_sent(
            histories[channel].len(),
            &mut added[channel],
            sent_on(sent, channel),
        )?;
    }
    Ok(())
}
