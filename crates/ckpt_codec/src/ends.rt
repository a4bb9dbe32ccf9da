// The ends of channels, read from the front of bytes.
ghost use Rattle.std.specs.Prelude.{◌≡◌, ◌≤◌, ◌<◌, ◌+◌, ℕ, IfOk, IfErr, IfSome, None, option_copied};
ghost use Rattle.record.specs.Common.{AreAscending};
ghost use Rattle.ckpt_codec.specs.Reading.{Reads, retained_items_at, log_at, end_at, role_end_at, saved_end_at, channel_wanted, role_wanted, ends_at};
ghost use Rattle.ckpt_codec.specs.RecordText.{ends_in, role_of as role_in};

use crate::fault::CodecFault;
use crate::fields::{base_of, channel_of, count_of, retained_of, role_of};
use crate::processes::items_of;
use kahn_net::MAX_COUNT;
use record::{End, Image, SavedEnd};
use retained::Log;
use std::alloc::Global;

// The log from this base on with these items.
fn log_with(alloc: Global, base: u64, items: &[i64]) -> Result<Log, CodecFault>
    requires { base ≤ MAX_COUNT }
    ensures made { IfOk result (λ log. log ≡ record { base = base; items = items.now }) }
    ensures memory { IfErr result (λ fault. fault ≡ CodecFault.NoMemory) }
{
    let mut log = Log::starting_at(alloc, base);
    match log.push_all(items) {
        Ok(()) => Ok(log),
        Err(_) => Err(CodecFault::NoMemory),
    }
}

// The items from this base on.
#[tactic(auto, unfolding(crate::specs::Reading::retained_items_at))]
fn retained_items_of(
    alloc: Global,
    base: u64,
    from: u64,
    bytes: &[u8],
) -> Result<(Vec<i64>, &[u8]), CodecFault>
    requires { base ≤ MAX_COUNT }
    ensures { Reads (λ x. (x.0.items, x.1.now)) result (retained_items_at base from bytes.now) }
{
    let (count, rest) = retained_of(base, from, bytes)?;
    items_of(alloc, count, rest)
}

// A log whose base is at most this, and whose end is at least that.
#[tactic(auto, unfolding(crate::specs::Reading::log_at))]
fn log_of(alloc: Global, limit: u64, from: u64, bytes: &[u8]) -> Result<(Log, &[u8]), CodecFault>
    requires { limit ≤ MAX_COUNT }
    ensures { Reads (λ x. (x.0, x.1.now)) result (log_at limit from bytes.now) }
{
    let (base, rest) = base_of(limit, bytes)?;
    let (items, rest) = retained_items_of(alloc, base, from, rest)?;
    let log = log_with(alloc, base, items.as_slice())?;
    Ok((log, rest))
}

// What follows a role: 0 receives, 1 sends, 2 does both.
#[tactic(auto, unfolding(crate::specs::Reading::end_at))]
fn end_of(alloc: Global, role: u8, bytes: &[u8]) -> Result<(End, &[u8]), CodecFault>
    ensures { Reads (λ x. (x.0, x.1.now)) result (end_at role bytes.now) }
{
    match role {
        0 => {
            let (received, rest) = count_of(bytes)?;
            Ok((End::Receives { received }, rest))
        }
        1 => {
            let (log, rest) = log_of(alloc, MAX_COUNT, 0, bytes)?;
            Ok((End::Sends { log }, rest))
        }
        _ => {
            let (received, rest) = count_of(bytes)?;
            let (log, rest) = log_of(alloc, received, received, rest)?;
            Ok((End::Both { received, log }, rest))
        }
    }
}

#[tactic(auto, unfolding(crate::specs::Reading::role_end_at))]
fn role_end_of(alloc: Global, wanted: Option<u8>, bytes: &[u8]) -> Result<(End, &[u8]), CodecFault>
    ensures { Reads (λ x. (x.0, x.1.now)) result (role_end_at wanted bytes.now) }
{
    let (role, rest) = role_of(wanted, bytes)?;
    end_of(alloc, role, rest)
}

#[tactic(auto, unfolding(crate::specs::Reading::saved_end_at))]
fn saved_end_of(
    alloc: Global,
    channel: Option<u8>,
    role: Option<u8>,
    least: u16,
    bytes: &[u8],
) -> Result<(SavedEnd, &[u8]), CodecFault>
    ensures read { Reads (λ x. (x.0, x.1.now)) result (saved_end_at channel role least bytes.now) }
    ensures wanted { IfOk result (λ x. IfSome channel (λ w. x.0.channel ≡ w)) }
    ensures least { channel ≡ None → IfOk result (λ x. least ≤ x.0.channel) }
{
    let (channel, rest) = channel_of(channel, least, bytes)?;
    let (end, rest) = role_end_of(alloc, role, rest)?;
    Ok((SavedEnd { channel, end }, rest))
}

// The number of an end's role.
pub(crate) fn role_number(end: &End) -> u8
    ensures { result ≡ role_in end.now }
{
    match end {
        End::Receives { .. } => 0,
        End::Sends { .. } => 1,
        End::Both { .. } => 2,
    }
}

// The channel of the end at this place of the first image.
fn wanted_channel(like: Option<&Image>, place: usize) -> Option<u8>
    ensures wanted { result ≡ channel_wanted (ends_in (option_copied like.entry)) place }
    // It is above the one before it.
    ensures rises { (before : ℕ) → place ≡ before + 1
        → IfSome (channel_wanted (ends_in (option_copied like.entry)) before)
        (λ earlier. IfSome result (λ channel. earlier < channel)) }
{
    match like {
        Some(image) => match image.ends.get(place) {
            Some(saved) => Some(saved.channel),
            None => None,
        },
        None => None,
    }
}

// The role of the end at this place of the first image.
fn wanted_role(like: Option<&Image>, place: usize) -> Option<u8>
    ensures { result ≡ role_wanted (ends_in (option_copied like.entry)) place }
{
    match like {
        Some(image) => match image.ends.get(place) {
            Some(saved) => Some(role_number(&saved.end)),
            None => None,
        },
        None => None,
    }
}

// So many ends, as those of the first image where there is one.
pub(crate) fn ends_of<'a>(
    alloc: Global,
    like: Option<&Image>,
    count: u16,
    bytes: &'a [u8],
) -> Result<(Vec<SavedEnd>, &'a [u8]), CodecFault>
    ensures read { Reads (λ x. (x.0.items, x.1.now)) result
        (ends_at (ends_in (option_copied like.entry)) count bytes.now) }
    ensures ordered { IfOk result (λ x. AreAscending x.0.items) }
{
    let mut ends = Vec::new(alloc);
    let mut rest = bytes;
    let mut least = 0;
    for place in 0..count as usize {
        let channel = wanted_channel(like, place);
        let role = wanted_role(like, place);
        let (end, after) = saved_end_of(alloc, channel, role, least, rest)?;
        least = end.channel as u16 + 1;
        ends.push(end)?;
        rest = after;
    }
    Ok((ends, rest))
}
