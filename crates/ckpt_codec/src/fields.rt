// The fields of a record, read from the front of bytes: what was read, and what is left.
ghost use Rattle.std.specs.Prelude.{◌≡◌, ◌≤◌, IfOk, IfSome, None};
ghost use Rattle.ckpt_codec.specs.Reading.{Reads, number_at, item_at, count_at, flag_at, nodes_at, participant_at, decided_number_at, decision_count_at, participant_count_at, mode_number_at, depth_at, pass_at, process_number_at, variable_count_at, process_count_at, base_at, retained_at, role_at, channel_at, end_count_at, initiator_at, tentative_number_at, slot_at};

use crate::fault::CodecFault;
use byteorder::{BigEndian, ByteOrder};
use kahn_net::{
    MAX_CHANNELS, MAX_COUNT, MAX_NODES, MAX_PROCESSES, MAX_REPEATS, MAX_TIMES, MAX_VARIABLES,
};
use retained::MAX_LOG_ITEMS;

#[tactic(auto, unfolding(crate::specs::Reading::number_at))]
pub(crate) fn u8_of(bytes: &[u8]) -> Result<(u8, &[u8]), CodecFault>
    ensures { Reads (λ x. (x.0, x.1.now)) result (number_at 1 bytes.now) }
{
    let [number, rest @ ..] = bytes else {
        return Err(CodecFault::Truncated);
    };
    Ok((*number, rest))
}

#[tactic(auto, unfolding(crate::specs::Reading::number_at))]
pub(crate) fn u16_of(bytes: &[u8]) -> Result<(u16, &[u8]), CodecFault>
    ensures { Reads (λ x. (x.0, x.1.now)) result (number_at 2 bytes.now) }
{
    if bytes.len() < 2 {
        return Err(CodecFault::Truncated);
    }
    let number = BigEndian::read_u16(bytes);
    Ok((number, &bytes[2..]))
}

#[tactic(auto, unfolding(crate::specs::Reading::number_at))]
pub(crate) fn u32_of(bytes: &[u8]) -> Result<(u32, &[u8]), CodecFault>
    ensures { Reads (λ x. (x.0, x.1.now)) result (number_at 4 bytes.now) }
{
    if bytes.len() < 4 {
        return Err(CodecFault::Truncated);
    }
    let number = BigEndian::read_u32(bytes);
    Ok((number, &bytes[4..]))
}

#[tactic(auto, unfolding(crate::specs::Reading::number_at))]
pub(crate) fn u64_of(bytes: &[u8]) -> Result<(u64, &[u8]), CodecFault>
    ensures { Reads (λ x. (x.0, x.1.now)) result (number_at 8 bytes.now) }
{
    if bytes.len() < 8 {
        return Err(CodecFault::Truncated);
    }
    let number = BigEndian::read_u64(bytes);
    Ok((number, &bytes[8..]))
}

#[tactic(auto, unfolding(crate::specs::Reading::item_at))]
pub(crate) fn item_of(bytes: &[u8]) -> Result<(i64, &[u8]), CodecFault>
    ensures { Reads (λ x. (x.0, x.1.now)) result (item_at bytes.now) }
{
    if bytes.len() < 8 {
        return Err(CodecFault::Truncated);
    }
    let item = BigEndian::read_i64(bytes);
    Ok((item, &bytes[8..]))
}

// A count, a position or an epoch.
pub(crate) fn count_of(bytes: &[u8]) -> Result<(u64, &[u8]), CodecFault>
    ensures { Reads (λ x. (x.0, x.1.now)) result (count_at bytes.now) }
{
    let (count, rest) = u64_of(bytes)?;
    if count > MAX_COUNT {
        return Err(CodecFault::Malformed);
    }
    Ok((count, rest))
}

// Whether a part follows.
pub(crate) fn flag_of(bytes: &[u8]) -> Result<(bool, &[u8]), CodecFault>
    ensures { Reads (λ x. (x.0, x.1.now)) result (flag_at bytes.now) }
{
    let (flag, rest) = u8_of(bytes)?;
    if flag > 1 {
        return Err(CodecFault::Malformed);
    }
    Ok((flag == 1, rest))
}

// How many nodes there are, one of which is this node.
pub(crate) fn nodes_of(node: u8, bytes: &[u8]) -> Result<(u8, &[u8]), CodecFault>
    ensures { Reads (λ x. (x.0, x.1.now)) result (nodes_at node bytes.now) }
{
    let (nodes, rest) = u8_of(bytes)?;
    if nodes <= node || nodes > MAX_NODES {
        return Err(CodecFault::Malformed);
    }
    Ok((nodes, rest))
}

// A node that takes part in a decision.
pub(crate) fn participant_of(
    node: u8,
    nodes: usize,
    least: u16,
    bytes: &[u8],
) -> Result<(u8, &[u8]), CodecFault>
    ensures { Reads (λ x. (x.0, x.1.now)) result (participant_at node nodes least bytes.now) }
{
    let (participant, rest) = u8_of(bytes)?;
    if (participant as u16) < least || participant as usize >= nodes || participant == node {
        return Err(CodecFault::Malformed);
    }
    Ok((participant, rest))
}

// The number of a decision, from the least on: this node's own entry is the highest that it used.
pub(crate) fn decided_number_of(
    own: u64,
    least: u128,
    bytes: &[u8],
) -> Result<(u64, &[u8]), CodecFault>
    ensures { Reads (λ x. (x.0, x.1.now)) result (decided_number_at own least bytes.now) }
{
    let (number, rest) = u64_of(bytes)?;
    if (number as u128) < least || number > own {
        return Err(CodecFault::Malformed);
    }
    Ok((number, rest))
}

// How many decisions there are.
pub(crate) fn decision_count_of(most: usize, bytes: &[u8]) -> Result<(u8, &[u8]), CodecFault>
    ensures { Reads (λ x. (x.0, x.1.now)) result (decision_count_at most bytes.now) }
{
    let (count, rest) = u8_of(bytes)?;
    if count as usize > most {
        return Err(CodecFault::Malformed);
    }
    Ok((count, rest))
}

// How many nodes take part in a decision: one at least.
pub(crate) fn participant_count_of(bytes: &[u8]) -> Result<(u8, &[u8]), CodecFault>
    ensures { Reads (λ x. (x.0, x.1.now)) result (participant_count_at bytes.now) }
{
    let (count, rest) = u8_of(bytes)?;
    if count < 1 {
        return Err(CodecFault::Malformed);
    }
    Ok((count, rest))
}

// A process's mode: 0 to 2.
pub(crate) fn mode_number_of(bytes: &[u8]) -> Result<(u8, &[u8]), CodecFault>
    ensures { Reads (λ x. (x.0, x.1.now)) result (mode_number_at bytes.now) }
{
    let (mode, rest) = u8_of(bytes)?;
    if mode > 2 {
        return Err(CodecFault::Malformed);
    }
    Ok((mode, rest))
}

// How many repetitions are round a site.
pub(crate) fn depth_of(bytes: &[u8]) -> Result<(u8, &[u8]), CodecFault>
    ensures { Reads (λ x. (x.0, x.1.now)) result (depth_at bytes.now) }
{
    let (depth, rest) = u8_of(bytes)?;
    if depth as usize > MAX_REPEATS {
        return Err(CodecFault::Malformed);
    }
    Ok((depth, rest))
}

// The passes that remain of a repetition, the one at hand included.
pub(crate) fn pass_of(bytes: &[u8]) -> Result<(u16, &[u8]), CodecFault>
    ensures { Reads (λ x. (x.0, x.1.now)) result (pass_at bytes.now) }
{
    let (passes, rest) = u16_of(bytes)?;
    if passes < 1 || passes > MAX_TIMES {
        return Err(CodecFault::Malformed);
    }
    Ok((passes, rest))
}

// A process's number: the one that is wanted, or from the least on.
pub(crate) fn process_number_of(
    wanted: Option<u8>,
    least: u16,
    bytes: &[u8],
) -> Result<(u8, &[u8]), CodecFault>
    ensures { Reads (λ x. (x.0, x.1.now)) result (process_number_at wanted least bytes.now) }
{
    let (number, rest) = u8_of(bytes)?;
    let stands = match wanted {
        Some(wanted) => number == wanted,
        None => least <= number as u16 && (number as usize) < MAX_PROCESSES,
    };
    if !stands {
        return Err(CodecFault::Malformed);
    }
    Ok((number, rest))
}

// How many variables a process has.
pub(crate) fn variable_count_of(
    wanted: Option<usize>,
    bytes: &[u8],
) -> Result<(u8, &[u8]), CodecFault>
    ensures { Reads (λ x. (x.0, x.1.now)) result (variable_count_at wanted bytes.now) }
{
    let (count, rest) = u8_of(bytes)?;
    let stands = match wanted {
        Some(wanted) => count as usize == wanted,
        None => count as usize <= MAX_VARIABLES,
    };
    if !stands {
        return Err(CodecFault::Malformed);
    }
    Ok((count, rest))
}

// How many processes an image has.
pub(crate) fn process_count_of(
    wanted: Option<usize>,
    bytes: &[u8],
) -> Result<(u8, &[u8]), CodecFault>
    ensures { Reads (λ x. (x.0, x.1.now)) result (process_count_at wanted bytes.now) }
{
    let (count, rest) = u8_of(bytes)?;
    let stands = match wanted {
        Some(wanted) => count as usize == wanted,
        None => count as usize <= MAX_PROCESSES,
    };
    if !stands {
        return Err(CodecFault::Malformed);
    }
    Ok((count, rest))
}

// How many ends of channels an image has.
pub(crate) fn end_count_of(wanted: Option<usize>, bytes: &[u8]) -> Result<(u16, &[u8]), CodecFault>
    ensures { Reads (λ x. (x.0, x.1.now)) result (end_count_at wanted bytes.now) }
{
    let (count, rest) = u16_of(bytes)?;
    let stands = match wanted {
        Some(wanted) => count as usize == wanted,
        None => count as usize <= MAX_CHANNELS,
    };
    if !stands {
        return Err(CodecFault::Malformed);
    }
    Ok((count, rest))
}

// An end's channel: the one that is wanted, or from the least on.
pub(crate) fn channel_of(
    wanted: Option<u8>,
    least: u16,
    bytes: &[u8],
) -> Result<(u8, &[u8]), CodecFault>
    ensures read { Reads (λ x. (x.0, x.1.now)) result (channel_at wanted least bytes.now) }
    ensures wanted { IfOk result (λ x. IfSome wanted (λ w. x.0 ≡ w)) }
    ensures least { wanted ≡ None → IfOk result (λ x. least ≤ x.0) }
{
    let (channel, rest) = u16_of(bytes)?;
    let stands = match wanted {
        Some(wanted) => channel == wanted as u16,
        None => least <= channel && (channel as usize) < MAX_CHANNELS,
    };
    if !stands {
        return Err(CodecFault::Malformed);
    }
    Ok((channel as u8, rest))
}

// An end's role: 0 to 2, or the one that is wanted.
pub(crate) fn role_of(wanted: Option<u8>, bytes: &[u8]) -> Result<(u8, &[u8]), CodecFault>
    ensures { Reads (λ x. (x.0, x.1.now)) result (role_at wanted bytes.now) }
{
    let (role, rest) = u8_of(bytes)?;
    let stands = match wanted {
        Some(wanted) => role == wanted,
        None => role <= 2,
    };
    if !stands {
        return Err(CodecFault::Malformed);
    }
    Ok((role, rest))
}

// The base of a log, which is at most this.
pub(crate) fn base_of(limit: u64, bytes: &[u8]) -> Result<(u64, &[u8]), CodecFault>
    ensures { Reads (λ x. (x.0, x.1.now)) result (base_at limit bytes.now) }
{
    let (base, rest) = u64_of(bytes)?;
    if base > limit {
        return Err(CodecFault::Malformed);
    }
    Ok((base, rest))
}

// How many items a log retains from its base on, at least up to a position.
pub(crate) fn retained_of(base: u64, from: u64, bytes: &[u8]) -> Result<(u32, &[u8]), CodecFault>
    requires { base ≤ MAX_COUNT }
    ensures { Reads (λ x. (x.0, x.1.now)) result (retained_at base from bytes.now) }
{
    let (count, rest) = u32_of(bytes)?;
    let end = base + count as u64;
    if count as usize > MAX_LOG_ITEMS || end > MAX_COUNT || from > end {
        return Err(CodecFault::Malformed);
    }
    Ok((count, rest))
}

// The initiator of a tentative checkpoint: one of the nodes.
pub(crate) fn initiator_of<'a>(
    highest: &[u64],
    bytes: &'a [u8],
) -> Result<(u8, &'a [u8]), CodecFault>
    ensures { Reads (λ x. (x.0, x.1.now)) result (initiator_at highest.now bytes.now) }
{
    let (initiator, rest) = u8_of(bytes)?;
    if initiator as usize >= highest.len() {
        return Err(CodecFault::Malformed);
    }
    Ok((initiator, rest))
}

// The number of a tentative checkpoint: its initiator's entry.
pub(crate) fn tentative_number_of(entry: u64, bytes: &[u8]) -> Result<(u64, &[u8]), CodecFault>
    ensures { Reads (λ x. (x.0, x.1.now)) result (tentative_number_at entry bytes.now) }
{
    let (number, rest) = u64_of(bytes)?;
    if number < 1 || number != entry {
        return Err(CodecFault::Malformed);
    }
    Ok((number, rest))
}

// The slot of the permanent image: 0 or 1.
pub(crate) fn slot_of(bytes: &[u8]) -> Result<(u8, &[u8]), CodecFault>
    ensures { Reads (λ x. (x.0, x.1.now)) result (slot_at bytes.now) }
{
    let (slot, rest) = u8_of(bytes)?;
    if slot > 1 {
        return Err(CodecFault::Malformed);
    }
    Ok((slot, rest))
}
