// The parts of a packet, read from the front of bytes: what was read, and what is left.
ghost use Rattle.std.specs.Prelude.{◌≡◌, option_map};
ghost use Rattle.datagram.specs.Reading.{number_at, item_at, channel, count, positive, needs_count, reason_at, need_at};

use crate::packet::{LAST_CHANNEL, MOST_NEEDS, Need, Reason};
use byteorder::{BigEndian, ByteOrder};
use kahn_net::MAX_COUNT;

#[tactic(auto, unfolding(crate::specs::Reading::number_at))]
fn u16_at(bytes: &[u8]) -> Option<(u16, &[u8])>
    ensures { option_map (λ x. (x.0, x.1.now)) result ≡ number_at 2 bytes.now }
{
    if bytes.len() < 2 {
        return None;
    }
    let number = BigEndian::read_u16(bytes);
    Some((number, &bytes[2..]))
}

#[tactic(auto, unfolding(crate::specs::Reading::number_at))]
fn u64_at(bytes: &[u8]) -> Option<(u64, &[u8])>
    ensures { option_map (λ x. (x.0, x.1.now)) result ≡ number_at 8 bytes.now }
{
    if bytes.len() < 8 {
        return None;
    }
    let number = BigEndian::read_u64(bytes);
    Some((number, &bytes[8..]))
}

#[tactic(auto, unfolding(crate::specs::Reading::item_at))]
pub(crate) fn item_of(bytes: &[u8]) -> Option<(i64, &[u8])>
    ensures { option_map (λ x. (x.0, x.1.now)) result ≡ item_at bytes.now }
{
    if bytes.len() < 8 {
        return None;
    }
    let item = BigEndian::read_i64(bytes);
    Some((item, &bytes[8..]))
}

pub(crate) fn channel_of(bytes: &[u8]) -> Option<(u16, &[u8])>
    ensures { option_map (λ x. (x.0, x.1.now)) result ≡ channel.read bytes.now }
{
    let (channel, rest) = u16_at(bytes)?;
    if channel > LAST_CHANNEL {
        return None;
    }
    Some((channel, rest))
}

pub(crate) fn count_of(bytes: &[u8]) -> Option<(u64, &[u8])>
    ensures { option_map (λ x. (x.0, x.1.now)) result ≡ count.read bytes.now }
{
    let (count, rest) = u64_at(bytes)?;
    if count > MAX_COUNT {
        return None;
    }
    Some((count, rest))
}

pub(crate) fn positive_of(bytes: &[u8]) -> Option<(u64, &[u8])>
    ensures { option_map (λ x. (x.0, x.1.now)) result ≡ positive.read bytes.now }
{
    let (number, rest) = u64_at(bytes)?;
    if number < 1 || number > MAX_COUNT {
        return None;
    }
    Some((number, rest))
}

pub(crate) fn needs_count_of(bytes: &[u8]) -> Option<(u16, &[u8])>
    ensures { option_map (λ x. (x.0, x.1.now)) result ≡ needs_count.read bytes.now }
{
    let (count, rest) = u16_at(bytes)?;
    if count > MOST_NEEDS {
        return None;
    }
    Some((count, rest))
}

pub(crate) fn reason_of(bytes: &[u8]) -> Option<(Reason, &[u8])>
    ensures { option_map (λ x. (x.0, x.1.now)) result ≡ reason_at bytes.now }
{
    match bytes {
        [1, rest @ ..] => Some((Reason::Busy, rest)),
        [2, rest @ ..] => Some((Reason::Behind, rest)),
        [3, rest @ ..] => Some((Reason::Recovering, rest)),
        [4, rest @ ..] => Some((Reason::TooLarge, rest)),
        _ => None,
    }
}

pub(crate) fn need_of(bytes: &[u8]) -> Option<(Need, &[u8])>
    ensures { option_map (λ x. (x.0, x.1.now)) result ≡ need_at bytes.now }
{
    let (channel, rest) = channel_of(bytes)?;
    let (count, rest) = positive_of(rest)?;
    Some((Need { channel, count }, rest))
}
