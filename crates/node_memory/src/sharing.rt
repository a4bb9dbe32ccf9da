// How many items each log of an image may have.
ghost use Rattle.std.specs.Prelude.{◌≡◌, ◌<◌, ◌≤◌, ℕ, ℤ, List, length};
ghost use Rattle.protocol.specs.Node.Common.{Network, IsValid, MAX_NODES, ImageView, RecordView, MAX_RETAINED_ITEMS};
ghost use Rattle.protocol.specs.Node.Common.{is_logging, log_share, with_decision, MAX_DECISIONS, opening_record};
ghost use Rattle.protocol.specs.Node.Common.{RunningNode, HasReached, ImageStands, IsLaidOut, LogsAreWithin};
ghost use Rattle.ckpt_codec.specs.SizeLaws.{IsImageWithin, IsRecordWithin};
ghost use Rattle.protocol.specs.Node.Sharing.{log_count, share_in};
ghost use Rattle.protocol.specs.Node.Starting.{with_own};

use ckpt_codec::MAX_RETAINED_ITEMS;
use protocol::Rooms;
use record::{End, Image};

// Whether an end has a log.
fn is_logging(end: &End) -> bool
    ensures { result ≡ is_logging end.now }
{
    match end {
        End::Receives { .. } => false,
        End::Sends { .. } | End::Both { .. } => true,
    }
}

// How many ends of an image have a log.
fn count_logs(image: &Image) -> usize
    ensures { result ≡ log_count image.now }
{
    image
        .ends
        .iter()
        .filter(|saved| is_logging(&saved.end))
        .count()
}

/// The most items of each log of an image: an equal share of those for which a record has room.
pub(crate) fn share_of(image: &Image) -> usize
    ensures { result ≡ log_share image.now }
{
    match count_logs(image) {
        0 => 0,
        logs => MAX_RETAINED_ITEMS / logs,
    }
}

/// How far a job may fill the log of a channel: as far as the channel has room, and no further than this share.
pub(crate) fn share_in(rooms: &Rooms, share: usize, channel: u8) -> usize
    ensures { result ≡ share_in rooms.now share channel }
{
    rooms.of(channel).min(share)
}

/// An image of a valid network, each log of which has at most its share, is within the bounds of which a record holds two; so is a
/// node's current one, however far it has come. And so is a node's first record, with such an image that of a start, and that of a
/// decision for which there is room. `ckpt_codec::bounded_records_fit` says that they fit.
pub fn share_law()
    ensures image { (net : Network) (home : ℕ) (histories : List (List ℤ)) (made : ℕ → ℕ)
        (image : ImageView) → IsValid net → IsLaidOut net home image → ImageStands net histories made image
        → LogsAreWithin image → IsImageWithin MAX_RETAINED_ITEMS image }
    ensures current { (net : Network) (home : ℕ) (inputs : List (List ℤ)) (node : RunningNode)
        → IsValid net → IsLaidOut net home node.current → LogsAreWithin node.current
        → ∥ HasReached net inputs node ∥₁ → IsImageWithin MAX_RETAINED_ITEMS node.current }
    ensures opening { (net : Network) (nodes number : ℕ) → IsValid net → nodes ≤ MAX_NODES
        → IsRecordWithin MAX_RETAINED_ITEMS (opening_record net nodes number) }
    ensures started { (node : ℕ) (image : ImageView) (kept : RecordView)
        → IsImageWithin MAX_RETAINED_ITEMS image → IsRecordWithin MAX_RETAINED_ITEMS kept
        → IsRecordWithin MAX_RETAINED_ITEMS (with_own node image kept) }
    ensures decided { (number : ℕ) (nodes : List ℕ) (kept : RecordView) → length nodes ≤ MAX_NODES
        → length kept.decisions < MAX_DECISIONS → IsRecordWithin MAX_RETAINED_ITEMS kept
        → IsRecordWithin MAX_RETAINED_ITEMS (with_decision number nodes kept) }
{}
