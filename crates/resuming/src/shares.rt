// Whether the logs of an image keep to their share of a record.
ghost use Rattle.std.specs.Prelude.{◌≡◌, ◌↔◌, IsTrue, Some, option_copied};
ghost use Rattle.protocol.specs.Node.Sharing.{log_count, log_share};
ghost use Rattle.record.specs.Ends.{log_at};
ghost use Rattle.resuming.specs.Images.{KeepsShares};

use ckpt_codec::MAX_RETAINED_ITEMS;
use record::{End, Image};
use retained::Log;

// The log of an end, where it has one.
fn log_at(end: &End) -> Option<&Log>
    ensures { option_copied result ≡ log_at (Some end.now) }
{
    match end {
        End::Receives { .. } => None,
        End::Sends { log } | End::Both { log, .. } => Some(log),
    }
}

// How many ends of an image have a log.
fn count_logs(image: &Image) -> usize
    ensures { result ≡ log_count image.now }
{
    image
        .ends
        .iter()
        .filter(|saved| log_at(&saved.end).is_some())
        .count()
}

// The most items of each log of an image: an equal share of those for which a record has room.
fn share_of(image: &Image) -> usize
    ensures { result ≡ log_share image.now }
{
    match count_logs(image) {
        0 => 0,
        logs => MAX_RETAINED_ITEMS / logs,
    }
}

/// Whether each log of an image keeps to its share.
pub(crate) fn keeps_shares(image: &Image) -> bool
    ensures { IsTrue result ↔ KeepsShares image.now }
{
    let share = share_of(image);
    for saved in &image.ends {
        if let Some(log) = log_at(&saved.end) {
            if log.len() > share {
                return false;
            }
        }
    }
    true
}
