// The window of a link's sender.
ghost use Rattle.std.specs.Prelude.{◌≡◌, ◌≤◌, ◌<◌, ◌↔◌, ℕ, max, IsTrue};
ghost use Rattle.window_link.specs.Windows.{is_due, sender_after, sender_reset};

use std::marker::Model;
use std::ops::Range;

/// The largest size of a window.
pub const LARGEST_WINDOW: u64 = 64;

/// Which positions of a channel are under way: how many at most, and what the receiver has acknowledged.
#[derive(Clone, Copy, Debug)]
pub struct SendWindow {
    size: u64,
    epoch: u64,
    acknowledged: u64,
}

impl Model for SendWindow {
    ghost use Rattle.window_link.specs.Windows.{Sender, IsWindow};

    ghost Value = { Sender };

    ghost view = { λ window. record {
      size = window.size;
      epoch = window.epoch;
      acknowledged = window.acknowledged;
    } };

    ghost invariant = { λ window. IsWindow window.size };

    ghost inverse = { λ sender. record {
      size = sender.size;
      epoch = sender.epoch;
      acknowledged = sender.acknowledged;
    } };
}

impl SendWindow {
    /// A window of this size, in epoch 0, with nothing acknowledged.
    pub fn new(size: u64) -> SendWindow
        requires { (1 ≤ size) × (size ≤ LARGEST_WINDOW) }
        ensures { result ≡ record { size = size; epoch = 0; acknowledged = 0 } }
    {
        SendWindow {
            size,
            epoch: 0,
            acknowledged: 0,
        }
    }

    /// The positions that are due: from what is acknowledged and from `base` on, as many as the window has and below `end`.
    pub fn due(&self, base: u64, end: u64) -> Range<u64>
        ensures first { result.start ≡ max self.now.acknowledged base }
        ensures proper { result.start ≤ result.end }
        ensures members { (position : ℕ) → ((result.start ≤ position) × (position < result.end))
            ↔ IsTrue (is_due self.now base end position) }
    {
        let start = self.acknowledged.max(base);
        if end <= start {
            return start..start;
        }
        start..start + self.size.min(end - start)
    }

    /// The receiver's acknowledgement came: its epoch, and the position that it takes next.
    ///
    /// An older epoch than the last one is ignored. A newer one counts as it is, also where it goes back. In the same
    /// epoch the acknowledged position only rises.
    pub fn on_ack(&mut self, epoch: u64, next: u64)
        ensures { self.new ≡ sender_after self.old epoch next }
    {
        if epoch > self.epoch {
            self.epoch = epoch;
            self.acknowledged = next;
        } else if epoch == self.epoch && next > self.acknowledged {
            self.acknowledged = next;
        }
    }

    /// Forgets what was acknowledged: epoch 0, position 0.
    pub fn reset(&mut self)
        ensures { self.new ≡ sender_reset self.old }
    {
        self.epoch = 0;
        self.acknowledged = 0;
    }
}
