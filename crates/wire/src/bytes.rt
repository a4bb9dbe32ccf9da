// What a packet consists of.
ghost use Rattle.std.specs.Prelude.{◌≡◌, IfOk};

use smallvec::SmallVec;
use std::alloc::{AllocError, Global};
use std::marker::Model;

/// Bytes of which up to 24 lie in the value itself. A packet with an item has 21, so it needs no memory of its own in a queue.
pub type PacketBytes = SmallVec<u8, 24>;

/// The bytes of a packet, which contracts see as a list.
#[derive(Debug)]
pub struct Bytes {
    bytes: PacketBytes,
}

// Written out, since each crate above would go through a derived one again.
impl Drop for Bytes {
    fn drop(self) {
        let Self { bytes } = self;
    }
}

impl Model for Bytes {
    ghost use Rattle.std.specs.Prelude.{List, ℕ};

    ghost Value = { List ℕ };

    ghost view = { λ packet. packet.bytes.items };
}

impl Bytes {
    /// A packet of these bytes.
    pub fn new(bytes: PacketBytes) -> Bytes
        ensures { result ≡ bytes.items }
    {
        Bytes { bytes }
    }

    /// The bytes.
    pub fn as_slice(&self) -> &[u8]
        ensures { result.now ≡ self.now }
    {
        self.bytes.as_slice()
    }

    /// The same bytes once more.
    pub fn copy(&self, alloc: Global) -> Result<Bytes, AllocError>
        ensures { IfOk result (λ copy. copy ≡ self.now) }
    {
        Ok(Bytes {
            bytes: SmallVec::from_slice(alloc, self.bytes.as_slice())?,
        })
    }
}
