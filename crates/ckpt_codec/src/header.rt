// What a header says.
ghost use Rattle.std.specs.Prelude.{◌≡◌};

use record::{Decision, Image, Record, Tentative};
use std::marker::Model;

/// Whose checkpoint a tentative image is: its initiator, and the number that the checkpoint has there.
#[derive(Clone, Copy, Debug, PartialEq, Eq)]
pub struct Instance {
    pub initiator: u8,
    pub number: u64,
}

/// A record but for its images. They stand in two slots, of which it names that of the permanent one.
#[derive(Drop)]
pub struct Header {
    /// The node that keeps it.
    pub node: u8,
    pub epoch: u64,
    /// The highest number seen of each initiator, by node.
    pub highest: Vec<u64>,
    /// The decisions that some node hasn't confirmed yet, by ascending numbers.
    pub decisions: Vec<Decision>,
    /// The slot of the permanent image: 0 or 1.
    pub slot: u8,
    /// Whose tentative image is in the other slot, if there is one there.
    pub tentative: Option<Instance>,
}

impl Model for Header {
    ghost use Rattle.ckpt_codec.specs.HeaderView.{HeaderView};

    ghost Value = { HeaderView };

    ghost view = { λ h. record {
      node = h.node;
      epoch = h.epoch;
      highest = h.highest.items;
      decisions = h.decisions.items;
      slot = h.slot;
      tentative = h.tentative;
    } };
}

impl Header {
    ghost use Rattle.ckpt_codec.specs.HeaderText.{tentative_with, record_with};

    // The tentative image of this instance, where there are both.
    fn tentative_with(instance: Option<Instance>, image: Option<Image>) -> Option<Tentative>
        ensures { result ≡ tentative_with instance image }
    {
        let instance = instance?;
        let image = image?;
        Some(Tentative {
            initiator: instance.initiator,
            number: instance.number,
            image,
        })
    }

    /// The record whose header this is, with its permanent image and, where the header names a tentative one, with that.
    pub fn with_images(self, permanent: Image, tentative: Option<Image>) -> Record
        ensures { result ≡ record_with self permanent tentative }
    {
        let tentative = Header::tentative_with(self.tentative, tentative);
        Record {
            node: self.node,
            epoch: self.epoch,
            highest: self.highest,
            decisions: self.decisions,
            permanent,
            tentative,
        }
    }
}
