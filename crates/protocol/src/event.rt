//! What can happen in a world, but for what came of a job.

use sector_disk::ArmedFault;
use wire::{Change, Rule};

/// What a node does, or what is done to it.
#[derive(Clone, Copy, Debug, PartialEq, Eq)]
pub enum Deed {
    /// The packet at this place, from 0, of those in flight to the node comes to it.
    Deliver { place: usize },
    /// The process that is next is given a job.
    Grant,
    /// The node sends what is due: how far it has come on each channel from another node, and items of its own.
    Send,
    /// The node begins a checkpoint: it takes a tentative image.
    Start,
    /// The node's tentative image becomes the permanent one.
    Decide,
    /// The node crashes: what it had in memory is gone, and its disk is settled by this byte. It may be recovered so many
    /// rounds later.
    Crash { fill: u8, rounds: u64 },
    /// The node, which is down, comes back in its next epoch.
    Recover,
    /// A failure of the node's disk is prepared. Where it takes the node down, that may be recovered so many rounds later: 1 for
    /// a mere failure.
    Arm { fault: ArmedFault, rounds: u64 },
    /// The node lets its turn pass.
    Idle,
}

/// What the network does to a packet in flight, or is to do to one that is still to be sent.
#[derive(Clone, Copy, Debug, PartialEq, Eq)]
pub enum NetworkAct {
    /// The packet is lost.
    Lose,
    /// A copy of it is put in flight, behind all others, and is due in the round of its original.
    Repeat,
    /// It is due so many rounds later.
    Delay { rounds: u64 },
    /// What is to become of the nth packet from one node to another. Packets are counted from the world's beginning on; of one that
    /// was sent already this says nothing. Of several of these for one packet each applies, in the order of arming.
    ArmPacket { from: u8, nth: u64, change: Change },
}

/// An event that carries no turn: it can be copied and kept.
#[derive(Clone, Copy, Debug, PartialEq, Eq)]
pub enum PlainEvent {
    /// A node does something, or something is done to it.
    ByNode {
        node: u8,
        deed: Deed,
    },
    /// One item of an output that a permanent checkpoint covers leaves the node.
    Release(u8),
    /// The network does something to the packet at this place, from 0, of those in flight to the node. What is armed looks at no
    /// place.
    ByNetwork {
        node: u8,
        place: usize,
        act: NetworkAct,
    },
}

impl PlainEvent {
    ghost use Rattle.std.specs.Prelude.{◌≡◌};
    ghost use Rattle.protocol.specs.World.EventView.{armed_by, event_node, plain_view};

    /// Its node: of an act of the network, that to which the packet goes.
    pub fn node(&self) -> u8
        ensures { result ≡ event_node (plain_view self.now) }
    {
        match self {
            PlainEvent::ByNode { node, .. } => *node,
            PlainEvent::Release(node) => *node,
            PlainEvent::ByNetwork { node, .. } => *node,
        }
    }

    /// A rule for a packet that is still to be sent is armed.
    pub fn arm_packet(rule: Rule) -> PlainEvent
        ensures { result ≡ armed_by rule }
    {
        PlainEvent::ByNetwork {
            node: rule.to,
            place: 0,
            act: NetworkAct::ArmPacket {
                from: rule.from,
                nth: rule.nth,
                change: rule.change,
            },
        }
    }
}
