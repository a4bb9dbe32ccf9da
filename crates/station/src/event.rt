//! Events, and what comes of them.
ghost use Rattle.std.specs.Prelude.{◌≡◌};

use proc_step::{Done, Job};
use protocol::{Deed, Leaving, NetworkAct, PlainEvent};
use std::sync::Arc;

/// What can happen.
#[derive(Drop)]
pub enum Event {
    /// Whatever carries no turn.
    Plain(PlainEvent),
    /// What came of a job comes back to the node of its process.
    Install(Done),
}

impl Event {
    ghost use Rattle.protocol.specs.World.Common.{ByNetwork, ByNode, Release, event_node};
    ghost use Rattle.station.specs.EventView.{event_view, is_idle};

    /// A node does this, or this is done to it.
    pub fn by_node(node: u8, deed: Deed) -> Event
        ensures { event_view result ≡ ByNode node deed }
    {
        Event::Plain(PlainEvent::ByNode { node, deed })
    }

    /// One item of an output that a permanent checkpoint covers leaves the node.
    pub fn release(node: u8) -> Event
        ensures { event_view result ≡ Release node }
    {
        Event::Plain(PlainEvent::Release(node))
    }

    /// The network does this to the packet at this place of those in flight to the node.
    pub fn by_network(node: u8, place: usize, act: NetworkAct) -> Event
        ensures { event_view result ≡ ByNetwork node place act }
    {
        Event::Plain(PlainEvent::ByNetwork { node, place, act })
    }

    /// Whether it is a node's letting its turn pass.
    pub fn is_idle(&self) -> bool
        ensures { result ≡ is_idle (event_view self.now) }
    {
        match self {
            Event::Plain(
                PlainEvent::ByNode {
                    deed: Deed::Idle,
                    ..
                },
            ) => true,
            _ => false,
        }
    }

    /// Its node.
    pub fn node(&self) -> u8
        ensures { result ≡ event_node (event_view self.now) }
    {
        match self {
            Event::Plain(event) => event.node(),
            Event::Install(done) => done.job.node(),
        }
    }
}

/// What came of an event: with a share of the job that was granted, and the place of the item that left.
pub type Reply = protocol::Reply<Arc<Job>, Leaving>;

/// Want of memory (1), with the event. The world is as it was.
#[derive(Drop)]
pub struct Refused {
    pub event: Event,
}
