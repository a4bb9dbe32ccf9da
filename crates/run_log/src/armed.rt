// A world with crashes that are armed for the ends of deliveries.
ghost use Rattle.std.specs.Prelude.{◌≡◌, is_none, replicate, IfErr, IfOk, IfSome, IsNone, OnErr};
ghost use Rattle.protocol.specs.World.Choice.{choice};
ghost use Rattle.protocol.specs.World.Common.{event_node, IsGrantedAt, has_happened};
ghost use Rattle.replay.specs.Armed.{ArmCrash, EndsWith, IsArmedStep, OfWorld, armed_at_first, crash_after, deliveries_after, delivered_to, has_come, one_more};
ghost use Rattle.replay.specs.Plain.{run_view};
ghost use Rattle.world.specs.Events.{event_view, is_idle, reply_view};
ghost use Rattle.world.specs.WholeView.{arrived_in, capacities_in, net_in, nodes_in, rooms_in, world_of};
ghost use Rattle.world.specs.WorldView.{capacities, rooms};

use crate::armed_crashes::ArmedCrashes;
use outlet::Outlet;
use replay::{ArmedCrash, RunEvent};
use slot_cell::SlotCell;
use std::alloc::{AllocError, Global};
use world::{Deed, Event, PlainEvent, Refused, Reply, World, next_after};

/// A world, how many deliveries each of its nodes has had, and the crashes that are armed for the ends of some. A delivery for
/// which a crash is armed is two events of the world, the delivery and the crash, with nothing between them.
#[derive(Drop)]
pub struct ArmedWorld<C: SlotCell, O: Outlet> {
    pub world: World<C, O>,
    deliveries: Vec<u64>,
    crashes: ArmedCrashes,
}

// The node to which a packet is to come, where that is the event.
fn delivered_to(event: &Event) -> Option<u8>
    ensures { result ≡ delivered_to (event_view event.now) }
{
    match event {
        Event::Plain(
            PlainEvent::ByNode {
                node,
                deed: Deed::Deliver { .. },
            },
        ) => Some(*node),
        _ => None,
    }
}

// Whether something happened.
fn has_happened(reply: &Reply) -> bool
    ensures { result ≡ has_happened (reply_view reply.now) }
{
    match reply {
        Reply::NotDue => false,
        _ => true,
    }
}

// Whether a packet came, and no device failed.
fn has_come(reply: &Reply) -> bool
    ensures { result ≡ has_come (reply_view reply.now) }
{
    match reply {
        Reply::Delivered | Reply::Dropped => true,
        _ => false,
    }
}

// A node has had one delivery more.
fn count_one(deliveries: &mut Vec<u64>, node: u8)
    ensures { deliveries.new.items ≡ one_more deliveries.old.items node }
{
    let place = usize::from(node);
    if place < deliveries.len() {
        let count = deliveries[place];
        deliveries[place] = next_after(count);
    }
}

// The numbers of deliveries behind an event at which a packet came to this node, if to any, and that was answered so.
fn count(deliveries: &mut Vec<u64>, came_to: Option<u8>, said: &Reply)
    ensures { deliveries.new.items
        ≡ deliveries_after came_to (reply_view said.now) deliveries.old.items }
{
    if let Some(node) = came_to {
        if has_happened(said) {
            count_one(deliveries, node);
        }
    }
}

// The crash that follows a packet's coming to this node, if to any, where that was answered so.
fn crash_after(
    deliveries: &[u64],
    crashes: &ArmedCrashes,
    came_to: Option<u8>,
    said: &Reply,
) -> Option<ArmedCrash>
    ensures { result ≡ crash_after came_to (reply_view said.now) deliveries.now crashes.now }
{
    let Some(node) = came_to else {
        return None;
    };
    if !has_come(said) {
        return None;
    }
    match deliveries.get(usize::from(node)) {
        Some(delivery) => crashes.first(node, *delivery),
        None => None,
    }
}

// Ends an event by this crash, if by any. What was answered is answered where it ends by none.
fn end<C: SlotCell, O: Outlet>(
    alloc: Global,
    world: &mut World<C, O>,
    crash: Option<ArmedCrash>,
    said: Reply,
) -> Reply
    ensures ends { EndsWith (rooms_in world.old) crash (reply_view said)
        (world_of world.old) (reply_view result) (world_of world.new) }
    ensures rooms { rooms_in world.new ≡ rooms_in world.old }
    ensures capacities { capacities_in world.new ≡ capacities_in world.old }
    ensures same { (net_in world.new ≡ net_in world.old) × (arrived_in world.new ≡ arrived_in world.old) }
{
    let Some(crash) = crash else {
        return said;
    };
    let ArmedCrash {
        node,
        fill,
        rounds,
        ..
    } = crash;
    match world.apply(alloc, Event::by_node(node, Deed::Crash { fill, rounds })) {
        Ok(reply) => reply,
        // A crash takes no memory, and isn't refused.
        Err(_) => said,
    }
}

/// The numbers of deliveries of so many nodes that have had none.
pub fn no_deliveries(alloc: Global, nodes: usize) -> Result<Vec<u64>, AllocError>
    ensures { IfOk result (λ deliveries. deliveries.items ≡ replicate nodes 0) }
{
    vec![in alloc; 0; nodes]
}

impl<C: SlotCell, O: Outlet> ArmedWorld<C, O> {
    ghost use Rattle.run_log.specs.ArmedWorlds.{armed_view};

    /// A world for which no crash is armed, and whose deliveries are counted from now on. Refuses for want of memory alone.
    pub fn new(alloc: Global, world: World<C, O>) -> Result<ArmedWorld<C, O>, AllocError>
        ensures first { IfOk result (λ armed. armed_view armed ≡ armed_at_first (world_of world)) }
        ensures world { IfOk result (λ armed. armed.world ≡ world) }
    {
        let deliveries = no_deliveries(alloc, world.nodes())?;
        Ok(ArmedWorld::over(alloc, world, deliveries))
    }

    /// The same with what it asks memory for, which was made before.
    pub fn over(alloc: Global, world: World<C, O>, deliveries: Vec<u64>) -> ArmedWorld<C, O>
        requires { deliveries.items ≡ replicate (nodes_in world) 0 }
        ensures first { armed_view result ≡ armed_at_first (world_of world) }
        ensures world { result.world ≡ world }
    {
        ArmedWorld {
            world,
            deliveries,
            crashes: ArmedCrashes::new(alloc),
        }
    }

    // One event of the world; where it is a delivery for whose end a crash is armed, the node crashes then, and that is
    // answered. Refuses for want of memory alone, and then nothing is changed.
    fn make(&mut self, alloc: Global, event: &Event) -> Result<Reply, AllocError>
        ensures step { IfOk result (λ reply. IsArmedStep (rooms_in self.old.world)
            (OfWorld (event_view event.now)) (armed_view self.old) (reply_view reply)
            (armed_view self.new)) }
        ensures home { IfOk result
            (λ reply. IsGrantedAt (event_node (event_view event.now)) (reply_view reply)) }
        ensures same_rooms { rooms_in self.new.world
            ≡ rooms_in self.old.world }
        ensures same_capacities { capacities_in self.new.world
            ≡ capacities_in self.old.world }
        ensures same { (net_in self.new.world ≡ net_in self.old.world)
            × (arrived_in self.new.world ≡ arrived_in self.old.world) }
        ensures refused { OnErr result (armed_view self.new ≡ armed_view self.old) }
    {
        let ArmedWorld {
            world,
            deliveries,
            crashes,
        } = self;
        let came_to = delivered_to(event);
        let said = world.make(alloc, event)?;
        count(deliveries, came_to, &said);
        let crash = crash_after(deliveries, crashes, came_to, &said);
        Ok(end(alloc, world, crash, said))
    }

    /// One event of the world; where it is a delivery for whose end a crash is armed, the node crashes then, and that is
    /// answered. Refuses for want of memory alone (1), with the event, and then nothing is changed.
    pub fn apply(&mut self, alloc: Global, event: Event) -> Result<Reply, Refused>
        ensures step { IfOk result (λ reply. IsArmedStep (rooms_in self.old.world)
            (OfWorld (event_view event)) (armed_view self.old) (reply_view reply)
            (armed_view self.new)) }
        // A job that is granted is of a process of the event's node.
        ensures home { IfOk result
            (λ reply. IsGrantedAt (event_node (event_view event)) (reply_view reply)) }
        ensures same_rooms { rooms_in self.new.world
            ≡ rooms_in self.old.world }
        ensures same_capacities { capacities_in self.new.world
            ≡ capacities_in self.old.world }
        ensures same { (net_in self.new.world ≡ net_in self.old.world)
            × (arrived_in self.new.world ≡ arrived_in self.old.world) }
        ensures refused { OnErr result (armed_view self.new ≡ armed_view self.old) }
        ensures handed_back { IfErr result (λ refused. refused.event ≡ event) }
    {
        match self.make(alloc, &event) {
            Ok(reply) => Ok(reply),
            Err(_) => Err(Refused { event }),
        }
    }

    /// Makes the event that is next for a node, which the world's `pick` would answer, unless that is to let its turn pass: then it
    /// answers `None`, and nothing is changed. Where it is a delivery for whose end a crash is armed, the node crashes then, and
    /// that is answered. Refuses for want of memory alone (1), and then nothing is changed either.
    pub fn step(&mut self, alloc: Global, node: u8) -> Result<Option<Reply>, AllocError>
        // None is made exactly where the node's turn would pass.
        ensures passes { IfOk result
            (λ made. is_none made ≡ is_idle (choice (world_of self.old.world) node)) }
        ensures passed { IfOk result (λ made. IsNone made → self.new ≡ self.old) }
        // What is made is the event that is next.
        ensures step { IfOk result (λ made. IfSome made (λ reply. IsArmedStep (rooms_in self.old.world)
            (OfWorld (choice (world_of self.old.world) node)) (armed_view self.old)
            (reply_view reply) (armed_view self.new))) }
        // A job that is granted is of a process of the event's node.
        ensures home { IfOk result (λ made. IfSome made
            (λ reply. IsGrantedAt (event_node (choice (world_of self.old.world) node))
            (reply_view reply))) }
        ensures same_rooms { rooms_in self.new.world
            ≡ rooms_in self.old.world }
        ensures same_capacities { capacities_in self.new.world
            ≡ capacities_in self.old.world }
        ensures same { (net_in self.new.world ≡ net_in self.old.world)
            × (arrived_in self.new.world ≡ arrived_in self.old.world) }
        ensures refused { OnErr result (armed_view self.new ≡ armed_view self.old) }
    {
        let event = self.world.pick(node);
        if event.is_idle() {
            return Ok(None);
        }
        let reply = self.make(alloc, &event)?;
        Ok(Some(reply))
    }

    /// Arms a crash for the end of a delivery. Where that is over, it has no effect. Refuses for want of memory alone.
    fn arm(&mut self, crash: ArmedCrash) -> Result<Reply, AllocError>
        ensures step { IfOk result (λ reply. IsArmedStep (rooms_in self.old.world)
            (ArmCrash crash) (armed_view self.old) (reply_view reply) (armed_view self.new)) }
        ensures world { self.new.world ≡ self.old.world }
        ensures refused { OnErr result (armed_view self.new ≡ armed_view self.old) }
    {
        self.crashes.arm(crash)?;
        Ok(Reply::Acted)
    }

    /// The event of a line of a script. Refuses for want of memory alone, and then nothing is changed.
    pub fn play(&mut self, alloc: Global, event: RunEvent) -> Result<Reply, AllocError>
        ensures step { IfOk result (λ reply. IsArmedStep (rooms_in self.old.world)
            (run_view event) (armed_view self.old) (reply_view reply) (armed_view self.new)) }
        ensures same_rooms { rooms_in self.new.world
            ≡ rooms_in self.old.world }
        ensures same_capacities { capacities_in self.new.world
            ≡ capacities_in self.old.world }
        ensures same { (net_in self.new.world ≡ net_in self.old.world)
            × (arrived_in self.new.world ≡ arrived_in self.old.world) }
        ensures refused { OnErr result (armed_view self.new ≡ armed_view self.old) }
    {
        match event {
            RunEvent::World(event) => match self.apply(alloc, Event::Plain(event)) {
                Ok(reply) => Ok(reply),
                Err(_) => Err(AllocError),
            },
            RunEvent::ArmCrash(crash) => self.arm(crash),
        }
    }
}
