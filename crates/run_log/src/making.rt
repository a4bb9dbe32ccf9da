// An event, and its line.
ghost use Rattle.std.specs.Prelude.{◌≡◌, is_none, true, IfErr, IfOk, IfSome, IsNone, OnErr};
ghost use Rattle.protocol.specs.World.Choice.{choice};
ghost use Rattle.protocol.specs.World.Common.{event_node, IsGrantedAt};
ghost use Rattle.replay.specs.Armed.{IsArmedStep, OfWorld};
ghost use Rattle.replay.specs.Plain.{run_view};
ghost use Rattle.replay.specs.declared.kept.Maker.TheVariants as who;
ghost use Rattle.run_log.specs.ArmedWorlds.{armed_view};
ghost use Rattle.run_log.specs.Added.{IsAdded};
ghost use Rattle.world.specs.Events.{event_view, is_idle, reply_view};
ghost use Rattle.world.specs.WholeView.{rooms_in, world_of};
ghost use Rattle.world.specs.WorldView.{rooms};

use crate::appending::{put_entry, room_in};
use crate::armed::ArmedWorld;
use crate::history::{Entry, KeptEvent, Line, LongLine};
use crate::keeping::{keep, keep_reply};
use outlet::Outlet;
use replay::{Maker, RunEvent};
use slot_cell::SlotCell;
use std::alloc::{AllocError, Global};
use world::{Event, Refused, Reply};

// Makes an event of a node, and writes it with its answer. The room of its line is made first, and a refusal leaves all as it was.
fn make_kept<C: SlotCell, O: Outlet>(
    alloc: Global,
    world: &mut ArmedWorld<C, O>,
    lines: &mut Vec<Line>,
    spare: &mut Option<Box<LongLine>>,
    node: u8,
    event: Event,
) -> Result<Reply, Refused>
    ensures added { IfOk result (λ reply. IsAdded true (who.Node node) (OfWorld (event_view event))
        (reply_view reply) lines.old.items lines.new.items) }
    ensures step { IfOk result (λ reply. IsArmedStep (rooms_in world.old.world)
        (OfWorld (event_view event)) (armed_view world.old) (reply_view reply)
        (armed_view world.new)) }
    ensures home { IfOk result
        (λ reply. IsGrantedAt (event_node (event_view event)) (reply_view reply)) }
    ensures rooms { rooms_in world.new.world ≡ rooms_in world.old.world }
    ensures refused { OnErr result ((lines.new.items ≡ lines.old.items)
        × (armed_view world.new ≡ armed_view world.old)) }
    ensures handed_back { IfErr result (λ refused. refused.event ≡ event) }
{
    if lines.reserve(1).is_err() {
        return Err(Refused { event });
    }
    let Ok(kept) = keep(&event) else {
        return Err(Refused { event });
    };
    let Ok(room) = room_in(alloc, spare) else {
        return Err(Refused { event });
    };
    let reply = world.apply(alloc, event)?;
    let said = keep_reply(&reply);
    *spare = put_entry(
        lines,
        room,
        Entry {
            maker: Maker::Node(node),
            event: kept,
            reply: said,
        },
    );
    Ok(reply)
}

/// Makes an event of a node, and writes it with its answer, where what happens is written. A refusal leaves all as it was.
pub(crate) fn make_event<C: SlotCell, O: Outlet>(
    alloc: Global,
    world: &mut ArmedWorld<C, O>,
    lines: &mut Vec<Line>,
    spare: &mut Option<Box<LongLine>>,
    keeps: bool,
    node: u8,
    event: Event,
) -> Result<Reply, Refused>
    ensures added { IfOk result (λ reply. IsAdded keeps (who.Node node) (OfWorld (event_view event))
        (reply_view reply) lines.old.items lines.new.items) }
    ensures step { IfOk result (λ reply. IsArmedStep (rooms_in world.old.world)
        (OfWorld (event_view event)) (armed_view world.old) (reply_view reply)
        (armed_view world.new)) }
    ensures home { IfOk result
        (λ reply. IsGrantedAt (event_node (event_view event)) (reply_view reply)) }
    ensures rooms { rooms_in world.new.world ≡ rooms_in world.old.world }
    ensures refused { OnErr result ((lines.new.items ≡ lines.old.items)
        × (armed_view world.new ≡ armed_view world.old)) }
    ensures handed_back { IfErr result (λ refused. refused.event ≡ event) }
{
    if keeps {
        make_kept(alloc, world, lines, spare, node, event)
    } else {
        world.apply(alloc, event)
    }
}

// Makes the event that is next for a node, and writes it with its answer, unless that is to let its turn pass.
fn make_kept_next<C: SlotCell, O: Outlet>(
    alloc: Global,
    world: &mut ArmedWorld<C, O>,
    lines: &mut Vec<Line>,
    spare: &mut Option<Box<LongLine>>,
    node: u8,
) -> Result<Option<Reply>, AllocError>
    ensures passes { IfOk result
        (λ made. is_none made ≡ is_idle (choice (world_of world.old.world) node)) }
    ensures passed { IfOk result (λ made. IsNone made
        → (world.new ≡ world.old) × (lines.new ≡ lines.old)) }
    ensures added { IfOk result (λ made. IfSome made (λ reply. IsAdded true (who.Node node)
        (OfWorld (choice (world_of world.old.world) node)) (reply_view reply) lines.old.items lines.new.items)) }
    ensures step { IfOk result (λ made. IfSome made (λ reply. IsArmedStep (rooms_in world.old.world)
        (OfWorld (choice (world_of world.old.world) node)) (armed_view world.old) (reply_view reply)
        (armed_view world.new))) }
    ensures home { IfOk result (λ made. IfSome made
        (λ reply. IsGrantedAt (event_node (choice (world_of world.old.world) node)) (reply_view reply))) }
    ensures rooms { rooms_in world.new.world ≡ rooms_in world.old.world }
    ensures refused { OnErr result ((lines.new.items ≡ lines.old.items)
        × (armed_view world.new ≡ armed_view world.old)) }
{
    let event = world.world.pick(node);
    if event.is_idle() {
        return Ok(None);
    }
    match make_kept(alloc, world, lines, spare, node, event) {
        Ok(reply) => Ok(Some(reply)),
        Err(_) => Err(AllocError),
    }
}

/// Makes the event that is next for a node, and writes it with its answer, where what happens is written; none where that is to let its turn
/// pass. A refusal leaves all as it was.
pub(crate) fn make_next<C: SlotCell, O: Outlet>(
    alloc: Global,
    world: &mut ArmedWorld<C, O>,
    lines: &mut Vec<Line>,
    spare: &mut Option<Box<LongLine>>,
    keeps: bool,
    node: u8,
) -> Result<Option<Reply>, AllocError>
    ensures passes { IfOk result
        (λ made. is_none made ≡ is_idle (choice (world_of world.old.world) node)) }
    ensures passed { IfOk result (λ made. IsNone made
        → (world.new ≡ world.old) × (lines.new ≡ lines.old)) }
    ensures added { IfOk result (λ made. IfSome made (λ reply. IsAdded keeps (who.Node node)
        (OfWorld (choice (world_of world.old.world) node)) (reply_view reply) lines.old.items lines.new.items)) }
    ensures step { IfOk result (λ made. IfSome made (λ reply. IsArmedStep (rooms_in world.old.world)
        (OfWorld (choice (world_of world.old.world) node)) (armed_view world.old) (reply_view reply)
        (armed_view world.new))) }
    ensures home { IfOk result (λ made. IfSome made
        (λ reply. IsGrantedAt (event_node (choice (world_of world.old.world) node)) (reply_view reply))) }
    ensures rooms { rooms_in world.new.world ≡ rooms_in world.old.world }
    ensures refused { OnErr result ((lines.new.items ≡ lines.old.items)
        × (armed_view world.new ≡ armed_view world.old)) }
{
    if keeps {
        make_kept_next(alloc, world, lines, spare, node)
    } else {
        world.step(alloc, node)
    }
}

// Makes the event of a line of the script, and writes it with its answer. The room of its line is made first, and a refusal leaves all as it was.
fn make_kept_line<C: SlotCell, O: Outlet>(
    alloc: Global,
    world: &mut ArmedWorld<C, O>,
    lines: &mut Vec<Line>,
    spare: &mut Option<Box<LongLine>>,
    event: RunEvent,
) -> Result<Reply, AllocError>
    ensures added { IfOk result (λ reply. IsAdded true who.Driver (run_view event) (reply_view reply)
        lines.old.items lines.new.items) }
    ensures step { IfOk result (λ reply. IsArmedStep (rooms_in world.old.world)
        (run_view event) (armed_view world.old) (reply_view reply) (armed_view world.new)) }
    ensures rooms { rooms_in world.new.world ≡ rooms_in world.old.world }
    ensures refused { OnErr result ((lines.new.items ≡ lines.old.items)
        × (armed_view world.new ≡ armed_view world.old)) }
{
    lines.reserve(1)?;
    let room = room_in(alloc, spare)?;
    let reply = world.play(alloc, event)?;
    let said = keep_reply(&reply);
    *spare = put_entry(
        lines,
        room,
        Entry {
            maker: Maker::Driver,
            event: KeptEvent::Plain(event),
            reply: said,
        },
    );
    Ok(reply)
}

/// Makes the event of a line of the script, and writes it with its answer, where what happens is written. A refusal leaves all as it was.
pub(crate) fn make_scripted<C: SlotCell, O: Outlet>(
    alloc: Global,
    world: &mut ArmedWorld<C, O>,
    lines: &mut Vec<Line>,
    spare: &mut Option<Box<LongLine>>,
    keeps: bool,
    event: RunEvent,
) -> Result<Reply, AllocError>
    ensures added { IfOk result (λ reply. IsAdded keeps who.Driver (run_view event) (reply_view reply)
        lines.old.items lines.new.items) }
    ensures step { IfOk result (λ reply. IsArmedStep (rooms_in world.old.world)
        (run_view event) (armed_view world.old) (reply_view reply) (armed_view world.new)) }
    ensures rooms { rooms_in world.new.world ≡ rooms_in world.old.world }
    ensures refused { OnErr result ((lines.new.items ≡ lines.old.items)
        × (armed_view world.new ≡ armed_view world.old)) }
{
    if keeps {
        make_kept_line(alloc, world, lines, spare, event)
    } else {
        world.play(alloc, event)
    }
}
