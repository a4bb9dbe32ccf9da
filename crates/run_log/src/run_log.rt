// The log of a run, with the world to which it leads.
ghost use Rattle.std.specs.Prelude.{◌≡◌, ◌==◌, ◌≢◌, ◌&&◌, ◌+◌, ◌-◌, ◌<◌, ◌≤◌, [], true, false, is_none, is_some, length, IfErr, IfOk, IfSome, IsNone, IsTrue, OnOk, not, slice_get, slice_index_or};
ghost use Rattle.protocol.specs.World.Common.{choice, event_node, Install, are_quiet, released_of, IsGrantedAt};
ghost use Rattle.replay.specs.Armed.{OfWorld, armed_at_first, armed_widened};
ghost use Rattle.replay.specs.Plain.{run_view};
ghost use Rattle.replay.specs.Replay.{IsEventOf, IsNeeded, IsSilence, LeadsTo, has_idled, is_line_late};
ghost use Rattle.replay.specs.Rests.{AllRest, has_due, next_turn};
ghost use Rattle.replay.specs.declared.kept.NextTurn.TheVariants as next;
ghost use Rattle.run_log.specs.Happened.{HasHappened, HasRun};
ghost use Rattle.replay.specs.declared.kept.Maker.TheVariants as who;
ghost use Rattle.run_log.specs.ArmedWorlds.{armed_view};
ghost use Rattle.replay.specs.declared.kept.Silence.TheVariants.{Nothing};
ghost use Rattle.run_log.specs.Answers.{IsNeededIn, IsSilentIn};
ghost use Rattle.run_log.specs.Counts.{kind_of, numbers_in, IsCounted};
ghost use Rattle.run_log.specs.Turns.{is_due, next_line};
ghost use Rattle.run_log.specs.Lines.{IsWidened, happenings};
ghost use Rattle.run_log.specs.declared.answer.FaultAnswer.TheVariants as faults;
ghost use Rattle.run_log.specs.declared.answer.TurnAnswer.TheVariants as turns;
ghost use Rattle.run_log.specs.Numbers.{counted, no_numbers};
ghost use Rattle.run_log.specs.SeatCounts.{run_numbers, seat_numbers, seat_parts};
ghost use Rattle.run_log.specs.declared.seat_count.Counted.TheVariants as kind;
ghost use Rattle.world.specs.Events.{done_view, event_view, is_idle, reply_view};
ghost use Rattle.world.specs.WholeView.{rooms_in, world_of};
ghost use Rattle.world.specs.WorldView.{rooms};
ghost use Rattle.wire.specs.declared.queue.TheConstants.{NODES};
ghost use Rattle.world.specs.EventKinds as event;

use crate::answer::{FaultAnswer, HeldBack, HubFault, TurnAnswer};
use crate::armed::ArmedWorld;
use crate::counting::{write_silence, write_widened};
use crate::history::{History, Line, LongLine};
use crate::making::{make_event, make_next, make_scripted};
use crate::resting::{Resting, has_passed, is_idle, none_rest, note_event};
use crate::seat_count::{Counted, Run, RunCount, SeatCount};
use kahn_net::MAX_COUNT;
use outlet::Outlet;
use proc_step::Done;
use replay::{NextTurn, RunEvent, ScriptedEvent, Silence};
use slot_cell::SlotCell;
use std::alloc::{AllocError, Global};
use wire::NODES;
use world::{Event, Freed, Refused, Reply, World};

/// What a node that has nothing to do waits for, beside a packet: the round, how many lines of the script are passed, and when a channel
/// got more room last. As long as these stay, and no packet is due for it, it has nothing to do.
#[derive(Clone, Copy, Debug, PartialEq, Eq)]
pub struct Moment {
    pub round: u64,
    pub passed: usize,
    /// How many events were made when a channel got more room last, that one counted; 0 where none did. So it is another number
    /// behind each time, and is compared more cheaply than the room of each channel.
    pub widened_at: u64,
}

/// A world with its script and its history, and how often the seats were answered. Several threads share it under a lock.
pub struct RunLog<C: SlotCell, O: Outlet, ThisRun: Run> {
    armed: ArmedWorld<C, O>,
    script: Vec<ScriptedEvent>,
    // How many lines of the script are passed.
    passed: usize,
    lines: Vec<Line>,
    // Room for the next line that has no short form.
    spare: Option<Box<LongLine>>,
    // Whether what happens is written.
    keeps: bool,
    stopped: bool,
    stops: u64,
    // Whether the world was found incomplete, and no event came since.
    incomplete: bool,
    // A node at which something was left to do when that was asked last.
    busy: u8,
    // Of which nodes it is noted that they rest.
    resting: Resting,
    // How many events were made when a channel got more room last.
    widened_at: u64,
    totals: RunCount<ThisRun>,
    // A history leads from the opening world to this one, by this script; where what happens is written it is what the lines say.
    pub ghost replays: { ∥ HasHappened ThisRun.rooms ThisRun.script ThisRun.opening ThisRun.keeps lines.items passed
        (armed_view armed) ∥₁ },
    pub ghost same_keeps: { keeps ≡ ThisRun.keeps },
    pub ghost same_rooms: { rooms_in armed.world ≡ ThisRun.rooms },
    pub ghost same_script: { script.items ≡ ThisRun.script },
    // The totals are the numbers of what is written.
    pub ghost numbers: { ThisRun.keeps ≡ true → numbers_in lines.items stops ≡ run_numbers totals },
    pub ghost running: { stopped ≡ false → stops ≡ 0 },
    // As many answers `Stopped` were counted.
    pub ghost same_stops: { stops ≡ (run_numbers totals).stops },
    pub ghost still: { incomplete ≡ true → are_quiet (world_of armed.world) ≡ false },
    pub ghost rest: { ∥ AllRest resting (world_of armed.world) ∥₁ },
}

// Written out, since each crate above would go through a derived one again.
impl<C: SlotCell, O: Outlet, ThisRun: Run> Drop for RunLog<C, O, ThisRun> {
    fn drop(self) {
        let Self {
            armed,
            script,
            passed,
            lines,
            spare,
            keeps,
            stopped,
            stops,
            incomplete,
            busy,
            resting,
            widened_at,
            totals,
        } = self;
    }
}

fn counted_as(reason: Silence) -> Counted
    ensures { result ≡ kind_of reason }
{
    match reason {
        Silence::Nothing(_) | Silence::Late(_) => Counted::Nothing,
        Silence::NotYet => Counted::NotYet,
        Silence::NoMore => Counted::NoMore,
    }
}

// Whether a node has let its turn pass in this round.
fn has_idled<C: SlotCell, O: Outlet>(world: &World<C, O>, node: u8) -> bool
    ensures { result ≡ has_idled (world_of world.now) node }
{
    match world.station(node) {
        Some(station) => station.turns.of(world.round()).idled,
        None => false,
    }
}

/// What comes at a node's turn, where this event is next for it.
pub fn next_turn<C: SlotCell, O: Outlet>(world: &World<C, O>, event: &Event, node: u8) -> NextTurn
    requires { event_view event.now ≡ choice (world_of world.now) node }
    ensures { result ≡ next_turn (world_of world.now) node }
{
    if !is_idle(event) {
        return NextTurn::Make;
    }
    if has_idled(world, node) {
        return NextTurn::Rest;
    }
    match world.needed_for(node) {
        Some(channel) => NextTurn::Widen(channel),
        None => NextTurn::Make,
    }
}

// Whether it is still this round.
fn is_in_round<C: SlotCell, O: Outlet>(world: &World<C, O>, round: u64) -> bool
    ensures { result ≡ ((world_of world.now).round == round) }
{
    world.round() == round
}

/// Whether nothing is left to do. A node at which something was left before is asked first: mostly something still is, and then no other
/// needs to be asked. Where it has nothing left, another takes its place.
pub fn is_complete<C: SlotCell, O: Outlet>(world: &World<C, O>, busy: &mut u8) -> bool
    ensures { result ≡ are_quiet (world_of world.now) }
{
    if !world.is_quiet(*busy) {
        return false;
    }
    for node in 0..NODES {
        if !world.is_quiet(node as u8) {
            *busy = node as u8;
            return false;
        }
    }
    world.complete()
}

impl<C: SlotCell, O: Outlet, ThisRun: Run> RunLog<C, O, ThisRun> {
    ghost use Rattle.run_log.specs.Calls.{IsEventMade, IsFaultAnswer, IsRefused, IsTurnAnswer, IsUntouched};

    /// A log in which nothing is written yet, and later only where it keeps what happens.
    pub fn new(
        alloc: Global,
        armed: ArmedWorld<C, O>,
        script: Vec<ScriptedEvent>,
        totals: RunCount<ThisRun>,
        keeps: bool,
    ) -> RunLog<C, O, ThisRun>
        requires opening { armed_view armed ≡ armed_at_first ThisRun.opening }
        requires rooms { rooms_in armed.world ≡ ThisRun.rooms }
        requires script { script.items ≡ ThisRun.script }
        requires totals { run_numbers totals ≡ no_numbers }
        requires keeps { keeps ≡ ThisRun.keeps }
        ensures none { result.lines.items ≡ [] }
        ensures first { armed_view result.armed ≡ armed_at_first ThisRun.opening }
        ensures unpassed { result.passed ≡ 0 }
        ensures running { result.stopped ≡ false }
    {
        RunLog {
            armed,
            script,
            passed: 0,
            lines: Vec::new(alloc),
            spare: None,
            keeps,
            stopped: false,
            stops: 0,
            incomplete: false,
            busy: 0,
            resting: none_rest(),
            widened_at: 0,
            totals,
        }
    }

    // An event of this node, with its line and its count.
    fn make(
        &mut self,
        alloc: Global,
        node: u8,
        event: Event,
        count: &mut SeatCount<ThisRun>,
    ) -> Result<Reply, HeldBack>
        requires part { 0 < seat_parts count.old }
        requires own { IsEventOf ThisRun.script (who.Node node) self.old.passed
            (world_of self.old.armed.world) (OfWorld (event_view event)) }
        ensures parts { seat_parts count.new ≡ seat_parts count.old }
        ensures made { IfOk result (λ reply. IsEventMade (who.Node node) (OfWorld (event_view event)) (reply_view reply)
            self.old self.new (seat_numbers count.old) (seat_numbers count.new)) }
        ensures home { IfOk result
            (λ reply. IsGrantedAt (event_node (event_view event)) (reply_view reply)) }
        ensures refused { IfErr result (λ held. IsRefused held.fault self.old self.new (seat_numbers count.old)
            (seat_numbers count.new)) }
        ensures handed_back { IfErr result (λ held. held.event ≡ event) }
    {
        if self.totals.made() >= MAX_COUNT {
            return Err(HeldBack {
                event,
                fault: HubFault::PastNumber,
            });
        }
        let RunLog {
            armed,
            lines,
            spare,
            keeps,
            incomplete,
            resting,
            totals,
            ..
        } = self;
        let round = armed.world.round();
        let passes = is_idle(&event);
        let reply = match make_event(alloc, armed, lines, spare, *keeps, node, event) {
            Ok(reply) => reply,
            Err(Refused { event }) => {
                return Err(HeldBack {
                    event,
                    fault: HubFault::NoMemory,
                });
            }
        };
        let others_stay = is_in_round(&armed.world, round);
        note_event(resting, others_stay, node, has_passed(passes, &reply));
        *incomplete = false;
        totals.add(count, Counted::Entry);
        Ok(reply)
    }

    // The event of the script's next line, with its line and its count.
    fn play(
        &mut self,
        alloc: Global,
        event: RunEvent,
        count: &mut SeatCount<ThisRun>,
    ) -> Result<Reply, HubFault>
        requires part { 0 < seat_parts count.old }
        requires own { IsEventOf ThisRun.script who.Driver self.old.passed
            (world_of self.old.armed.world) (run_view event) }
        requires few { self.old.passed < length ThisRun.script }
        ensures parts { seat_parts count.new ≡ seat_parts count.old }
        ensures made { IfOk result (λ reply. IsEventMade who.Driver (run_view event) (reply_view reply) self.old self.new
            (seat_numbers count.old) (seat_numbers count.new)) }
        ensures refused { IfErr result (λ fault. IsRefused fault self.old self.new (seat_numbers count.old)
            (seat_numbers count.new)) }
    {
        if self.totals.made() >= MAX_COUNT {
            return Err(HubFault::PastNumber);
        }
        let RunLog {
            armed,
            lines,
            spare,
            keeps,
            passed,
            incomplete,
            resting,
            totals,
            ..
        } = self;
        let Ok(reply) = make_scripted(alloc, armed, lines, spare, *keeps, event) else {
            return Err(HubFault::NoMemory);
        };
        *passed += 1;
        *resting = none_rest();
        *incomplete = false;
        totals.add(count, Counted::Entry);
        Ok(reply)
    }

    // Gives a channel more room, with its line and its count.
    fn widen(&mut self, channel: u8, count: &mut SeatCount<ThisRun>) -> Result<(), HubFault>
        requires part { 0 < seat_parts count.old }
        requires needed { IsNeeded channel (world_of self.old.armed.world) }
        ensures parts { seat_parts count.new ≡ seat_parts count.old }
        ensures counts { OnOk result
            (seat_numbers count.new ≡ counted kind.Entry (seat_numbers count.old)) }
        ensures added { OnOk result (self.old.keeps ≡ true → IsWidened channel self.old.lines.items self.new.lines.items) }
        ensures told { OnOk result (∥ IsNeededIn ThisRun.rooms ThisRun.script ThisRun.opening channel ∥₁) }
        ensures wider { OnOk result (armed_view self.new.armed ≡ armed_widened channel (armed_view self.old.armed)) }
        ensures passed { self.new.passed ≡ self.old.passed }
        ensures running { self.new.stopped ≡ self.old.stopped }
        ensures refused { IfErr result (λ fault. IsRefused fault self.old self.new (seat_numbers count.old)
            (seat_numbers count.new)) }
    {
        if self.totals.made() >= MAX_COUNT {
            return Err(HubFault::PastNumber);
        }
        let RunLog {
            armed,
            lines,
            keeps,
            incomplete,
            resting,
            widened_at,
            totals,
            ..
        } = self;
        write_widened(lines, *keeps, channel)?;
        armed.world.widen_at(channel);
        *resting = none_rest();
        *incomplete = false;
        totals.add(count, Counted::Entry);
        *widened_at = totals.made();
        Ok(())
    }

    // An answer without an event.
    fn be_silent(&mut self, reason: Silence, count: &mut SeatCount<ThisRun>) -> Result<(), HubFault>
        requires part { 0 < seat_parts count.old }
        requires own { ∥ IsSilence ThisRun.script reason self.old.passed
            (world_of self.old.armed.world) ∥₁ }
        ensures parts { seat_parts count.new ≡ seat_parts count.old }
        ensures counts { OnOk result
            (seat_numbers count.new ≡ counted (kind_of reason) (seat_numbers count.old)) }
        ensures added { OnOk result (self.old.keeps ≡ true → IsCounted reason self.old.lines.items self.new.lines.items) }
        ensures told { OnOk result (∥ IsSilentIn ThisRun.rooms ThisRun.script ThisRun.opening reason ∥₁) }
        ensures world { armed_view self.new.armed ≡ armed_view self.old.armed }
        ensures passed { self.new.passed ≡ self.old.passed }
        ensures running { self.new.stopped ≡ self.old.stopped }
        ensures refused { IfErr result (λ fault. IsRefused fault self.old self.new (seat_numbers count.old)
            (seat_numbers count.new)) }
    {
        let RunLog {
            lines,
            keeps,
            totals,
            ..
        } = self;
        write_silence(lines, *keeps, reason)?;
        totals.add(count, counted_as(reason));
        Ok(())
    }

    // The answer of a run that is stopped.
    fn be_stopped(&mut self, count: &mut SeatCount<ThisRun>) -> Result<(), HubFault>
        requires part { 0 < seat_parts count.old }
        requires stopped { self.old.stopped ≡ true }
        ensures parts { seat_parts count.new ≡ seat_parts count.old }
        ensures counts { OnOk result
            (seat_numbers count.new ≡ counted kind.Stop (seat_numbers count.old)) }
        ensures lines { self.new.lines.items ≡ self.old.lines.items }
        ensures world { armed_view self.new.armed ≡ armed_view self.old.armed }
        ensures passed { self.new.passed ≡ self.old.passed }
        ensures running { self.new.stopped ≡ self.old.stopped }
        ensures refused { IfErr result (λ fault. IsRefused fault self.old self.new (seat_numbers count.old)
            (seat_numbers count.new)) }
    {
        if self.stops >= MAX_COUNT {
            return Err(HubFault::PastNumber);
        }
        let RunLog { stops, totals, .. } = self;
        *stops += 1;
        totals.add(count, Counted::Stop);
        Ok(())
    }

    /// Whether it is known that a node has nothing to do, and the world need not be asked: it is noted that the node rests, and no packet is due
    /// for it.
    pub fn is_at_rest(&self, node: u8) -> bool
        ensures rests { IsTrue result → next_turn (world_of self.now.armed.world) node ≡ next.Rest }
        // It is so exactly where that is noted, and no packet is due.
        ensures noted { result ≡ (slice_index_or self.now.resting node false
            && not (has_due (world_of self.now.armed.world) node)) }
    {
        if usize::from(node) >= NODES {
            return false;
        }
        let Some(rests) = self.resting.get(usize::from(node)) else {
            return false;
        };
        if !*rests {
            return false;
        }
        !self.armed.world.has_packet(node)
    }

    // A node has nothing to do, which is noted and counted.
    fn be_at_rest(
        &mut self,
        node: u8,
        count: &mut SeatCount<ThisRun>,
    ) -> Result<TurnAnswer, HubFault>
        requires part { 0 < seat_parts count.old }
        requires in_time { is_line_late ThisRun.script self.old.passed (world_of self.old.armed.world).round ≡ false }
        requires rests { next_turn (world_of self.old.armed.world) node ≡ next.Rest }
        ensures parts { seat_parts count.new ≡ seat_parts count.old }
        ensures answered { IfOk result (λ answer. IsTurnAnswer node answer self.old self.new (seat_numbers count.old)
            (seat_numbers count.new)) }
        ensures goes_on { IfOk result (λ answer. answer ≢ turns.Stopped) }
        ensures refused { IfErr result (λ fault. IsRefused fault self.old self.new (seat_numbers count.old)
            (seat_numbers count.new)) }
    {
        self.be_silent(Silence::Nothing(node), count)?;
        let RunLog { resting, .. } = self;
        note_event(resting, true, node, true);
        Ok(TurnAnswer::Nothing)
    }

    // A line of the script is late, and comes before a node's turn, which is counted.
    fn wait_for_line(
        &mut self,
        node: u8,
        count: &mut SeatCount<ThisRun>,
    ) -> Result<TurnAnswer, HubFault>
        requires part { 0 < seat_parts count.old }
        requires late { is_line_late ThisRun.script self.old.passed (world_of self.old.armed.world).round ≡ true }
        ensures parts { seat_parts count.new ≡ seat_parts count.old }
        ensures answered { IfOk result (λ answer. IsTurnAnswer node answer self.old self.new (seat_numbers count.old)
            (seat_numbers count.new)) }
        ensures goes_on { IfOk result (λ answer. answer ≢ turns.Stopped) }
        ensures refused { IfErr result (λ fault. IsRefused fault self.old self.new (seat_numbers count.old)
            (seat_numbers count.new)) }
    {
        self.be_silent(Silence::Late(node), count)?;
        Ok(TurnAnswer::Late)
    }

    // The event that is next for a node, with its line and its count, unless that is to let its turn pass: then nothing is done.
    fn step(
        &mut self,
        alloc: Global,
        node: u8,
        count: &mut SeatCount<ThisRun>,
    ) -> Result<Option<Reply>, HubFault>
        requires part { 0 < seat_parts count.old }
        requires in_time { is_line_late ThisRun.script self.old.passed (world_of self.old.armed.world).round ≡ false }
        ensures parts { seat_parts count.new ≡ seat_parts count.old }
        ensures passes { IfOk result
            (λ made. is_none made ≡ is_idle (choice (world_of self.old.armed.world) node)) }
        ensures none { IfOk result (λ made. IsNone made
            → IsUntouched self.old self.new × (seat_numbers count.new ≡ seat_numbers count.old)) }
        ensures made { IfOk result (λ made. IfSome made (λ reply. IsEventMade (who.Node node)
            (OfWorld (choice (world_of self.old.armed.world) node)) (reply_view reply) self.old self.new
            (seat_numbers count.old) (seat_numbers count.new))) }
        ensures home { IfOk result (λ made. IfSome made
            (λ reply. IsGrantedAt (event_node (choice (world_of self.old.armed.world) node)) (reply_view reply))) }
        ensures refused { IfErr result (λ fault. IsRefused fault self.old self.new (seat_numbers count.old)
            (seat_numbers count.new)) }
    {
        if self.totals.made() >= MAX_COUNT {
            return Err(HubFault::PastNumber);
        }
        let RunLog {
            armed,
            lines,
            spare,
            keeps,
            incomplete,
            resting,
            totals,
            ..
        } = self;
        let round = armed.world.round();
        let Ok(made) = make_next(alloc, armed, lines, spare, *keeps, node) else {
            return Err(HubFault::NoMemory);
        };
        let Some(reply) = made else {
            return Ok(None);
        };
        let others_stay = is_in_round(&armed.world, round);
        note_event(resting, others_stay, node, false);
        *incomplete = false;
        totals.add(count, Counted::Entry);
        Ok(Some(reply))
    }

    // The turn of a node that could only let it pass: nothing, where it has done so in this round; more room for a channel, where a process of
    // the node is held that needs it; and else that it does so.
    fn pass(
        &mut self,
        alloc: Global,
        node: u8,
        count: &mut SeatCount<ThisRun>,
    ) -> Result<TurnAnswer, HubFault>
        requires part { 0 < seat_parts count.old }
        requires in_time { is_line_late ThisRun.script self.old.passed (world_of self.old.armed.world).round ≡ false }
        ensures parts { seat_parts count.new ≡ seat_parts count.old }
        ensures answered { IfOk result (λ answer. IsTurnAnswer node answer self.old self.new (seat_numbers count.old)
            (seat_numbers count.new)) }
        ensures goes_on { IfOk result (λ answer. answer ≢ turns.Stopped) }
        ensures refused { IfErr result (λ fault. IsRefused fault self.old self.new (seat_numbers count.old)
            (seat_numbers count.new)) }
    {
        let event = self.armed.world.pick(node);
        match next_turn(&self.armed.world, &event, node) {
            NextTurn::Rest => self.be_at_rest(node, count),
            NextTurn::Widen(channel) => {
                self.widen(channel, count)?;
                Ok(TurnAnswer::Widened(channel))
            }
            NextTurn::Make => match self.make(alloc, node, event, count) {
                Ok(reply) => Ok(TurnAnswer::Reply(reply)),
                Err(held) => Err(held.fault),
            },
        }
    }

    /// The event that is next for a node; none where all that it could do is to let its turn pass, and it has done so in this
    /// round. Before it does so first, a channel gets more room if a process of the node is held that needs it. A line of the script that is of
    /// an earlier round comes before: until it is passed, no node makes an event by its turn.
    pub fn turn(
        &mut self,
        alloc: Global,
        node: u8,
        count: &mut SeatCount<ThisRun>,
    ) -> Result<TurnAnswer, HubFault>
        requires part { 0 < seat_parts count.old }
        ensures parts { seat_parts count.new ≡ seat_parts count.old }
        // What is answered, and what is done.
        ensures answered { IfOk result (λ answer. IsTurnAnswer node answer self.old self.new (seat_numbers count.old)
            (seat_numbers count.new)) }
        // Where the run is stopped no event is made. `install` has no such clause: a job that is out comes back all the same.
        ensures stopped { self.old.stopped ≡ true
            → IfOk result (λ answer. answer ≡ turns.Stopped) }
        // And `Stopped` is answered nowhere else.
        ensures goes_on { self.old.stopped ≡ false
            → IfOk result (λ answer. answer ≢ turns.Stopped) }
        ensures refused { IfErr result (λ fault. IsRefused fault self.old self.new (seat_numbers count.old)
            (seat_numbers count.new)) }
    {
        if self.stopped {
            self.be_stopped(count)?;
            return Ok(TurnAnswer::Stopped);
        }
        if self.is_line_late() {
            return self.wait_for_line(node, count);
        }
        if self.is_at_rest(node) {
            return self.be_at_rest(node, count);
        }
        match self.step(alloc, node, count)? {
            Some(reply) => Ok(TurnAnswer::Reply(reply)),
            None => self.pass(alloc, node, count),
        }
    }

    /// What came of a job of this node comes back.
    pub fn install(
        &mut self,
        alloc: Global,
        node: u8,
        done: Done,
        count: &mut SeatCount<ThisRun>,
    ) -> Result<Reply, HeldBack>
        requires part { 0 < seat_parts count.old }
        requires home { event_node (Install (done_view done)) ≡ node }
        ensures parts { seat_parts count.new ≡ seat_parts count.old }
        // What it does to the world, exactly.
        ensures made { IfOk result (λ reply. IsEventMade (who.Node node) (OfWorld (Install (done_view done)))
            (reply_view reply) self.old self.new (seat_numbers count.old) (seat_numbers count.new)) }
        ensures refused { IfErr result (λ held. IsRefused held.fault self.old self.new (seat_numbers count.old)
            (seat_numbers count.new)) }
        ensures handed_back { IfErr result (λ held. held.event ≡ event.Install done) }
    {
        self.make(alloc, node, Event::Install(done), count)
    }

    /// The event of the script's next line, if there is one and it is due.
    pub fn fault(
        &mut self,
        alloc: Global,
        count: &mut SeatCount<ThisRun>,
    ) -> Result<FaultAnswer, HubFault>
        requires part { 0 < seat_parts count.old }
        ensures parts { seat_parts count.new ≡ seat_parts count.old }
        // What is answered, and what is done.
        ensures answered { IfOk result (λ answer. IsFaultAnswer answer self.old self.new (seat_numbers count.old)
            (seat_numbers count.new)) }
        ensures stopped { self.old.stopped ≡ true
            → IfOk result (λ answer. answer ≡ faults.Stopped) }
        ensures goes_on { self.old.stopped ≡ false
            → IfOk result (λ answer. answer ≢ faults.Stopped) }
        ensures refused { IfErr result (λ fault. IsRefused fault self.old self.new (seat_numbers count.old)
            (seat_numbers count.new)) }
    {
        if self.stopped {
            self.be_stopped(count)?;
            return Ok(FaultAnswer::Stopped);
        }
        let line = match self.next_line() {
            Some(line) => line,
            None => {
                self.be_silent(Silence::NoMore, count)?;
                return Ok(FaultAnswer::NoMore);
            }
        };
        if line.round > self.armed.world.round() {
            self.be_silent(Silence::NotYet, count)?;
            return Ok(FaultAnswer::NotYet);
        }
        let reply = self.play(alloc, line.event, count)?;
        Ok(FaultAnswer::Reply(reply))
    }

    /// What a node that has nothing to do waits for.
    pub fn moment(&self) -> Moment
        ensures { result.round ≡ (world_of self.now.armed.world).round }
    {
        let world = &self.armed.world;
        Moment {
            round: world.round(),
            passed: self.passed,
            widened_at: self.widened_at,
        }
    }

    /// How far an output has come, as `World::freed` says it.
    pub fn freed(&self, channel: u8) -> Result<Freed, AllocError>
        ensures { IfOk result (λ freed. (freed.output ≡ channel) × (freed.number
            ≡ length (released_of channel (world_of self.now.armed.world).stations))) }
    {
        self.armed.world.freed(channel)
    }

    /// Whether a packet is due for a node.
    pub fn has_packet(&self, node: u8) -> bool
        ensures due { node < NODES → result ≡ has_due (world_of self.now.armed.world) node }
        ensures none { NODES ≤ node → result ≡ false }
    {
        self.armed.world.has_packet(node)
    }

    // The script's next line.
    fn next_line(&self) -> Option<ScriptedEvent>
        ensures { result ≡ slice_get ThisRun.script self.now.passed }
    {
        self.script.get(self.passed).copied()
    }

    /// Whether the script's next line is due.
    pub fn is_line_due(&self) -> bool
        ensures { result ≡ is_due (next_line ThisRun.script self.now.passed (world_of self.now.armed.world).round) }
    {
        match self.next_line() {
            Some(line) => line.round <= self.armed.world.round(),
            None => false,
        }
    }

    /// Whether the script's next line is of an earlier round. It comes before any turn of a node.
    pub fn is_line_late(&self) -> bool
        ensures { result ≡ is_line_late ThisRun.script self.now.passed (world_of self.now.armed.world).round }
    {
        match self.next_line() {
            Some(line) => line.round < self.armed.world.round(),
            None => false,
        }
    }

    /// How many lines of the script aren't passed yet.
    pub fn lines_left(&self) -> usize
        ensures { result ≡ length ThisRun.script - self.now.passed }
    {
        self.script.len().saturating_sub(self.passed)
    }

    /// The round of the script's next line.
    pub fn line_round(&self) -> Option<u64> {
        let line = self.next_line()?;
        Some(line.round)
    }

    /// Whether no turn and no line of the script makes an event any more.
    pub fn is_stopped(&self) -> bool
        ensures { result ≡ self.now.stopped }
    {
        self.stopped
    }

    /// The lines in which what happens is written, where it is.
    pub fn kept(&self) -> Option<&Vec<Line>>
        ensures lines { IfSome result (λ lines. lines.now.items ≡ self.now.lines.items) }
        ensures exact { is_some result ≡ ThisRun.keeps }
    {
        if self.keeps { Some(&self.lines) } else { None }
    }

    /// The world to which the log leads.
    pub fn world(&self) -> &World<C, O>
        ensures { result.now ≡ self.now.armed.world }
    {
        &self.armed.world
    }

    /// How many events were made.
    pub fn made(&self) -> u64
        ensures { result ≡ (run_numbers self.now.totals).entries }
    {
        self.totals.made()
    }

    /// From now on no turn and no line of the script makes an event. What comes of a job that is out may still come back.
    pub fn stop(&mut self)
        ensures stopped { self.new.stopped ≡ true }
        ensures same { (self.new.lines ≡ self.old.lines) × (self.new.armed ≡ self.old.armed)
            × (self.new.passed ≡ self.old.passed) }
    {
        self.stopped = true;
    }

    /// Whether nothing is left to do. The world is asked once behind each event.
    pub fn is_complete(&mut self) -> bool
        ensures quiet { result ≡ are_quiet (world_of self.old.armed.world) }
        ensures same { (self.new.armed ≡ self.old.armed) × (self.new.passed ≡ self.old.passed)
            × (self.new.stopped ≡ self.old.stopped) }
        ensures same_lines { self.new.lines ≡ self.old.lines }
    {
        if self.incomplete {
            return false;
        }
        let RunLog {
            armed,
            incomplete,
            busy,
            ..
        } = self;
        let complete = is_complete(&armed.world, busy);
        *incomplete = !complete;
        complete
    }

    /// The world, and the history that leads to it, if one was kept. Whoever has the parts of all seats learns its numbers.
    pub fn close(mut self, all: &mut SeatCount<ThisRun>) -> (World<C, O>, History)
        ensures world { result.0 ≡ self.armed.world }
        // Kept or not, a history leads there.
        ensures run { HasRun ThisRun.rooms ThisRun.script ThisRun.opening (world_of result.0) }
        // Where it was written it is this one: each entry is the event that was next for its node, a turn that came back to it, or the
        // script's next line once its round had come; its answer is that of the step.
        ensures leads { ThisRun.keeps ≡ true → LeadsTo ThisRun.rooms ThisRun.script ThisRun.opening
            (happenings result.1.lines.items) (world_of result.0) }
        ensures lines { result.1.lines ≡ self.lines }
        // Whoever has the parts of all seats learns that it has as many events and answers of each kind as they got.
        ensures numbers { seat_parts all.old ≡ ThisRun.seats → ThisRun.keeps ≡ true
            → numbers_in result.1.lines.items result.1.stops ≡ seat_numbers all.old }
        // Whoever was answered `Stopped` learns that it is stopped.
        ensures stopped { 0 < (seat_numbers all.old).stops → self.stopped ≡ true }
    {
        self.totals.audit(all);
        let Self {
            armed,
            script: _,
            passed: _,
            lines,
            spare: _,
            keeps: _,
            stopped: _,
            stops,
            incomplete: _,
            busy: _,
            resting: _,
            widened_at: _,
            totals: _,
        } = self;
        let ArmedWorld { world, .. } = armed;
        (world, History { lines, stops })
    }
}
