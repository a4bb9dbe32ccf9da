// A run by turns on one thread, from its world to its end.
ghost use Rattle.std.specs.Prelude.{◌≡◌, ◌≢◌, ◌==◌, ◌≤◌, ◌+◌, ℕ, not, true, false, length, IfOk, OnOk, Result};
ghost use Rattle.node_memory.specs.JobView.{shared_view};
ghost use Rattle.protocol.specs.Node.Common.{MAX_CHANNELS, MAX_NODES, network_of};
ghost use Rattle.protocol.specs.World.Common.{IsGrantedAt, node_in};
ghost use Rattle.replay.specs.Replay.{LeadsTo, is_line_late};
ghost use Rattle.run_log.specs.Answers.{IsGrantedIn};
ghost use Rattle.run_log.specs.ArmedWorlds.{armed_view};
ghost use Rattle.run_log.specs.Happened.{HasRun};
ghost use Rattle.run_log.specs.LedgerNames.{HaveParts, names_of};
ghost use Rattle.run_log.specs.Lines.{happenings};
ghost use Rattle.run_log.specs.RunLogs.{happened_in};
ghost use Rattle.run_log.specs.SeatCounts.{seat_parts};
ghost use Rattle.run_log.specs.Turns.{IsTurn};
ghost use Rattle.runtime.specs.Beginning.{first_lines, BeginsByDriver, HasBegun};
ghost use Rattle.runtime.specs.Ending.{IsOver, goes_on, is_over};
ghost use Rattle.runtime.specs.Turning.{AreTaken, EndsByTurns, Follows, IsLineBefore, IsLinePassed, IsNodeTurn, TakesTurns, AreCaughtUp, progress, turn_node};
ghost use Rattle.station.specs.ReplyView.{reply_view};
ghost use Rattle.world.specs.WholeView.{net_in, nodes_in, rooms_in, world_of};
ghost use Rattle.world.specs.WorldView.{rooms};
ghost use Rattle.run_log.specs.declared.answer.TurnAnswer.TheVariants as turns;
ghost use Rattle.protocol.specs.declared.reply.Reply.TheVariants.{Granted};

use crate::bounds::Bounds;
use crate::driving::{begin, first_lines};
use crate::ending::{Ended, RunEnd, end_by};
use crate::turn_watch::TurnWatch;
use kahn_net::{Channel, MAX_NODES};
use outlet::Outlet;
use proc_step::Job;
use replay::ScriptedEvent;
use run_log::{
    ArmedWorld, History, HubFault, Run, RunLog, SeatCount, TurnAnswer, UnusedLedgers, no_deliveries,
};
use slot_cell::SlotCell;
use std::alloc::Global;
use std::marker::Brand;
use std::sync::Arc;
use world::{Reply, World};

// A log, with the one seat of whoever takes all turns. The run began with the script's lines of round 0, and isn't stopped.
#[derive(Drop)]
struct Table<C: SlotCell, O: Outlet, ThisRun: Run> {
    log: RunLog<C, O, ThisRun>,
    count: SeatCount<ThisRun>,
    pub ghost one_part: { seat_parts count ≡ 1 },
    pub ghost running: { log.stopped ≡ false },
    pub ghost begins: { ThisRun.keeps ≡ true
        → BeginsByDriver (first_lines ThisRun.script) (happened_in log) },
}

impl<C: SlotCell, O: Outlet, ThisRun: Run> Table<C, O, ThisRun> {
    // The event of the script's next line, if there is one and its round has come.
    fn pass_line(&mut self, alloc: Global) -> Result<(), HubFault>
        ensures passed { OnOk result (IsLinePassed ThisRun.rooms ThisRun.script
            (progress (armed_view self.old.log.armed) self.old.log.passed)
            (progress (armed_view self.new.log.armed) self.new.log.passed)) }
    {
        let Table { log, count, .. } = self;
        // Where nothing comes of it nothing is asked, so that nothing is written.
        if !log.is_line_due() {
            return Ok(());
        }
        let _answer = log.fault(alloc, count)?;
        Ok(())
    }

    // The events of the script's lines that are late, one after another.
    fn catch_up(&mut self, alloc: Global) -> Result<(), HubFault>
        ensures caught_up { OnOk result (AreCaughtUp ThisRun.rooms ThisRun.script
            (progress (armed_view self.old.log.armed) self.old.log.passed)
            (progress (armed_view self.new.log.armed) self.new.log.passed)) }
    {
        let left = self.log.lines_left();
        for _line in 0..left {
            if !self.log.is_line_late() {
                return Ok(());
            }
            self.pass_line(alloc)?;
        }
        Ok(())
    }

    // What comes of the script before a node's turn: a line, if one is due, before each turn of node 0, and then each that is late.
    fn pass_lines_before(&mut self, alloc: Global, node: u8) -> Result<(), HubFault>
        ensures passed { OnOk result (IsLineBefore ThisRun.rooms ThisRun.script node
            (progress (armed_view self.old.log.armed) self.old.log.passed)
            (progress (armed_view self.new.log.armed) self.new.log.passed)) }
    {
        if node == 0 {
            self.pass_line(alloc)?;
        }
        self.catch_up(alloc)
    }

    // What comes at a node's turn, where no line of the script is late.
    fn turn(&mut self, alloc: Global, node: u8) -> Result<TurnAnswer, HubFault>
        requires in_time { is_line_late ThisRun.script self.old.log.passed (world_of self.old.log.armed.world).round ≡ false }
        ensures home { IfOk result (IsGrantedIn node) }
        ensures goes_on { IfOk result (λ answer. answer ≢ turns.Stopped) }
        ensures turned { IfOk result (λ answer. IsTurn ThisRun.rooms ThisRun.script self.old.log.passed node answer
            (armed_view self.old.log.armed) (armed_view self.new.log.armed)) }
        ensures same { self.new.log.passed ≡ self.old.log.passed }
    {
        let Table { log, count, .. } = self;
        if log.is_at_rest(node) {
            return Ok(TurnAnswer::Nothing);
        }
        log.turn(alloc, node, count)
    }

    // A job of this node is run, and comes back at once.
    fn run_job(&mut self, alloc: Global, node: u8, job: Arc<Job>) -> Result<(), HubFault>
        requires home { node_in (shared_view job).code ≡ node }
        ensures follows { OnOk result (Follows ThisRun.rooms (Granted (shared_view job))
            (armed_view self.old.log.armed) (armed_view self.new.log.armed)) }
        ensures same { self.new.log.passed ≡ self.old.log.passed }
    {
        let Ok(done) = Job::run(job, alloc) else {
            return Err(HubFault::NoMemory);
        };
        let Table { log, count, .. } = self;
        match log.install(alloc, node, done, count) {
            Ok(_) => Ok(()),
            Err(held) => Err(held.fault),
        }
    }

    // What follows a reply: a job that was granted is run, and comes back at once.
    fn follow(&mut self, alloc: Global, node: u8, reply: Reply) -> Result<(), HubFault>
        requires home { IsGrantedAt node (reply_view reply) }
        ensures follows { OnOk result (Follows ThisRun.rooms (reply_view reply)
            (armed_view self.old.log.armed) (armed_view self.new.log.armed)) }
        ensures same { self.new.log.passed ≡ self.old.log.passed }
    {
        match reply {
            Reply::Granted(job) => self.run_job(alloc, node, job),
            _ => Ok(()),
        }
    }

    // A turn of a node, with the job that it grants, where no line of the script is late.
    fn take_turn(&mut self, alloc: Global, node: u8) -> Result<(), HubFault>
        requires in_time { is_line_late ThisRun.script self.old.log.passed (world_of self.old.log.armed.world).round ≡ false }
        ensures turn { OnOk result (IsNodeTurn ThisRun.rooms node
            (armed_view self.old.log.armed) (armed_view self.new.log.armed)) }
        ensures same { self.new.log.passed ≡ self.old.log.passed }
    {
        let answer = self.turn(alloc, node)?;
        match answer {
            TurnAnswer::Reply(reply) => self.follow(alloc, node, reply),
            TurnAnswer::Widened(_) => Ok(()),
            TurnAnswer::Nothing => Ok(()),
            // The lines that were late were passed before.
            TurnAnswer::Late => unreachable!(),
            // Nobody stops a run by turns.
            TurnAnswer::Stopped => unreachable!(),
        }
    }

    // Why the run is over, or that it isn't (`Stopped`).
    fn end(&mut self, channels: &[Channel], bounds: Bounds) -> RunEnd
        requires few { length channels.now ≤ MAX_CHANNELS }
        ensures over { IsOver channels.now bounds (world_of self.old.log.armed.world) result }
        ensures exact { goes_on result ≡ not (is_over channels.now bounds (world_of self.old.log.armed.world)) }
        ensures same { (armed_view self.new.log.armed ≡ armed_view self.old.log.armed)
            × (self.new.log.passed ≡ self.old.log.passed) }
    {
        let complete = self.log.is_complete();
        end_by(channels, self.log.world(), bounds, complete)
    }

    // The world, and the history that leads to it, if one was kept.
    fn close(self) -> (World<C, O>, History)
        ensures world { result.0 ≡ self.log.armed.world }
        ensures run { HasRun ThisRun.rooms ThisRun.script ThisRun.opening (world_of result.0) }
        ensures leads { ThisRun.keeps ≡ true → LeadsTo ThisRun.rooms ThisRun.script ThisRun.opening
            (happenings result.1.lines.items) (world_of result.0) }
        ensures begun { ThisRun.keeps ≡ true
            → BeginsByDriver (first_lines ThisRun.script) (happenings result.1.lines.items) }
    {
        let Table { log, mut count, .. } = self;
        log.close(&mut count)
    }
}

// The node whose turn comes behind one of this node: the nodes, so many, take their turns one after another.
fn node_after(nodes: usize, node: u8) -> u8
    requires { nodes ≤ MAX_NODES }
    ensures { (turn : ℕ) → node ≡ turn_node nodes turn → result ≡ turn_node nodes (turn + 1) }
{
    let next = usize::from(node) + 1;
    if next < nodes { next as u8 } else { 0 }
}

// Lets somebody look at the run before a turn of node 0.
fn look_before<C: SlotCell, O: Outlet, W: TurnWatch>(watch: &mut W, world: &World<C, O>, node: u8) {
    if node == 0 {
        watch.look(world);
    }
}

// The most turns of a run, so many that nobody waits for them.
const MAX_TURNS: u64 = u64::MAX;

// Takes turns of the nodes, so many, one after another, with a line of the script before each of node 0's, and those that are late before any,
// until the run is over.
fn take_turns<C: SlotCell, O: Outlet, ThisRun: Run, W: TurnWatch>(
    alloc: Global,
    table: &mut Table<C, O, ThisRun>,
    channels: &[Channel],
    watch: &mut W,
    bounds: Bounds,
    nodes: usize,
) -> Result<RunEnd, HubFault>
    requires few { length channels.now ≤ MAX_CHANNELS }
    requires nodes { nodes ≤ MAX_NODES }
    ensures over { IfOk result (IsOver channels.now bounds (world_of table.new.log.armed.world)) }
    ensures ended { IfOk result (λ end. goes_on end ≡ false) }
    ensures came { OnOk result (TakesTurns (is_over channels.now bounds) nodes ThisRun.rooms ThisRun.script
        (progress (armed_view table.old.log.armed) table.old.log.passed) (armed_view table.new.log.armed)) }
{
    let mut node: u8 = 0;
    table.pass_lines_before(alloc, node)?;
    for _turn in 0..MAX_TURNS {
        look_before(watch, table.log.world(), node);
        let end = table.end(channels, bounds);
        if !end.goes_on() {
            return Ok(end);
        }
        table.take_turn(alloc, node)?;
        node = node_after(nodes, node);
        table.pass_lines_before(alloc, node)?;
    }
    Err(HubFault::PastNumber)
}

// Takes turns until the run is over, or a call is refused.
fn run_out<C: SlotCell, O: Outlet, ThisRun: Run, W: TurnWatch>(
    alloc: Global,
    table: &mut Table<C, O, ThisRun>,
    channels: &[Channel],
    watch: &mut W,
    bounds: Bounds,
    nodes: usize,
) -> RunEnd
    requires few { length channels.now ≤ MAX_CHANNELS }
    requires nodes { nodes ≤ MAX_NODES }
    ensures over { IsOver channels.now bounds (world_of table.new.log.armed.world) result }
    ensures taken { AreTaken (is_over channels.now bounds) nodes ThisRun.rooms ThisRun.script
        (progress (armed_view table.old.log.armed) table.old.log.passed) (armed_view table.new.log.armed) result }
{
    match take_turns(alloc, table, channels, watch, bounds, nodes) {
        Ok(end) => end,
        Err(fault) => RunEnd::Refused(fault),
    }
}

// The run of this log's name.
fn play_by_turns<C: SlotCell, O: Outlet, ThisRun: Run, W: TurnWatch>(
    alloc: Global,
    channels: &[Channel],
    world: World<C, O>,
    script: Vec<ScriptedEvent>,
    ledgers: UnusedLedgers,
    watch: &mut W,
    bounds: Bounds,
    nodes: usize,
    keeps: bool,
) -> Ended<C, O>
    requires few { length channels.now ≤ MAX_CHANNELS }
    requires nodes { nodes ≤ MAX_NODES }
    requires opening { world_of world ≡ ThisRun.opening }
    requires rooms { rooms_in world ≡ ThisRun.rooms }
    requires script { script.items ≡ ThisRun.script }
    requires names { names_of ledgers ≡ ThisRun.names }
    requires parts { HaveParts ledgers ThisRun.seats }
    requires seats { ThisRun.seats ≡ 1 }
    requires keeps { keeps ≡ ThisRun.keeps }
    ensures run { HasRun ThisRun.rooms ThisRun.script ThisRun.opening (world_of result.world) }
    ensures leads { ThisRun.keeps ≡ true → LeadsTo ThisRun.rooms ThisRun.script ThisRun.opening
        (happenings result.history.lines.items) (world_of result.world) }
    ensures over { IsOver channels.now bounds (world_of result.world) result.end }
    ensures begun { ThisRun.keeps ≡ true
        → HasBegun ThisRun.script (happenings result.history.lines.items) result.end }
    ensures turns { EndsByTurns (is_over channels.now bounds) nodes ThisRun.rooms ThisRun.script ThisRun.opening
        (world_of result.world) result.end }
{
    let Ok(deliveries) = no_deliveries(alloc, world.nodes()) else {
        watch.over();
        return Ended::unbegun(alloc, world, HubFault::NoMemory);
    };
    let lines = first_lines(&script);
    let armed = ArmedWorld::over(alloc, world, deliveries);
    let (totals, all) = ledgers.open::<ThisRun>();
    let mut log = RunLog::new(alloc, armed, script, totals, keeps);
    let mut count = all;
    let mut made = 0;
    let begun = begin(alloc, &mut log, &mut made, &mut count, lines);
    if let Err(fault) = begun {
        watch.over();
        let (world, history) = log.close(&mut count);
        return Ended {
            world,
            history,
            end: RunEnd::Refused(fault),
        };
    }
    let mut table = Table { log, count };
    let end = run_out(alloc, &mut table, channels, watch, bounds, nodes);
    watch.over();
    let (world, history) = table.close();
    Ended {
        world,
        history,
        end,
    }
}

/// Runs a world by turns, on the thread that calls: the nodes take theirs one after another, a job that is granted is run and comes back
/// at once, and before each turn of node 0 comes a line of the script, if one is due, and before any turn those that are late. `watch` looks at it meanwhile (`&mut NoWatch` where
/// nobody does). The world comes back in each case, with the history that leads to it, if one is kept, and why the run ended. The run is
/// refused for want of memory (1), and where a count would pass 2^63 - 1 (44).
pub fn run_world_by_turns<C: SlotCell, O: Outlet, W: TurnWatch>(
    alloc: Global,
    world: World<C, O>,
    script: Vec<ScriptedEvent>,
    watch: &mut W,
    bounds: Bounds,
    keeps_history: bool,
) -> Ended<C, O>
    // Kept or not, a history leads there.
    ensures run { HasRun (rooms_in world) script.items (world_of world) (world_of result.world) }
    ensures leads { keeps_history ≡ true → LeadsTo (rooms_in world) script.items (world_of world)
        (happenings result.history.lines.items) (world_of result.world) }
    ensures over { IsOver (network_of (net_in world).value.program).channels bounds (world_of result.world)
        result.end }
    // Where the run came to its end, the events of the script's lines of round 0 come before all others.
    ensures begun { keeps_history ≡ true
        → HasBegun script.items (happenings result.history.lines.items) result.end }
    // The run that was made, turn by turn, the same whether a history is kept or not; and that it went on until it was over.
    ensures turns { EndsByTurns (is_over (network_of (net_in world).value.program).channels bounds) (nodes_in world)
        (rooms_in world) script.items (world_of world) (world_of result.world) result.end }
{
    let Ok(net) = Arc::try_clone(world.net()) else {
        watch.over();
        return Ended::unbegun(alloc, world, HubFault::NoMemory);
    };
    let nodes = world.nodes();
    let channels = net.program.channels.as_slice();
    play_by_turns::<C, O, Brand, W>(
        alloc,
        channels,
        world,
        script,
        UnusedLedgers::new(1),
        watch,
        bounds,
        nodes,
        keeps_history,
    )
}
