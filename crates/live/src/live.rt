//! A network at work.
ghost use Rattle.std.specs.Prelude.{◌≡◌, ◌+◌, ◌≤◌, if◌then◌else◌, true, false, is_some, length, max, IfErr, IfOk, None, OnErr, OnOk, option_map, slice_get, slice_set};
ghost use Rattle.arrived.specs.ArrivedView.{base_of};
ghost use Rattle.growing.specs.LaterInputs.{fed, with_inputs};
ghost use Rattle.growing.specs.WhateverComes.{HasGoneOn};
ghost use Rattle.protocol.specs.Node.Common.{MAX_NODES, network_of};
ghost use Rattle.protocol.specs.World.Common.{released_of};
ghost use Rattle.protocol.specs.World.Still.{kept_for_good};
ghost use Rattle.station.specs.ReplyView.{answer_view};
ghost use Rattle.world.specs.Applied.{IsApplied};
ghost use Rattle.protocol.specs.World.Quiet.{are_quiet, AreWhole};
ghost use Rattle.world.specs.Events.{event_view, reply_view, shared_view};
ghost use Rattle.world.specs.Feeding.{feed_refusal, is_input, told_by};
ghost use Rattle.world.specs.declared.feeding.FeedFault.TheVariants.{NoInput};
ghost use Rattle.world.specs.WholeView.{closed_in, rooms_in, world_of};
ghost use Rattle.live.specs.LiveViews.{bases_on, closed_on, inputs_on, live_view, net_on, nodes_on, none_taken, rooms_on, stations_on, taken_of, world_on};
ghost use Rattle.live.specs.Steps.{granted_job, next_node, ArePart, IsAdvance, IsLiveStep, IsTurn};
ghost use Rattle.live.specs.declared.live.Pause.TheVariants.{Rests};

use kahn_net::MAX_CHANNELS;
use outlet::Outlet;
use proc_step::{Done, Job};
use replay::NextTurn;
use run_log::{is_complete, next_turn};
use slot_cell::SlotCell;
use std::alloc::{AllocError, Global};
use std::sync::Arc;
use world::{Event, FeedFault, Refused, Reply, World};

/// Why a network doesn't go on.
#[derive(Clone, Copy, Debug, PartialEq, Eq)]
pub enum Pause {
    /// Nothing is left to do on the inputs so far. Where each input is closed, it is over.
    Rests,
    /// As many steps were made as were asked for, and something is left to do.
    GoesOn,
}

/// A network at work: a world, and whose turn is next.
#[derive(Drop)]
pub struct Live<C: SlotCell, O: Outlet> {
    world: World<C, O>,
    // The node whose turn is next.
    node: u8,
    // The job that is out. It is run next.
    out: Option<Arc<Job>>,
    // A node at which something was left to do when that was asked last.
    busy: u8,
    // How many items of each output were taken, by the channel's number.
    taken: [usize; MAX_CHANNELS],
}

// The node whose turn comes behind that of this one: the nodes, so many, take their turns one after another.
fn next_node(nodes: usize, node: u8) -> u8
    requires { nodes ≤ MAX_NODES }
    ensures { result ≡ next_node nodes node }
{
    let next = usize::from(node) + 1;
    if next < nodes { next as u8 } else { 0 }
}

// What comes of a job. It isn't lost where memory is missing.
fn run(alloc: Global, job: &Arc<Job>) -> Result<Done, AllocError>
    ensures { IfOk result (λ done. shared_view done.job ≡ shared_view job.now) }
{
    let share = Arc::try_clone(job)?;
    match Job::run(share, alloc) {
        Ok(done) => Ok(done),
        Err(_) => Err(AllocError),
    }
}

// The job that an answer grants, if it grants one.
fn granted_job(reply: Reply) -> Option<Arc<Job>>
    ensures { option_map shared_view result ≡ granted_job (reply_view reply) }
{
    match reply {
        Reply::Granted(job) => Some(job),
        _ => None,
    }
}

// A node's turn: the event that is next for it; more room for a channel, where a process of the node is held that needs it; or nothing, where
// all that it could do is to let its turn pass, and it has done so in this round. The job that it grants, if it grants one.
fn turn<C: SlotCell, O: Outlet>(
    alloc: Global,
    world: &mut World<C, O>,
    node: u8,
) -> Result<Option<Arc<Job>>, AllocError>
    ensures turned { IfOk result (λ job. IsTurn (rooms_in world.old) node (world_of world.old)
        (option_map shared_view job) (world_of world.new)) }
    ensures refused { OnErr result (world_of world.new ≡ world_of world.old) }
    ensures same { (rooms_in world.new ≡ rooms_in world.old) × (closed_in world.new ≡ closed_in world.old) }
{
    if let Some(reply) = world.step(alloc, node)? {
        return Ok(granted_job(reply));
    }
    let event = world.pick(node);
    match next_turn(world, &event, node) {
        NextTurn::Rest => Ok(None),
        NextTurn::Widen(channel) => {
            world.widen_at(channel);
            Ok(None)
        }
        NextTurn::Make => {
            let reply = world.make(alloc, &event)?;
            Ok(granted_job(reply))
        }
    }
}

impl<C: SlotCell, O: Outlet> Live<C, O> {
    /// A network at work, which goes on from this world. Its inputs may have items already.
    pub fn new(world: World<C, O>) -> Live<C, O>
        ensures world { result.world ≡ world }
        ensures first { result.node ≡ 0 }
        ensures none_out { result.out ≡ None }
        ensures untaken { result.taken ≡ none_taken }
    {
        Live {
            world,
            node: 0,
            out: None,
            busy: 0,
            taken: [0; MAX_CHANNELS],
        }
    }

    /// More has come on an input, as `World::feed` takes it. It may be called at any time, also while a job is out. What a checkpoint that stands
    /// has got of this input takes no memory any more.
    pub fn feed(&mut self, alloc: Global, input: u8, items: &[i64]) -> Result<(), FeedFault>
        // The items stand behind those that had come, and nothing else is changed.
        ensures fed { OnOk result (world_on self.new
            ≡ with_inputs (fed input items.now (world_on self.old).inputs) (world_on self.old)) }
        ensures unchanged { OnErr result (world_on self.new ≡ world_on self.old) }
        ensures accepted { OnOk result (feed_refusal (network_of (net_on self.old).value.program) (closed_on self.old)
            (inputs_on self.old) input (length items.now) ≡ None) }
        ensures refused { IfErr result (λ fault. feed_refusal (network_of (net_on self.old).value.program)
            (closed_on self.old) (inputs_on self.old) input (length items.now) ≡ told_by fault) }
        // What the node that gets them keeps for good is let go of.
        ensures gone { OnOk result (bases_on self.new ≡ slice_set (bases_on self.old) input
            (max (base_of (bases_on self.old) input)
            (kept_for_good (network_of (net_on self.old).value.program) (world_on self.old).stations input))) }
        // What has left is right on the inputs that there are now, and begins with what had left.
        ensures gone_on { HasGoneOn (world_on self.old) (world_on self.new) }
        ensures same { (self.new.node ≡ self.old.node) × (self.new.out ≡ self.old.out)
            × (self.new.taken ≡ self.old.taken) × (closed_on self.new ≡ closed_on self.old)
            × (stations_on self.new ≡ stations_on self.old) }
    {
        self.world.feed(alloc, input, items)?;
        self.world.let_go(input);
        Ok(())
    }

    /// Nothing comes on an input any more, as `World::close_input` has it. Refuses a channel that is no input (11).
    pub fn close_input(&mut self, input: u8) -> Result<(), FeedFault>
        ensures closed { OnOk result (closed_on self.new ≡ slice_set (closed_on self.old) input true) }
        ensures unchanged { OnErr result (closed_on self.new ≡ closed_on self.old) }
        ensures here { OnOk result (is_input (network_of (net_on self.old).value.program) input ≡ true) }
        ensures refused { IfErr result (λ fault. (fault ≡ NoInput)
            × (is_input (network_of (net_on self.old).value.program) input ≡ false)) }
        ensures same { (world_on self.new ≡ world_on self.old) × (stations_on self.new ≡ stations_on self.old)
            × (self.new.node ≡ self.old.node) × (self.new.out ≡ self.old.out)
            × (self.new.taken ≡ self.old.taken) }
    {
        self.world.close_input(input)
    }

    // One step: the job that is out is run, and comes back; where none is, the next node takes its turn.
    fn step(&mut self, alloc: Global, nodes: usize) -> Result<(), AllocError>
        requires few { nodes ≤ MAX_NODES }
        ensures stepped { OnOk result (IsLiveStep (rooms_on self.old) nodes (live_view self.old) (live_view self.new)) }
        ensures refused { OnErr result (live_view self.new ≡ live_view self.old) }
        ensures same { (rooms_on self.new ≡ rooms_on self.old) × (closed_on self.new ≡ closed_on self.old)
            × (self.new.taken ≡ self.old.taken) }
    {
        let Live {
            world,
            node,
            out,
            ..
        } = self;
        match out {
            Some(job) => {
                let done = run(alloc, job)?;
                match world.apply(alloc, Event::Install(done)) {
                    Ok(_) => {
                        *out = None;
                        Ok(())
                    }
                    Err(_) => Err(AllocError),
                }
            }
            None => {
                *out = turn(alloc, world, *node)?;
                *node = next_node(nodes, *node);
                Ok(())
            }
        }
    }

    // Whether nothing is left to do.
    fn rests(&mut self) -> bool
        ensures quiet { result ≡ are_quiet (world_on self.old) }
        ensures same { (live_view self.new ≡ live_view self.old) × (self.new.world ≡ self.old.world)
            × (self.new.taken ≡ self.old.taken) }
    {
        let Live { world, busy, .. } = self;
        is_complete(world, busy)
    }

    /// Goes on until nothing is left to do on the inputs so far, or so many steps are made. A step is the turn of a node, or that a
    /// job is run and comes back. The nodes take their turns one after another, and the next call goes on with the node at which
    /// this one ended.
    ///
    /// Refuses for want of memory alone. The steps that were made by then stand, and the next call goes on from there: a job that is
    /// out isn't lost.
    pub fn advance(&mut self, alloc: Global, most: u64) -> Result<Pause, AllocError>
        ensures advanced { IfOk result (λ pause. IsAdvance (rooms_on self.old) (nodes_on self.old) most
            (live_view self.old) pause (live_view self.new)) }
        ensures refused { OnErr result (ArePart (rooms_on self.old) (nodes_on self.old) most (live_view self.old)
            (live_view self.new)) }
        // What has left is right on the inputs so far, all streams in one approximation, and begins with what had left.
        ensures gone_on { HasGoneOn (world_on self.old) (world_on self.new) }
        // Where nothing is left to do, each output is its channel's whole stream in the least solution on the inputs so far.
        ensures whole { IfOk result (λ pause. pause ≡ Rests → AreWhole (world_on self.new)) }
        // Nothing comes on an input meanwhile, and none is closed.
        ensures inputs { (world_on self.new).inputs ≡ (world_on self.old).inputs }
        ensures same { (closed_on self.new ≡ closed_on self.old) × (self.new.taken ≡ self.old.taken) }
    {
        let nodes = self.world.nodes();
        for _step in 0..most {
            if self.rests() {
                return Ok(Pause::Rests);
            }
            self.step(alloc, nodes)?;
        }
        if self.rests() {
            Ok(Pause::Rests)
        } else {
            Ok(Pause::GoesOn)
        }
    }

    /// The next item that left by an output, in order, if one has left that wasn't taken yet. None leaves by what is no output.
    pub fn next(&mut self, output: u8) -> Option<i64>
        ensures item { result ≡ slice_get (released_of output (world_on self.old).stations) (taken_of self.old output) }
        ensures taken { self.new.taken ≡ slice_set self.old.taken output
            (taken_of self.old output + (if is_some result then 1 else 0)) }
        ensures counted { taken_of self.new output ≡ taken_of self.old output + (if is_some result then 1 else 0) }
        ensures same { (self.new.world ≡ self.old.world) × (self.new.node ≡ self.old.node) × (self.new.out ≡ self.old.out) }
    {
        let number = usize::from(output);
        let place = self.taken[number];
        let item = self.world.released(output).get(place).copied();
        if item.is_some() {
            self.taken[number] = place + 1;
        }
        item
    }

    /// One event, as by `World::apply`: a crash of a node, or one of the network.
    pub fn apply(&mut self, alloc: Global, event: Event) -> Result<Reply, Refused>
        // All that `World::apply` promises of an event: each of its clauses is a field of this.
        ensures applied { IsApplied (event_view event) self.old.world self.new.world (answer_view result) }
        ensures handed_back { IfErr result (λ refused. refused.event ≡ event) }
        ensures gone_on { HasGoneOn (world_on self.old) (world_on self.new) }
        ensures same { (self.new.node ≡ self.old.node) × (self.new.out ≡ self.old.out)
            × (self.new.taken ≡ self.old.taken) }
    {
        match self.world.make(alloc, &event) {
            Ok(reply) => Ok(reply),
            Err(_) => Err(Refused { event }),
        }
    }

    /// Its world, as it stands.
    pub fn world(&self) -> &World<C, O>
        ensures { result.now ≡ self.now.world }
    {
        &self.world
    }

    /// Its world, which may be closed. A job that is out is left behind.
    pub fn into_world(self) -> World<C, O>
        ensures { result ≡ self.world }
    {
        let Live {
            world,
            node: _,
            out: _,
            busy: _,
            taken: _,
        } = self;
        world
    }
}
