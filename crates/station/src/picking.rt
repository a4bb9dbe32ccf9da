// Which event is next for a node.
ghost use Rattle.std.specs.Prelude.{◌≡◌, ◌<◌, ◌||◌, ◌&&◌, nat_lt, not, is_some};
ghost use Rattle.protocol.specs.Node.Common.{network_of, received_of, sent_of, node_job, running_of, live_in};
ghost use Rattle.protocol.specs.Node.Common.{may_decide, is_down};
ghost use Rattle.node.specs.NodeOf.{view_of};
ghost use Rattle.node.specs.NodeView.{node_view};
ghost use Rattle.protocol.specs.World.Choice.{counts_rose, has_more, has_sent, has_turn, due_place, may_recover, own_choice, station_choice, wants_checkpoint};
ghost use Rattle.protocol.specs.World.Common.{turns_of, traffic_of, NODES};
ghost use Rattle.station.specs.EventView.{event_view};
ghost use Rattle.station.specs.StationView.{station_view};

use crate::event::Event;
use crate::network::first_due;
use crate::station::Station;
use arrived::Arrived;
use net_check::Net;
use node::{Mode, NodeState, may_decide};
use outlet::Outlet;
use protocol::{Deed, MAX_GRANTS, Rooms};
use record::{Image, Record};
use slot_cell::SlotCell;
use wire::Wire;

// Whether a count of this channel is above what it is in an earlier image.
fn has_risen(now: &Image, before: &Image, channel: u8) -> bool
    ensures { result ≡ (nat_lt (received_of before.now channel) (received_of now.now channel)
        || nat_lt (sent_of before.now channel) (sent_of now.now channel)) }
{
    now.received(channel) > before.received(channel) || now.sent(channel) > before.sent(channel)
}

// Whether some count of an image is above what it is in an earlier one.
pub(crate) fn has_more(now: &Image, before: &Image) -> bool
    ensures { result ≡ counts_rose now.now before.now now.now.ends }
{
    for saved in &now.ends {
        if has_risen(now, before, saved.channel) {
            return true;
        }
    }
    false
}

// Whether it is this node's turn in this round to begin a checkpoint.
fn has_turn(nodes: usize, round: u64, number: u8) -> bool
    ensures { result ≡ has_turn nodes round number }
{
    nodes > 0 && round % (nodes as u64) == u64::from(number)
}

// Whether a node that may begin a checkpoint has something new to keep.
fn has_new(state: &NodeState, kept: &Record) -> bool
    ensures { result ≡ has_more (running_of (node_view kept.now state.now)) }
{
    match &state.mode {
        Mode::Running(running) => has_more(&running.current, &kept.permanent),
        Mode::Down | Mode::InDoubt => false,
    }
}

impl<C: SlotCell, O: Outlet> Station<C, O> {
    // Whether its node is down and may be recovered by now.
    fn may_recover(&self, round: u64) -> bool
        ensures { result ≡ may_recover round (station_view O.taken O.failures self.now) }
    {
        let state = &self.node.state;
        state.is_down() && state.restart <= round
    }

    // Whether a job is next where channels have these rooms: a process is ready, and fewer were granted in this round than
    // may be.
    fn has_grant(&self, net: &Net, inputs: &Arrived, rooms: &Rooms, round: u64) -> bool
        ensures { result ≡ (nat_lt (turns_of round self.now.turns).granted MAX_GRANTS
            && is_some (node_job (network_of net.now.program) inputs.now.came rooms.now
            (view_of self.now.node))) }
    {
        self.turns.of(round).granted < MAX_GRANTS && self.node.has_job(net, inputs, rooms)
    }

    // Whether its node may decide the checkpoint for which it collects answers.
    fn may_decide(&self) -> bool
        ensures { result ≡ may_decide self.now.node.number (view_of self.now.node).kept
            (live_in (view_of self.now.node).mode) }
    {
        let node = &self.node;
        match node.store.record() {
            Ok(kept) => may_decide(node.number, kept, node.state.live()),
            Err(_) => false,
        }
    }

    // Whether its node is the one whose turn it is to begin a checkpoint in this round, and has something new to keep.
    fn wants_checkpoint(&self, nodes: usize, round: u64) -> bool
        ensures { result ≡ wants_checkpoint nodes round
            (station_view O.taken O.failures self.now) }
    {
        let node = &self.node;
        match node.store.record() {
            Ok(kept) => {
                has_turn(nodes, round, node.number)
                    && !self.turns.of(round).started
                    && node.state.can_start(kept)
                    && has_new(&node.state, kept)
            }
            Err(_) => false,
        }
    }

    // Whether its node, which is up, is to send: it hasn't in this round, or held a tentative image when it did, and doesn't now.
    fn may_send(&self, round: u64) -> bool
        ensures { result ≡ (not (is_down (view_of self.now.node).mode)
            && not (has_sent round (station_view O.taken O.failures self.now))) }
    {
        let node = &self.node;
        let turns = self.turns.of(round);
        match node.store.record() {
            Ok(kept) => {
                !node.state.is_down()
                    && !(turns.sent && !(turns.sent_holding && kept.tentative.is_none()))
            }
            Err(_) => false,
        }
    }

    // The place of the first packet that is due to its node, if that is up.
    fn due_place(&self, wire: &Wire, round: u64) -> Option<usize>
        requires { self.now.node.number < NODES }
        ensures { result ≡ due_place (traffic_of wire.now) round
            (station_view O.taken O.failures self.now) }
    {
        let node = &self.node;
        if node.state.is_down() {
            return None;
        }
        first_due(wire, node.number, round)
    }

    // The event that is next for its node, where no packet is due to it.
    fn pick_own(
        &self,
        net: &Net,
        inputs: &Arrived,
        rooms: &Rooms,
        nodes: usize,
        round: u64,
    ) -> Event
        ensures { event_view result ≡ own_choice (network_of net.now.program) inputs.now.came rooms.now
            nodes round (station_view O.taken O.failures self.now) }
    {
        let number = self.node.number;
        if self.next_release(round).is_some() {
            return Event::release(number);
        }
        if self.has_grant(net, inputs, rooms, round) {
            return Event::by_node(number, Deed::Grant);
        }
        if self.may_decide() {
            return Event::by_node(number, Deed::Decide);
        }
        if self.wants_checkpoint(nodes, round) {
            return Event::by_node(number, Deed::Start);
        }
        if self.may_send(round) {
            return Event::by_node(number, Deed::Send);
        }
        Event::by_node(number, Deed::Idle)
    }

    /// The event that is next for its node, of a network with so many. Takes no memory.
    pub fn pick(
        &self,
        net: &Net,
        inputs: &Arrived,
        rooms: &Rooms,
        wire: &Wire,
        nodes: usize,
        round: u64,
    ) -> Event
        requires { self.now.node.number < NODES }
        ensures { event_view result ≡ station_choice (network_of net.now.program) inputs.now.came rooms.now
            (traffic_of wire.now) nodes round (station_view O.taken O.failures self.now) }
    {
        let node = self.node.number;
        if self.may_recover(round) {
            return Event::by_node(node, Deed::Recover);
        }
        match self.due_place(wire, round) {
            Some(place) => Event::by_node(node, Deed::Deliver { place }),
            None => self.pick_own(net, inputs, rooms, nodes, round),
        }
    }
}
