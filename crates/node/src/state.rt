//! What a node has beside its record.
ghost use Rattle.std.specs.Prelude.{◌≡◌, ℕ, true, OnErr, OnOk, option_copied};
ghost use Rattle.protocol.specs.Node.Common.{RecordView, restart_after, hearing, live_in, may_start, on_running};
ghost use Rattle.protocol.specs.Node.Common.{crashed, is_down, is_running, next_number, cut_at, IsPacket, Network};
ghost use Rattle.protocol.specs.Node.Common.{becoming, hear_prospect};
ghost use Rattle.node.specs.Heard.{is_of_channel};
ghost use Rattle.node.specs.Said.{current_in, inboxes_in};

use crate::mode::Mode;
use crate::restart::{round_later, rounds_at};
use datagram::{Body, Packet};
use decide_core::Initiator;
use kahn_net::MAX_COUNT;
use protocol::{ArmedRestart, Inbox};
use record::{Image, MAX_DECISIONS, Record};
use std::alloc::AllocError;

/// Whether a packet says something of one channel alone: an item, an acknowledgement, or what its receiver keeps for good. No
/// record is put for such a packet, and nothing is said to it.
pub fn is_of_channel(body: &Body) -> bool
    ensures { result ≡ is_of_channel body.now }
{
    match body {
        Body::Data { .. } => true,
        Body::Ack { .. } => true,
        Body::Kept { .. } => true,
        _ => false,
    }
}

/// The next number, round or version. It stops at the greatest.
pub fn next_after(number: u64) -> u64
    ensures { result ≡ next_number number }
{
    if number < MAX_COUNT {
        number + 1
    } else {
        number
    }
}

/// All that a node has beside its record.
pub struct NodeState {
    pub mode: Mode,
    /// Rises with each crash, and where the node goes back, so that a job from before can be told. At the greatest no job is granted.
    pub version: u64,
    /// The round from which a node that is down may be recovered.
    pub restart: u64,
    /// How long each fault that is armed on the node's disk keeps it down, in the order of arming. None is taken out: a call
    /// of the same count comes again only after a recount, and then the disk fails again.
    pub armed: Vec<ArmedRestart>,
}

// Written out, since each crate above would go through a derived one again.
impl Drop for NodeState {
    fn drop(self) {
        let Self {
            mode,
            version,
            restart,
            armed,
        } = self;
    }
}

impl NodeState {
    ghost use Rattle.node.specs.NodeView.{mode_view, node_view};

    /// It is neither down nor in doubt.
    pub fn is_running(&self) -> bool
        ensures { result ≡ is_running (mode_view self.now.mode) }
    {
        matches!(self.mode, Mode::Running(_))
    }

    pub fn is_down(&self) -> bool
        ensures { result ≡ is_down (mode_view self.now.mode) }
    {
        matches!(self.mode, Mode::Down)
    }

    /// Whether a node with this record may take a tentative image of its own.
    pub fn can_start(&self, kept: &Record) -> bool
        ensures { result ≡ may_start (node_view kept.now self.now) }
    {
        self.is_running() && kept.tentative.is_none() && kept.decisions.len() < MAX_DECISIONS
    }

    /// The checkpoint for which answers are collected, if there is one.
    pub fn live(&self) -> Option<&Initiator>
        ensures { option_copied result ≡ live_in (mode_view self.now.mode) }
    {
        match &self.mode {
            Mode::Running(running) => running.live.as_ref(),
            Mode::Down | Mode::InDoubt => None,
        }
    }

    /// Where its processes and channels stand now, if it runs.
    pub fn current(&self) -> Option<&Image>
        ensures { option_copied result ≡ current_in (mode_view self.now.mode) }
    {
        match &self.mode {
            Mode::Running(running) => Some(&running.current),
            Mode::Down | Mode::InDoubt => None,
        }
    }

    /// What came of each channel from another node, if it runs.
    pub fn inboxes(&self) -> Option<&[Inbox]>
        ensures { option_copied result ≡ inboxes_in (mode_view self.now.mode) }
    {
        match &self.mode {
            Mode::Running(running) => Some(running.inboxes.as_slice()),
            Mode::Down | Mode::InDoubt => None,
        }
    }

    // Hears what a packet says of a channel, if it runs.
    pub(crate) fn hear(&mut self, body: &Body) -> Result<(), AllocError>
        ensures ok { (kept : RecordView) → OnOk result (node_view kept self.new
            ≡ on_running (hearing body.now) (node_view kept self.old)) }
        ensures err { (kept : RecordView) → OnErr result
            (node_view kept self.new ≡ node_view kept self.old) }
        ensures mode { is_down (mode_view self.new.mode) ≡ is_down (mode_view self.old.mode) }
    {
        match &mut self.mode {
            Mode::Running(running) => running.hear(body),
            Mode::Down | Mode::InDoubt => Ok(()),
        }
    }

    // The receiver of a channel keeps so many items for good: the log lets go of them, if it runs.
    fn cut(&mut self, channel: u8, count: u64)
        ensures cut { (kept : RecordView) → node_view kept self.new
            ≡ on_running (cut_at channel count) (node_view kept self.old) }
        ensures mode { is_down (mode_view self.new.mode) ≡ is_down (mode_view self.old.mode) }
    {
        if let Mode::Running(running) = &mut self.mode {
            running.cut(channel, count);
        }
    }

    // Hears a packet that says something of one channel alone, if it runs.
    pub(crate) fn hear_of_channel(&mut self, packet: &Packet) -> Result<(), AllocError>
        requires channel { is_of_channel packet.now.body ≡ true }
        requires allowed { IsPacket packet.now }
        ensures ok { (kept : RecordView) (net : Network) (home from : ℕ) → OnOk result
            (hear_prospect net home from packet.now.body (node_view kept self.old)
            ≡ becoming (node_view kept self.new)) }
        ensures err { (kept : RecordView) → OnErr result
            (node_view kept self.new ≡ node_view kept self.old) }
        ensures mode { is_down (mode_view self.new.mode) ≡ is_down (mode_view self.old.mode) }
    {
        match &packet.body {
            Body::Data { .. } => self.hear(&packet.body),
            Body::Ack { .. } => self.hear(&packet.body),
            Body::Kept { channel, count } => {
                self.cut(*channel as u8, *count);
                Ok(())
            }
            _ => Ok(()),
        }
    }

    // The round from which the node may be recovered, whose device failed at this call, in this round.
    pub(crate) fn restart_after(&self, call: u64, round: u64) -> u64
        ensures { result ≡ restart_after self.now.armed.items call round }
    {
        round_later(round, rounds_at(&self.armed, call))
    }

    // Down, or still so, to be recovered from this round on.
    pub(crate) fn stop(&mut self, restart: u64)
        ensures { (kept : RecordView) → node_view kept self.new
            ≡ crashed restart (node_view kept self.old) }
    {
        if !self.is_down() {
            self.version = next_after(self.version);
        }
        self.mode = Mode::Down;
        self.restart = restart;
    }
}
