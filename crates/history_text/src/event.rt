// An event, in the words of failure scripts where these have any.
ghost use Rattle.std.specs.Prelude.{◌≡◌, Some};
ghost use Rattle.history_text.specs.Events.{act_text, crash_text, deed_text, event_text, plain_text, rule_text, run_text, words_text};
ghost use Rattle.node_memory.specs.JobView.{job_view};
ghost use Rattle.replay.specs.Replay.{OfJob};
ghost use Rattle.run_log.specs.Lines.{kept_view};

use proc_step::Job;
use protocol::{Deed, NetworkAct, PlainEvent};
use replay::{ArmedCrash, RunEvent};
use run_log::KeptEvent;
use std::fmt;
use wire::{Change, Rule};

// What a node does, or what is done to it.
#[derive(Clone, Copy)]
struct DeedWords {
    node: u8,
    deed: Deed,
}

impl fmt::Display for DeedWords {
    ghost output = { λ words. Some (deed_text words.node words.deed) };

    fn fmt<W: fmt::Write>(&self, f: &mut fmt::Formatter<W>) -> fmt::Result {
        let node = self.node;
        match self.deed {
            Deed::Deliver { place } => write!(f, "deliver {node} at {place}"),
            Deed::Grant => write!(f, "grant {node}"),
            Deed::Send => write!(f, "send {node}"),
            Deed::Start => write!(f, "start {node}"),
            Deed::Decide => write!(f, "decide {node}"),
            Deed::Crash { fill, rounds } => write!(f, "crash {node} now {fill} {rounds}"),
            Deed::Recover => write!(f, "recover {node}"),
            Deed::Arm { fault, rounds } => {
                let call = fault.call;
                let fill = fault.fill;
                write!(f, "crash {node} device {call} {fill} {rounds}")
            }
            Deed::Idle => write!(f, "idle {node}"),
        }
    }
}

// What is to become of a packet that is still to be sent.
#[derive(Clone, Copy)]
struct RuleWords {
    rule: Rule,
}

impl fmt::Display for RuleWords {
    ghost output = { λ words. Some (rule_text words.rule) };

    fn fmt<W: fmt::Write>(&self, f: &mut fmt::Formatter<W>) -> fmt::Result {
        let from = self.rule.from;
        let to = self.rule.to;
        let nth = self.rule.nth;
        match self.rule.change {
            Change::Lose => write!(f, "lose {from} {to} {nth}"),
            Change::Repeat => write!(f, "repeat {from} {to} {nth}"),
            Change::Delay(rounds) => write!(f, "delay {from} {to} {nth} {rounds}"),
        }
    }
}

// What the network does to the packet at a place of those in flight to a node, or is to do to one that is still to be sent.
#[derive(Clone, Copy)]
struct ActWords {
    node: u8,
    place: usize,
    act: NetworkAct,
}

impl fmt::Display for ActWords {
    ghost output = { λ words. Some (act_text words.node words.place words.act) };

    fn fmt<W: fmt::Write>(&self, f: &mut fmt::Formatter<W>) -> fmt::Result {
        let node = self.node;
        let place = self.place;
        match self.act {
            NetworkAct::Lose => write!(f, "lose {node} at {place}"),
            NetworkAct::Repeat => write!(f, "repeat {node} at {place}"),
            NetworkAct::Delay { rounds } => write!(f, "delay {node} at {place} {rounds}"),
            NetworkAct::ArmPacket { from, nth, change } => {
                let rule = RuleWords {
                    rule: Rule {
                        from,
                        to: node,
                        nth,
                        change,
                    },
                };
                write!(f, "{rule}")
            }
        }
    }
}

// An event that carries no turn.
#[derive(Clone, Copy)]
struct PlainWords {
    event: PlainEvent,
}

impl fmt::Display for PlainWords {
    ghost output = { λ words. Some (plain_text words.event) };

    fn fmt<W: fmt::Write>(&self, f: &mut fmt::Formatter<W>) -> fmt::Result {
        match self.event {
            PlainEvent::ByNode { node, deed } => {
                let deed = DeedWords { node, deed };
                write!(f, "{deed}")
            }
            PlainEvent::Release(node) => write!(f, "release {node}"),
            PlainEvent::ByNetwork { node, place, act } => {
                let act = ActWords { node, place, act };
                write!(f, "{act}")
            }
        }
    }
}

// That a node is to crash at the end of a delivery.
#[derive(Clone, Copy)]
struct CrashWords {
    crash: ArmedCrash,
}

impl fmt::Display for CrashWords {
    ghost output = { λ words. Some (crash_text words.crash) };

    fn fmt<W: fmt::Write>(&self, f: &mut fmt::Formatter<W>) -> fmt::Result {
        let node = self.crash.node;
        let delivery = self.crash.delivery;
        let fill = self.crash.fill;
        let rounds = self.crash.rounds;
        write!(f, "crash {node} delivery {delivery} {fill} {rounds}")
    }
}

// An event of a run, other than that a turn comes back.
#[derive(Clone, Copy)]
struct RunWords {
    event: RunEvent,
}

impl fmt::Display for RunWords {
    ghost output = { λ words. Some (run_text words.event) };

    fn fmt<W: fmt::Write>(&self, f: &mut fmt::Formatter<W>) -> fmt::Result {
        match self.event {
            RunEvent::World(event) => {
                let event = PlainWords { event };
                write!(f, "{event}")
            }
            RunEvent::ArmCrash(crash) => {
                let crash = CrashWords { crash };
                write!(f, "{crash}")
            }
        }
    }
}

/// What a line tells of an event.
#[derive(Clone, Copy)]
pub enum EventWords {
    /// All of one that carries no turn.
    Plain(RunEvent),
    /// Of a turn that came back the node and the process.
    Install { node: u8, process: usize },
}

impl EventWords {
    /// What a line tells of an event that was kept.
    pub fn of(event: &KeptEvent) -> EventWords
        ensures { words_text result ≡ event_text (kept_view event.now) }
    {
        match event {
            KeptEvent::Plain(event) => EventWords::Plain(*event),
            KeptEvent::Install(job) => EventWords::of_job(job),
        }
    }

    /// That a turn on this job came back.
    pub fn of_job(job: &Job) -> EventWords
        ensures { words_text result ≡ event_text (OfJob (job_view job.now)) }
    {
        EventWords::Install {
            node: job.node(),
            process: job.process,
        }
    }
}

impl fmt::Display for EventWords {
    ghost output = { λ words. Some (words_text words) };

    fn fmt<W: fmt::Write>(&self, f: &mut fmt::Formatter<W>) -> fmt::Result {
        match self {
            EventWords::Plain(event) => {
                let event = RunWords { event: *event };
                write!(f, "{event}")
            }
            EventWords::Install { node, process } => write!(f, "install {node} {process}"),
        }
    }
}
