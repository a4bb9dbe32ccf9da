//! Why a run ended, in words.

ghost use Rattle.std.specs.Prelude.{◌≡◌};
ghost use Rattle.world.specs.WholeView.{world_of};
ghost use Rattle.cobaltmidge.specs.Reasons.{IsOfRounds, IsReasonOf, is_stuck};

use crate::ending::RunWorld;
use crate::settings::{DEFAULT_ROUNDS, Settings};
use ckpt_codec::MAX_RETAINED_ITEMS;
use diagnosis::Grouped;
use kahn_net::{Channel, Port};
use net_check::Net;
use outlet::Outlet;
use runtime::RunEnd;
use std::fmt;

/// Why a run ended, with the numbers that belong to it. It reads as `1,000 rounds are over, the default of --rounds`.
#[derive(Clone, Copy, Debug)]
pub enum Reason<'a> {
    /// Nothing is left to do.
    Complete,
    /// So many rounds are over. The bound is the default one, or was asked for.
    Rounds {
        rounds: u64,
        is_default: bool,
    },
    /// So many rounds are over, and a channel has as many items as its share of a record lets it have. The run would go on: the channel's
    /// receiver is slow.
    Full {
        rounds: u64,
        channel: &'a str,
        items: u64,
    },
    /// Nothing is to be done at any node, though the run isn't complete, and this channel has as many items as its share lets it have. More
    /// rounds wouldn't change it.
    StandsStill {
        channel: &'a str,
        items: u64,
    },
    /// Each output has so many items, which is what was asked for.
    Items {
        items: u64,
    },
    /// Somebody stopped it.
    Stopped,
    /// A call was refused.
    Refused,
}

// So many rounds, in words.
#[derive(Clone, Copy)]
struct RoundsOver(u64);

impl fmt::Display for RoundsOver {
    fn fmt<W: fmt::Write>(&self, f: &mut fmt::Formatter<W>) -> fmt::Result {
        let rounds = Grouped(self.0);
        if self.0 == 1 {
            write!(f, "{rounds} round is over")
        } else {
            write!(f, "{rounds} rounds are over")
        }
    }
}

impl<'a> fmt::Display for Reason<'a> {
    fn fmt<W: fmt::Write>(&self, f: &mut fmt::Formatter<W>) -> fmt::Result {
        match *self {
            Reason::Complete => f.write_str("nothing is left to do"),
            Reason::Rounds { rounds, is_default } => {
                let over = RoundsOver(rounds);
                if is_default {
                    write!(f, "{over}, the default of --rounds")
                } else {
                    write!(f, "{over}: --rounds")
                }
            }
            Reason::Full {
                rounds,
                channel,
                items,
            } => {
                let over = RoundsOver(rounds);
                let items = Grouped(items);
                write!(f, "{over}, and channel {channel} is full: {items} items")
            }
            Reason::StandsStill { channel, items } => {
                let items = Grouped(items);
                write!(f, "stands still: channel {channel} is full, {items} items")
            }
            Reason::Items { items } => {
                write!(f, "the items asked for have left: --items {items}")
            }
            Reason::Stopped => f.write_str("stopped"),
            Reason::Refused => f.write_str("a call was refused"),
        }
    }
}

// The number of the node on which a process puts on this channel, if one does.
fn home_of(net: &Net, channel: &Channel) -> Option<u8> {
    match channel.producer {
        Port::Outside => None,
        Port::Process(number) => match net.program.processes.get(number) {
            Some(process) => Some(process.node),
            None => None,
        },
    }
}

// The share of a channel of a node: how many items it may have at most.
fn share_of(net: &Net, node: u8) -> usize {
    let mut channels: usize = 0;
    for channel in &net.program.channels {
        if home_of(net, channel) == Some(node) {
            channels = channels.wrapping_add(1);
        }
    }
    MAX_RETAINED_ITEMS.checked_div(channels).unwrap_or(0)
}

// How many items of a channel its sender has, where it runs.
fn retained<O: Outlet>(world: &RunWorld<O>, node: u8, channel: u8) -> Option<usize> {
    let station = world.station(node)?;
    let node = &station.node;
    let image = node.state.current()?;
    let log = image.log(channel)?;
    Some(log.len())
}

// Whether the channel of this number has as many items as its share, and how many these are.
fn full_with<O: Outlet>(
    net: &Net,
    world: &RunWorld<O>,
    number: usize,
    channel: &Channel,
) -> Option<u64> {
    let node = home_of(net, channel)?;
    let items = retained(world, node, u8::try_from(number).ok()?)?;
    if items >= share_of(net, node) {
        Some(items as u64)
    } else {
        None
    }
}

// The first channel that is full, by its name, with its items.
fn full_channel<'a, O: Outlet>(net: &'a Net, world: &RunWorld<O>) -> Option<(&'a str, u64)> {
    let names = net.channel_names.iter();
    for (number, (name, channel)) in names.zip(net.program.channels.iter()).enumerate() {
        if let Some(items) = full_with(net, world, number, channel) {
            return Some((name.as_str(), items));
        }
    }
    None
}

// Whether nothing is to be done any more in a world that isn't complete.
fn is_stuck<O: Outlet>(world: &RunWorld<O>) -> bool
    ensures { result ≡ is_stuck (world_of world.now) }
{
    world.is_still() && !world.complete()
}

// Why a run ended of which the rounds are over.
fn rounds_over<'a, O: Outlet>(net: &'a Net, world: &RunWorld<O>, rounds: u64) -> Reason<'a>
    ensures { IsOfRounds (world_of world.now) rounds result }
{
    match full_channel(net, world) {
        Some((channel, items)) => if is_stuck(world) {
            Reason::StandsStill { channel, items }
        } else {
            Reason::Full {
                rounds,
                channel,
                items,
            }
        },
        None => Reason::Rounds {
            rounds,
            is_default: rounds == DEFAULT_ROUNDS,
        },
    }
}

/// Why a run of this network ended that went as the settings say: of the end that was told with its world.
pub fn reason_of<'a, O: Outlet>(
    net: &'a Net,
    world: &RunWorld<O>,
    end: RunEnd,
    settings: Settings,
) -> Reason<'a>
    // It is the reason of just this end and world, with the settings' numbers.
    ensures { IsReasonOf (world_of world.now) end settings result }
{
    match end {
        RunEnd::Complete => Reason::Complete,
        RunEnd::Rounds => rounds_over(net, world, settings.rounds),
        RunEnd::Items => Reason::Items {
            items: settings.items.unwrap_or(0),
        },
        RunEnd::Stopped => Reason::Stopped,
        RunEnd::Refused(_) => Reason::Refused,
    }
}
