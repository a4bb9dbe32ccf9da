// Whether the names in a packet are right.
ghost use Rattle.std.specs.Prelude.{◌≡◌};
ghost use Rattle.std.specs.List.{list_all};
ghost use Rattle.kahn_net.specs.Nodes.{node_count};
ghost use Rattle.kahn_net.specs.Syntax.{network_of};
ghost use Rattle.protocol.specs.Node.Addresses.{are_nodes, names_right, names_run, runs_between};
ghost use Rattle.protocol.specs.Node.Layout.{is_incoming};

use crate::nodes::{is_here, is_incoming, is_outgoing, node_count};
use datagram::{Body, Need, Packet};
use net_check::Net;

// Whether a channel runs from a process of one node to a process of another.
fn runs_between(net: &Net, from: u8, to: u8, channel: u16) -> bool
    ensures { result ≡ runs_between (network_of net.now.program) from to channel }
{
    if from == to {
        return false;
    }
    match net.program.channels.get(usize::from(channel)) {
        Some(ends) => is_here(net, from, ends.producer) && is_here(net, to, ends.consumer),
        None => false,
    }
}

// Whether each channel of which items are needed comes to the node.
fn are_incoming(net: &Net, home: u8, needs: &[Need]) -> bool
    ensures { result ≡ list_all (λ (need : Need). is_incoming (network_of net.now.program) home need.channel) needs.now }
{
    for need in needs {
        if !is_incoming(net, home, usize::from(need.channel)) {
            return false;
        }
    }
    true
}

// Whether these are two nodes of the network.
fn are_nodes(net: &Net, from: u8, to: u8) -> bool
    ensures { result ≡ are_nodes (network_of net.now.program) from to }
{
    if from == to {
        return false;
    }
    let nodes = node_count(net);
    usize::from(from) < nodes && usize::from(to) < nodes
}

// Whether the channels and nodes that are named run as a packet claims.
fn names_run(net: &Net, from: u8, to: u8, body: &Body) -> bool
    ensures { result ≡ names_run (network_of net.now.program) from to body.now }
{
    match body {
        Body::Data { channel, .. } => runs_between(net, from, to, *channel),
        Body::Ack { channel, .. } => runs_between(net, to, from, *channel),
        Body::Kept { channel, .. } => runs_between(net, to, from, *channel),
        Body::Ask { channel, .. } => are_nodes(net, from, to)
            && is_outgoing(net, to, usize::from(*channel)),
        Body::Took { channel, needs, .. } => {
            are_nodes(net, from, to)
                && is_outgoing(net, from, usize::from(*channel))
                && are_incoming(net, from, needs.as_slice())
        }
        Body::Covered { channel, .. } => {
            are_nodes(net, from, to) && is_outgoing(net, from, usize::from(*channel))
        }
        Body::Refused { channel, .. } => {
            are_nodes(net, from, to) && is_outgoing(net, from, usize::from(*channel))
        }
        Body::Query { .. } => are_nodes(net, from, to),
        Body::Commit { .. } => are_nodes(net, from, to),
        Body::Ended { .. } => are_nodes(net, from, to),
        Body::Settled { .. } => are_nodes(net, from, to),
        Body::Undone { channel, .. } => runs_between(net, from, to, *channel),
    }
}

/// Whether a packet names two nodes of the network, and channels that run as it claims.
pub fn names_right(net: &Net, packet: &Packet) -> bool
    ensures { result ≡ names_right (network_of net.now.program) packet.now }
{
    names_run(net, packet.from, packet.to, &packet.body)
}
