//! How many nodes a network has, and which channels of it have an end on one of them.
ghost use Rattle.std.specs.Prelude.{◌≡◌, ◌≤◌};
ghost use Rattle.kahn_net.specs.Nodes.{node_count};
ghost use Rattle.kahn_net.specs.Syntax.{network_of};
ghost use Rattle.protocol.specs.Node.Layout.{is_incoming, is_outgoing, port_away, port_on};
ghost use Rattle.kahn_net.specs.declared.limits.TheConstants.{MAX_NODES};

use kahn_net::Port;
use net_check::Net;

/// The number of a network's nodes: the greatest node number plus 1, at least 1.
pub fn node_count(net: &Net) -> usize
    ensures count { result ≡ node_count (network_of net.now.program) }
    ensures few { result ≤ MAX_NODES }
{
    let mut count = 1;
    for process in &net.program.processes {
        if usize::from(process.node) >= count {
            count = usize::from(process.node) + 1;
        }
    }
    count
}

/// Whether there is a process of the node at this end of a channel.
pub fn is_here(net: &Net, home: u8, port: Port) -> bool
    ensures { result ≡ port_on (network_of net.now.program) home port }
{
    match port {
        Port::Outside => false,
        Port::Process(number) => match net.program.processes.get(number) {
            Some(process) => process.node == home,
            None => false,
        },
    }
}

// Whether there is a process at this end of a channel, but none of the node.
fn is_away(net: &Net, home: u8, port: Port) -> bool
    ensures { result ≡ port_away (network_of net.now.program) home port }
{
    match port {
        Port::Outside => false,
        Port::Process(_) => !is_here(net, home, port),
    }
}

/// Whether a channel comes to the node from another one.
pub fn is_incoming(net: &Net, home: u8, channel: usize) -> bool
    ensures { result ≡ is_incoming (network_of net.now.program) home channel }
{
    match net.program.channels.get(channel) {
        Some(ends) => is_here(net, home, ends.consumer) && is_away(net, home, ends.producer),
        None => false,
    }
}

/// Whether a channel goes from the node to another one.
pub fn is_outgoing(net: &Net, home: u8, channel: usize) -> bool
    ensures { result ≡ is_outgoing (network_of net.now.program) home channel }
{
    match net.program.channels.get(channel) {
        Some(ends) => is_here(net, home, ends.producer) && is_away(net, home, ends.consumer),
        None => false,
    }
}
