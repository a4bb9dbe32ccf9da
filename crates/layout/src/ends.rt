//! The nodes at the two ends of a channel.
ghost use Rattle.std.specs.Prelude.{◌≡◌};
ghost use Rattle.kahn_net.specs.Syntax.{network_of};
ghost use Rattle.protocol.specs.Node.Addresses.{consumer_node, port_node, producer_node};

use kahn_net::Port;
use net_check::Net;

// The node of the process at an end of a channel, 0 where there is none.
fn node_at(net: &Net, port: Port) -> u8
    ensures { result ≡ port_node (network_of net.now.program) port }
{
    match port {
        Port::Outside => 0,
        Port::Process(number) => match net.program.processes.get(number) {
            Some(process) => process.node,
            None => 0,
        },
    }
}

/// The node from which the items of a channel come, 0 where no process puts them.
pub fn producer_node(net: &Net, channel: usize) -> u8
    ensures { result ≡ producer_node (network_of net.now.program) channel }
{
    match net.program.channels.get(channel) {
        Some(ends) => node_at(net, ends.producer),
        None => 0,
    }
}

/// The node to which they go, 0 where no process gets them.
pub fn consumer_node(net: &Net, channel: usize) -> u8
    ensures { result ≡ consumer_node (network_of net.now.program) channel }
{
    match net.program.channels.get(channel) {
        Some(ends) => node_at(net, ends.consumer),
        None => 0,
    }
}
