//! How many nodes a network has, and whose output each of its channels is.

ghost use Rattle.std.specs.Prelude.{◌≡◌, IfOk};
ghost use Rattle.kahn_net.specs.Common.{node_count, network_of};
ghost use Rattle.marks.specs.Owners.{owner_in, owners_in, process_node};

use kahn_net::{Channel, Port};
use net_check::Net;
use std::alloc::{AllocError, Global};

/// The number of a network's nodes: the greatest node number plus 1, at least 1.
pub(crate) fn count_nodes(net: &Net) -> u8
    ensures { result ≡ node_count (network_of net.now.program) }
{
    let mut count = 1;
    for process in &net.program.processes {
        if process.node >= count {
            count = process.node + 1;
        }
    }
    count
}

// The node of the process at this end of a channel.
fn node_at(net: &Net, port: Port) -> Option<u8>
    ensures { result ≡ process_node (network_of net.now.program) port }
{
    match port {
        Port::Outside => None,
        Port::Process(number) => match net.program.processes.get(number) {
            Some(process) => Some(process.node),
            None => None,
        },
    }
}

// The owner of a channel: of an output the node of its producer.
fn owner_of(net: &Net, channel: Channel) -> Option<u8>
    ensures { result ≡ owner_in (network_of net.now.program) channel }
{
    match channel.consumer {
        Port::Outside => node_at(net, channel.producer),
        Port::Process(_) => None,
    }
}

/// The owner of each channel, in order.
pub(crate) fn list_owners(alloc: Global, net: &Net) -> Result<Vec<Option<u8>>, AllocError>
    ensures { IfOk result
        (λ owners. owners.items ≡ owners_in (network_of net.now.program)) }
{
    let mut owners = Vec::with_capacity(alloc, net.program.channels.len())?;
    for channel in &net.program.channels {
        owners.push(owner_of(net, *channel))?;
    }
    Ok(owners)
}
