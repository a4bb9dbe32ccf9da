//! The channels of a network, from what stands at their ends: 16 and 17.

ghost use Rattle.std.specs.Prelude.{◌≡◌, length, IfErr, IfOk, OnOk};
ghost use Rattle.net_check.specs.Joints.{EndFault, EndFaultAmong, HasItsEnds, AreJoined};

use crate::ends::Ends;
use crate::fault::NetFault;
use kahn_net::{Channel, Port};
use net_text::{ChannelText, Role};
use std::alloc::Global;

/// Whether a process stands at each end that isn't outside.
fn check_ends(channel: &ChannelText, producer: Port, consumer: Port) -> Result<(), NetFault>
    ensures ok { OnOk result (HasItsEnds channel.now producer consumer) }
    ensures err { IfErr result (EndFault channel.now producer consumer) }
{
    match channel.role {
        Role::Input => {}
        Role::Inner | Role::Output => {
            if let Port::Outside = producer {
                return Err(NetFault::NoProducer { line: channel.line });
            }
        }
    }
    match channel.role {
        Role::Output => {}
        Role::Input | Role::Inner => {
            if let Port::Outside = consumer {
                return Err(NetFault::NoConsumer { line: channel.line });
            }
        }
    }
    Ok(())
}

/// The channels in order of declaration.
fn join_all(
    alloc: Global,
    channels: &[ChannelText],
    producers: &[Port],
    consumers: &[Port],
) -> Result<Vec<Channel>, NetFault>
    requires producers { length producers.now ≡ length channels.now }
    requires consumers { length consumers.now ≡ length channels.now }
    ensures ok { IfOk result (λ joined. AreJoined channels.now producers.now consumers.now
        joined.items) }
    ensures err { IfErr result (EndFaultAmong channels.now producers.now consumers.now) }
{
    let mut joined = Vec::new(alloc);
    for (c, channel) in channels.iter().enumerate() {
        let producer = producers[c];
        let consumer = consumers[c];
        check_ends(channel, producer, consumer)?;
        joined.push(Channel { producer, consumer })?;
    }
    Ok(joined)
}

/// The channels of a network, in order of declaration: 16, then 17, channel by channel.
pub(crate) fn join(
    alloc: Global,
    channels: &[ChannelText],
    ends: &Ends,
) -> Result<Vec<Channel>, NetFault>
    requires producers { length ends.now.producers ≡ length channels.now }
    requires consumers { length ends.now.consumers ≡ length channels.now }
    ensures ok { IfOk result (λ joined. AreJoined channels.now ends.now.producers ends.now.consumers
        joined.items) }
    ensures err { IfErr result (EndFaultAmong channels.now ends.now.producers ends.now.consumers) }
{
    join_all(
        alloc,
        channels,
        ends.producers.as_slice(),
        ends.consumers.as_slice(),
    )
}
