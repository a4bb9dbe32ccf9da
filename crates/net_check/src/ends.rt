//! Which process stands at which end of a channel, as far as the uses of a text have been read.

ghost use Rattle.std.specs.Prelude.{◌≡◌, ◌<◌, ◌==◌, length, Some, IfErr, IfOk, MatchResult};
ghost use Rattle.std.specs.Bool.{MatchBool};
ghost use Rattle.std.specs.Prelude.{◌∷◌, []};
ghost use Rattle.net_check.specs.Resolution.{Reads, channel_names, variable_names};
ghost use Rattle.net_check.specs.Uses.{OfVariable, GetFrom, PutOn};
ghost use Rattle.net_text.specs.declared.tree.Role.TheVariants.{Input, Output};
ghost use Rattle.net_check.specs.Claims.{AreOutside, Claims, IsTaken, NameFault, Takes, UseFault};

use crate::fault::NetFault;
use crate::lookup::{find_channel, find_variable};
use kahn_net::Port;
use net_text::{ChannelText, Name, Role, VariableText};
use std::alloc::{AllocError, Global};
use std::marker::Model;

/// What stands at one end of each channel: its producer, or its consumer.
#[derive(Drop)]
pub(crate) struct Ports {
    ports: Vec<Port>,
}

impl Model for Ports {
    ghost use Rattle.std.specs.Prelude.{List};
    ghost use Rattle.kahn_net.specs.declared.program.Port.{Port};

    ghost Value = { List Port };

    ghost view = { λ p. p.ports.items };
}

impl Ports {
    /// No process stands at any of the ends.
    pub(crate) fn outside(alloc: Global, count: usize) -> Result<Self, AllocError>
        ensures count { IfOk result (λ ports. length ports ≡ count) }
        ensures outside { IfOk result AreOutside }
    {
        let mut ports = Vec::new(alloc);
        for _ in 0..count {
            ports.push(Port::Outside)?;
        }
        Ok(Ports { ports })
    }

    pub(crate) fn as_slice(&self) -> &[Port]
        ensures { result.now ≡ self.now }
    {
        self.ports.as_slice()
    }

    /// Puts the process at the channel's end, unless another stands there.
    pub(crate) fn take(&mut self, process: usize, channel: usize) -> bool
        requires { channel < length self.old }
        ensures { MatchBool result (Takes process channel self.old self.new)
            (IsTaken process channel self.old) }
    {
        if let Port::Process(other) = self.ports[channel]
            && other != process
        {
            return false;
        }
        self.ports[channel] = Port::Process(process);
        true
    }
}

/// What the names in a process may mean, and the process's number.
#[derive(Clone, Copy)]
pub(crate) struct Scope<'a> {
    pub channels: &'a [ChannelText],
    pub variables: &'a [VariableText],
    pub process: usize,
}

impl Scope<'_> {
    /// The number of the variable.
    pub(crate) fn variable(&self, name: &Name) -> Result<usize, NetFault>
        ensures { MatchResult result
            (λ x. Reads (variable_names self.now.variables.now) x name.now.text)
            (NameFault (channel_names self.now.channels.now) (variable_names self.now.variables.now)
            (OfVariable name.now ∷ [])) }
    {
        match find_variable(self.variables, name) {
            Some(variable) => Ok(variable),
            None => Err(NetFault::UnknownName { line: name.line() }),
        }
    }
}

/// What stands at both ends of each channel.
#[derive(Drop)]
pub(crate) struct Ends {
    pub producers: Ports,
    pub consumers: Ports,
}

impl Ends {
    /// No process stands at any end.
    pub(crate) fn outside(alloc: Global, count: usize) -> Result<Self, AllocError>
        ensures producers { IfOk result (λ ends. length ends.producers ≡ count) }
        ensures consumers { IfOk result (λ ends. length ends.consumers ≡ count) }
        ensures no_producers { IfOk result (λ ends. AreOutside ends.producers) }
        ensures no_consumers { IfOk result (λ ends. AreOutside ends.consumers) }
    {
        let producers = Ports::outside(alloc, count)?;
        let consumers = Ports::outside(alloc, count)?;
        Ok(Ends {
            producers,
            consumers,
        })
    }

    /// The number of the channel on which the process puts.
    pub(crate) fn put_on(&mut self, scope: &Scope, name: &Name) -> Result<usize, NetFault>
        requires { length self.old.producers ≡ length scope.now.channels.now }
        ensures names { IfOk result
            (λ c. Reads (channel_names scope.now.channels.now) c name.now.text) }
        ensures takes { IfOk result
            (λ c. Claims scope.now.channels.now Input scope.now.process
            (λ d. c == d) self.old.producers self.new.producers) }
        ensures keeps { self.new.consumers ≡ self.old.consumers }
        ensures err { IfErr result
            (UseFault scope.now.channels.now
            (variable_names scope.now.variables.now) scope.now.process self.old.producers
            self.old.consumers (PutOn name.now ∷ [])) }
    {
        let Some(channel) = find_channel(scope.channels, name) else {
            return Err(NetFault::UnknownName { line: name.line() });
        };
        if let Role::Input = scope.channels[channel].role {
            return Err(NetFault::TwoProducers { line: name.line() });
        }
        if !self.producers.take(scope.process, channel) {
            return Err(NetFault::TwoProducers { line: name.line() });
        }
        Ok(channel)
    }

    /// The number of the channel from which the process gets.
    pub(crate) fn get_from(&mut self, scope: &Scope, name: &Name) -> Result<usize, NetFault>
        requires { length self.old.consumers ≡ length scope.now.channels.now }
        ensures names { IfOk result
            (λ c. Reads (channel_names scope.now.channels.now) c name.now.text) }
        ensures takes { IfOk result
            (λ c. Claims scope.now.channels.now Output scope.now.process
            (λ d. c == d) self.old.consumers self.new.consumers) }
        ensures keeps { self.new.producers ≡ self.old.producers }
        ensures err { IfErr result
            (UseFault scope.now.channels.now
            (variable_names scope.now.variables.now) scope.now.process self.old.producers
            self.old.consumers (GetFrom name.now ∷ [])) }
    {
        let Some(channel) = find_channel(scope.channels, name) else {
            return Err(NetFault::UnknownName { line: name.line() });
        };
        if let Role::Output = scope.channels[channel].role {
            return Err(NetFault::TwoConsumers { line: name.line() });
        }
        if !self.consumers.take(scope.process, channel) {
            return Err(NetFault::TwoConsumers { line: name.line() });
        }
        Ok(channel)
    }
}
