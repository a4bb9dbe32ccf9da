//! The lines of an inputs text bound to the inputs of a network.

ghost use Rattle.std.specs.Prelude.{◌≡◌, ℕ, ℤ, MatchOption, OnOk, IfErr, IfOk, IsOkUnless, List, length, true, false};
ghost use Rattle.std.specs.Bool.{MatchBool};
ghost use Rattle.kahn_net.specs.declared.program.Port.TheVariants.{Outside};
ghost use Rattle.net_text.specs.Trees.{input_tree, inputs_tree};
ghost use Rattle.net_check.specs.Binding.{Binds, HasInputFault, IsInput};
ghost use Rattle.net_check.specs.Bound.{AreEmpty, AreFalse, BindsLine, LineFault, AreNamed, HasUnnamed, MarkedInput};
ghost use Rattle.kahn_net.specs.Common.{Fits, network_of};
ghost use Rattle.net_check.specs.Resolution.{Reads};

use crate::fault::NetFault;
use crate::inputs::Inputs;
use crate::lookup::find_name;
use crate::net::Net;
use kahn_net::{Channel, History, MAX_HISTORY_ITEMS, Port};
use net_text::{InputLine, Name, RawInputs};
use std::alloc::{AllocError, Global};

/// The number of the input that reads like this name.
fn find_input(net: &Net, name: &Name) -> Option<usize>
    ensures { MatchOption result
        ((c : ℕ) → Reads net.now.channel_names.items c name.now.text
        → IsInput (network_of net.now.program) c → ⊥)
        (MarkedInput net.now.channel_names.items (network_of net.now.program) name.now) }
{
    let channel = find_name(&net.channel_names, name)?;
    match net.program.channels[channel].producer {
        Port::Outside => Some(channel),
        Port::Process(_) => None,
    }
}

/// The lists so far, and which channels have been named.
#[derive(Drop)]
struct Binding {
    lists: Vec<History>,
    named: Vec<bool>,
}

impl Binding {
    fn new(alloc: Global, count: usize) -> Result<Self, AllocError>
        ensures lists { IfOk result (λ b. length b.lists.items ≡ count) }
        ensures named { IfOk result (λ b. length b.named.items ≡ count) }
        ensures empty { IfOk result (λ b. AreEmpty b.lists.items) }
        ensures fresh { IfOk result (λ b. AreFalse b.named.items) }
    {
        let mut lists = Vec::new(alloc);
        let mut named = Vec::new(alloc);
        for _ in 0..count {
            lists.push(History::new(alloc))?;
            named.push(false)?;
        }
        Ok(Binding { lists, named })
    }

    fn bind_line(&mut self, net: &Net, line: InputLine) -> Result<(), NetFault>
        requires lists { length self.old.lists.items ≡ length net.now.program.channels.items }
        requires named { length self.old.named.items ≡ length net.now.program.channels.items }
        ensures ok { OnOk result (BindsLine net.now.channel_names.items (network_of net.now.program)
            (input_tree line) self.old.lists.items self.old.named.items self.new.lists.items
            self.new.named.items) }
        ensures err { IfErr result
            (LineFault net.now.channel_names.items (network_of net.now.program)
            (input_tree line) self.old.named.items) }
    {
        let Some(channel) = find_input(net, &line.name) else {
            return Err(NetFault::UnknownName {
                line: line.name.line(),
            });
        };
        if self.named[channel] {
            return Err(NetFault::TwiceNamed {
                line: line.name.line(),
            });
        }
        if line.items.len() > MAX_HISTORY_ITEMS {
            return Err(NetFault::Limit {
                line: line.name.line(),
            });
        }
        self.lists[channel] = History::from_vec(line.items);
        self.named[channel] = true;
        Ok(())
    }
}

/// Whether the channel is no input or has been named.
fn is_named_if_input(channel: &Channel, named: bool) -> bool
    ensures { MatchBool result (channel.now.producer ≡ Outside → named ≡ true)
        ((channel.now.producer ≡ Outside) × (named ≡ false)) }
{
    match channel.producer {
        Port::Outside => named,
        Port::Process(_) => true,
    }
}

/// Whether each input has been named.
fn are_inputs_named(channels: &[Channel], named: &[bool]) -> bool
    requires { length named.now ≡ length channels.now }
    ensures { MatchBool result (AreNamed channels.now named.now)
        (HasUnnamed channels.now named.now) }
{
    for (c, channel) in channels.iter().enumerate() {
        if !is_named_if_input(channel, named[c]) {
            return false;
        }
    }
    true
}

/// The items of a network's inputs, from the lines of an inputs text.
///
/// It goes line by line and refuses the first fault: 11 where the name is none of an input's, 10 where an earlier
/// line has it, 15 where there are more than 1,048,576 items. After the last line it refuses an input without a line
/// by 18, which is on no line.
pub fn bind(alloc: Global, net: &Net, inputs: RawInputs) -> Result<Inputs, NetFault>
    // Each input has exactly the items of its line.
    ensures bound { IfOk result
        (Binds net.now.channel_names.items (network_of net.now.program) (inputs_tree inputs)) }
    // They are inputs for this network.
    ensures fitting { IfOk result (Fits (network_of net.now.program)) }
    // What is refused has the fault, on its line.
    ensures fault { IfErr result
        (HasInputFault net.now.channel_names.items (network_of net.now.program)
        (inputs_tree inputs)) }
    // Lines that give lists to the network are accepted.
    ensures accepted { (lists : List (List ℤ))
        → Binds net.now.channel_names.items (network_of net.now.program) (inputs_tree inputs) lists
        → IsOkUnless result NetFault.NoMemory }
{
    bind_in_order(alloc, net, inputs)
}

fn bind_in_order(alloc: Global, net: &Net, inputs: RawInputs) -> Result<Inputs, NetFault>
    ensures bound { IfOk result
        (Binds net.now.channel_names.items (network_of net.now.program) (inputs_tree inputs)) }
    ensures fitting { IfOk result (Fits (network_of net.now.program)) }
    ensures fault { IfErr result
        (HasInputFault net.now.channel_names.items (network_of net.now.program)
        (inputs_tree inputs)) }
{
    let mut binding = Binding::new(alloc, net.program.channels.len())?;
    for line in inputs.lines {
        binding.bind_line(net, line)?;
    }
    if !are_inputs_named(&net.program.channels, &binding.named) {
        return Err(NetFault::MissingInput);
    }
    Ok(Inputs::from_lists(binding.lists))
}
