//! A network by its text, and what belongs to it by name or by text.

ghost use Rattle.std.specs.Prelude.{◌≡◌, ℕ, ◌<◌, ◌≤◌, ◌↔◌, [], IfErr, IfOk, IfSome, IsOkUnless, IsTrue, List, MatchOption, false, length, map, slice_get};
ghost use Rattle.std.specs.List.{AllByRecursion};
ghost use Rattle.protocol.specs.Node.Common.{Fits, MAX_NODES, network_of, node_count};
ghost use Rattle.protocol.specs.World.Common.{output_channels};
ghost use Rattle.protocol.specs.declared.limits.TheConstants.{DEFAULT_ROOM};
ghost use Rattle.live.specs.LiveViews.{closed_on, none_taken, world_on};
ghost use Rattle.fail_script.specs.Lines.{IsScript};
ghost use Rattle.fail_script.specs.declared.act.ScriptLine.{ScriptLine as LineValue};
ghost use Rattle.net_check.specs.Resolution.{Reads};
ghost use Rattle.world.specs.OpeningWorld.{IsUnused};
ghost use Rattle.world.specs.Feeding.{none_closed};
ghost use Rattle.world.specs.WholeView.{closed_in, world_of};
ghost use Rattle.cobaltmidge.specs.Errors.{IsRunError};
ghost use Rattle.cobaltmidge.specs.Names.{IsInputNamed, IsOutputNamed, comes_in, goes_out, is_outside};
ghost use Rattle.cobaltmidge.specs.Texts.{AreInputsOf, IsInputsError, IsNetError, IsNetOf, IsScriptError, IsScriptOf, IsTextOfInputs, IsTextOfNet};
ghost use Rattle.cobaltmidge.specs.FirstWorld.{HasNoFailures, first_world};
ghost use Rattle.cobaltmidge.specs.declared.error.Error.TheVariants.{NoMemory};

use crate::ending::RunWorld;
use crate::error::{
    Error, inputs_error, inputs_text_error, net_error, net_text_error, run_error, script_error,
};
use crate::items::Items;
use crate::opening::open_world;
use crate::scripting::events_of;
use fail_script::parse_script;
use kahn_net::{Channel, Port};
use live::Live;
use net_check::{Inputs, Net, bind, check};
use net_text::{Name, parse, parse_inputs};
use outlet::ListOutlet;
use replay::ScriptedEvent;
use sector_disk::MemDisk;
use slot_cell::SplitCell;
use std::alloc::{AllocError, Global};
use std::sync::Arc;
use world::{DEFAULT_ROOM, Output, list_outputs, node_count};

/// A valid network, with its names and the code of its processes.
#[derive(Drop)]
pub struct Network {
    pub net: Arc<Net>,
}

/// The network of a text.
fn net_of_text(alloc: Global, text: &str) -> Result<Net, Error>
    ensures net { IfOk result (IsNetOf text.now) }
    ensures err { IfErr result (IsNetError text.now) }
    ensures accepted { IsTextOfNet text.now → IsOkUnless result NoMemory }
{
    let tree = match parse(alloc, text) {
        Ok(tree) => tree,
        Err(fault) => return Err(net_text_error(fault)),
    };
    match check(alloc, tree) {
        Ok(net) => Ok(net),
        Err(fault) => Err(net_error(fault)),
    }
}

/// The items of a text for a network's inputs.
pub(crate) fn inputs_of_text(alloc: Global, text: &str, net: &Net) -> Result<Inputs, Error>
    ensures inputs { IfOk result (AreInputsOf text.now net.now) }
    ensures fitting { IfOk result (Fits (network_of net.now.program)) }
    ensures err { IfErr result (IsInputsError net.now text.now) }
    ensures accepted { IsTextOfInputs net.now text.now → IsOkUnless result NoMemory }
{
    let lines = match parse_inputs(alloc, text) {
        Ok(lines) => lines,
        Err(fault) => return Err(inputs_text_error(fault)),
    };
    match bind(alloc, net, lines) {
        Ok(inputs) => Ok(inputs),
        Err(fault) => Err(inputs_error(fault)),
    }
}

/// The events of a failure script for so many nodes.
fn script_of_text(alloc: Global, text: &str, nodes: usize) -> Result<Vec<ScriptedEvent>, Error>
    requires few { nodes ≤ MAX_NODES }
    ensures script { IfOk result (λ events. IsScriptOf nodes text.now events.items) }
    ensures err { IfErr result (IsScriptError nodes text.now) }
    ensures accepted { (lines : List LineValue) → IsScript nodes text.now lines
        → IsOkUnless result NoMemory }
{
    let script = match parse_script(alloc, text, nodes as u8) {
        Ok(script) => script,
        Err(fault) => return Err(script_error(fault)),
    };
    match events_of(alloc, &script.lines) {
        Ok(events) => Ok(events),
        Err(_) => Err(Error::NoMemory),
    }
}

fn has_name(known: &Name, name: &str) -> bool
    ensures { IsTrue result ↔ (known.now.text ≡ name.now) }
{
    known.as_str() == name
}

/// The number of the name that reads like this.
fn find_name(names: &[Name], name: &str) -> Option<usize>
    ensures within { IfSome result (λ i. i < length names.now) }
    ensures found { MatchOption result ((i : ℕ) → Reads names.now i name.now → ⊥)
        (λ i. Reads names.now i name.now) }
{
    for (i, known) in names.iter().enumerate() {
        if has_name(known, name) {
            return Some(i);
        }
    }
    None
}

fn is_outside(port: Port) -> bool
    ensures { result ≡ is_outside port }
{
    match port {
        Port::Outside => true,
        Port::Process(_) => false,
    }
}

/// Whether the items of this channel come from outside.
fn comes_in(channels: &[Channel], number: usize) -> bool
    ensures { result ≡ comes_in (slice_get channels.now number) }
{
    match channels.get(number) {
        Some(channel) => is_outside(channel.producer),
        None => false,
    }
}

/// Whether they go outside.
fn goes_out(channels: &[Channel], number: usize) -> bool
    ensures { result ≡ goes_out (slice_get channels.now number) }
{
    match channels.get(number) {
        Some(channel) => is_outside(channel.consumer),
        None => false,
    }
}

/// The channel of the input of this name.
fn input_of(net: &Net, name: &str) -> Option<u8>
    ensures { MatchOption result ((number : ℕ) → IsInputNamed net.now name.now number → ⊥)
        (IsInputNamed net.now name.now) }
{
    let Some(number) = find_name(&net.channel_names, name) else {
        return None;
    };
    if comes_in(&net.program.channels, number) {
        Some(number as u8)
    } else {
        None
    }
}

/// The channel of the output of this name.
fn output_of(net: &Net, name: &str) -> Option<u8>
    ensures { MatchOption result ((number : ℕ) → IsOutputNamed net.now name.now number → ⊥)
        (IsOutputNamed net.now name.now) }
{
    let Some(number) = find_name(&net.channel_names, name) else {
        return None;
    };
    if goes_out(&net.program.channels, number) {
        Some(number as u8)
    } else {
        None
    }
}

/// The outputs of a network, each with an outlet in memory, none of which ever failed.
pub(crate) fn outputs_in_memory(
    alloc: Global,
    net: &Net,
) -> Result<Vec<Output<ListOutlet>>, AllocError>
    ensures listed { IfOk result (λ outputs. map (λ output. output.channel) outputs.items
        ≡ output_channels 0 (network_of net.now.program).channels) }
    ensures unused { IfOk result
        (λ outputs. AllByRecursion (IsUnused (λ taken. taken)) outputs.items) }
    ensures unfailed { IfOk result
        (λ outputs. AllByRecursion (HasNoFailures (λ taken. 0)) outputs.items) }
{
    list_outputs(alloc, net)
}

impl Network {
    /// The network of a text. It is refused for the first fault of the text, or want of memory.
    pub fn parse(alloc: Global, text: &str) -> Result<Network, Error>
        ensures net { IfOk result (λ network. IsNetOf text.now network.net.value) }
        // What is refused has the fault, on its line.
        ensures err { IfErr result (IsNetError text.now) }
        // A text that describes a network isn't refused.
        ensures accepted { IsTextOfNet text.now → IsOkUnless result NoMemory }
    {
        let net = match net_of_text(alloc, text) {
            Ok(net) => net,
            Err(error) => return Err(error),
        };
        match Arc::new(alloc, net) {
            Ok(net) => Ok(Network { net }),
            Err(_) => Err(Error::NoMemory),
        }
    }

    /// The channel of the input of this name, if there is one.
    pub fn input(&self, name: &str) -> Option<u8>
        ensures { MatchOption result ((number : ℕ) → IsInputNamed self.now.net.value name.now number → ⊥)
            (IsInputNamed self.now.net.value name.now) }
    {
        input_of(&self.net, name)
    }

    /// The channel of the output of this name, if there is one: `World::released` has what left by it.
    pub fn output(&self, name: &str) -> Option<u8>
        ensures { MatchOption result ((number : ℕ) → IsOutputNamed self.now.net.value name.now number → ⊥)
            (IsOutputNamed self.now.net.value name.now) }
    {
        output_of(&self.net, name)
    }

    /// The items for its inputs that a text gives, a line for each input, as `i: 1 2 3`.
    pub fn inputs(&self, alloc: Global, text: &str) -> Result<Inputs, Error>
        // Each input has exactly the items of its line.
        ensures inputs { IfOk result (AreInputsOf text.now self.now.net.value) }
        // They are inputs for this network.
        ensures fitting { IfOk result (Fits (network_of self.now.net.value.program)) }
        ensures err { IfErr result (IsInputsError self.now.net.value text.now) }
        ensures accepted { IsTextOfInputs self.now.net.value text.now → IsOkUnless result NoMemory }
    {
        inputs_of_text(alloc, text, &self.net)
    }

    /// Items for its inputs by their names, to which lists are added: `network.items(alloc).with("i", &[1, 2])?.inputs()?`.
    pub fn items(&self, alloc: Global) -> Items<'_>
        ensures network { result.network ≡ self.entry }
        ensures none { result.lines.items ≡ [] }
    {
        Items::new(alloc, self)
    }

    /// The events of a failure script for its nodes, a line for each, as `2 crash 0 now 0 1`.
    pub fn script(&self, alloc: Global, text: &str) -> Result<Vec<ScriptedEvent>, Error>
        ensures script { IfOk result (λ events. IsScriptOf
            (node_count (network_of self.now.net.value.program)) text.now events.items) }
        ensures err { IfErr result (IsScriptError
            (node_count (network_of self.now.net.value.program)) text.now) }
        ensures accepted { (lines : List LineValue)
            → IsScript (node_count (network_of self.now.net.value.program)) text.now lines
            → IsOkUnless result NoMemory }
    {
        script_of_text(alloc, text, node_count(&self.net))
    }

    /// Its world on these inputs before the first event, with disks and outlets in memory: for whoever wants to make each event.
    pub fn open(&self, alloc: Global, inputs: Inputs) -> Result<RunWorld<ListOutlet>, Error>
        requires fitting { Fits (network_of self.now.net.value.program) inputs }
        ensures first { IfOk result (λ world. world_of world
            ≡ first_world (network_of self.now.net.value.program) inputs DEFAULT_ROOM) }
        ensures unclosed { IfOk result (λ world. closed_in world ≡ none_closed) }
        // A device failed (20), or memory is missing (1).
        ensures err { IfErr result (IsRunError false) }
    {
        let nodes = node_count(&self.net);
        let Ok(outputs) = outputs_in_memory(alloc, &self.net) else {
            return Err(Error::NoMemory);
        };
        match open_world(
            alloc,
            &self.net,
            inputs,
            outputs,
            nodes,
            DEFAULT_ROOM as u64,
        ) {
            Ok(world) => Ok(world),
            Err(unfinished) => Err(run_error(unfinished.fault)),
        }
    }

    /// The network at work on these inputs, with disks and outlets in memory: more is fed to it as it comes (`Live::feed`), it goes on
    /// (`Live::advance`), and what leaves is taken (`Live::next`). Its inputs may be empty at first, as by `network.inputs(alloc, "i:")`.
    pub fn live(
        &self,
        alloc: Global,
        inputs: Inputs,
    ) -> Result<Live<SplitCell<MemDisk>, ListOutlet>, Error>
        requires fitting { Fits (network_of self.now.net.value.program) inputs }
        ensures first { IfOk result (λ live. world_on live
            ≡ first_world (network_of self.now.net.value.program) inputs DEFAULT_ROOM) }
        ensures unclosed { IfOk result (λ live. closed_on live ≡ none_closed) }
        ensures untaken { IfOk result (λ live. live.taken ≡ none_taken) }
        // A device failed (20), or memory is missing (1).
        ensures err { IfErr result (IsRunError false) }
    {
        match self.open(alloc, inputs) {
            Ok(world) => Ok(Live::new(world)),
            Err(error) => Err(error),
        }
    }
}
