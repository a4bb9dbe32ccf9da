//! What a text declares: channels and processes, each numbered in order, apart by name and within the limits.

ghost use Rattle.std.specs.Prelude.{◌≡◌, ◌++◌, ◌∷◌, [], ◌<◌, ◌≤◌, length, map, IfOk, OnOk, IfErr};
ghost use Rattle.net_text.specs.Trees.{ProcessTree, process_tree, net_tree};
ghost use Rattle.net_check.specs.Resolution.{AllDifferent, channels_of, processes_of, variable_names};
ghost use Rattle.net_check.specs.NetFaults.{HasFault};
ghost use Rattle.net_check.specs.Ready.{AreDeclared, IsReady, FaultAtChannel, FaultAtProcess, FaultOfProcess};

use crate::fault::NetFault;
use crate::lookup::{find_channel, find_process, find_variable};
use kahn_net::{MAX_CHANNELS, MAX_NODES, MAX_PROCESSES, MAX_VARIABLES};
use net_text::{ChannelText, Declaration, NetText, ProcessText, VariableText};
use std::alloc::Global;

/// The channels and processes of a text.
#[derive(Drop)]
pub(crate) struct Declared {
    pub channels: Vec<ChannelText>,
    pub processes: Vec<ProcessText>,
}

/// Whether the variables are few and all different: 10 and 15 in order of the text.
fn check_variables(variables: &[VariableText]) -> Result<(), NetFault>
    ensures ok { OnOk result ((length variables.now ≤ MAX_VARIABLES)
        × AllDifferent (variable_names variables.now)) }
    ensures err { IfErr result
        (λ f. (process : ProcessTree) → process.variables ≡ variables.now
        → FaultOfProcess process f) }
{
    for (i, variable) in variables.iter().enumerate() {
        let before = &variables[..i];
        if find_variable(before, &variable.name).is_some() {
            return Err(NetFault::TwiceNamed {
                line: variable.name.line(),
            });
        }
        if i >= MAX_VARIABLES {
            return Err(NetFault::Limit {
                line: variable.line,
            });
        }
    }
    Ok(())
}

/// Whether a process stands on a node that may be, with variables that may be: 15 at the node's number, then 10 and 15
/// over the variables.
fn check_process(process: &ProcessText) -> Result<(), NetFault>
    ensures ok { OnOk result (IsReady (process_tree process.now)) }
    ensures err { IfErr result (FaultOfProcess (process_tree process.now)) }
{
    if process.node.number >= u64::from(MAX_NODES) {
        return Err(NetFault::Limit {
            line: process.node.line,
        });
    }
    check_variables(&process.variables)
}

impl Declared {
    fn new(alloc: Global) -> Self
        ensures channels { result.channels.items ≡ [] }
        ensures processes { result.processes.items ≡ [] }
    {
        Declared {
            channels: Vec::new(alloc),
            processes: Vec::new(alloc),
        }
    }

    fn declare_channel(&mut self, channel: ChannelText) -> Result<(), NetFault>
        requires { AreDeclared self.old.channels.items (map process_tree self.old.processes.items) }
        ensures declared { OnOk result
            (AreDeclared self.new.channels.items (map process_tree self.new.processes.items)) }
        ensures channels { OnOk result
            (self.new.channels.items ≡ self.old.channels.items ++ channel ∷ []) }
        ensures processes { OnOk result (self.new.processes.items ≡ self.old.processes.items) }
        ensures err { IfErr result (FaultAtChannel self.old.channels.items channel) }
    {
        if find_channel(&self.channels, &channel.name).is_some() {
            return Err(NetFault::TwiceNamed {
                line: channel.name.line(),
            });
        }
        if self.channels.len() >= MAX_CHANNELS {
            return Err(NetFault::Limit { line: channel.line });
        }
        self.channels.push(channel)?;
        Ok(())
    }

    fn declare_process(&mut self, process: ProcessText) -> Result<(), NetFault>
        requires { AreDeclared self.old.channels.items (map process_tree self.old.processes.items) }
        ensures declared { OnOk result
            (AreDeclared self.new.channels.items (map process_tree self.new.processes.items)) }
        ensures channels { OnOk result (self.new.channels.items ≡ self.old.channels.items) }
        ensures processes { OnOk result
            (map process_tree self.new.processes.items ≡ map process_tree self.old.processes.items
            ++ process_tree process ∷ []) }
        ensures err { IfErr result
            (FaultAtProcess (map process_tree self.old.processes.items) (process_tree process)) }
    {
        if find_process(&self.processes, &process.name).is_some() {
            return Err(NetFault::TwiceNamed {
                line: process.name.line(),
            });
        }
        if self.processes.len() >= MAX_PROCESSES {
            return Err(NetFault::Limit { line: process.line });
        }
        check_process(&process)?;
        self.processes.push(process)?;
        Ok(())
    }

    /// What the text declares: 10 and 15 in order of the text.
    pub(crate) fn of(alloc: Global, text: NetText) -> Result<Self, NetFault>
        ensures declared { IfOk result
            (λ declared. AreDeclared declared.channels.items
            (map process_tree declared.processes.items)) }
        ensures channels { IfOk result
            (λ declared. declared.channels.items ≡ channels_of (net_tree text)) }
        ensures processes { IfOk result
            (λ declared. map process_tree declared.processes.items ≡ processes_of (net_tree text)) }
        ensures err { IfErr result (HasFault (net_tree text)) }
    {
        let mut declared = Declared::new(alloc);
        for declaration in text.declarations {
            match declaration {
                Declaration::Channel(channel) => declared.declare_channel(channel)?,
                Declaration::Process(process) => declared.declare_process(process)?,
            }
        }
        Ok(declared)
    }
}
