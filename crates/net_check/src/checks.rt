//! The checks of a network's text.

ghost use Rattle.std.specs.Prelude.{IfErr, IfOk, IsOkUnless, List};
ghost use Rattle.net_text.specs.Names.{NameTree};
ghost use Rattle.net_text.specs.Trees.{net_tree};
ghost use Rattle.net_check.specs.NetFaults.{HasFault};
ghost use Rattle.net_check.specs.Resolution.{Resolves};
ghost use Rattle.kahn_net.specs.Common.{Network, network_of, IsValid};

use crate::declared::Declared;
use crate::fault::NetFault;
use crate::join::join;
use crate::limits::check_all_limits;
use crate::names::{names_of_channels, names_of_processes};
use crate::net::Net;
use crate::resolve::resolve;
use kahn_net::Program;
use net_text::NetText;
use proc_code::compile_all;
use std::alloc::Global;

/// The network of a text: valid, by its type.
///
/// The first fault counts, in this order: 10 and 15 over the declarations, in order of the text; 11, 12 and 13 over
/// the uses, in order of the text; 15 and 14 process by process, its units before its repetitions; 16 and 17 channel by channel.
pub fn check(alloc: Global, text: NetText) -> Result<Net, NetFault>
    // The network is the resolution of the text.
    ensures resolved { IfOk result
        (λ net. Resolves (net_tree text) net.channel_names.items net.process_names.items
        (network_of net.program)) }
    // What is refused has the fault, on its line.
    ensures fault { IfErr result (HasFault (net_tree text)) }
    // A text that has a valid resolution is accepted.
    ensures accepted { (channels processes : List NameTree) (net : Network) → Resolves
        (net_tree text) channels processes net → IsValid net
        → IsOkUnless result NetFault.NoMemory }
{
    check_in_order(alloc, text)
}

fn check_in_order(alloc: Global, text: NetText) -> Result<Net, NetFault>
    ensures resolved { IfOk result
        (λ net. Resolves (net_tree text) net.channel_names.items net.process_names.items
        (network_of net.program)) }
    ensures fault { IfErr result (HasFault (net_tree text)) }
{
    let declared = Declared::of(alloc, text)?;
    let resolved = resolve(alloc, &declared)?;
    check_all_limits(&declared.processes)?;
    let channels = join(alloc, &declared.channels, &resolved.ends)?;
    let channel_names = names_of_channels(alloc, declared.channels)?;
    let process_names = names_of_processes(alloc, declared.processes)?;
    let codes = compile_all(alloc, &resolved.processes)?;
    Ok(Net {
        program: Program {
            channels,
            processes: resolved.processes,
        },
        channel_names,
        process_names,
        codes,
    })
}
