//! The names of channels and processes, in order of declaration.

ghost use Rattle.std.specs.Prelude.{◌≡◌, IfOk, map};
ghost use Rattle.net_text.specs.Trees.{process_tree};
ghost use Rattle.net_check.specs.Resolution.{channel_names, process_names};

use net_text::{ChannelText, Name, ProcessText};
use std::alloc::{AllocError, Global};

pub(crate) fn names_of_channels(
    alloc: Global,
    channels: Vec<ChannelText>,
) -> Result<Vec<Name>, AllocError>
    ensures { IfOk result (λ names. names.items ≡ channel_names channels.items) }
{
    let mut names = Vec::new(alloc);
    for channel in channels {
        names.push(channel.name)?;
    }
    Ok(names)
}

pub(crate) fn names_of_processes(
    alloc: Global,
    processes: Vec<ProcessText>,
) -> Result<Vec<Name>, AllocError>
    ensures { IfOk result (λ names. names.items
        ≡ process_names (map process_tree processes.items)) }
{
    let mut names = Vec::new(alloc);
    for process in processes {
        names.push(process.name)?;
    }
    Ok(names)
}
