//! The names of the files in which what leaves by a network's outputs is kept.

ghost use Rattle.std.specs.Prelude.{◌≡◌, ◌++◌, [], IfOk, OnOk, codes, length, map, string_bytes};
ghost use Rattle.cobaltmidge.specs.FileNames.{file_names, name_if_output};

use kahn_net::{Channel, Port};
use net_check::Net;
use net_text::Name;
use std::alloc::{AllocError, Global};

// The name of the file of an output. Neither the texts' files nor the lock's have such a name.
fn file_name(alloc: Global, output: &str) -> Result<String, AllocError>
    ensures { IfOk result (λ name. string_bytes name ≡ output.now ++ codes ".items") }
{
    let mut name = String::from_str(alloc, output)?;
    name.push_str(".items")?;
    Ok(name)
}

// Adds the name of a channel's file, if it is an output.
fn add_name(
    alloc: Global,
    names: &mut Vec<String>,
    channel: &Channel,
    name: &Name,
) -> Result<(), AllocError>
    ensures { OnOk result (map string_bytes names.new.items
        ≡ map string_bytes names.old.items ++ name_if_output channel.now.consumer name.now []) }
{
    if let Port::Outside = channel.consumer {
        names.push(file_name(alloc, name.as_str())?)?;
    }
    Ok(())
}

/// The names of the files of a network's outputs, in order of the channels.
pub fn file_names(alloc: Global, net: &Net) -> Result<Vec<String>, AllocError>
    ensures { IfOk result (λ names. map string_bytes names.items
        ≡ file_names net.now.program.channels.items net.now.channel_names.items) }
{
    names_of_files(
        alloc,
        net.program.channels.as_slice(),
        net.channel_names.as_slice(),
    )
}

// Those of these channels with these names.
fn names_of_files(
    alloc: Global,
    channels: &[Channel],
    names: &[Name],
) -> Result<Vec<String>, AllocError>
    requires { length names.now ≡ length channels.now }
    ensures { IfOk result (λ files. map string_bytes files.items ≡ file_names channels.now names.now) }
{
    let mut files = Vec::new(alloc);
    for (number, channel) in channels.iter().enumerate() {
        add_name(alloc, &mut files, channel, &names[number])?;
    }
    Ok(files)
}
