//! The files of a folder, read through a host.

ghost use Rattle.std.specs.Prelude.{◌≡◌, ◌++◌, IfErr, IfOk, Ok, map, string_bytes};
ghost use Rattle.std.specs.List.{AllByRecursion};
ghost use Rattle.host.specs.Requests.{Has, Read};
ghost use Rattle.protocol.specs.Node.Common.{Fits, network_of};
ghost use Rattle.folder_status.specs.Causes.{IsCaused, IsUnreadable};
ghost use Rattle.folder_status.specs.Files.{IsOwnFile, OnlyReads, items_path};
ghost use Rattle.folder_status.specs.Kept.{AreInputsRead, AreLinesOf, IsFileOf, IsNetRead, IsRead, name_of};

use crate::fault::{StatusFault, StatusRefused, refused};
use crate::kept::KeptOutput;
use crate::texts::{inputs_of, net_of};
use host::Host;
use net_check::{Inputs, Net};
use net_text::Name;
use outlet::ListOutlet;
use output_file::{HeldItems, LinesFault, read_items};
use std::alloc::{AllocError, Global};
use world::{Output, list_outputs};

/// What was read of a folder.
#[derive(Drop)]
pub struct FolderRead {
    pub net: Net,
    pub inputs: Inputs,
    /// What the file of each output held, in order of the channels.
    pub outputs: Vec<KeptOutput>,
}

// The path of a file of a folder.
fn in_folder(alloc: Global, folder: &String, tail: &str) -> Result<String, AllocError>
    ensures { IfOk result (λ path. string_bytes path ≡ string_bytes folder.now ++ tail.now) }
{
    let mut path = String::from_str(alloc, folder.as_str())?;
    path.push_str(tail)?;
    Ok(path)
}

/// The name of a channel.
pub(crate) fn name_of(names: &[Name], channel: usize) -> &str
    ensures { result.now ≡ name_of names.now channel }
{
    match names.get(channel) {
        Some(name) => name.as_str(),
        None => "",
    }
}

/// The path of the file of an output of this name.
pub(crate) fn items_path(alloc: Global, folder: &String, name: &str) -> Result<String, AllocError>
    ensures { IfOk result (λ path. string_bytes path ≡ items_path (string_bytes folder.now) name.now) }
{
    let mut path = in_folder(alloc, folder, "/")?;
    path.push_str(name)?;
    path.push_str(".items")?;
    Ok(path)
}

// The bytes of a file of a folder.
fn read_own<H: Host>(
    host: &mut H,
    alloc: Global,
    folder: &String,
    path: &String,
) -> Result<Vec<u8>, StatusRefused>
    requires { IsOwnFile (string_bytes folder.now) (string_bytes path.now) }
    ensures asked { OnlyReads (string_bytes folder.now) (H.asked host.old) (H.asked host.new) }
    ensures read { IfOk result (λ bytes. Has (Read (string_bytes path.now) (Ok bytes.items)) (H.asked host.new)) }
    ensures cause { IfErr result (λ refused. IsCaused (string_bytes folder.now) (H.asked host.new) refused.fault) }
{
    match host.read(path) {
        Ok(bytes) => Ok(bytes),
        Err(fault) => {
            let words = host.words(alloc);
            Err(refused(StatusFault::of_unread(fault), with_path(alloc, path, words)))
        }
    }
}

// Words behind a file's path.
fn with_path(
    alloc: Global,
    path: &String,
    words: Result<String, AllocError>,
) -> Result<String, AllocError> {
    let words = words?;
    format!(in alloc; "{path}: {words}")
}

// The network of a folder.
fn read_net<H: Host>(host: &mut H, alloc: Global, folder: &String) -> Result<Net, StatusRefused>
    ensures asked { OnlyReads (string_bytes folder.now) (H.asked host.old) (H.asked host.new) }
    ensures net { IfOk result (λ net. IsNetRead (string_bytes folder.now) net (H.asked host.new)) }
    ensures cause { IfErr result (λ refused. IsCaused (string_bytes folder.now) (H.asked host.new) refused.fault) }
{
    let path = in_folder(alloc, folder, "/net")?;
    let bytes = read_own(host, alloc, folder, &path)?;
    net_of(alloc, &path, &bytes)
}

// The items for the inputs of a folder's network, which was read.
fn read_inputs<H: Host>(
    host: &mut H,
    alloc: Global,
    folder: &String,
    net: &Net,
) -> Result<Inputs, StatusRefused>
    requires { IsNetRead (string_bytes folder.now) net.now (H.asked host.old) }
    ensures asked { OnlyReads (string_bytes folder.now) (H.asked host.old) (H.asked host.new) }
    ensures inputs { IfOk result (λ inputs. AreInputsRead (string_bytes folder.now) net.now inputs (H.asked host.new)) }
    ensures fitting { IfOk result (Fits (network_of net.now.program)) }
    ensures cause { IfErr result (λ refused. IsCaused (string_bytes folder.now) (H.asked host.new) refused.fault) }
{
    let path = in_folder(alloc, folder, "/inputs")?;
    let bytes = read_own(host, alloc, folder, &path)?;
    inputs_of(alloc, &path, net, &bytes)
}

// What bytes of a file of lines hold.
fn kept_of(
    alloc: Global,
    path: &String,
    channel: u8,
    bytes: &Vec<u8>,
) -> Result<KeptOutput, StatusRefused>
    ensures channel { IfOk result (λ output. output.channel ≡ channel) }
    ensures holds { IfOk result (AreLinesOf bytes.now.items) }
    ensures cause { IfErr result (λ refused. IsUnreadable bytes.now.items refused.fault) }
{
    match read_items(alloc, bytes.as_slice()) {
        Ok(held) => {
            let HeldItems {
                items,
                bytes: lines,
            } = held;
            let cut_off = (bytes.len() as u64).saturating_sub(lines);
            Ok(KeptOutput {
                channel,
                items,
                cut_off,
            })
        }
        Err(LinesFault::NoMemory) => Err(refused(StatusFault::NoMemory, Err(AllocError))),
        Err(LinesFault::NotAnItem { line }) => Err(refused(
            StatusFault::OtherState,
            format!(in alloc; "{path}: line {line} is not an item"),
        )),
    }
}

// What the file of an output holds.
fn read_output<H: Host>(
    host: &mut H,
    alloc: Global,
    folder: &String,
    names: &[Name],
    channel: u8,
) -> Result<KeptOutput, StatusRefused>
    ensures asked { OnlyReads (string_bytes folder.now) (H.asked host.old) (H.asked host.new) }
    ensures channel { IfOk result (λ output. output.channel ≡ channel) }
    ensures held { IfOk result (IsFileOf (string_bytes folder.now) names.now (H.asked host.new)) }
    ensures cause { IfErr result (λ refused. IsCaused (string_bytes folder.now) (H.asked host.new) refused.fault) }
{
    let path = items_path(alloc, folder, name_of(names, usize::from(channel)))?;
    let bytes = read_own(host, alloc, folder, &path)?;
    kept_of(alloc, &path, channel, &bytes)
}

// What the files of these outputs hold, in order.
fn read_outputs<H: Host>(
    host: &mut H,
    alloc: Global,
    folder: &String,
    names: &[Name],
    outputs: &[Output<ListOutlet>],
) -> Result<Vec<KeptOutput>, StatusRefused>
    ensures asked { OnlyReads (string_bytes folder.now) (H.asked host.old) (H.asked host.new) }
    ensures listed { IfOk result (λ kept. map (λ output. output.channel) kept.items ≡ map (λ output. output.channel) outputs.now) }
    ensures held { IfOk result (λ kept. AllByRecursion (IsFileOf (string_bytes folder.now) names.now (H.asked host.new)) kept.items) }
    ensures cause { IfErr result (λ refused. IsCaused (string_bytes folder.now) (H.asked host.new) refused.fault) }
{
    let mut kept = Vec::with_capacity(alloc, outputs.len())?;
    for output in outputs {
        kept.push(read_output(host, alloc, folder, names, output.channel)?)?;
    }
    Ok(kept)
}

/// What stands in the folder of this name: the network's text, that of its inputs, and then each output's file, in order of the channels. Each is
/// read once, and nothing else is asked of the host. A run may be at work in the folder: each file is as it is when it is read.
///
/// Refused for want of memory (1); where there is no folder, a file isn't there, a text isn't right, or a line is no item's (80); and
/// where a file can't be read (82).
pub fn read_folder<H: Host>(
    host: &mut H,
    alloc: Global,
    folder: &String,
) -> Result<FolderRead, StatusRefused>
    // Nothing is asked of the host but to read the folder's own files.
    ensures asked { OnlyReads (string_bytes folder.now) (H.asked host.old) (H.asked host.new) }
    // The network, its inputs and the outputs' items are those of the bytes that were read.
    ensures read { IfOk result (λ read. IsRead (string_bytes folder.now) (H.asked host.new) read.net read.inputs read.outputs.items) }
    ensures fitting { IfOk result (λ read. Fits (network_of read.net.program) read.inputs) }
    // Why it is refused stands in the log.
    ensures cause { IfErr result (λ refused. IsCaused (string_bytes folder.now) (H.asked host.new) refused.fault) }
{
    let net = read_net(host, alloc, folder)?;
    let inputs = read_inputs(host, alloc, folder, &net)?;
    let outputs = list_outputs(alloc, &net)?;
    let kept = read_outputs(host, alloc, folder, &net.channel_names, &outputs)?;
    Ok(FolderRead {
        net,
        inputs,
        outputs: kept,
    })
}
