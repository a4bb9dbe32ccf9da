//! What a folder holds, and how far its run has come.

ghost use Rattle.std.specs.Prelude.{◌≡◌, ◌≢◌, IfErr, IfOk, map, string_bytes};
ghost use Rattle.kahn_net.specs.Fits.{Fits};
ghost use Rattle.kahn_net.specs.Syntax.{network_of};
ghost use Rattle.protocol.specs.World.Common.{output_channels};
ghost use Rattle.folder_status.specs.Causes.{IsCaused};
ghost use Rattle.folder_status.specs.Endings.{AreStreams, HasCome, HasOther, IsEnding};
ghost use Rattle.folder_status.specs.Files.{OnlyReads};
ghost use Rattle.folder_status.specs.Kept.{IsRead};
ghost use Rattle.folder_status.specs.declared.fault.StatusFault.TheVariants.{ItemDiffers, NoMemory};

use crate::again::{Again, run_further, run_up_to};
use crate::comparing::difference_words;
use crate::ending::Ending;
use crate::fault::{StatusFault, StatusRefused, refused};
use crate::kept::KeptOutput;
use crate::limits::first_room;
use crate::reading::{FolderRead, items_path, name_of, read_folder};
use crate::verdict::{NoVerdict, Verdict, find_verdict};
use host::Host;
use net_check::{Inputs, Net};
use outlet::Outlet;
use std::alloc::{AllocError, Global};
use std::sync::Arc;

/// What a folder holds, and how far its run has come.
#[derive(Drop)]
pub struct FolderStatus {
    pub net: Arc<Net>,
    pub inputs: Arc<Inputs>,
    /// By channel how many items its process got, when the processes were run again until each output had what its file holds.
    pub got: Vec<u64>,
    /// What the file of each output holds, in order of the channels.
    pub outputs: Vec<KeptOutput>,
    /// By output how many items of its file were compared with what the processes put.
    pub compared: Vec<u64>,
    pub ending: Ending,
}

/// How far a run has come, by its processes.
#[derive(Drop)]
struct Judged {
    got: Vec<u64>,
    compared: Vec<u64>,
    ending: Ending,
}

// The refusal of a file that has other items.
fn differs(
    alloc: Global,
    folder: &String,
    net: &Net,
    again: &Again,
    kept: &[KeptOutput],
    place: usize,
) -> StatusRefused
    ensures { result.fault ≡ ItemDiffers }
{
    refused(
        StatusFault::ItemDiffers,
        words_of(alloc, folder, net, again, kept, place),
    )
}

// What there is to say of it.
fn words_of(
    alloc: Global,
    folder: &String,
    net: &Net,
    again: &Again,
    kept: &[KeptOutput],
    place: usize,
) -> Result<String, AllocError> {
    match (kept.get(place), again.outputs.get(place)) {
        (Some(one), Some(output)) => {
            let path = items_path(
                alloc,
                folder,
                name_of(&net.channel_names, usize::from(one.channel)),
            )?;
            difference_words(alloc, &path, one, output.outlet.items())
        }
        _ => String::from_str(alloc, folder.as_str()),
    }
}

// How far a run has come whose files hold these items.
fn judge(
    alloc: Global,
    folder: &String,
    net: &Arc<Net>,
    inputs: &Arc<Inputs>,
    kept: &[KeptOutput],
) -> Result<Judged, StatusRefused>
    requires fits { Fits (network_of net.now.value.program) inputs.now.value }
    requires listed { map (λ output. output.channel) kept.now ≡ output_channels 0 (network_of net.now.value.program).channels }
    ensures come { IfOk result (λ judged. HasCome (network_of net.now.value.program) inputs.now.value kept.now judged.got.items) }
    ensures streams { IfOk result (λ judged. AreStreams (network_of net.now.value.program) inputs.now.value kept.now judged.compared.items) }
    ensures ending { IfOk result (λ judged. IsEnding (network_of net.now.value.program) inputs.now.value kept.now judged.ending) }
    ensures other { IfErr result (λ refused. refused.fault ≡ ItemDiffers
        → HasOther (network_of net.now.value.program) inputs.now.value kept.now) }
    ensures faults { IfErr result (λ refused. refused.fault ≢ ItemDiffers → refused.fault ≡ NoMemory) }
{
    let room = first_room(net.program.channels.len());
    let again = run_up_to(alloc, net, inputs, kept, room)?;
    let got = Vec::from_slice(alloc, again.rerun.got())?;
    let again = run_further(alloc, again, kept, room)?;
    match find_verdict(alloc, &again, kept) {
        Ok(Verdict { compared, ending }) => Ok(Judged {
            got,
            compared,
            ending,
        }),
        Err(NoVerdict::NoMemory) => Err(StatusRefused::from(AllocError)),
        Err(NoVerdict::Differs { place }) => Err(differs(alloc, folder, net, &again, kept, place)),
    }
}

/// What the folder of this name holds, and how far its run has come. The processes of its network are run again, alone and without nodes, until
/// each output has what its file holds, and then a little further. Nothing is asked of the host but to read the folder's own files, each once, so that a
/// run that is at work there isn't disturbed.
///
/// Refused for want of memory (1); where there is no folder, a file isn't there, a text isn't right, or a line is no item's (80); where a file
/// has an item that the processes don't put (81); and where a file can't be read (82).
pub fn status_of<H: Host>(
    alloc: Global,
    host: &mut H,
    folder: &String,
) -> Result<FolderStatus, StatusRefused>
    // Nothing is asked of the host but to read the folder's own files.
    ensures asked { OnlyReads (string_bytes folder.now) (H.asked host.old) (H.asked host.new) }
    // The network, its inputs and the outputs' items are those of the bytes that were read.
    ensures read { IfOk result (λ status. IsRead (string_bytes folder.now) (H.asked host.new) status.net.value status.inputs.value
        status.outputs.items) }
    // The counts of what was got are those of the processes where each output has as many items as its file, or they stop before.
    ensures come { IfOk result (λ status. HasCome (network_of status.net.value.program) status.inputs.value status.outputs.items
        status.got.items) }
    // So many items of each file were compared, and the processes put them.
    ensures streams { IfOk result (λ status. AreStreams (network_of status.net.value.program) status.inputs.value status.outputs.items
        status.compared.items) }
    // Where it is complete the files have all that the network means, and where it is partial one lacks some of it.
    ensures ending { IfOk result (λ status. IsEnding (network_of status.net.value.program) status.inputs.value status.outputs.items
        status.ending) }
    // Why it is refused stands in the log.
    ensures cause { IfErr result (λ refused. IsCaused (string_bytes folder.now) (H.asked host.new) refused.fault) }
{
    let FolderRead {
        net,
        inputs,
        outputs,
    } = read_folder(host, alloc, folder)?;
    let net = Arc::new(alloc, net)?;
    let inputs = Arc::new(alloc, inputs)?;
    match judge(alloc, folder, &net, &inputs, &outputs) {
        Ok(judged) => Ok(FolderStatus {
            net,
            inputs,
            got: judged.got,
            outputs,
            compared: judged.compared,
            ending: judged.ending,
        }),
        Err(refused) => Err(refused),
    }
}
