//! Outlets over files, which outlast a run.

ghost use Rattle.std.specs.Prelude.{◌≡◌, [], map, IfErr, IfOk, OnOk};
ghost use Rattle.std.specs.List.{AllByRecursion};
ghost use Rattle.output_file.specs.InFile.{IsInFile};
ghost use Rattle.output_file.specs.Output.{failures_of, taken_of};
ghost use Rattle.protocol.specs.Node.Common.{network_of};
ghost use Rattle.protocol.specs.World.Common.{output_channels};
ghost use Rattle.world.specs.OpeningWorld.{IsUnused};
ghost use Rattle.cobaltmidge.specs.KeptOutlets.{AreInFiles, IsAtFault, IsOpenFault, IsPutFault, held_counts, taken_streams};
ghost use Rattle.cobaltmidge.specs.FirstWorld.{HasNoFailures};

use crate::going_on::BeginFault;
use host::LineFile;
use net_check::Net;
use outlet::Outlet;
use output_file::ResumedOutlet;
use run_files::HeldFile;
use std::alloc::{AllocError, Global};
use world::{OutletMaker, Output, outputs_of};

/// Why what left isn't kept in files.
#[derive(Clone, Copy, Debug, PartialEq, Eq)]
pub enum KeepFault {
    /// There is no memory.
    NoMemory,
    /// There isn't a file for each output: a fault of this crate (83).
    Astray,
    /// An item differs from the one that the file holds at its place (81).
    ItemDiffers,
    /// A put to a file failed (82).
    PutFailed,
}

/// The same, with what there is to say of it: the file, and why in words.
#[derive(Debug, Drop)]
pub struct NotKept {
    pub fault: KeepFault,
    /// None where there is nothing more to say, or no memory for it.
    pub words: Option<String>,
}

/// What is told of a run over files that doesn't go on. Where an outlet refused an item that is told by itself, as its file is closed.
pub fn begin_fault(fault: BeginFault) -> KeepFault
    ensures { IsOpenFault result }
{
    match fault {
        BeginFault::NoMemory => KeepFault::NoMemory,
        BeginFault::Outlet | BeginFault::Astray => KeepFault::Astray,
    }
}

// Makes an outlet over the next file.
#[derive(Drop)]
struct FileOutlets<F: LineFile> {
    alloc: Global,
    // the last output's first
    files: Vec<HeldFile<F>>,
    // there was none for an output
    lacks: bool,
}

impl<F: LineFile> OutletMaker<ResumedOutlet<F>> for FileOutlets<F> {
    ghost use Rattle.std.specs.Prelude.{◌≡◌};
    ghost use Rattle.output_file.specs.Output.{failures_of};

    ghost makes = { λ channel outlet. failures_of outlet ≡ 0 };

    fn make(&mut self, _channel: u8) -> Result<ResumedOutlet<F>, AllocError> {
        let Some(HeldFile { file, held }) = self.files.pop() else {
            self.lacks = true;
            return Err(AllocError);
        };
        ResumedOutlet::new(self.alloc, file, held)
    }
}

/// A network's outputs, each with an outlet over a file that was just opened: these files are theirs, in order of the channels.
pub fn outlets_over<F: LineFile>(
    alloc: Global,
    net: &Net,
    mut files: Vec<HeldFile<F>>,
) -> Result<Vec<Output<ResumedOutlet<F>>>, KeepFault>
    ensures listed { IfOk result (λ outputs. map (λ output. output.channel) outputs.items
        ≡ output_channels 0 (network_of net.now.program).channels) }
    ensures unused { IfOk result (λ outputs. AllByRecursion (IsUnused taken_of) outputs.items) }
    ensures unfailed { IfOk result (λ outputs. AllByRecursion (HasNoFailures failures_of) outputs.items) }
    ensures err { IfErr result IsOpenFault }
{
    files.reverse();
    let mut maker = FileOutlets {
        alloc,
        files,
        lacks: false,
    };
    match outputs_of(alloc, net, &mut maker) {
        Ok(outputs) => if maker.files.is_empty() {
            Ok(outputs)
        } else {
            Err(KeepFault::Astray)
        },
        Err(_) => Err(if maker.lacks {
            KeepFault::Astray
        } else {
            KeepFault::NoMemory
        }),
    }
}

/// How many items each file held when it was opened.
pub fn held_counts<F: LineFile>(
    alloc: Global,
    files: &[HeldFile<F>],
) -> Result<Vec<u64>, AllocError>
    ensures { IfOk result (λ counts. counts.items ≡ held_counts files.now) }
{
    let mut counts = Vec::with_capacity(alloc, files.len())?;
    for file in files {
        counts.push(file.held.items.len() as u64)?;
    }
    Ok(counts)
}

// What there is to say of an item that differs from the one that the file holds at its place: the line of the file, and both.
fn difference_words<F: LineFile>(
    alloc: Global,
    folder: &String,
    outlet: &ResumedOutlet<F>,
) -> Option<String> {
    let position = outlet.first_difference()?;
    let item = outlet.differing_item()?;
    let held = *outlet.held_items().get(usize::try_from(position).ok()?)?;
    let name = outlet.file().name();
    let line = position.wrapping_add(1);
    format!(in alloc;
        "{folder}/{name}: line {line} is {held}, but the item of this run is {item}\n"
    ).ok()
}

// What there is to say of a put that failed: the file, and why in the host's own words.
fn failure_words<F: LineFile>(
    alloc: Global,
    folder: &String,
    outlet: &ResumedOutlet<F>,
) -> Option<String> {
    let file = outlet.file();
    let name = file.name();
    let words = file.words(alloc).ok()?;
    format!(in alloc; "{folder}/{name}: {words}\n").ok()
}

// An outlet of a run that is over: what it took and its file lacks is put there. Refuses where an item differed from the one that the file
// held at its place, and then puts nothing; and where a put failed.
fn put_all<F: LineFile>(
    alloc: Global,
    folder: &String,
    outlet: &mut ResumedOutlet<F>,
) -> Result<(), NotKept>
    ensures kept { OnOk result (IsInFile (taken_of outlet.old) outlet.new) }
    ensures cause { IfErr result (λ refused. IsAtFault refused.fault outlet.new) }
{
    if outlet.first_difference().is_some() {
        return Err(NotKept {
            fault: KeepFault::ItemDiffers,
            words: difference_words(alloc, folder, outlet),
        });
    }
    match outlet.flush() {
        Ok(()) => Ok(()),
        Err(_) => {
            let _ = outlet.is_broken();
            Err(NotKept {
                fault: KeepFault::PutFailed,
                words: failure_words(alloc, folder, outlet),
            })
        }
    }
}

/// What the outlets of a run that is over took is put to their files, up to the first failure. They are added to `outlets`, also the one that
/// failed.
pub fn put_each<F: LineFile>(
    alloc: Global,
    folder: &String,
    outputs: Vec<Output<ResumedOutlet<F>>>,
    outlets: &mut Vec<ResumedOutlet<F>>,
) -> Result<(), NotKept>
    requires { outlets.old.items ≡ [] }
    // Each has what its outlet took.
    ensures kept { OnOk result (AreInFiles outlets.new.items (taken_streams taken_of outputs.items)) }
    // An item differed from the one that its file held at its place, a put failed, or memory is missing.
    ensures cause { IfErr result (λ refused. IsPutFault outlets.new.items refused.fault) }
{
    for output in outputs {
        let Output { mut outlet, .. } = output;
        let put = put_all(alloc, folder, &mut outlet);
        let Ok(()) = outlets.push(outlet) else {
            return Err(NotKept {
                fault: KeepFault::NoMemory,
                words: None,
            });
        };
        put?;
    }
    Ok(())
}
