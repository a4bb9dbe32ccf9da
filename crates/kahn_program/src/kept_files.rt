//! Outlets over files, which outlast a run.

ghost use Rattle.std.specs.Prelude.{◌≡◌, Some, true, IfErr, IfOk, OnOk};
ghost use Rattle.std.specs.List.{AllByRecursion};
ghost use Rattle.output_file.specs.Output.{taken_of};
ghost use Rattle.protocol.specs.Node.Common.{Fits, network_of};
ghost use Rattle.cobaltmidge.specs.Beginning.{IsBeginning};
ghost use Rattle.cobaltmidge.specs.Common.{capacities_in, world_of};
ghost use Rattle.cobaltmidge.specs.FirstWorld.{IsRunRoom};
ghost use Rattle.kahn_program.specs.Keeping.{IsKeeperFailure, IsKeptFailure, taken_streams};
ghost use Rattle.kahn_program.specs.KeptFiles.{AreInFiles, HasFailedBy, closed_of, held_counts, held_of, keep_failure};
ghost use Rattle.kahn_program.specs.Runnable.{IsReportless};

use crate::failure::Failure;
use crate::keeper::Keeper;
use cobaltmidge::{
    KeepFault, NotBegun, Output, RunWorld, begin_fault, held_counts, node_count, outlets_over,
    put_each, resume_world,
};
use host::LineFile;
use net_check::{Inputs, Net};
use output_file::ResumedOutlet;
use run_files::HeldFile;
use std::alloc::Global;
use std::mem;
use std::sync::Arc;

/// The refusal of a folder that is another network's, or has other inputs, or is damaged.
pub const OTHER_STATE: u8 = 80;

/// The refusal of a run of which an item differs from the one that a file holds at its place.
pub const ITEM_DIFFERS: u8 = 81;

/// The refusal of a run of which a file failed.
pub const FILE_FAILED: u8 = 82;

/// The refusal of a run whose files came back otherwise than they were opened: a fault of this program.
pub const ASTRAY: u8 = 83;

/// A run's outlets over files, one for each output, in order of the channels.
#[derive(Drop)]
pub struct FileKeeper<'a, F: LineFile> {
    // the folder in which they stand
    folder: &'a String,
    // in order of the channels
    files: Vec<HeldFile<F>>,
    // those of a run that is over, also of one that failed
    closed: Vec<ResumedOutlet<F>>,
    // what there is to say of the file that failed
    words: Option<String>,
}

impl<'a, F: LineFile> FileKeeper<'a, F> {
    /// A run's outlets over these files of a folder, one for each output, in order of the channels.
    pub fn new(alloc: Global, folder: &'a String, files: Vec<HeldFile<F>>) -> FileKeeper<'a, F>
        ensures { held_of result ≡ held_counts files.items }
    {
        FileKeeper {
            folder,
            files,
            closed: Vec::new(alloc),
            words: None,
        }
    }

    /// The outlets of a run that is over, in order of the channels: of one that failed those up to the one that did.
    pub fn into_closed(self) -> Vec<ResumedOutlet<F>>
        ensures { result.items ≡ closed_of self.entry }
    {
        let FileKeeper { closed, .. } = self;
        closed
    }
}

// What a fault of what is kept comes to.
fn keep_failure(fault: KeepFault) -> Failure
    ensures same { result ≡ keep_failure fault }
    ensures err { IsKeeperFailure true result }
{
    match fault {
        KeepFault::NoMemory => Failure::NoMemory,
        KeepFault::Astray => Failure::State { number: ASTRAY },
        KeepFault::ItemDiffers => Failure::State {
            number: ITEM_DIFFERS,
        },
        KeepFault::PutFailed => Failure::State {
            number: FILE_FAILED,
        },
    }
}

impl<'a, F: LineFile> Keeper<ResumedOutlet<F>> for FileKeeper<'a, F> {
    ghost keeps = { true };

    ghost held = { λ keeper. Some (held_of keeper) };

    ghost has_kept = { λ keeper streams. AreInFiles keeper.closed.items streams };

    ghost has_failed = { λ keeper number. HasFailedBy keeper number };

    fn begin(
        &mut self,
        alloc: Global,
        net: &Arc<Net>,
        inputs: Inputs,
        room: u64,
    ) -> Result<RunWorld<ResumedOutlet<F>>, Failure>
        requires fitting { Fits (network_of net.now.value.program) inputs }
        ensures begins { IfOk result
            (λ world. IsBeginning (Some (held_of self.old)) (network_of net.now.value.program) inputs room (world_of world)) }
        ensures room { IfOk result (λ world. AllByRecursion IsRunRoom (capacities_in world)) }
        ensures err { IfErr result (IsReportless true) }
        ensures cause { IfErr result (IsKeptFailure (HasFailedBy self.new)) }
    {
        let files = mem::replace(&mut self.files, Vec::new(alloc));
        let Ok(held) = held_counts(alloc, files.as_slice()) else {
            return Err(Failure::NoMemory);
        };
        let outputs = match outlets_over(alloc, net, files) {
            Ok(outputs) => outputs,
            Err(fault) => return Err(keep_failure(fault)),
        };
        let nodes = node_count(net);
        match resume_world(alloc, net, inputs, outputs, &held, nodes, room) {
            Ok(world) => Ok(world),
            Err(refused) => {
                let NotBegun { outputs, fault } = refused;
                // It says where an item differs, or a put failed.
                self.close(alloc, outputs)?;
                Err(keep_failure(begin_fault(fault)))
            }
        }
    }

    fn close(
        &mut self,
        alloc: Global,
        outputs: Vec<Output<ResumedOutlet<F>>>,
    ) -> Result<(), Failure>
        ensures kept { OnOk result (AreInFiles self.new.closed.items
            (taken_streams taken_of outputs.items)) }
        ensures err { IfErr result (IsKeeperFailure true) }
        ensures cause { IfErr result (IsKeptFailure (HasFailedBy self.new)) }
    {
        let mut outlets = Vec::new(alloc);
        let put = put_each(alloc, self.folder, outputs, &mut outlets);
        self.closed = outlets;
        match put {
            Ok(()) => Ok(()),
            Err(refused) => {
                self.words = refused.words;
                Err(keep_failure(refused.fault))
            }
        }
    }

    fn take_words(&mut self) -> Option<String> {
        self.words.take()
    }
}
