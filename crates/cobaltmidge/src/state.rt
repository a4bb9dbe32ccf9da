//! A run of which what left outlasts the program: it is kept in the files of a folder, and a later run goes on with them.

ghost use Rattle.std.specs.Prelude.{◌≡◌, [], true, IfErr, IfOk, OnOk, Ok, Some, string_bytes};
ghost use Rattle.host.specs.Requests.{Each, Has, IsFree, IsHeld, Later, Read};
ghost use Rattle.protocol.specs.Node.Common.{network_of};
ghost use Rattle.run_files.specs.Leftovers.{LeavesNothing};
ghost use Rattle.run_files.specs.Opening.{AreHeldAs, AreOpened, opened_names};
ghost use Rattle.run_files.specs.Rules.{GoesOn, IsReady, rule};
ghost use Rattle.run_files.specs.Wanted.{wanted_of};
ghost use Rattle.world.specs.WholeView.{net_in, world_of};
ghost use Rattle.cobaltmidge.specs.Errors.{run_error};
ghost use Rattle.cobaltmidge.specs.declared.state_error.StateFault.TheVariants.{Kept, Refused as RefusedBy};
ghost use Rattle.cobaltmidge.specs.Accepting.{IsAccepted};
ghost use Rattle.cobaltmidge.specs.FileNames.{file_names};
ghost use Rattle.cobaltmidge.specs.KeptOutlets.{AreInFiles, IsPutFault, IsRunStop, held_counts};
ghost use Rattle.cobaltmidge.specs.KeptRuns.{IsKeptRun, IsKeptWhereRefused};
ghost use Rattle.cobaltmidge.specs.KeptStreams.{AllHeld, AreKept, AreKeptIn, IsStateCause};
ghost use Rattle.cobaltmidge.specs.Names.{script_of};
ghost use Rattle.cobaltmidge.specs.Remaining.{streams_left};
ghost use Rattle.cobaltmidge.specs.Runs.{released_streams};
ghost use Rattle.cobaltmidge.specs.Texts.{AreInputsOf, IsNetOf};

use crate::ending::RunWorld;
use crate::error::run_error;
use crate::fault::RunFault;
use crate::finished::Finished;
use crate::going_on::NotBegun;
use crate::kept_outlets::{KeepFault, NotKept, begin_fault, held_counts, outlets_over, put_each};
use crate::kept_run::{KeptRun, lists_of};
use crate::output_names::file_names;
use crate::reason::reason_of;
use crate::run::Run;
use crate::state_error::{StateError, StateFault};
use crate::texts::{Accepted, Texts};
use crate::unfinished::{Left, Unfinished, Unresumed};
use host::{Host, LineFile};
use outlet::Outlet;
use output_file::ResumedOutlet;
use run_files::{
    FolderTexts, HeldFile, Names, OpenFolder, OpenedName, give_back, let_go, open_folder,
};
use runtime::NoWatch;
use std::alloc::Global;
use std::sync::Wait;
use std::thread::Threads;

// Ends a world: what its outlets took is put to their files, which are added to `outlets`.
fn close_world<F: LineFile>(
    alloc: Global,
    folder: &String,
    world: RunWorld<ResumedOutlet<F>>,
    outlets: &mut Vec<ResumedOutlet<F>>,
) -> Result<(), NotKept>
    requires { outlets.old.items ≡ [] }
    ensures kept { OnOk result (AreInFiles outlets.new.items
        (released_streams (network_of (net_in world).value.program) (world_of world).stations)) }
    ensures cause { IfErr result (λ refused. IsPutFault outlets.new.items refused.fault) }
{
    let Ok(closed) = world.close(alloc) else {
        return Err(NotKept {
            fault: KeepFault::NoMemory,
            words: None,
        });
    };
    let (_disks, outputs) = closed;
    put_each(alloc, folder, outputs, outlets)
}

// What had left of a run that came to no end is put to its files, which are added to `outlets`.
fn put_left<F: LineFile>(
    alloc: Global,
    folder: &String,
    left: Left<ResumedOutlet<F>>,
    outlets: &mut Vec<ResumedOutlet<F>>,
) -> Result<(), NotKept>
    requires { outlets.old.items ≡ [] }
    ensures kept { OnOk result (AreInFiles outlets.new.items (streams_left left)) }
    ensures cause { IfErr result (λ refused. IsPutFault outlets.new.items refused.fault) }
{
    match left {
        Left::Outputs(outputs) => put_each(alloc, folder, outputs, outlets),
        Left::World(world, _) => close_world(alloc, folder, world, outlets),
    }
}

// A run that comes to no end, as what a run with a folder is refused for.
fn run_refused(fault: RunFault) -> StateError
    ensures { result.fault ≡ RefusedBy (run_error fault) }
{
    StateError {
        fault: StateFault::Refused(run_error(fault)),
        words: None,
    }
}

// Why a run doesn't go on, as what a run with a folder is refused for.
fn not_begun(fault: KeepFault) -> StateError
    ensures { result.fault ≡ Kept fault }
{
    StateError {
        fault: StateFault::Kept(fault),
        words: None,
    }
}

// Lets it go on where these files stop, so that the items leave into them, one for each output; they are added to `outlets`. Where the run is
// refused, what had left by then is put there all the same.
fn run_over<'a, F: LineFile + Send, R: Threads + Wait + Sync>(
    run: Run<'a>,
    rt: &R,
    alloc: Global,
    folder: &String,
    files: Vec<HeldFile<F>>,
    outlets: &mut Vec<ResumedOutlet<F>>,
) -> Result<KeptRun<'a>, StateError>
    requires { outlets.old.items ≡ [] }
    ensures run { IfOk result (λ kept. ∥ IsKeptRun run.entry.settings (network_of run.entry.network.now.net.value.program)
        run.entry.inputs (script_of run.entry.script) (λ counts. counts ≡ held_counts files.items)
        (AreInFiles outlets.new.items) kept ∥₁) }
    ensures network { IfOk result (λ kept. kept.network ≡ run.entry.network) }
    ensures cause { IfErr result (λ error. IsRunStop true outlets.new.items error.fault) }
    ensures left { IfErr result (λ error. IsKeptWhereRefused (network_of run.entry.network.now.net.value.program)
        run.entry.inputs (AreInFiles outlets.new.items) error.fault) }
{
    let held = held_counts(alloc, files.as_slice())?;
    let outputs = match outlets_over(alloc, &run.network.net, files) {
        Ok(outputs) => outputs,
        Err(fault) => {
            return Err(StateError {
                fault: StateFault::Kept(fault),
                words: None,
            });
        }
    };
    let finished = match run.resume(rt, alloc, outputs, &held, &mut NoWatch) {
        Ok(finished) => finished,
        Err(Unresumed::NotBegun(refused)) => {
            let NotBegun { outputs, fault } = refused;
            // It says where an item differs, or a put failed.
            put_each(alloc, folder, outputs, outlets)?;
            return Err(not_begun(begin_fault(fault)));
        }
        Err(Unresumed::Unfinished(unfinished)) => {
            let Unfinished { fault, left } = unfinished;
            put_left(alloc, folder, left, outlets)?;
            return Err(run_refused(fault));
        }
    };
    let Finished {
        network,
        world,
        history,
        end,
        settings,
    } = finished;
    let complete = world.complete();
    let reason = reason_of(&network.net, &world, end, settings);
    let lists = lists_of(alloc, &world, network.net.program.channels.len())?;
    close_world(alloc, folder, world, outlets)?;
    Ok(KeptRun {
        network,
        lists,
        complete,
        history,
        end,
        reason,
    })
}

// A run over the files of a folder that is this run's, and what they were asked.
fn run_locked<'a, H: Host, R: Threads + Wait + Sync>(
    run: Run<'a>,
    rt: &R,
    alloc: Global,
    host: &mut H,
    names: &Names,
    folder: &String,
    files: Vec<HeldFile<H::Lines>>,
    opened: &[OpenedName],
) -> Result<KeptRun<'a>, StateError>
    requires held { IsHeld (string_bytes folder.now) (H.asked host.old) }
    requires opened { AreOpened names.now.sync (string_bytes folder.now) opened.now (H.asked host.old) }
    requires files { AreHeldAs opened.now files.items (H.asked host.old) }
    ensures goes { GoesOn IsAccepted (wanted_of names.now) (H.asked host.old) (H.asked host.new) }
    ensures run { IfOk result (λ kept. ∥ IsKeptRun run.entry.settings (network_of run.entry.network.now.net.value.program)
        run.entry.inputs (script_of run.entry.script)
        (AllHeld names.now.sync (string_bytes folder.now) (opened_names opened.now) (H.asked host.new))
        (AreKeptIn names.now.sync (string_bytes folder.now) (opened_names opened.now) (H.asked host.new)) kept ∥₁) }
    ensures network { IfOk result (λ kept. kept.network ≡ run.entry.network) }
    ensures cause { IfErr result (λ error. IsStateCause true (wanted_of names.now) (H.asked host.new) error.fault) }
    ensures left { IfErr result (λ error. IsKeptWhereRefused (network_of run.entry.network.now.net.value.program)
        run.entry.inputs (AreKeptIn names.now.sync (string_bytes folder.now) (opened_names opened.now) (H.asked host.new))
        error.fault) }
{
    let mut outlets = Vec::new(alloc);
    let kept = run_over(run, rt, alloc, folder, files, &mut outlets);
    // Also where it failed, so that what the files were asked stands in the host's log.
    give_back::<H, Accepted>(host, alloc, names, folder, opened, outlets)?;
    kept
}

impl<'a> Run<'a> {
    /// Runs it, and keeps what leaves in this folder, which is made where it isn't there. A later run over the folder goes on with it: it
    /// compares the first items with those of its files, and adds what comes behind them. The folder is refused where another run is at work
    /// in it, and where it is of other texts. Where the run's inputs have grown from those of the folder's text, each list by items at its end,
    /// the folder is this run's, and its text is replaced before anything is added to a file of it.
    ///
    /// The run's network and inputs are those of the texts, which were read by these names (`read_texts`).
    pub fn state<H: Host, R: Threads + Wait + Sync>(
        self,
        rt: &R,
        alloc: Global,
        host: &mut H,
        names: &Names,
        folder: &String,
        texts: &Texts,
    ) -> Result<KeptRun<'a>, StateError>
        requires free { IsFree (H.asked host.old) }
        requires ready { IsReady IsAccepted (wanted_of names.now) (H.asked host.old) }
        requires wanted { (wanted_of names.now).state ≡ Some (string_bytes folder.now) }
        requires net_read { Has (Read (wanted_of names.now).net (Ok texts.now.net.items)) (H.asked host.old) }
        requires inputs_read { Has (Read (wanted_of names.now).inputs (Ok texts.now.inputs.items)) (H.asked host.old) }
        requires net { IsNetOf texts.now.net.items self.network.now.net.value }
        requires inputs { AreInputsOf texts.now.inputs.items self.network.now.net.value self.inputs }
        // Each request keeps the rules, whatever the host answers.
        ensures rules { Each (rule IsAccepted (wanted_of names.now)) (H.asked host.old)
            → Each (rule IsAccepted (wanted_of names.now)) (H.asked host.new) }
        ensures later { Later (H.asked host.old) (H.asked host.new) }
        // Nothing is left that it made: each file and folder got the name that is asked for, or the host was asked to take it away.
        ensures cleared { LeavesNothing (H.asked host.old) (H.asked host.new) }
        // No lock is held at the end.
        ensures free { IsFree (H.asked host.new) }
        // It goes on behind what the files held. What has left are prefixes of the outputs' histories in one approximation, and where the run is
        // complete whole, in the least solution. Each output's stream is kept in its own file of the folder.
        ensures run { IfOk result (λ kept. ∥ IsKeptRun self.entry.settings (network_of self.entry.network.now.net.value.program)
            self.entry.inputs (script_of self.entry.script)
            (AllHeld names.now.sync (string_bytes folder.now)
            (file_names self.entry.network.now.net.value.program.channels.items self.entry.network.now.net.value.channel_names.items)
            (H.asked host.new))
            (AreKept names.now.sync (Some (string_bytes folder.now))
            (file_names self.entry.network.now.net.value.program.channels.items self.entry.network.now.net.value.channel_names.items)
            (H.asked host.new)) kept ∥₁) }
        ensures network { IfOk result (λ kept. kept.network ≡ self.entry.network) }
        // Why it comes to no end stands in the log, or is a fault of the run.
        ensures cause { IfErr result (λ error. IsStateCause true (wanted_of names.now) (H.asked host.new)
            error.fault) }
        // Where the run itself is refused, what had left by then is kept too.
        ensures left { IfErr result (λ error. IsKeptWhereRefused (network_of self.entry.network.now.net.value.program)
            self.entry.inputs (AreKept names.now.sync (Some (string_bytes folder.now))
            (file_names self.entry.network.now.net.value.program.channels.items self.entry.network.now.net.value.channel_names.items)
            (H.asked host.new)) error.fault) }
    {
        let outputs = file_names(alloc, &self.network.net)?;
        let folder_texts = FolderTexts {
            net: &texts.net,
            inputs: &texts.inputs,
        };
        let network = self.network;
        let judge = Accepted {
            net: &network.net,
            inputs: &self.inputs,
        };
        let open = open_folder::<H, Accepted>(
            host,
            alloc,
            names,
            &judge,
            folder,
            folder_texts,
            outputs,
        )?;
        let OpenFolder {
            lock,
            files,
            opened,
        } = open;
        let kept = run_locked(
            self,
            rt,
            alloc,
            host,
            names,
            folder,
            files,
            opened.as_slice(),
        );
        let_go::<H, Accepted>(host, names, folder, lock);
        kept
    }
}
