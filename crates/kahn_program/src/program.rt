//! The whole program over its host.

ghost use Rattle.std.specs.Prelude.{Bool, ◌≡◌, ◌⊎◌, ◌≤◌, IfErr, IfOk, OnOk, Ok, Err, Some, map, string_bytes};
ghost use Rattle.std.specs.Option.{option_map};
ghost use Rattle.host.specs.Requests.{Each, Has, IsFree, IsHeld, Read, Said, Told};
ghost use Rattle.protocol.specs.Node.Common.{Fits, MAX_NODES, network_of, node_count};
ghost use Rattle.cobaltmidge.specs.Texts.{AreInputsOf, IsNetOf};
ghost use Rattle.fail_script.specs.Lines.{IsScript};
ghost use Rattle.kahn_program.specs.Program.{IsAccepted, IsOpenIfAsked, IsWrittenIfAsked, Keeps, asked_files, file_names, given_of, made_for, AreKept, AreKeptIn, HasReport, IsDone, WereHeld};
ghost use Rattle.kahn_program.specs.Causes.{HasCause, HasFailed, HasFileFault, IsRefused, IsScriptStop, IsStopped, IsToldOf, IsUnread};
ghost use Rattle.kahn_program.specs.Failures.{failure_line, status_of};
ghost use Rattle.kahn_program.specs.Readings.{IsInputsFailure, IsNetFailure, IsScriptFailure};
ghost use Rattle.kahn_program.specs.Runs.{IsReport};
ghost use Rattle.kahn_program.specs.Scripts.{AreLinesOf};
ghost use Rattle.kahn_program.specs.Statuses.{status_of_run};
ghost use Rattle.cobaltmidge.specs.Scripts.{scripted_of};
ghost use Rattle.run_files.specs.Leftovers.{AreGone, LeavesNothing};
ghost use Rattle.run_files.specs.Opening.{AreHeldAs, AreOpened, opened_names};
ghost use Rattle.run_files.specs.Rules.{GoesOn, GoesWith, IsReady, WasReadIf, WereRead, rule};
ghost use Rattle.run_files.specs.Wanted.{wanted_of};
ghost use Rattle.host.specs.declared.fault.HostFault.{HostFault};

use crate::approximating::report_of_approximation;
use crate::asked::Options;
use crate::explaining::explanation;
use crate::failure::{Failure, Source};
use crate::keeper::{InMemory, Keeper};
use crate::kept_files::{ASTRAY, FILE_FAILED, FileKeeper, OTHER_STATE};
use crate::network_run::{Report, report_of_run};
use crate::reading::{read_inputs, read_net, read_script};
use cobaltmidge::{Accepted, RunWatch, TurnWatch, events_of, file_names, node_count};
use fail_script::{Script, ScriptLine};
use host::{Host, HostFault};
use net_check::{Inputs, Net};
use outlet::{ListOutlet, Outlet};
use output_file::ResumedOutlet;
use run_files::{
    FilesFault, FolderTexts, HeldFile, HistoryFile, Names, OpenFolder, OpenedName, Refused,
    drop_history, finish_history, give_back, let_go, open_folder, open_history, read, say, tell,
    tell_apart,
};
use std::alloc::{AllocError, Global};
use std::sync::Wait;
use std::thread::Threads;

/// Why the program ends without a report, and what there is to say of it besides.
#[derive(Drop)]
pub struct Stop {
    pub failure: Failure,
    pub words: Option<String>,
}

impl From<AllocError> for Stop {
    ghost use Rattle.kahn_program.specs.declared.failure.Failure.TheVariants.{NoMemory};
    ghost use Rattle.std.specs.Prelude.{◌≡◌};

    ghost from_gives = { λ _ stop. stop.failure ≡ NoMemory };

    fn from(_: AllocError) -> Self {
        Stop {
            failure: Failure::NoMemory,
            words: None,
        }
    }
}

impl From<Failure> for Stop {
    ghost use Rattle.std.specs.Prelude.{◌≡◌};

    ghost from_gives = { λ failure stop. stop.failure ≡ failure };

    fn from(failure: Failure) -> Self {
        Stop {
            failure,
            words: None,
        }
    }
}

impl From<Refused> for Stop {
    ghost use Rattle.std.specs.Prelude.{◌≡◌};
    ghost use Rattle.kahn_program.specs.Causes.{failure_of};

    ghost from_gives = { λ refused stop. stop.failure ≡ failure_of refused.fault };

    fn from(refused: Refused) -> Self {
        Stop {
            failure: match refused.fault {
                FilesFault::NoMemory => Failure::NoMemory,
                FilesFault::InUse => Failure::InUse,
                FilesFault::OtherState => Failure::State {
                    number: OTHER_STATE,
                },
                FilesFault::Failed => Failure::State {
                    number: FILE_FAILED,
                },
                FilesFault::Unwritten => Failure::Unwritten,
                FilesFault::Astray => Failure::State { number: ASTRAY },
            },
            words: refused.words,
        }
    }
}

/// The texts of a run, as they were read.
#[derive(Drop)]
pub struct Texts {
    pub net: Vec<u8>,
    pub inputs: Vec<u8>,
    pub script: Option<Vec<u8>>,
}

/// What a run is of. The script's text is only looked at where its end is told.
#[derive(Drop)]
struct RunTexts<'a> {
    net: Net,
    inputs: Inputs,
    lines: Vec<ScriptLine>,
    script: Option<&'a [u8]>,
}

/// The names that a command line gives. An approximation needs no script, and nothing outlasts it.
pub(crate) fn names_of(options: &Options) -> Result<Names, AllocError>
    ensures { IfOk result (λ names. wanted_of names ≡ asked_files options.now) }
{
    let net = options.net.clone()?;
    let inputs = options.inputs.clone()?;
    if options.approx.is_some() {
        return Ok(Names {
            net,
            inputs,
            script: None,
            history: None,
            state: None,
            sync: false,
        });
    }
    Ok(Names {
        net,
        inputs,
        script: copied(&options.script)?,
        history: copied(&options.history)?,
        state: copied(&options.state)?,
        sync: options.sync,
    })
}

// A copy of a name, if there is one.
fn copied(name: &Option<String>) -> Result<Option<String>, AllocError>
    ensures { IfOk result (λ copy. option_map string_bytes copy ≡ option_map string_bytes name.now) }
{
    match name {
        Some(name) => Ok(Some(name.clone()?)),
        None => Ok(None),
    }
}

// The bytes of a text.
fn read_bytes<H: Host>(
    host: &mut H,
    alloc: Global,
    names: &Names,
    source: Source,
    path: &String,
) -> Result<Vec<u8>, Stop>
    ensures goes { GoesOn IsAccepted (wanted_of names.now) (H.asked host.old) (H.asked host.new) }
    ensures read { IfOk result (λ bytes. Has (Read (string_bytes path.now) (Ok bytes.items)) (H.asked host.new)) }
    ensures unread { IfErr result (λ stop. IsUnread source (string_bytes path.now) (H.asked host.new) stop.failure) }
{
    match read::<H, Accepted>(host, names, path) {
        Ok(bytes) => Ok(bytes),
        Err(HostFault::NoMemory) => Err(Stop::from(AllocError)),
        Err(_) => Err(Stop {
            failure: Failure::Unreadable(source),
            words: words_of(host, alloc, path.as_str()),
        }),
    }
}

// A name, and the host's own words.
fn words_of<H: Host>(host: &H, alloc: Global, path: &str) -> Option<String> {
    match host.words(alloc) {
        Ok(words) => format!(in alloc; "{path}: {words}\n").ok(),
        Err(_) => None,
    }
}

// A text that is refused, and what there is to say of it where that is asked for.
fn refused_text(
    alloc: Global,
    options: &Options,
    failure: Failure,
    net: &[u8],
    inputs: Option<&[u8]>,
    script: Option<&[u8]>,
) -> Stop
    ensures { result.failure ≡ failure }
{
    let words = if options.explain {
        explanation(alloc, options, Some(net), inputs, script).unwrap_or(None)
    } else {
        None
    };
    Stop { failure, words }
}

// The network of a text.
fn net_of(alloc: Global, options: &Options, net: &Vec<u8>) -> Result<Net, Stop>
    ensures net { IfOk result (IsNetOf net.now.items) }
    ensures cause { IfErr result (λ stop. IsNetFailure net.now.items stop.failure) }
{
    match read_net(alloc, net.as_slice()) {
        Ok(net) => Ok(net),
        Err(failure) => Err(refused_text(alloc, options, failure, net.as_slice(), None, None)),
    }
}

// The items of a text for the network's inputs.
fn inputs_of(
    alloc: Global,
    options: &Options,
    net_text: &Vec<u8>,
    inputs: &Vec<u8>,
    net: &Net,
) -> Result<Inputs, Stop>
    ensures inputs { IfOk result (AreInputsOf inputs.now.items net.now) }
    ensures fitting { IfOk result (Fits (network_of net.now.program)) }
    ensures cause { IfErr result (λ stop. IsInputsFailure net.now inputs.now.items stop.failure) }
{
    match read_inputs(alloc, inputs.as_slice(), net) {
        Ok(inputs) => Ok(inputs),
        Err(failure) => {
            let read = Some(inputs.as_slice());
            Err(refused_text(alloc, options, failure, net_text.as_slice(), read, None))
        }
    }
}

// The lines of a script.
fn lines_of(
    alloc: Global,
    options: &Options,
    net_text: &Vec<u8>,
    inputs: &Vec<u8>,
    script: &Vec<u8>,
    nodes: usize,
) -> Result<Vec<ScriptLine>, Stop>
    requires { nodes ≤ MAX_NODES }
    ensures lines { IfOk result (λ lines. IsScript nodes script.now.items lines.items) }
    ensures cause { IfErr result (λ stop. IsScriptFailure nodes script.now.items stop.failure) }
{
    match read_script(alloc, script.as_slice(), nodes as u8) {
        Ok(Script { lines }) => Ok(lines),
        Err(failure) => {
            let (inputs, script) = (Some(inputs.as_slice()), Some(script.as_slice()));
            Err(refused_text(alloc, options, failure, net_text.as_slice(), inputs, script))
        }
    }
}

// The script, if one is asked for, and its lines.
fn read_lines<H: Host>(
    host: &mut H,
    alloc: Global,
    options: &Options,
    names: &Names,
    net: &Vec<u8>,
    inputs: &Vec<u8>,
    nodes: usize,
) -> Result<(Option<Vec<u8>>, Vec<ScriptLine>), Stop>
    requires { nodes ≤ MAX_NODES }
    ensures goes { GoesOn IsAccepted (wanted_of names.now) (H.asked host.old) (H.asked host.new) }
    ensures read { IfOk result (λ script. WasReadIf (wanted_of names.now).script
        (option_map (λ bytes. bytes.items) script.0) (H.asked host.new)) }
    ensures lines { IfOk result (λ script. AreLinesOf names.now.script nodes
        (option_map (λ bytes. bytes.items) script.0) script.1.items) }
    ensures cause { IfErr result (λ stop. IsScriptStop (wanted_of names.now).script nodes (H.asked host.new) stop.failure) }
{
    match &names.script {
        Some(path) => {
            let script = read_bytes(host, alloc, names, Source::Script, path)?;
            let lines = lines_of(alloc, options, net, inputs, &script, nodes)?;
            Ok((Some(script), lines))
        }
        None => Ok((None, Vec::new(alloc))),
    }
}

/// The texts of a run, and what they are.
#[derive(Drop)]
struct Checked {
    texts: Texts,
    net: Net,
    inputs: Inputs,
    lines: Vec<ScriptLine>,
}

// The texts that are asked for: each is read and checked before the next one is opened.
fn read_all<H: Host>(
    host: &mut H,
    alloc: Global,
    options: &Options,
    names: &Names,
) -> Result<Checked, Stop>
    ensures goes { GoesOn IsAccepted (wanted_of names.now) (H.asked host.old) (H.asked host.new) }
    ensures read { IfOk result (λ all. WereRead (wanted_of names.now) (given_of all.texts) (H.asked host.new)) }
    ensures net { IfOk result (λ all. IsNetOf all.texts.net.items all.net) }
    ensures inputs { IfOk result (λ all. AreInputsOf all.texts.inputs.items all.net all.inputs) }
    ensures fitting { IfOk result (λ all. Fits (network_of all.net.program) all.inputs) }
    ensures lines { IfOk result (λ all. AreLinesOf names.now.script (node_count (network_of all.net.program))
        (given_of all.texts).script all.lines.items) }
    ensures cause { IfErr result (λ stop. HasCause (wanted_of names.now) (H.asked host.new) stop.failure) }
{
    let net_text = read_bytes(host, alloc, names, Source::Net, &names.net)?;
    let net = net_of(alloc, options, &net_text)?;
    let inputs_text = read_bytes(host, alloc, names, Source::Inputs, &names.inputs)?;
    let inputs = inputs_of(alloc, options, &net_text, &inputs_text, &net)?;
    let (script, lines) = read_lines(
        host,
        alloc,
        options,
        names,
        &net_text,
        &inputs_text,
        node_count(&net),
    )?;
    let texts = Texts {
        net: net_text,
        inputs: inputs_text,
        script,
    };
    Ok(Checked {
        texts,
        net,
        inputs,
        lines,
    })
}

// The file into which what happens is to be written, if that is asked for.
fn open_if_asked<H: Host>(
    host: &mut H,
    alloc: Global,
    names: &Names,
) -> Result<Option<HistoryFile<H::File>>, Stop>
    requires { IsReady IsAccepted (wanted_of names.now) (H.asked host.old) }
    ensures goes { IfOk result (λ history. GoesWith (made_for history) IsAccepted (wanted_of names.now) (H.asked host.old) (H.asked host.new)) }
    ensures failed { IfErr result (λ stop. GoesOn IsAccepted (wanted_of names.now) (H.asked host.old) (H.asked host.new)) }
    ensures open { IfOk result (λ history. IsOpenIfAsked H.path_of (wanted_of names.now).history history (H.asked host.new)) }
    ensures cause { IfErr result (λ stop. IsStopped (λ number. ⊥) (wanted_of names.now) (H.asked host.new) stop.failure) }
{
    match &names.history {
        Some(path) => Ok(Some(open_history::<H, Accepted>(host, alloc, names, path)?)),
        None => Ok(None),
    }
}

// Writes what happened, where that is asked for.
fn finish_if_asked<H: Host>(
    host: &mut H,
    alloc: Global,
    names: &Names,
    history: Option<HistoryFile<H::File>>,
    happened: &Vec<u8>,
) -> Result<(), Stop>
    requires ready { IsReady IsAccepted (wanted_of names.now) (H.asked host.old) }
    requires open { IsOpenIfAsked H.path_of (wanted_of names.now).history history (H.asked host.old) }
    ensures goes { GoesOn IsAccepted (wanted_of names.now) (H.asked host.old) (H.asked host.new) }
    ensures gone { AreGone (made_for history) (H.asked host.new) }
    ensures written { OnOk result (IsWrittenIfAsked (wanted_of names.now).history (H.asked host.new) happened.now.items) }
    ensures cause { IfErr result (λ stop. IsStopped (λ number. ⊥) (wanted_of names.now) (H.asked host.new) stop.failure) }
{
    match history {
        Some(history) => match &names.history {
            Some(path) => {
                finish_history::<H, Accepted>(host, alloc, names, path, history, happened)?;
                Ok(())
            }
            None => {
                drop_history::<H, Accepted>(host, names, history);
                Ok(())
            }
        },
        None => Ok(()),
    }
}

// Takes away what was made for what happens, where nothing is written.
fn drop_if_asked<H: Host>(host: &mut H, names: &Names, history: Option<HistoryFile<H::File>>)
    requires { IsOpenIfAsked H.path_of (wanted_of names.now).history history (H.asked host.old) }
    ensures goes { GoesOn IsAccepted (wanted_of names.now) (H.asked host.old) (H.asked host.new) }
    ensures gone { AreGone (made_for history) (H.asked host.new) }
{
    match history {
        Some(history) => drop_history::<H, Accepted>(host, names, history),
        None => {}
    }
}

// A run by outlets of this keeper, and what happened in it, written where that is asked for.
fn run_over<
    H: Host,
    O: Outlet + Send,
    K: Keeper<O>,
    P: RunWatch + TurnWatch + Sync,
    R: Threads + Wait + Sync,
>(
    rt: &R,
    alloc: Global,
    host: &mut H,
    options: &Options,
    names: &Names,
    asked: RunTexts<'_>,
    keeper: &mut K,
    watch: &mut P,
) -> Result<Report, Stop>
    requires ready { IsReady IsAccepted (wanted_of names.now) (H.asked host.old) }
    requires fitting { Fits (network_of asked.net.program) asked.inputs }
    ensures goes { GoesOn IsAccepted (wanted_of names.now) (H.asked host.old) (H.asked host.new) }
    ensures report { IfOk result (λ report. IsReport (λ counts. counts ≡ K.held keeper.old) (K.has_kept keeper.new)
        (IsWrittenIfAsked (wanted_of names.now).history (H.asked host.new)) options.now asked.entry.net asked.entry.inputs
        (map scripted_of asked.entry.lines.items) report.bytes.items report.complete) }
    ensures cause { IfErr result (λ stop. IsStopped (K.has_failed keeper.new) (wanted_of names.now) (H.asked host.new) stop.failure) }
{
    let RunTexts {
        net,
        inputs,
        lines,
        script,
    } = asked;
    let events = events_of(alloc, &lines)?;
    let history = open_if_asked(host, alloc, names)?;
    match report_of_run(
        rt, alloc, options, net, inputs, events, script, keeper, watch,
    ) {
        Ok((report, happened)) => {
            finish_if_asked(host, alloc, names, history, &happened)?;
            Ok(report)
        }
        Err(failure) => {
            drop_if_asked(host, names, history);
            let words = keeper.take_words();
            Err(Stop { failure, words })
        }
    }
}

// A run over the files of a folder that is this run's, and what they were asked.
fn run_locked<H: Host, P: RunWatch + TurnWatch + Sync, R: Threads + Wait + Sync>(
    rt: &R,
    alloc: Global,
    host: &mut H,
    options: &Options,
    names: &Names,
    folder: &String,
    files: Vec<HeldFile<H::Lines>>,
    opened: &[OpenedName],
    asked: RunTexts<'_>,
    watch: &mut P,
) -> Result<Report, Stop>
    requires ready { IsReady IsAccepted (wanted_of names.now) (H.asked host.old) }
    requires fitting { Fits (network_of asked.net.program) asked.inputs }
    requires held { IsHeld (string_bytes folder.now) (H.asked host.old) }
    requires opened { AreOpened names.now.sync (string_bytes folder.now) opened.now (H.asked host.old) }
    requires files { AreHeldAs opened.now files.items (H.asked host.old) }
    ensures goes { GoesOn IsAccepted (wanted_of names.now) (H.asked host.old) (H.asked host.new) }
    ensures report { IfOk result (λ report. IsReport
        (WereHeld names.now.sync (Some (string_bytes folder.now)) (opened_names opened.now) (H.asked host.new))
        (AreKeptIn names.now.sync (string_bytes folder.now) (opened_names opened.now) (H.asked host.new))
        (IsWrittenIfAsked (wanted_of names.now).history (H.asked host.new)) options.now asked.entry.net asked.entry.inputs
        (map scripted_of asked.entry.lines.items) report.bytes.items report.complete) }
    ensures cause { IfErr result (λ stop. IsStopped (HasFileFault (wanted_of names.now) (H.asked host.new)) (wanted_of names.now)
        (H.asked host.new) stop.failure) }
{
    let mut keeper = FileKeeper::new(alloc, folder, files);
    let report = run_over::<H, ResumedOutlet<H::Lines>, _, _, _>(
        rt,
        alloc,
        host,
        options,
        names,
        asked,
        &mut keeper,
        watch,
    );
    // Also where it failed, so that what the files were asked stands in the host's log.
    give_back::<H, Accepted>(host, alloc, names, folder, opened, keeper.into_closed())?;
    report
}

// A run of which what left is kept in a folder.
fn run_kept<H: Host, P: RunWatch + TurnWatch + Sync, R: Threads + Wait + Sync>(
    rt: &R,
    alloc: Global,
    host: &mut H,
    options: &Options,
    names: &Names,
    folder: &String,
    texts: &Texts,
    asked: RunTexts<'_>,
    watch: &mut P,
) -> Result<Report, Stop>
    requires free { IsFree (H.asked host.old) }
    requires ready { IsReady IsAccepted (wanted_of names.now) (H.asked host.old) }
    requires wanted { (wanted_of names.now).state ≡ Some (string_bytes folder.now) }
    requires read { WereRead (wanted_of names.now) (given_of texts.now) (H.asked host.old) }
    requires net { IsNetOf texts.now.net.items asked.net }
    requires inputs { AreInputsOf texts.now.inputs.items asked.net asked.inputs }
    requires fitting { Fits (network_of asked.net.program) asked.inputs }
    ensures keeps { Keeps (wanted_of names.now) (H.asked host.old) (H.asked host.new) }
    ensures report { IfOk result (λ report. IsReport
        (WereHeld names.now.sync (Some (string_bytes folder.now))
        (file_names asked.entry.net.program.channels.items asked.entry.net.channel_names.items) (H.asked host.new))
        (AreKept names.now.sync (Some (string_bytes folder.now))
        (file_names asked.entry.net.program.channels.items asked.entry.net.channel_names.items) (H.asked host.new))
        (IsWrittenIfAsked (wanted_of names.now).history (H.asked host.new)) options.now asked.entry.net asked.entry.inputs
        (map scripted_of asked.entry.lines.items) report.bytes.items report.complete) }
    ensures cause { IfErr result (λ stop. IsStopped (HasFileFault (wanted_of names.now) (H.asked host.new)) (wanted_of names.now)
        (H.asked host.new) stop.failure) }
{
    let outputs = file_names(alloc, &asked.net)?;
    let folder_texts = FolderTexts {
        net: &texts.net,
        inputs: &texts.inputs,
    };
    let judge = Accepted {
        net: &asked.net,
        inputs: &asked.inputs,
    };
    let open = open_folder::<H, Accepted>(
        host,
        alloc,
        names,
        &judge,
        folder,
        folder_texts,
        outputs,
    )?;
    let OpenFolder {
        lock,
        files,
        opened,
    } = open;
    match run_locked(
        rt,
        alloc,
        host,
        options,
        names,
        folder,
        files,
        opened.as_slice(),
        asked,
        watch,
    ) {
        Ok(report) => {
            let_go::<H, Accepted>(host, names, folder, lock);
            Ok(report)
        }
        Err(stop) => {
            let_go::<H, Accepted>(host, names, folder, lock);
            Err(stop)
        }
    }
}

// The text of the script, if there is one.
fn script_text(texts: &Texts) -> Option<&[u8]> {
    match &texts.script {
        Some(script) => Some(script.as_slice()),
        None => None,
    }
}

// The run that is asked for.
fn run_asked<H: Host, P: RunWatch + TurnWatch + Sync, R: Threads + Wait + Sync>(
    rt: &R,
    alloc: Global,
    host: &mut H,
    options: &Options,
    names: &Names,
    all: Checked,
    watch: &mut P,
) -> Result<Report, Stop>
    requires free { IsFree (H.asked host.old) }
    requires read { WereRead (wanted_of names.now) (given_of all.texts) (H.asked host.old) }
    requires accepted { IsAccepted (given_of all.texts) }
    requires net { IsNetOf all.texts.net.items all.net }
    requires inputs { AreInputsOf all.texts.inputs.items all.net all.inputs }
    requires fitting { Fits (network_of all.net.program) all.inputs }
    requires wanted { wanted_of names.now ≡ asked_files options.now }
    ensures keeps { Keeps (wanted_of names.now) (H.asked host.old) (H.asked host.new) }
    ensures report { IfOk result (λ report. IsReport
        (WereHeld names.now.sync (wanted_of names.now).state
        (file_names all.net.program.channels.items all.net.channel_names.items) (H.asked host.new))
        (AreKept names.now.sync (wanted_of names.now).state
        (file_names all.net.program.channels.items all.net.channel_names.items) (H.asked host.new))
        (IsWrittenIfAsked (wanted_of names.now).history (H.asked host.new)) options.now all.net all.inputs
        (map scripted_of all.lines.items) report.bytes.items report.complete) }
    ensures cause { IfErr result (λ stop. IsStopped (HasFileFault (wanted_of names.now) (H.asked host.new)) (wanted_of names.now)
        (H.asked host.new) stop.failure) }
{
    let Checked {
        texts,
        net,
        inputs,
        lines,
    } = all;
    tell_apart::<H, Accepted>(host, alloc, names)?;
    let asked = RunTexts {
        net,
        inputs,
        lines,
        script: script_text(&texts),
    };
    match &names.state {
        Some(folder) => run_kept(
            rt, alloc, host, options, names, folder, &texts, asked, watch,
        ),
        None => run_over::<H, ListOutlet, _, _, _>(
            rt,
            alloc,
            host,
            options,
            names,
            asked,
            &mut InMemory,
            watch,
        ),
    }
}

// An approximation, if one is asked for, and else a run.
fn report_asked<H: Host, P: RunWatch + TurnWatch + Sync, R: Threads + Wait + Sync>(
    rt: &R,
    alloc: Global,
    host: &mut H,
    options: &Options,
    names: &Names,
    watch: &mut P,
) -> Result<Report, Stop>
    requires free { IsFree (H.asked host.old) }
    requires wanted { wanted_of names.now ≡ asked_files options.now }
    ensures keeps { Keeps (wanted_of names.now) (H.asked host.old) (H.asked host.new) }
    ensures report { IfOk result (λ report. HasReport options.now report.bytes.items report.complete (H.asked host.new)) }
    ensures cause { IfErr result (λ stop. HasCause (wanted_of names.now) (H.asked host.new) stop.failure) }
{
    let all = read_all(host, alloc, options, names)?;
    let Some(n) = options.approx else {
        return run_asked(rt, alloc, host, options, names, all, watch);
    };
    let (bytes, complete) = report_of_approximation(alloc, all.net, &all.inputs, n)?;
    Ok(Report {
        bytes,
        complete,
        words: String::new(alloc),
    })
}

// Says the report, and gives the exit status: 1 where it can't be written.
fn say_report<H: Host>(
    host: &mut H,
    alloc: Global,
    options: &Options,
    names: &Names,
    report: Report,
) -> u8
    ensures goes { GoesOn IsAccepted (wanted_of names.now) (H.asked host.old) (H.asked host.new) }
    ensures status { result ≤ 3 }
    ensures unrefused { result ≡ 2 → ⊥ }
    ensures said { (complete : Bool) → result ≡ status_of_run complete
        → (complete ≡ report.complete) × Has (Said report.bytes.items (Ok tt)) (H.asked host.new) }
    ensures failed { result ≡ 1 → (fault : HostFault) × Has (Said report.bytes.items (Err fault)) (H.asked host.new) }
{
    let Report {
        bytes,
        complete,
        words: told,
    } = report;
    if let Err(_) = say::<H, Accepted>(host, names, &bytes) {
        let words = if options.explain {
            words_of(host, alloc, "standard output")
        } else {
            None
        };
        tell_words(host, names, words);
        return 1;
    }
    tell_words(host, names, unless_empty(told));
    if complete { 0 } else { 3 }
}

// These words, if they are any.
fn unless_empty(words: String) -> Option<String> {
    if words.is_empty() { None } else { Some(words) }
}

// Writes these words to standard error, if there are some. That they can't be written is no failure of the run.
fn tell_words<H: Host>(host: &mut H, names: &Names, words: Option<String>)
    ensures { GoesOn IsAccepted (wanted_of names.now) (H.asked host.old) (H.asked host.new) }
{
    if let Some(words) = words {
        let _ = tell::<H, Accepted>(host, names, &words.into_bytes());
    }
}

// Tells why there is no report, and gives the exit status: 1 where the line can't be written. Where there is no memory for it `no_memory` is
// told, which is the line of that.
fn tell_stop<H: Host>(
    host: &mut H,
    alloc: Global,
    options: &Options,
    names: &Names,
    stop: Stop,
    no_memory: &Vec<u8>,
) -> u8
    requires { no_memory.now.items ≡ failure_line Failure.NoMemory }
    ensures goes { GoesOn IsAccepted (wanted_of names.now) (H.asked host.old) (H.asked host.new) }
    ensures status { result ≤ 2 }
    ensures none { (complete : Bool) → result ≡ status_of_run complete → ⊥ }
    ensures told { result ≡ 2 → (status_of stop.failure ≡ 2) × Has (Told (failure_line stop.failure) (Ok tt)) (H.asked host.new) }
    ensures failed { result ≡ 1 → IsToldOf stop.failure (H.asked host.new) ⊎ IsToldOf Failure.NoMemory (H.asked host.new) }
{
    let Stop { failure, words } = stop;
    let Ok(line) = format!(in alloc; "{failure}\n") else {
        return tell_no_memory(host, names, no_memory);
    };
    if let Err(_) = tell::<H, Accepted>(host, names, &line.into_bytes()) {
        return 1;
    }
    let words = if options.explain { words } else { None };
    tell_words(host, names, words);
    failure.status()
}

// The line that tells of want of memory.
fn no_memory_line(alloc: Global) -> Result<Vec<u8>, AllocError>
    ensures { IfOk result (λ line. line.items ≡ failure_line Failure.NoMemory) }
{
    let failure = Failure::NoMemory;
    let line = format!(in alloc; "{failure}\n")?;
    Ok(line.into_bytes())
}

// Tells it, and gives the exit status.
fn tell_no_memory<H: Host>(host: &mut H, names: &Names, line: &Vec<u8>) -> u8
    requires { line.now.items ≡ failure_line Failure.NoMemory }
    ensures goes { GoesOn IsAccepted (wanted_of names.now) (H.asked host.old) (H.asked host.new) }
    ensures status { result ≡ 1 }
    ensures told { IsToldOf Failure.NoMemory (H.asked host.new) }
{
    let _ = tell::<H, Accepted>(host, names, line);
    1
}

// Tells that there is no memory, not even for the names or for that line: where there is some for it now.
fn tell_at_least<H: Host>(host: &mut H, alloc: Global, options: &Options) -> u8
    ensures keeps { Keeps (asked_files options.now) (H.asked host.old) (H.asked host.new) }
    ensures status { result ≡ 1 }
    ensures told { (H.asked host.new ≡ H.asked host.old) ⊎ IsToldOf Failure.NoMemory (H.asked host.new) }
{
    let _ = options;
    if let Ok(line) = no_memory_line(alloc) {
        let _ = host.tell(&line);
    }
    1
}

// The program by these names.
fn main_by_names<H: Host, P: RunWatch + TurnWatch + Sync, R: Threads + Wait + Sync>(
    rt: &R,
    alloc: Global,
    host: &mut H,
    options: &Options,
    names: &Names,
    no_memory: &Vec<u8>,
    watch: &mut P,
) -> u8
    requires free { IsFree (H.asked host.old) }
    requires wanted { wanted_of names.now ≡ asked_files options.now }
    requires line { no_memory.now.items ≡ failure_line Failure.NoMemory }
    ensures keeps { Keeps (wanted_of names.now) (H.asked host.old) (H.asked host.new) }
    ensures status { result ≤ 3 }
    ensures done { (complete : Bool) → result ≡ status_of_run complete → IsDone options.now complete (H.asked host.new) }
    ensures refused { result ≡ 2 → IsRefused options.now (H.asked host.new) }
    ensures failed { result ≡ 1 → HasFailed options.now (H.asked host.old) (H.asked host.new) }
{
    match report_asked(rt, alloc, host, options, names, watch) {
        Ok(report) => say_report(host, alloc, options, names, report),
        Err(stop) => tell_stop(host, alloc, options, names, stop, no_memory),
    }
}

// The program, with the line that tells of want of memory.
fn main_with<H: Host, P: RunWatch + TurnWatch + Sync, R: Threads + Wait + Sync>(
    rt: &R,
    alloc: Global,
    host: &mut H,
    options: &Options,
    no_memory: &Vec<u8>,
    watch: &mut P,
) -> u8
    requires free { IsFree (H.asked host.old) }
    requires line { no_memory.now.items ≡ failure_line Failure.NoMemory }
    ensures keeps { Keeps (asked_files options.now) (H.asked host.old) (H.asked host.new) }
    ensures status { result ≤ 3 }
    ensures done { (complete : Bool) → result ≡ status_of_run complete → IsDone options.now complete (H.asked host.new) }
    ensures refused { result ≡ 2 → IsRefused options.now (H.asked host.new) }
    ensures failed { result ≡ 1 → HasFailed options.now (H.asked host.old) (H.asked host.new) }
{
    match names_of(options) {
        Ok(names) => main_by_names(rt, alloc, host, options, &names, no_memory, watch),
        Err(_) => tell_at_least(host, alloc, options),
    }
}

/// The whole program over its host, as the options say, and its exit status: 0 where the report tells `complete`, 3 where it tells `partial`,
/// 2 where a text is refused, 1 for any other failure. `watch` looks at the run meanwhile.
pub fn main_of<H: Host, P: RunWatch + TurnWatch + Sync, R: Threads + Wait + Sync>(
    rt: &R,
    alloc: Global,
    host: &mut H,
    options: &Options,
    watch: &mut P,
) -> u8
    requires { IsFree (H.asked host.old) }
    ensures status { result ≤ 3 }
    // Each request keeps the rules, whatever the host answers.
    ensures rules { Each (rule IsAccepted (asked_files options.now)) (H.asked host.old)
        → Each (rule IsAccepted (asked_files options.now)) (H.asked host.new) }
    // Nothing is left that it made: each file and folder got the name that is asked for, or the host was asked to take it away.
    ensures cleared { LeavesNothing (H.asked host.old) (H.asked host.new) }
    // No lock is held at the end.
    ensures free { IsFree (H.asked host.new) }
    // Where the status is 0 or 3, what is said is the report that is asked for, of the texts that were read. Each output's stream is kept in
    // its own file of the folder, and what happened is written, where that is asked for.
    ensures done { (complete : Bool) → result ≡ status_of_run complete → IsDone options.now complete (H.asked host.new) }
    // Where it is 2, the line was told of a fault that a text has which was read.
    ensures refused { result ≡ 2 → IsRefused options.now (H.asked host.new) }
    // Where it is 1, the line was told of a failure that has its cause in the log, or the report couldn't be said. Nothing at all was asked
    // where there wasn't even memory for the line of that.
    ensures failed { result ≡ 1 → HasFailed options.now (H.asked host.old) (H.asked host.new) }
{
    match no_memory_line(alloc) {
        Ok(line) => main_with(rt, alloc, host, options, &line, watch),
        Err(_) => tell_at_least(host, alloc, options),
    }
}
