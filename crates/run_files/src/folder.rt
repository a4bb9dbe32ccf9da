// The folder in which what left outlasts the run: the texts of the network and of the inputs, a file of lines for each output, and a file
// whose lock says that a run is at work.
ghost use Rattle.std.specs.Prelude.{◌≡◌, ◌≢◌, ◌<◌, ◌≤◌, ◌++◌, [], ◌∷◌, ℕ, List, IfOk, IfErr, IfSome, IfNone, OnOk, OnErr, IsTrue, Ok, Err, Some, false, codes, drop, length, map, slice_get, string_bytes};
ghost use Rattle.host.specs.Requests.{Each, Has, HasUnder, IsFree, IsHeld, Later, MadeFile, MadeFolder, Opened, Read, Renamed, Used};
ghost use Rattle.output_file.specs.Lines.{HoldsLines};
ghost use Rattle.output_file.specs.Output.{asked_of};
ghost use Rattle.run_files.specs.Opening.{AreMade, AreHeldAs, AreOpened, AreUsed, IsCutTo, IsNewFolder, opened_names, path_in, paths_in};
ghost use Rattle.run_files.specs.Leftovers.{AreGone, IsFirst, IsIn, IsNamed, LeavesNothing};
ghost use Rattle.run_files.specs.Removing.{AreRemoved, IsCleared, IsFolderRemoved};
ghost use Rattle.run_files.specs.Making.{IsUnmade};
ghost use Rattle.run_files.specs.Rules.{AreJudged, GoesOn, GoesWith, HasGrown, HasSameTexts, IsReady, rule};
ghost use Rattle.run_files.specs.Causes.{IsCaused, IsTaken, IsTakenBy, IsUnlike, IsUnreadBy, IsUnreadable, tried_name};
ghost use Rattle.run_files.specs.Faults.{or_memory};
ghost use Rattle.host.specs.declared.fault.HostFault.TheVariants as host_fault;
ghost use Rattle.run_files.specs.Syncing.{AreSyncedIf};
ghost use Rattle.run_files.specs.Wanted.{wanted_of};
ghost use Rattle.run_files.specs.declared.fault.FilesFault.TheVariants.{Astray, OtherState};

use crate::asking::{
    cut, look, make as make_new, make_file, make_folder, open_lines, read, remove_file,
    remove_folder, rename_folder, rename_text, sync, take_back, write,
};
use crate::fault::{FilesFault, Refused, is_there};
use crate::happened::{LAST_NAME, fresh_name};
use crate::held_file::{HeldFile, OpenedName};
use crate::names::{Judge, Names};
use crate::words::{no_memory, refused, refused_at, refused_by};
use host::{Host, HostFault, LineFile, Standing};
use output_file::{HeldItems, LinesFault, ResumedOutlet, read_items};
use std::alloc::{AllocError, Global};
use std::snapshot::Snapshot;

/// The texts of a run whose folder it is.
#[derive(Clone, Copy)]
pub struct FolderTexts<'a> {
    pub net: &'a Vec<u8>,
    pub inputs: &'a Vec<u8>,
}

/// A folder that is this run's alone, as long as its lock is held.
pub struct OpenFolder<H: Host> {
    pub lock: H::Lock,
    /// The outputs' files, in order of the channels.
    pub files: Vec<HeldFile<H::Lines>>,
    /// Their names, in the same order.
    pub opened: Vec<OpenedName>,
}

// The path of a file of a folder.
fn in_folder(alloc: Global, folder: &String, tail: &str) -> Result<String, AllocError>
    ensures { IfOk result (λ path. string_bytes path ≡ string_bytes folder.now ++ tail.now) }
{
    let mut path = String::from_str(alloc, folder.as_str())?;
    path.push_str(tail)?;
    Ok(path)
}

// The folder in which a folder of this name stands.
fn home_of(alloc: Global, folder: &str) -> Result<String, AllocError> {
    match folder.trim_end_matches('/').rsplit_once('/') {
        Some((home, _)) => {
            if home.is_empty() {
                String::from_str(alloc, "/")
            } else {
                String::from_str(alloc, home)
            }
        }
        None => String::from_str(alloc, "."),
    }
}

// Whether these are the same bytes.
fn is_same(bytes: &Vec<u8>, text: &Vec<u8>) -> bool
    ensures same { IsTrue result → bytes.now.items ≡ text.now.items }
    ensures other { result ≡ false → bytes.now.items ≢ text.now.items }
{
    bytes.as_slice() == text.as_slice()
}

// What a file of the folder holds, whose lock is held.
fn read_held<H: Host, J: Judge>(
    host: &mut H,
    alloc: Global,
    names: &Names,
    folder: &String,
    path: &String,
) -> Result<Vec<u8>, Refused>
    requires held { IsHeld (string_bytes folder.now) (H.asked host.old) }
    ensures goes { GoesOn J.accepts (wanted_of names.now) (H.asked host.old) (H.asked host.new) }
    ensures read { IfOk result (λ bytes. HasUnder (string_bytes folder.now) (Read (string_bytes path.now) (Ok bytes.items)) (H.asked host.new)) }
    ensures has { IfOk result (λ bytes. Has (Read (string_bytes path.now) (Ok bytes.items)) (H.asked host.new)) }
    ensures cause { IfErr result (λ refused. IsUnreadBy (string_bytes path.now) (H.asked host.new) refused.fault) }
{
    let _ = folder;
    match read::<H, J>(host, names, path) {
        Ok(bytes) => Ok(bytes),
        Err(fault) => {
            let refusal = FilesFault::of_missing(fault);
            Err(refused_by(host, alloc, refusal, fault, path))
        }
    }
}

// The refusal of a folder of which this file holds another text.
fn differs(alloc: Global, path: &String, bytes: &Vec<u8>, text: &Vec<u8>) -> Refused
    ensures { result.fault ≡ OtherState }
{
    refused(FilesFault::OtherState, other_text(alloc, path, bytes, text))
}

// Refuses unless a file of the folder holds exactly this text.
fn compare<H: Host, J: Judge>(
    host: &mut H,
    alloc: Global,
    names: &Names,
    folder: &String,
    path: &String,
    text: &Vec<u8>,
) -> Result<(), Refused>
    requires held { IsHeld (string_bytes folder.now) (H.asked host.old) }
    ensures goes { GoesOn J.accepts (wanted_of names.now) (H.asked host.old) (H.asked host.new) }
    ensures same { OnOk result (HasUnder (string_bytes folder.now) (Read (string_bytes path.now) (Ok text.now.items)) (H.asked host.new)) }
    // A folder is told to be another run's only where this file of it holds another text, or isn't there.
    ensures cause { IfErr result (λ refused. IsUnlike (string_bytes path.now) text.now.items (H.asked host.new) refused.fault) }
{
    let bytes = read_held::<H, J>(host, alloc, names, folder, path)?;
    if is_same(&bytes, text) {
        Ok(())
    } else {
        Err(differs(alloc, path, &bytes, text))
    }
}

// Which line of a text differs from that of the file.
fn other_text(
    alloc: Global,
    path: &String,
    held: &Vec<u8>,
    text: &Vec<u8>,
) -> Result<String, AllocError> {
    let mut line: u64 = 1;
    for (place, byte) in held.iter().enumerate() {
        if place >= text.len() || text[place] != *byte {
            break;
        }
        if *byte == b'\n' {
            line = line.wrapping_add(1);
        }
    }
    format!(in alloc; "{path}: line {line} differs from the text of this run")
}

// A folder of the nth name beside the one of this name. None where something stands there.
fn make_nth<H: Host, J: Judge>(
    host: &mut H,
    alloc: Global,
    names: &Names,
    stem: &str,
    nth: u64,
) -> Result<Option<String>, Refused>
    requires { IsReady J.accepts (wanted_of names.now) (H.asked host.old) }
    ensures goes { IfOk result (λ made. IfSome made (λ making. GoesWith (IsNamed (Some (string_bytes making))) J.accepts (wanted_of names.now) (H.asked host.old) (H.asked host.new))) }
    ensures unmade { IfOk result (λ made. IfNone made (GoesOn J.accepts (wanted_of names.now) (H.asked host.old) (H.asked host.new))) }
    ensures failed { IfErr result (λ refused. GoesOn J.accepts (wanted_of names.now) (H.asked host.old) (H.asked host.new)) }
    ensures made { IfOk result (λ made. IfSome made (λ making. Has (MadeFolder (string_bytes making) (Ok tt)) (H.asked host.new))) }
    ensures taken { IfOk result (λ made. IfNone made (Has (MadeFolder (tried_name stem.now (codes "making") nth) (Err host_fault.IsThere)) (H.asked host.new))) }
    ensures cause { IfErr result (λ refused. IsCaused J.accepts (wanted_of names.now) (H.asked host.new) refused.fault) }
{
    let making = fresh_name(alloc, stem, "making", nth)?;
    match make_folder::<H, J>(host, names, &making) {
        Ok(()) => Ok(Some(making)),
        Err(fault) => if is_there(fault) {
            Ok(None)
        } else {
            Err(refused_by(host, alloc, FilesFault::Failed, fault, &making))
        },
    }
}

// A folder where nothing stands, beside the one of this name. An older one that was left there stays.
fn make_beside<H: Host, J: Judge>(
    host: &mut H,
    alloc: Global,
    names: &Names,
    folder: &String,
) -> Result<String, Refused>
    requires { IsReady J.accepts (wanted_of names.now) (H.asked host.old) }
    ensures goes { IfOk result (λ making. GoesWith (IsNamed (Some (string_bytes making))) J.accepts (wanted_of names.now) (H.asked host.old) (H.asked host.new)) }
    ensures failed { IfErr result (λ refused. GoesOn J.accepts (wanted_of names.now) (H.asked host.old) (H.asked host.new)) }
    ensures made { IfOk result (λ making. Has (MadeFolder (string_bytes making) (Ok tt)) (H.asked host.new)) }
    ensures cause { IfErr result (λ refused. IsCaused J.accepts (wanted_of names.now) (H.asked host.new) refused.fault) }
{
    let stem = folder.as_str().trim_end_matches('/');
    for nth in 0..LAST_NAME + 1 {
        if let Some(making) = make_nth::<H, J>(host, alloc, names, stem, nth)? {
            return Ok(making);
        }
    }
    Err(refused_at(
        alloc,
        FilesFault::Failed,
        folder,
        ".making: too many folders of this name are left",
    ))
}

// The path of an output's file in a folder.
fn file_in(alloc: Global, folder: &String, name: &String) -> Result<String, AllocError>
    ensures { IfOk result (λ path. string_bytes path ≡ path_in (string_bytes folder.now) (string_bytes name.now)) }
{
    let mut path = in_folder(alloc, folder, "/")?;
    path.push_str(name.as_str())?;
    Ok(path)
}

// The paths of all files that a folder has.
fn paths_of(alloc: Global, folder: &String, outputs: &[String]) -> Result<Vec<String>, AllocError>
    ensures { IfOk result (λ paths. map string_bytes paths.items
        ≡ paths_in (string_bytes folder.now) (map string_bytes outputs.now)) }
{
    let mut paths = Vec::with_capacity(alloc, outputs.len() + 2)?;
    paths.push_reserved(in_folder(alloc, folder, "/net")?);
    paths.push_reserved(in_folder(alloc, folder, "/inputs")?);
    for output in outputs {
        paths.push_reserved(file_in(alloc, folder, output)?);
    }
    Ok(paths)
}

// What the nth file of a new folder holds: the texts, and then nothing for each output.
fn text_of<'a>(texts: FolderTexts<'a>, nothing: &'a Vec<u8>, nth: usize) -> &'a Vec<u8> {
    match nth {
        0 => texts.net,
        1 => texts.inputs,
        _ => nothing,
    }
}

// Makes the files of a folder, and says how many of them, and why not all.
fn fill<H: Host, J: Judge>(
    host: &mut H,
    alloc: Global,
    names: &Names,
    paths: &[String],
    texts: FolderTexts<'_>,
) -> (usize, Option<Refused>)
    requires { IsReady J.accepts (wanted_of names.now) (H.asked host.old) }
    ensures goes { GoesWith (IsFirst result.0 paths.now) J.accepts (wanted_of names.now) (H.asked host.old) (H.asked host.new) }
    ensures made { AreMade result.0 paths.now (H.asked host.new) }
    ensures all { IfNone result.1 (length paths.now ≤ result.0) }
    ensures cause { IfSome result.1 (λ refused. IsCaused J.accepts (wanted_of names.now) (H.asked host.new) refused.fault) }
{
    let nothing = Vec::new(alloc);
    let mut made = 0;
    for path in paths {
        let text = text_of(texts, &nothing, made);
        if let Err(fault) = make_file::<H, J>(host, names, path, text) {
            return (
                made,
                Some(refused_by(host, alloc, FilesFault::Failed, fault, path)),
            );
        }
        made += 1;
    }
    (made, None)
}

// Takes away what was made of a folder that doesn't get its name.
fn clear<H: Host, J: Judge>(
    host: &mut H,
    names: &Names,
    making: &String,
    paths: &[String],
    made: usize,
)
    requires folder { Has (MadeFolder (string_bytes making.now) (Ok tt)) (H.asked host.old) }
    requires files { AreMade made paths.now (H.asked host.old) }
    ensures goes { GoesOn J.accepts (wanted_of names.now) (H.asked host.old) (H.asked host.new) }
    ensures gone_files { AreGone (IsFirst made paths.now) (H.asked host.new) }
    ensures gone { AreGone (IsNamed (Some (string_bytes making.now))) (H.asked host.new) }
    ensures files { AreRemoved made paths.now (H.asked host.new) }
    ensures folder { IsFolderRemoved (string_bytes making.now) (H.asked host.new) }
{
    for path in &paths[..made] {
        remove_file::<H, J>(host, names, path);
    }
    remove_folder::<H, J>(host, names, making);
}

// Waits until these files and folders stand on the disk, where that is asked for.
fn settle<H: Host, J: Judge>(
    host: &mut H,
    alloc: Global,
    names: &Names,
    paths: &[String],
) -> Result<(), Refused>
    requires { IsReady J.accepts (wanted_of names.now) (H.asked host.old) }
    ensures goes { GoesOn J.accepts (wanted_of names.now) (H.asked host.old) (H.asked host.new) }
    ensures synced { OnOk result (AreSyncedIf names.now.sync (map string_bytes paths.now) (H.asked host.new)) }
    ensures cause { IfErr result (λ refused. IsCaused J.accepts (wanted_of names.now) (H.asked host.new) refused.fault) }
{
    if !names.sync {
        return Ok(());
    }
    for path in paths {
        if let Err(fault) = sync::<H, J>(host, names, path) {
            return Err(refused_by(host, alloc, FilesFault::Failed, fault, path));
        }
    }
    Ok(())
}

// Waits for one of them.
fn settle_one<H: Host, J: Judge>(
    host: &mut H,
    alloc: Global,
    names: &Names,
    path: &String,
) -> Result<(), Refused>
    requires { IsReady J.accepts (wanted_of names.now) (H.asked host.old) }
    ensures goes { GoesOn J.accepts (wanted_of names.now) (H.asked host.old) (H.asked host.new) }
    ensures synced { OnOk result (AreSyncedIf names.now.sync (string_bytes path.now ∷ []) (H.asked host.new)) }
    ensures cause { IfErr result (λ refused. IsCaused J.accepts (wanted_of names.now) (H.asked host.new) refused.fault) }
{
    if !names.sync {
        return Ok(());
    }
    match sync::<H, J>(host, names, path) {
        Ok(()) => Ok(()),
        Err(fault) => Err(refused_by(host, alloc, FilesFault::Failed, fault, path)),
    }
}

// Whether a name wasn't given since something stands there.
fn is_taken(fault: HostFault) -> bool
    ensures taken { IsTrue result → IsTaken fault }
    ensures free { result ≡ false → ¬ (IsTaken fault) }
{
    match fault {
        HostFault::NotEmpty | HostFault::IsThere | HostFault::NoFolder => true,
        HostFault::NoMemory | HostFault::NotThere | HostFault::InUse | HostFault::Other => false,
    }
}

// Whether another process has the lock.
fn is_busy(fault: HostFault) -> bool
    ensures busy { IsTrue result → fault ≡ host_fault.InUse }
    ensures free { result ≡ false → fault ≢ host_fault.InUse }
{
    match fault {
        HostFault::InUse => true,
        _ => false,
    }
}

// Gives a folder that was made and filled its name. False where something stands there.
fn give_name<H: Host, J: Judge>(
    host: &mut H,
    alloc: Global,
    names: &Names,
    making: &String,
    folder: &String,
    paths: &[String],
) -> Result<bool, Refused>
    requires ready { IsReady J.accepts (wanted_of names.now) (H.asked host.old) }
    requires made { Has (MadeFolder (string_bytes making.now) (Ok tt)) (H.asked host.old) }
    requires wanted { (wanted_of names.now).state ≡ Some (string_bytes folder.now) }
    ensures goes { GoesOn J.accepts (wanted_of names.now) (H.asked host.old) (H.asked host.new) }
    ensures renamed { IfOk result (λ named. IsTrue named
        → Has (Renamed (string_bytes making.now) (string_bytes folder.now) (Ok tt)) (H.asked host.new)) }
    ensures gone { IfOk result (λ named. IsTrue named → AreGone (IsIn (string_bytes making.now)) (H.asked host.new)) }
    ensures taken { IfOk result (λ named. named ≡ false → IsTakenBy (string_bytes making.now) (string_bytes folder.now) (H.asked host.new)) }
    ensures synced { IfOk result (λ named. AreSyncedIf names.now.sync (map string_bytes paths.now ++ string_bytes making.now ∷ []) (H.asked host.new)) }
    ensures cause { IfErr result (λ refused. IsCaused J.accepts (wanted_of names.now) (H.asked host.new) refused.fault) }
{
    settle::<H, J>(host, alloc, names, paths)?;
    settle_one::<H, J>(host, alloc, names, making)?;
    match rename_folder::<H, J>(host, names, making, folder) {
        Ok(()) => Ok(true),
        Err(fault) => if is_taken(fault) {
            Ok(false)
        } else {
            Err(refused_by(host, alloc, FilesFault::Failed, fault, folder))
        },
    }
}

// Fills a folder that was made, and gives it its name: how many of its files were made, and whether it got the name.
fn fill_and_name<H: Host, J: Judge>(
    host: &mut H,
    alloc: Global,
    names: &Names,
    making: &String,
    folder: &String,
    paths: &[String],
    texts: FolderTexts<'_>,
) -> (usize, Result<bool, Refused>)
    requires ready { IsReady J.accepts (wanted_of names.now) (H.asked host.old) }
    requires made { Has (MadeFolder (string_bytes making.now) (Ok tt)) (H.asked host.old) }
    requires wanted { (wanted_of names.now).state ≡ Some (string_bytes folder.now) }
    ensures goes { GoesWith (IsFirst result.0 paths.now) J.accepts (wanted_of names.now) (H.asked host.old) (H.asked host.new) }
    ensures gone { IfOk result.1 (λ named. IsTrue named → AreGone (IsIn (string_bytes making.now)) (H.asked host.new)) }
    ensures made { AreMade result.0 paths.now (H.asked host.new) }
    ensures renamed { IfOk result.1 (λ named. IsTrue named
        → Has (Renamed (string_bytes making.now) (string_bytes folder.now) (Ok tt)) (H.asked host.new)) }
    ensures taken { IfOk result.1 (λ named. named ≡ false → IsTakenBy (string_bytes making.now) (string_bytes folder.now) (H.asked host.new)) }
    ensures all { IfOk result.1 (λ named. length paths.now ≤ result.0) }
    ensures cause { IfErr result.1 (λ refused. IsCaused J.accepts (wanted_of names.now) (H.asked host.new) refused.fault) }
{
    let (made, failed) = fill::<H, J>(host, alloc, names, paths, texts);
    match failed {
        Some(refused) => (made, Err(refused)),
        None => {
            let named = give_name::<H, J>(host, alloc, names, making, folder, paths);
            (made, named)
        }
    }
}

// Makes the folder under another name, and renames it once it is whole. False where something stood there by then: what was made is
// taken away then, and so it is where it fails.
fn make<H: Host, J: Judge>(
    host: &mut H,
    alloc: Global,
    names: &Names,
    folder: &String,
    texts: FolderTexts<'_>,
    outputs: &[String],
) -> Result<bool, Refused>
    requires ready { IsReady J.accepts (wanted_of names.now) (H.asked host.old) }
    requires wanted { (wanted_of names.now).state ≡ Some (string_bytes folder.now) }
    ensures goes { GoesOn J.accepts (wanted_of names.now) (H.asked host.old) (H.asked host.new) }
    ensures named { IfOk result (λ named. IsTrue named → IsNewFolder (string_bytes folder.now) (map string_bytes outputs.now) (H.asked host.new)) }
    ensures taken { IfOk result (λ named. named ≡ false → (making : List ℕ) × IsTakenBy making (string_bytes folder.now) (H.asked host.new)) }
    ensures cleared { IfOk result (λ named. named ≡ false → IsCleared (map string_bytes outputs.now) (H.asked host.new)) }
    ensures cause { IfErr result (λ refused. IsCaused J.accepts (wanted_of names.now) (H.asked host.new) refused.fault) }
{
    let making = make_beside::<H, J>(host, alloc, names, folder)?;
    let paths = match paths_of(alloc, &making, outputs) {
        Ok(paths) => paths,
        Err(error) => {
            remove_folder::<H, J>(host, names, &making);
            return Err(Refused::from(error));
        }
    };
    let all = paths.as_slice();
    let (made, named) = fill_and_name::<H, J>(host, alloc, names, &making, folder, all, texts);
    match named {
        Ok(true) => Ok(true),
        Ok(false) => {
            clear::<H, J>(host, names, &making, all, made);
            Ok(false)
        }
        Err(refused) => {
            clear::<H, J>(host, names, &making, all, made);
            Err(refused)
        }
    }
}

// Whether the folder is there and whole. Refuses where something else stands under its name.
fn is_made<H: Host, J: Judge>(
    host: &mut H,
    alloc: Global,
    names: &Names,
    folder: &String,
) -> Result<bool, Refused>
    requires wanted { (wanted_of names.now).state ≡ Some (string_bytes folder.now) }
    ensures goes { GoesOn J.accepts (wanted_of names.now) (H.asked host.old) (H.asked host.new) }
    ensures cause { IfErr result (λ refused. IsCaused J.accepts (wanted_of names.now) (H.asked host.new) refused.fault) }
{
    let path = in_folder(alloc, folder, "/net")?;
    match look::<H, J>(host, names, &path) {
        Ok(Standing::Nothing) | Err(HostFault::NotThere) => Ok(false),
        Ok(_) => Ok(true),
        Err(HostFault::NoFolder) => Err(refused_at(
            alloc,
            FilesFault::OtherState,
            folder,
            " is no folder",
        )),
        Err(fault) => Err(refused_by(host, alloc, FilesFault::Failed, fault, &path)),
    }
}

// Makes the folder where it isn't there. Where another run was quicker its folder is taken.
fn make_if_missing<H: Host, J: Judge>(
    host: &mut H,
    alloc: Global,
    names: &Names,
    folder: &String,
    texts: FolderTexts<'_>,
    outputs: &[String],
) -> Result<(), Refused>
    requires ready { IsReady J.accepts (wanted_of names.now) (H.asked host.old) }
    requires wanted { (wanted_of names.now).state ≡ Some (string_bytes folder.now) }
    ensures goes { GoesOn J.accepts (wanted_of names.now) (H.asked host.old) (H.asked host.new) }
    ensures cause { IfErr result (λ refused. IsCaused J.accepts (wanted_of names.now) (H.asked host.new) refused.fault) }
{
    if is_made::<H, J>(host, alloc, names, folder)? {
        return Ok(());
    }
    if make::<H, J>(host, alloc, names, folder, texts, outputs)? {
        let home = home_of(alloc, folder.as_str())?;
        return settle_one::<H, J>(host, alloc, names, &home);
    }
    if is_made::<H, J>(host, alloc, names, folder)? {
        return Ok(());
    }
    Err(refused_at(
        alloc,
        FilesFault::OtherState,
        folder,
        " is there, and has no file net",
    ))
}

// What the lines of a file hold.
fn items_of(alloc: Global, path: &String, bytes: &Vec<u8>) -> Result<HeldItems, Refused>
    ensures lines { IfOk result (λ held. HoldsLines bytes.now.items held.items.items (drop held.bytes bytes.now.items)) }
    ensures cause { IfErr result (λ refused. IsUnreadable bytes.now.items refused.fault) }
{
    match read_items(alloc, bytes.as_slice()) {
        Ok(held) => Ok(held),
        Err(LinesFault::NoMemory) => Err(Refused::from(AllocError)),
        Err(LinesFault::NotAnItem { line }) => {
            let words = format!(in alloc; "{path}: line {line} is no item");
            Err(refused(FilesFault::OtherState, words))
        }
    }
}

// Takes off what stands behind the first bytes of a file, if anything does.
fn cut_tail<H: Host, J: Judge>(
    host: &mut H,
    alloc: Global,
    names: &Names,
    folder: &String,
    name: &String,
    file: &mut H::Lines,
    bytes: &Vec<u8>,
    len: u64,
) -> Result<(), Refused>
    requires ready { IsReady J.accepts (wanted_of names.now) (H.asked host.old) }
    requires held { IsHeld (string_bytes folder.now) (H.asked host.old) }
    requires opened { Has (Opened (string_bytes folder.now) (string_bytes name.now) names.now.sync (Ok bytes.now.items))
        (H.asked host.old) }
    requires name { H.Lines.name_of file.old ≡ string_bytes name.now }
    ensures goes { GoesOn J.accepts (wanted_of names.now) (H.asked host.old) (H.asked host.new) }
    ensures cut { OnOk result (IsCutTo (string_bytes name.now) len (length bytes.now.items) (H.asked host.new)) }
    ensures name { H.Lines.name_of file.new ≡ H.Lines.name_of file.old }
    ensures same { H.Lines.asked file.new ≡ H.Lines.asked file.old }
    ensures cause { IfErr result (λ refused. IsCaused J.accepts (wanted_of names.now) (H.asked host.new) refused.fault) }
{
    if bytes.len() as u64 <= len {
        return Ok(());
    }
    match cut::<H, J>(host, names, folder, name, file, bytes, len) {
        Ok(()) => Ok(()),
        Err(fault) => Err(refused_by(host, alloc, FilesFault::Failed, fault, name)),
    }
}

// The file of an output, with what it holds. A line that was cut off is taken off.
fn open_one<H: Host, J: Judge>(
    host: &mut H,
    alloc: Global,
    names: &Names,
    lock: &H::Lock,
    folder: &String,
    name: &String,
) -> Result<(HeldFile<H::Lines>, Snapshot<Vec<u8>>), Refused>
    requires ready { IsReady J.accepts (wanted_of names.now) (H.asked host.old) }
    requires wanted { (wanted_of names.now).state ≡ Some (string_bytes folder.now) }
    requires lock { H.folder_of lock.now ≡ string_bytes folder.now }
    requires held { IsHeld (string_bytes folder.now) (H.asked host.old) }
    requires same { HasSameTexts (wanted_of names.now) (string_bytes folder.now) (H.asked host.old) }
    ensures goes { GoesOn J.accepts (wanted_of names.now) (H.asked host.old) (H.asked host.new) }
    ensures opened { IfOk result (λ one. Has (Opened (string_bytes folder.now) (string_bytes name.now) names.now.sync (Ok one.1.value.items))
        (H.asked host.new)) }
    ensures named { IfOk result (λ one. H.Lines.name_of one.0.file ≡ string_bytes name.now) }
    ensures lines { IfOk result (λ one. HoldsLines one.1.value.items one.0.held.items.items (drop one.0.held.bytes one.1.value.items)) }
    ensures cut { IfOk result (λ one. IsCutTo (string_bytes name.now) one.0.held.bytes (length one.1.value.items) (H.asked host.new)) }
    ensures cause { IfErr result (λ refused. IsCaused J.accepts (wanted_of names.now) (H.asked host.new) refused.fault) }
{
    let path = file_in(alloc, folder, name)?;
    let (mut file, bytes) = match open_lines::<H, J>(host, names, lock, folder, name) {
        Ok(opened) => opened,
        Err(fault) => {
            let refusal = FilesFault::of_missing(fault);
            return Err(refused_by(host, alloc, refusal, fault, &path));
        }
    };
    let held = items_of(alloc, &path, &bytes)?;
    cut_tail::<H, J>(
        host, alloc, names, folder, name, &mut file, &bytes, held.bytes,
    )?;
    Ok((HeldFile { file, held }, Snapshot::of(&bytes)))
}

// The files of all outputs.
fn open_each<H: Host, J: Judge>(
    host: &mut H,
    alloc: Global,
    names: &Names,
    lock: &H::Lock,
    folder: &String,
    outputs: Vec<String>,
) -> Result<(Vec<HeldFile<H::Lines>>, Vec<OpenedName>), Refused>
    requires ready { IsReady J.accepts (wanted_of names.now) (H.asked host.old) }
    requires wanted { (wanted_of names.now).state ≡ Some (string_bytes folder.now) }
    requires lock { H.folder_of lock.now ≡ string_bytes folder.now }
    requires held { IsHeld (string_bytes folder.now) (H.asked host.old) }
    requires same { HasSameTexts (wanted_of names.now) (string_bytes folder.now) (H.asked host.old) }
    ensures goes { GoesOn J.accepts (wanted_of names.now) (H.asked host.old) (H.asked host.new) }
    ensures opened { IfOk result (λ all. AreOpened names.now.sync (string_bytes folder.now) all.1.items (H.asked host.new)) }
    ensures named { IfOk result (λ all. opened_names all.1.items ≡ map string_bytes outputs.items) }
    ensures files { IfOk result (λ all. AreHeldAs all.1.items all.0.items (H.asked host.new)) }
    ensures cause { IfErr result (λ refused. IsCaused J.accepts (wanted_of names.now) (H.asked host.new) refused.fault) }
{
    let mut files = Vec::with_capacity(alloc, outputs.len())?;
    let mut opened = Vec::with_capacity(alloc, outputs.len())?;
    for name in outputs {
        let (file, bytes) = open_one::<H, J>(host, alloc, names, lock, folder, &name)?;
        files.push_reserved(file);
        opened.push_reserved(OpenedName { name, bytes });
    }
    Ok((files, opened))
}

// A file of the nth name for a text that is to take the place of the folder's. None where something stands there.
fn make_text_nth<H: Host, J: Judge>(
    host: &mut H,
    alloc: Global,
    names: &Names,
    stem: &str,
    nth: u64,
) -> Result<Option<(String, H::File)>, Refused>
    requires { IsReady J.accepts (wanted_of names.now) (H.asked host.old) }
    ensures goes { IfOk result (λ made. IfSome made (λ one. GoesWith (IsNamed (Some (string_bytes one.0))) J.accepts (wanted_of names.now) (H.asked host.old) (H.asked host.new))) }
    ensures unmade { IfOk result (λ made. IfNone made (GoesOn J.accepts (wanted_of names.now) (H.asked host.old) (H.asked host.new))) }
    ensures failed { IfErr result (λ refused. GoesOn J.accepts (wanted_of names.now) (H.asked host.old) (H.asked host.new)) }
    ensures made { IfOk result (λ made. IfSome made (λ one. Has (MadeFile (string_bytes one.0) (Ok tt)) (H.asked host.new))) }
    ensures path { IfOk result (λ made. IfSome made (λ one. H.path_of one.1 ≡ string_bytes one.0)) }
    ensures taken { IfOk result (λ made. IfNone made (Has (MadeFile (tried_name stem.now (codes "making") nth) (Err host_fault.IsThere)) (H.asked host.new))) }
    ensures cause { IfErr result (λ refused. IsUnmade (H.asked host.new) refused.fault) }
{
    let making = fresh_name(alloc, stem, "making", nth)?;
    match make_new::<H, J>(host, names, &making) {
        Ok(file) => Ok(Some((making, file))),
        Err(fault) => if is_there(fault) {
            Ok(None)
        } else {
            Err(refused_by(host, alloc, FilesFault::Failed, fault, &making))
        },
    }
}

// A file where nothing stands, beside the folder's text of inputs. An older one that was left there stays.
fn make_text<H: Host, J: Judge>(
    host: &mut H,
    alloc: Global,
    names: &Names,
    path: &String,
) -> Result<(String, H::File), Refused>
    requires { IsReady J.accepts (wanted_of names.now) (H.asked host.old) }
    ensures goes { IfOk result (λ one. GoesWith (IsNamed (Some (string_bytes one.0))) J.accepts (wanted_of names.now) (H.asked host.old) (H.asked host.new)) }
    ensures failed { IfErr result (λ refused. GoesOn J.accepts (wanted_of names.now) (H.asked host.old) (H.asked host.new)) }
    ensures made { IfOk result (λ one. Has (MadeFile (string_bytes one.0) (Ok tt)) (H.asked host.new)) }
    ensures path { IfOk result (λ one. H.path_of one.1 ≡ string_bytes one.0) }
    // It gives up only where each name is taken, or one isn't made for another reason.
    ensures cause { IfErr result (λ refused. IsUnmade (H.asked host.new) refused.fault) }
{
    let stem = path.as_str();
    for nth in 0..LAST_NAME + 1 {
        if let Some(made) = make_text_nth::<H, J>(host, alloc, names, stem, nth)? {
            return Ok(made);
        }
    }
    Err(refused_at(
        alloc,
        FilesFault::Failed,
        path,
        ".making: too many files of this name are left",
    ))
}

// Writes the run's text of inputs to a file that was made, and puts it in the place of the folder's.
fn write_and_replace<H: Host, J: Judge>(
    host: &mut H,
    alloc: Global,
    names: &Names,
    folder: &String,
    path: &String,
    making: &String,
    file: &mut H::File,
    text: &Vec<u8>,
) -> Result<(), Refused>
    requires ready { IsReady J.accepts (wanted_of names.now) (H.asked host.old) }
    requires wanted { (wanted_of names.now).state ≡ Some (string_bytes folder.now) }
    requires grown { HasGrown J.accepts (wanted_of names.now) (string_bytes folder.now) text.now.items (H.asked host.old) }
    requires named { string_bytes path.now ≡ string_bytes folder.now ++ codes "/inputs" }
    requires made { Has (MadeFile (string_bytes making.now) (Ok tt)) (H.asked host.old) }
    requires file { H.path_of file.old ≡ string_bytes making.now }
    ensures goes { GoesOn J.accepts (wanted_of names.now) (H.asked host.old) (H.asked host.new) }
    ensures renamed { OnOk result (Has (Renamed (string_bytes making.now) (string_bytes path.now) (Ok tt)) (H.asked host.new)) }
    ensures gone { OnOk result (AreGone (IsNamed (Some (string_bytes making.now))) (H.asked host.new)) }
    // Where that is asked for, it stands on the disk before it has the name.
    ensures synced { OnOk result (AreSyncedIf names.now.sync (string_bytes making.now ∷ []) (H.asked host.new)) }
    ensures cause { IfErr result (λ refused. IsCaused J.accepts (wanted_of names.now) (H.asked host.new) refused.fault) }
{
    let _ = folder;
    if let Err(fault) = write::<H, J>(host, names, file, text) {
        return Err(refused_by(host, alloc, FilesFault::Failed, fault, making));
    }
    settle_one::<H, J>(host, alloc, names, making)?;
    match rename_text::<H, J>(host, names, making, path) {
        Ok(()) => Ok(()),
        Err(fault) => Err(refused_by(host, alloc, FilesFault::Failed, fault, path)),
    }
}

// Puts the run's text of inputs in the place of the folder's, from which it has grown. Where that fails, what was made is taken away.
fn replace_text<H: Host, J: Judge>(
    host: &mut H,
    alloc: Global,
    names: &Names,
    folder: &String,
    path: &String,
    text: &Vec<u8>,
) -> Result<(), Refused>
    requires ready { IsReady J.accepts (wanted_of names.now) (H.asked host.old) }
    requires wanted { (wanted_of names.now).state ≡ Some (string_bytes folder.now) }
    requires grown { HasGrown J.accepts (wanted_of names.now) (string_bytes folder.now) text.now.items (H.asked host.old) }
    requires named { string_bytes path.now ≡ string_bytes folder.now ++ codes "/inputs" }
    ensures goes { GoesOn J.accepts (wanted_of names.now) (H.asked host.old) (H.asked host.new) }
    ensures renamed { OnOk result ((making : List ℕ) × Has (Renamed making (string_bytes path.now) (Ok tt)) (H.asked host.new)) }
    ensures cause { IfErr result (λ refused. IsCaused J.accepts (wanted_of names.now) (H.asked host.new) refused.fault) }
{
    let (making, mut file) = make_text::<H, J>(host, alloc, names, path)?;
    let replaced = write_and_replace::<H, J>(
        host, alloc, names, folder, path, &making, &mut file, text,
    );
    match replaced {
        Ok(()) => Ok(()),
        Err(refused) => {
            remove_file::<H, J>(host, names, &making);
            Err(refused)
        }
    }
}

// Compares the folder's text of inputs with the run's. One from which the run's has grown is replaced by it.
fn compare_or_replace<H: Host, J: Judge>(
    host: &mut H,
    alloc: Global,
    names: &Names,
    judge: &J,
    folder: &String,
    path: &String,
    texts: FolderTexts<'_>,
) -> Result<(), Refused>
    requires ready { IsReady J.accepts (wanted_of names.now) (H.asked host.old) }
    requires wanted { (wanted_of names.now).state ≡ Some (string_bytes folder.now) }
    requires held { IsHeld (string_bytes folder.now) (H.asked host.old) }
    requires judged { AreJudged (J.judges judge.now) (wanted_of names.now) texts.net.now.items texts.inputs.now.items (H.asked host.old) }
    requires net { HasUnder (string_bytes folder.now) (Read (string_bytes folder.now ++ codes "/net") (Ok texts.net.now.items)) (H.asked host.old) }
    requires named { string_bytes path.now ≡ string_bytes folder.now ++ codes "/inputs" }
    ensures goes { GoesOn J.accepts (wanted_of names.now) (H.asked host.old) (H.asked host.new) }
    ensures same { OnOk result (HasUnder (string_bytes folder.now) (Read (string_bytes path.now) (Ok texts.entry.inputs.now.items)) (H.asked host.new)) }
    // Nothing is told to be another run's from which the run's inputs have grown.
    ensures cause { IfErr result (λ refused. IsCaused J.accepts (wanted_of names.now) (H.asked host.new) refused.fault) }
{
    let kept = read_held::<H, J>(host, alloc, names, folder, path)?;
    if is_same(&kept, texts.inputs) {
        return Ok(());
    }
    if judge.has_grown(alloc, &kept)? {
        replace_text::<H, J>(host, alloc, names, folder, path, texts.inputs)?;
        return compare::<H, J>(host, alloc, names, folder, path, texts.inputs);
    }
    Err(differs(alloc, path, &kept, texts.inputs))
}

// Compares both texts of the folder with the run's. A text of inputs from which the run's has grown is replaced by it.
fn compare_texts<H: Host, J: Judge>(
    host: &mut H,
    alloc: Global,
    names: &Names,
    judge: &J,
    folder: &String,
    texts: FolderTexts<'_>,
) -> Result<(), Refused>
    requires ready { IsReady J.accepts (wanted_of names.now) (H.asked host.old) }
    requires wanted { (wanted_of names.now).state ≡ Some (string_bytes folder.now) }
    requires held { IsHeld (string_bytes folder.now) (H.asked host.old) }
    requires judged { AreJudged (J.judges judge.now) (wanted_of names.now) texts.net.now.items texts.inputs.now.items (H.asked host.old) }
    ensures goes { GoesOn J.accepts (wanted_of names.now) (H.asked host.old) (H.asked host.new) }
    ensures same { OnOk result (HasSameTexts (wanted_of names.now) (string_bytes folder.now) (H.asked host.new)) }
    ensures cause { IfErr result (λ refused. IsCaused J.accepts (wanted_of names.now) (H.asked host.new) refused.fault) }
{
    let net = in_folder(alloc, folder, "/net")?;
    compare::<H, J>(host, alloc, names, folder, &net, texts.net)?;
    let inputs = in_folder(alloc, folder, "/inputs")?;
    compare_or_replace::<H, J>(host, alloc, names, judge, folder, &inputs, texts)
}

// What is done under the lock before an output's file is opened: the texts are compared, that of the inputs is replaced where the run's has
// grown from it, and what was found is synced where that is asked for.
fn check_and_settle<H: Host, J: Judge>(
    host: &mut H,
    alloc: Global,
    names: &Names,
    judge: &J,
    folder: &String,
    texts: FolderTexts<'_>,
    outputs: &[String],
) -> Result<(), Refused>
    requires ready { IsReady J.accepts (wanted_of names.now) (H.asked host.old) }
    requires wanted { (wanted_of names.now).state ≡ Some (string_bytes folder.now) }
    requires held { IsHeld (string_bytes folder.now) (H.asked host.old) }
    requires judged { AreJudged (J.judges judge.now) (wanted_of names.now) texts.net.now.items texts.inputs.now.items (H.asked host.old) }
    ensures goes { GoesOn J.accepts (wanted_of names.now) (H.asked host.old) (H.asked host.new) }
    ensures same { OnOk result (HasSameTexts (wanted_of names.now) (string_bytes folder.now) (H.asked host.new)) }
    ensures synced { OnOk result (AreSyncedIf names.now.sync
        (paths_in (string_bytes folder.now) (map string_bytes outputs.now) ++ string_bytes folder.now ∷ []) (H.asked host.new)) }
    ensures cause { IfErr result (λ refused. IsCaused J.accepts (wanted_of names.now) (H.asked host.new) refused.fault) }
{
    compare_texts::<H, J>(host, alloc, names, judge, folder, texts)?;
    let paths = paths_of(alloc, folder, outputs)?;
    settle::<H, J>(host, alloc, names, &paths)?;
    settle_one::<H, J>(host, alloc, names, folder)?;
    let home = home_of(alloc, folder.as_str())?;
    settle_one::<H, J>(host, alloc, names, &home)
}

// All that is done under the lock: what was found is checked, and the outputs' files are opened.
fn open_locked<H: Host, J: Judge>(
    host: &mut H,
    alloc: Global,
    names: &Names,
    judge: &J,
    lock: &H::Lock,
    folder: &String,
    texts: FolderTexts<'_>,
    outputs: Vec<String>,
) -> Result<(Vec<HeldFile<H::Lines>>, Vec<OpenedName>), Refused>
    requires ready { IsReady J.accepts (wanted_of names.now) (H.asked host.old) }
    requires wanted { (wanted_of names.now).state ≡ Some (string_bytes folder.now) }
    requires lock { H.folder_of lock.now ≡ string_bytes folder.now }
    requires held { IsHeld (string_bytes folder.now) (H.asked host.old) }
    requires judged { AreJudged (J.judges judge.now) (wanted_of names.now) texts.net.now.items texts.inputs.now.items (H.asked host.old) }
    ensures goes { GoesOn J.accepts (wanted_of names.now) (H.asked host.old) (H.asked host.new) }
    ensures opened { IfOk result (λ all. AreOpened names.now.sync (string_bytes folder.now) all.1.items (H.asked host.new)) }
    ensures named { IfOk result (λ all. opened_names all.1.items ≡ map string_bytes outputs.items) }
    ensures files { IfOk result (λ all. AreHeldAs all.1.items all.0.items (H.asked host.new)) }
    ensures synced { IfOk result (λ all. AreSyncedIf names.now.sync
        (paths_in (string_bytes folder.now) (map string_bytes outputs.items) ++ string_bytes folder.now ∷ []) (H.asked host.new)) }
    ensures cause { IfErr result (λ refused. IsCaused J.accepts (wanted_of names.now) (H.asked host.new) refused.fault) }
{
    check_and_settle::<H, J>(host, alloc, names, judge, folder, texts, &outputs)?;
    open_each::<H, J>(host, alloc, names, lock, folder, outputs)
}

// The refusal of a folder of which the lock isn't got.
fn not_locked<H: Host>(host: &H, alloc: Global, fault: HostFault, folder: &String) -> Refused
    ensures busy { fault ≡ host_fault.InUse → result.fault ≡ FilesFault.InUse }
    ensures failed { fault ≢ host_fault.InUse → result.fault ≡ or_memory FilesFault.Failed fault }
{
    if is_busy(fault) {
        return refused(
            FilesFault::InUse,
            format!(in alloc; "another run is at work in {folder}"),
        );
    }
    refused_by(host, alloc, FilesFault::Failed, fault, folder)
}

/// The folder of this name, which is made where it isn't there; `outputs` are the names of its outputs' files, in order of the channels. It is
/// refused, and what it holds stays, where another run is at work in it, and where it is another network's, has other inputs or is damaged. Where
/// the run's inputs have grown from those that it has, as `judge` says, its text of inputs is replaced by the run's before any output's file is
/// opened. A line that was cut off is no damage: what stands of it is taken off.
pub fn open_folder<H: Host, J: Judge>(
    host: &mut H,
    alloc: Global,
    names: &Names,
    judge: &J,
    folder: &String,
    texts: FolderTexts<'_>,
    outputs: Vec<String>,
) -> Result<OpenFolder<H>, Refused>
    requires free { IsFree (H.asked host.old) }
    requires ready { IsReady J.accepts (wanted_of names.now) (H.asked host.old) }
    requires wanted { (wanted_of names.now).state ≡ Some (string_bytes folder.now) }
    requires judged { AreJudged (J.judges judge.now) (wanted_of names.now) texts.net.now.items texts.inputs.now.items (H.asked host.old) }
    ensures rules { Each (rule J.accepts (wanted_of names.now)) (H.asked host.old) → Each (rule J.accepts (wanted_of names.now)) (H.asked host.new) }
    ensures later { Later (H.asked host.old) (H.asked host.new) }
    // Nothing is left that it made and didn't use.
    ensures cleared { LeavesNothing (H.asked host.old) (H.asked host.new) }
    ensures held { IfOk result (λ all. IsHeld (string_bytes folder.now) (H.asked host.new)) }
    ensures lock { IfOk result (λ all. H.folder_of all.lock ≡ string_bytes folder.now) }
    ensures opened { IfOk result (λ all. AreOpened names.now.sync (string_bytes folder.now) all.opened.items (H.asked host.new)) }
    // The files are those of the outputs, in order.
    ensures named { IfOk result (λ all. opened_names all.opened.items ≡ map string_bytes outputs.items) }
    // Each holds the lines of its items, and what stood behind them is taken off.
    ensures files { IfOk result (λ all. AreHeldAs all.opened.items all.files.items (H.asked host.new)) }
    // Where that is asked for, what was found stands on the disk before anything is added.
    ensures synced { IfOk result (λ all. AreSyncedIf names.now.sync
        (paths_in (string_bytes folder.now) (map string_bytes outputs.items) ++ string_bytes folder.now ∷ []) (H.asked host.new)) }
    ensures err { OnErr result (IsFree (H.asked host.new)) }
    // Why it is refused stands in the log.
    ensures cause { IfErr result (λ refused. IsCaused J.accepts (wanted_of names.now) (H.asked host.new) refused.fault) }
{
    make_if_missing::<H, J>(host, alloc, names, folder, texts, outputs.as_slice())?;
    let lock = match host.lock(folder) {
        Ok(lock) => lock,
        Err(fault) => return Err(not_locked(host, alloc, fault, folder)),
    };
    match open_locked::<H, J>(host, alloc, names, judge, &lock, folder, texts, outputs) {
        Ok((files, opened)) => Ok(OpenFolder {
            lock,
            files,
            opened,
        }),
        Err(refused) => {
            host.unlock(lock);
            Err(refused)
        }
    }
}

/// Gives the owner's share of the lock back.
pub fn let_go<H: Host, J: Judge>(host: &mut H, names: &Names, folder: &String, lock: H::Lock)
    requires lock { H.folder_of lock ≡ string_bytes folder.now }
    requires held { IsHeld (string_bytes folder.now) (H.asked host.old) }
    ensures rules { Each (rule J.accepts (wanted_of names.now)) (H.asked host.old) → Each (rule J.accepts (wanted_of names.now)) (H.asked host.new) }
    ensures later { Later (H.asked host.old) (H.asked host.new) }
    ensures cleared { LeavesNothing (H.asked host.old) (H.asked host.new) }
    ensures free { IsFree (H.asked host.new) }
{
    let _ = names;
    let _ = folder;
    host.unlock(lock);
}

// One file of a run that is over.
fn give_one<H: Host, J: Judge>(
    host: &mut H,
    alloc: Global,
    names: &Names,
    folder: &String,
    opened: &OpenedName,
    outlet: ResumedOutlet<H::Lines>,
) -> Result<(), Refused>
    requires held { IsHeld (string_bytes folder.now) (H.asked host.old) }
    requires opened { Has (Opened (string_bytes folder.now) (string_bytes opened.now.name) names.now.sync (Ok opened.now.bytes.value.items))
        (H.asked host.old) }
    ensures goes { GoesOn J.accepts (wanted_of names.now) (H.asked host.old) (H.asked host.new) }
    ensures used { OnOk result (Has (Used (string_bytes opened.now.name) (asked_of outlet)) (H.asked host.new)) }
    ensures cause { IfErr result (λ refused. refused.fault ≡ Astray) }
{
    let file = outlet.into_file();
    let OpenedName { name, bytes } = opened;
    if !file.is_named(name) {
        return Err(refused_at(
            alloc,
            FilesFault::Astray,
            name,
            " came back as another file",
        ));
    }
    take_back::<H, J>(host, names, folder, name, bytes, file);
    Ok(())
}

// The name at this place, if there are so many.
fn nth_of(opened: &[OpenedName], nth: usize) -> Option<&OpenedName>
    ensures { IfSome result (λ one. slice_get opened.now nth ≡ Some one.now) }
{
    opened.get(nth)
}

/// Gives the files of a run that is over back to the host: what each was asked stands in the log from now on.
pub fn give_back<H: Host, J: Judge>(
    host: &mut H,
    alloc: Global,
    names: &Names,
    folder: &String,
    opened: &[OpenedName],
    outlets: Vec<ResumedOutlet<H::Lines>>,
) -> Result<(), Refused>
    // The lock is let go of only behind them.
    requires held { IsHeld (string_bytes folder.now) (H.asked host.old) }
    requires opened { AreOpened names.now.sync (string_bytes folder.now) opened.now (H.asked host.old) }
    ensures goes { GoesOn J.accepts (wanted_of names.now) (H.asked host.old) (H.asked host.new) }
    ensures used { OnOk result (AreUsed opened.now outlets.items (H.asked host.new)) }
    ensures cause { IfErr result (λ refused. refused.fault ≡ Astray) }
{
    let mut next = 0;
    for outlet in outlets {
        let Some(one) = nth_of(opened, next) else {
            return Err(refused_at(
                alloc,
                FilesFault::Astray,
                folder,
                ": more files came back than were opened",
            ));
        };
        give_one::<H, J>(host, alloc, names, folder, one, outlet)?;
        next += 1;
    }
    Ok(())
}
