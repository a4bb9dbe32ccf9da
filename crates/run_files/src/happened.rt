// The file into which what happens is written: beside the one of its name, which it becomes once it is whole.
ghost use Rattle.std.specs.Prelude.{◌≡◌, ◌++◌, ◌∷◌, ℕ, List, IfErr, IfOk, IfSome, IfNone, OnOk, Some, Ok, Err, codes, string_bytes};
ghost use Rattle.std.specs.Fmt.{decimal};
ghost use Rattle.std.specs.Option.{option_map};
ghost use Rattle.host.specs.Requests.{Has, Looked, MadeFile, Renamed};
ghost use Rattle.host.specs.declared.fault.HostFault.TheVariants as host_fault;
ghost use Rattle.host.specs.declared.host.Standing.TheVariants.{Device};
ghost use Rattle.run_files.specs.History.{IsOpenFor};
ghost use Rattle.run_files.specs.Leftovers.{AreGone, IsNamed};
ghost use Rattle.run_files.specs.Keeping.{IsWrittenTo};
ghost use Rattle.run_files.specs.Causes.{IsCaused, tried_name};
ghost use Rattle.run_files.specs.Removing.{IsFileRemoved};
ghost use Rattle.run_files.specs.Rules.{GoesOn, GoesWith, IsReady};
ghost use Rattle.run_files.specs.Wanted.{wanted_of};

use crate::asking::{look, make, remove_file, rename_file, write};
use crate::fault::{FilesFault, Refused, is_there};
use crate::names::{Judge, Names};
use crate::words::{refused_at, refused_by};
use host::{Host, HostFault, Standing};
use std::alloc::{AllocError, Global};

/// The number of the last name that is tried for a file or a folder that is made, from 0.
pub const LAST_NAME: u64 = 99;

/// A file into which what happens is to be written. It isn't `Drop`, so that it can't be forgotten: it is written and gets its name
/// (`finish_history`), or it is taken away (`drop_history`).
pub struct HistoryFile<F: Drop> {
    pub file: F,
    /// The name under which it was made. None for a device, as a terminal or a pipe.
    pub made: Option<String>,
}

// The name that is tried first.
fn first_name(alloc: Global, stem: &str, ending: &str) -> Result<String, AllocError>
    ensures { IfOk result (λ name. string_bytes name ≡ stem.now ++ codes "." ++ ending.now) }
{
    format!(in alloc; "{stem}.{ending}")
}

// A name with a number.
fn numbered_name(alloc: Global, stem: &str, ending: &str, nth: u64) -> Result<String, AllocError>
    ensures { IfOk result (λ name. string_bytes name ≡ stem.now ++ codes "." ++ ending.now ++ 46 ∷ decimal nth) }
{
    let mut name = first_name(alloc, stem, ending)?;
    write!(name, ".{nth}")?;
    Ok(name)
}

// The name that is tried at the nth time.
pub(crate) fn fresh_name(
    alloc: Global,
    stem: &str,
    ending: &str,
    nth: u64,
) -> Result<String, AllocError>
    ensures { IfOk result (λ name. string_bytes name ≡ tried_name stem.now ending.now nth) }
{
    if nth == 0 {
        return first_name(alloc, stem, ending);
    }
    numbered_name(alloc, stem, ending, nth)
}

// A file of the nth name beside the one of this name. None where something stands there.
fn make_nth<H: Host, J: Judge>(
    host: &mut H,
    alloc: Global,
    names: &Names,
    path: &String,
    stem: &str,
    nth: u64,
) -> Result<Option<HistoryFile<H::File>>, Refused>
    requires ready { IsReady J.accepts (wanted_of names.now) (H.asked host.old) }
    requires wanted { (wanted_of names.now).history ≡ Some (string_bytes path.now) }
    ensures made { IfOk result (λ made. IfSome made (λ history. GoesWith (IsNamed (option_map string_bytes history.made)) J.accepts (wanted_of names.now) (H.asked host.old) (H.asked host.new))) }
    ensures unmade { IfOk result (λ made. IfNone made (GoesOn J.accepts (wanted_of names.now) (H.asked host.old) (H.asked host.new))) }
    ensures failed { IfErr result (λ refused. GoesOn J.accepts (wanted_of names.now) (H.asked host.old) (H.asked host.new)) }
    ensures open { IfOk result (λ made. IfSome made (λ history. IsOpenFor (string_bytes path.now) (option_map string_bytes history.made)
        (H.path_of history.file) (H.asked host.new))) }
    ensures taken { IfOk result (λ made. IfNone made (Has (MadeFile (tried_name stem.now (codes "new") nth) (Err host_fault.IsThere)) (H.asked host.new))) }
    ensures cause { IfErr result (λ refused. IsCaused J.accepts (wanted_of names.now) (H.asked host.new) refused.fault) }
{
    let _ = path;
    let made = fresh_name(alloc, stem, "new", nth)?;
    match make::<H, J>(host, names, &made) {
        Ok(file) => Ok(Some(HistoryFile {
            file,
            made: Some(made),
        })),
        Err(fault) => if is_there(fault) {
            Ok(None)
        } else {
            Err(refused_by(host, alloc, FilesFault::Unwritten, fault, &made))
        },
    }
}

// A file beside the one of this name. An older one that was left there stays.
fn make_beside<H: Host, J: Judge>(
    host: &mut H,
    alloc: Global,
    names: &Names,
    path: &String,
) -> Result<HistoryFile<H::File>, Refused>
    requires ready { IsReady J.accepts (wanted_of names.now) (H.asked host.old) }
    requires wanted { (wanted_of names.now).history ≡ Some (string_bytes path.now) }
    ensures goes { IfOk result (λ history. GoesWith (IsNamed (option_map string_bytes history.made)) J.accepts (wanted_of names.now) (H.asked host.old) (H.asked host.new)) }
    ensures failed { IfErr result (λ refused. GoesOn J.accepts (wanted_of names.now) (H.asked host.old) (H.asked host.new)) }
    ensures open { IfOk result (λ history. IsOpenFor (string_bytes path.now) (option_map string_bytes history.made)
        (H.path_of history.file) (H.asked host.new)) }
    ensures cause { IfErr result (λ refused. IsCaused J.accepts (wanted_of names.now) (H.asked host.new) refused.fault) }
{
    let stem = path.as_str().trim_end_matches('/');
    for nth in 0..LAST_NAME + 1 {
        match make_nth::<H, J>(host, alloc, names, path, stem, nth)? {
            Some(history) => return Ok(history),
            None => {}
        }
    }
    Err(refused_at(
        alloc,
        FilesFault::Unwritten,
        path,
        ".new: too many files of this name are left",
    ))
}

// A device of this name.
fn open_device<H: Host, J: Judge>(
    host: &mut H,
    alloc: Global,
    names: &Names,
    path: &String,
) -> Result<HistoryFile<H::File>, Refused>
    requires ready { IsReady J.accepts (wanted_of names.now) (H.asked host.old) }
    requires wanted { (wanted_of names.now).history ≡ Some (string_bytes path.now) }
    requires device { Has (Looked (string_bytes path.now) (Ok Device)) (H.asked host.old) }
    ensures goes { GoesOn J.accepts (wanted_of names.now) (H.asked host.old) (H.asked host.new) }
    ensures open { IfOk result (λ history. IsOpenFor (string_bytes path.now) (option_map string_bytes history.made)
        (H.path_of history.file) (H.asked host.new)) }
    ensures cause { IfErr result (λ refused. IsCaused J.accepts (wanted_of names.now) (H.asked host.new) refused.fault) }
{
    match host.open_device(path) {
        Ok(file) => Ok(HistoryFile { file, made: None }),
        Err(fault) => Err(refused_by(host, alloc, FilesFault::Unwritten, fault, path)),
    }
}

/// The file into which what happens is to be written: a new one beside that of this name, or the device of this name.
pub fn open_history<H: Host, J: Judge>(
    host: &mut H,
    alloc: Global,
    names: &Names,
    path: &String,
) -> Result<HistoryFile<H::File>, Refused>
    requires ready { IsReady J.accepts (wanted_of names.now) (H.asked host.old) }
    requires wanted { (wanted_of names.now).history ≡ Some (string_bytes path.now) }
    ensures goes { IfOk result (λ history. GoesWith (IsNamed (option_map string_bytes history.made)) J.accepts (wanted_of names.now) (H.asked host.old) (H.asked host.new)) }
    ensures failed { IfErr result (λ refused. GoesOn J.accepts (wanted_of names.now) (H.asked host.old) (H.asked host.new)) }
    ensures open { IfOk result (λ history. IsOpenFor (string_bytes path.now) (option_map string_bytes history.made)
        (H.path_of history.file) (H.asked host.new)) }
    ensures cause { IfErr result (λ refused. IsCaused J.accepts (wanted_of names.now) (H.asked host.new) refused.fault) }
{
    match look::<H, J>(host, names, path) {
        Ok(Standing::Device) => open_device::<H, J>(host, alloc, names, path),
        Ok(Standing::Folder) => Err(refused_at(alloc, FilesFault::Unwritten, path, " is a folder")),
        Ok(Standing::File) | Ok(Standing::Nothing) => make_beside::<H, J>(host, alloc, names, path),
        Err(fault) => Err(refused_by(host, alloc, FilesFault::Unwritten, fault, path)),
    }
}

// Gives the file its name, where it was made under another.
fn rename<H: Host, J: Judge>(
    host: &mut H,
    names: &Names,
    path: &String,
    made: &Option<String>,
) -> Result<(), HostFault>
    requires ready { IsReady J.accepts (wanted_of names.now) (H.asked host.old) }
    requires wanted { (wanted_of names.now).history ≡ Some (string_bytes path.now) }
    requires made { IfSome made.now (λ name. Has (MadeFile (string_bytes name) (Ok tt)) (H.asked host.old)) }
    ensures goes { GoesOn J.accepts (wanted_of names.now) (H.asked host.old) (H.asked host.new) }
    ensures renamed { OnOk result (IfSome made.now (λ name. Has (Renamed (string_bytes name) (string_bytes path.now) (Ok tt)) (H.asked host.new))) }
    ensures gone { OnOk result (AreGone (IsNamed (option_map string_bytes made.now)) (H.asked host.new)) }
    ensures fault { IfErr result (λ fault. (from : List ℕ) × Has (Renamed from (string_bytes path.now) (Err fault)) (H.asked host.new)) }
{
    match made {
        Some(name) => rename_file::<H, J>(host, names, name, path),
        None => Ok(()),
    }
}

/// Takes the file away that was made for what happens, since nothing is written to it.
pub fn drop_history<H: Host, J: Judge>(host: &mut H, names: &Names, history: HistoryFile<H::File>)
    requires { IfSome history.made (λ name. Has (MadeFile (string_bytes name) (Ok tt)) (H.asked host.old)) }
    ensures goes { GoesOn J.accepts (wanted_of names.now) (H.asked host.old) (H.asked host.new) }
    ensures gone { AreGone (IsNamed (option_map string_bytes history.made)) (H.asked host.new) }
    ensures removed { IfSome history.made (λ name. IsFileRemoved (string_bytes name) (H.asked host.new)) }
{
    let HistoryFile { file, made } = history;
    drop(file);
    if let Some(name) = &made {
        remove_file::<H, J>(host, names, name);
    }
}

/// Writes what happened, and gives the file its name. One that can't be written or renamed is taken away.
pub fn finish_history<H: Host, J: Judge>(
    host: &mut H,
    alloc: Global,
    names: &Names,
    path: &String,
    mut history: HistoryFile<H::File>,
    bytes: &Vec<u8>,
) -> Result<(), Refused>
    requires ready { IsReady J.accepts (wanted_of names.now) (H.asked host.old) }
    requires wanted { (wanted_of names.now).history ≡ Some (string_bytes path.now) }
    requires open { IsOpenFor (string_bytes path.now) (option_map string_bytes history.made) (H.path_of history.file) (H.asked host.old) }
    ensures goes { GoesOn J.accepts (wanted_of names.now) (H.asked host.old) (H.asked host.new) }
    ensures written { OnOk result (IsWrittenTo (string_bytes path.now) bytes.now.items (H.asked host.new)) }
    ensures gone { AreGone (IsNamed (option_map string_bytes history.made)) (H.asked host.new) }
    ensures cause { IfErr result (λ refused. IsCaused J.accepts (wanted_of names.now) (H.asked host.new) refused.fault) }
{
    if let Err(fault) = write::<H, J>(host, names, &mut history.file, bytes) {
        let refusal = refused_by(host, alloc, FilesFault::Unwritten, fault, path);
        drop_history::<H, J>(host, names, history);
        return Err(refusal);
    }
    if let Err(fault) = rename::<H, J>(host, names, path, &history.made) {
        let refusal = refused_by(host, alloc, FilesFault::Unwritten, fault, path);
        drop_history::<H, J>(host, names, history);
        return Err(refusal);
    }
    let HistoryFile { file, made } = history;
    drop(file);
    drop(made);
    Ok(())
}
