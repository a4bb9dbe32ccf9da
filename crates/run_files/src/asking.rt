// One request each, which keeps the rules.
ghost use Rattle.std.specs.Prelude.{◌≡◌, ◌⊎◌, ℕ, List, IfOk, IfErr, Ok, Err, OnOk, Some, [], string_bytes};
ghost use Rattle.host.specs.Requests.{Has, HasUnder, IsHeld, Read, Looked, Placed, MadeFile, MadeFolder, OpenedDevice, Wrote, Synced, Renamed};
ghost use Rattle.host.specs.Requests.{Opened, Cut, Used, Said, Told};
ghost use Rattle.run_files.specs.Leftovers.{AreGone, IsIn, IsNamed};
ghost use Rattle.run_files.specs.Making.{IsNotMade};
ghost use Rattle.run_files.specs.Removing.{IsFileRemoved, IsFolderRemoved};
ghost use Rattle.run_files.specs.Rules.{GoesOn, GoesWith, HasSameTexts, IsReady, IsReplacement};
ghost use Rattle.run_files.specs.Wanted.{wanted_of};

use crate::names::{Judge, Names};
use host::{Host, HostFault, LineFile, Standing};
use std::snapshot::Snapshot;

/// All that a file holds.
pub fn read<H: Host, J: Judge>(
    host: &mut H,
    names: &Names,
    path: &String,
) -> Result<Vec<u8>, HostFault>
    ensures goes { GoesOn J.accepts (wanted_of names.now) (H.asked host.old) (H.asked host.new) }
    ensures read { IfOk result (λ bytes. Has (Read (string_bytes path.now) (Ok bytes.items)) (H.asked host.new)) }
    ensures under { IfOk result (λ bytes. (folder : List ℕ) → IsHeld folder (H.asked host.old)
        → HasUnder folder (Read (string_bytes path.now) (Ok bytes.items)) (H.asked host.new)) }
    ensures fault { IfErr result (λ fault. Has (Read (string_bytes path.now) (Err fault)) (H.asked host.new)) }
{
    host.read(path)
}

/// What stands under a name.
pub fn look<H: Host, J: Judge>(
    host: &mut H,
    names: &Names,
    path: &String,
) -> Result<Standing, HostFault>
    ensures goes { GoesOn J.accepts (wanted_of names.now) (H.asked host.old) (H.asked host.new) }
    ensures looked { IfOk result (λ standing. Has (Looked (string_bytes path.now) (Ok standing)) (H.asked host.new)) }
    ensures fault { IfErr result (λ fault. Has (Looked (string_bytes path.now) (Err fault)) (H.asked host.new)) }
{
    host.look(path)
}

/// The place of a name.
pub fn place<H: Host, J: Judge>(
    host: &mut H,
    names: &Names,
    path: &String,
) -> Result<String, HostFault>
    ensures goes { GoesOn J.accepts (wanted_of names.now) (H.asked host.old) (H.asked host.new) }
    ensures placed { IfOk result (λ place. Has (Placed (string_bytes path.now) (Ok (string_bytes place))) (H.asked host.new)) }
    ensures fault { IfErr result (λ fault. Has (Placed (string_bytes path.now) (Err fault)) (H.asked host.new)) }
{
    host.place(path)
}

/// A file, where nothing stands.
pub fn make<H: Host, J: Judge>(
    host: &mut H,
    names: &Names,
    path: &String,
) -> Result<H::File, HostFault>
    requires { IsReady J.accepts (wanted_of names.now) (H.asked host.old) }
    ensures goes { GoesWith (IsNamed (Some (string_bytes path.now))) J.accepts (wanted_of names.now) (H.asked host.old) (H.asked host.new) }
    ensures unmade { IfErr result (λ fault. GoesOn J.accepts (wanted_of names.now) (H.asked host.old) (H.asked host.new)) }
    ensures made { IfOk result (λ file. Has (MadeFile (string_bytes path.now) (Ok tt)) (H.asked host.new)) }
    ensures path { IfOk result (λ file. H.path_of file ≡ string_bytes path.now) }
    ensures fault { IfErr result (λ fault. Has (MadeFile (string_bytes path.now) (Err fault)) (H.asked host.new)) }
{
    host.make_file(path)
}

/// All of these bytes, at the end of a file that was made, or of a device.
pub fn write<H: Host, J: Judge>(
    host: &mut H,
    names: &Names,
    file: &mut H::File,
    bytes: &Vec<u8>,
) -> Result<(), HostFault>
    requires ready { IsReady J.accepts (wanted_of names.now) (H.asked host.old) }
    requires made { Has (MadeFile (H.path_of file.old) (Ok tt)) (H.asked host.old)
        ⊎ Has (OpenedDevice (H.path_of file.old) (Ok tt)) (H.asked host.old) }
    ensures goes { GoesOn J.accepts (wanted_of names.now) (H.asked host.old) (H.asked host.new) }
    ensures wrote { OnOk result (Has (Wrote (H.path_of file.old) bytes.now.items (Ok tt)) (H.asked host.new)) }
    ensures fault { IfErr result (λ fault. Has (Wrote (H.path_of file.old) bytes.now.items (Err fault)) (H.asked host.new)) }
{
    host.write(file, bytes)
}

/// A file with these bytes, where nothing stands. One that can't be filled is taken away.
pub fn make_file<H: Host, J: Judge>(
    host: &mut H,
    names: &Names,
    path: &String,
    bytes: &Vec<u8>,
) -> Result<(), HostFault>
    requires { IsReady J.accepts (wanted_of names.now) (H.asked host.old) }
    ensures goes { GoesWith (IsNamed (Some (string_bytes path.now))) J.accepts (wanted_of names.now) (H.asked host.old) (H.asked host.new) }
    ensures unmade { IfErr result (λ fault. GoesOn J.accepts (wanted_of names.now) (H.asked host.old) (H.asked host.new)) }
    ensures made { OnOk result (Has (MadeFile (string_bytes path.now) (Ok tt)) (H.asked host.new)) }
    ensures wrote { OnOk result (Has (Wrote (string_bytes path.now) bytes.now.items (Ok tt)) (H.asked host.new)) }
    ensures fault { IfErr result (λ fault. IsNotMade (string_bytes path.now) bytes.now.items fault (H.asked host.new)) }
{
    let mut file = make::<H, J>(host, names, path)?;
    match write::<H, J>(host, names, &mut file, bytes) {
        Ok(()) => Ok(()),
        Err(fault) => {
            remove_file::<H, J>(host, names, path);
            Err(fault)
        }
    }
}

/// A folder, where nothing stands.
pub fn make_folder<H: Host, J: Judge>(
    host: &mut H,
    names: &Names,
    path: &String,
) -> Result<(), HostFault>
    requires { IsReady J.accepts (wanted_of names.now) (H.asked host.old) }
    ensures goes { GoesWith (IsNamed (Some (string_bytes path.now))) J.accepts (wanted_of names.now) (H.asked host.old) (H.asked host.new) }
    ensures unmade { IfErr result (λ fault. GoesOn J.accepts (wanted_of names.now) (H.asked host.old) (H.asked host.new)) }
    ensures made { OnOk result (Has (MadeFolder (string_bytes path.now) (Ok tt)) (H.asked host.new)) }
    ensures fault { IfErr result (λ fault. Has (MadeFolder (string_bytes path.now) (Err fault)) (H.asked host.new)) }
{
    host.make_folder(path)
}

/// Waits until what a file holds, or which names a folder has, stands on the disk.
pub fn sync<H: Host, J: Judge>(host: &mut H, names: &Names, path: &String) -> Result<(), HostFault>
    requires { IsReady J.accepts (wanted_of names.now) (H.asked host.old) }
    ensures goes { GoesOn J.accepts (wanted_of names.now) (H.asked host.old) (H.asked host.new) }
    ensures synced { OnOk result (Has (Synced (string_bytes path.now) (Ok tt)) (H.asked host.new)) }
    ensures fault { IfErr result (λ fault. Has (Synced (string_bytes path.now) (Err fault)) (H.asked host.new)) }
{
    host.sync(path)
}

/// Gives a folder that was made the name of the folder that is asked for.
pub fn rename_folder<H: Host, J: Judge>(
    host: &mut H,
    names: &Names,
    from: &String,
    to: &String,
) -> Result<(), HostFault>
    requires ready { IsReady J.accepts (wanted_of names.now) (H.asked host.old) }
    requires made { Has (MadeFolder (string_bytes from.now) (Ok tt)) (H.asked host.old) }
    requires wanted { (wanted_of names.now).state ≡ Some (string_bytes to.now) }
    ensures goes { GoesOn J.accepts (wanted_of names.now) (H.asked host.old) (H.asked host.new) }
    ensures renamed { OnOk result (Has (Renamed (string_bytes from.now) (string_bytes to.now) (Ok tt)) (H.asked host.new)) }
    ensures gone { OnOk result (AreGone (IsIn (string_bytes from.now)) (H.asked host.new)) }
    ensures fault { IfErr result (λ fault. Has (Renamed (string_bytes from.now) (string_bytes to.now) (Err fault)) (H.asked host.new)) }
{
    host.rename(from, to)
}

/// Gives a file that was made the name of the file into which what happens is written.
pub fn rename_file<H: Host, J: Judge>(
    host: &mut H,
    names: &Names,
    from: &String,
    to: &String,
) -> Result<(), HostFault>
    requires ready { IsReady J.accepts (wanted_of names.now) (H.asked host.old) }
    requires made { Has (MadeFile (string_bytes from.now) (Ok tt)) (H.asked host.old) }
    requires wanted { (wanted_of names.now).history ≡ Some (string_bytes to.now) }
    ensures goes { GoesOn J.accepts (wanted_of names.now) (H.asked host.old) (H.asked host.new) }
    ensures renamed { OnOk result (Has (Renamed (string_bytes from.now) (string_bytes to.now) (Ok tt)) (H.asked host.new)) }
    ensures gone { OnOk result (AreGone (IsNamed (Some (string_bytes from.now))) (H.asked host.new)) }
    ensures fault { IfErr result (λ fault. Has (Renamed (string_bytes from.now) (string_bytes to.now) (Err fault)) (H.asked host.new)) }
{
    host.rename(from, to)
}

/// Gives a file that was made the name of the folder's text of inputs, from which the run's has grown.
pub fn rename_text<H: Host, J: Judge>(
    host: &mut H,
    names: &Names,
    from: &String,
    to: &String,
) -> Result<(), HostFault>
    requires ready { IsReady J.accepts (wanted_of names.now) (H.asked host.old) }
    requires grown { IsReplacement J.accepts (wanted_of names.now) (string_bytes from.now) (string_bytes to.now) (H.asked host.old) }
    ensures goes { GoesOn J.accepts (wanted_of names.now) (H.asked host.old) (H.asked host.new) }
    ensures renamed { OnOk result (Has (Renamed (string_bytes from.now) (string_bytes to.now) (Ok tt)) (H.asked host.new)) }
    ensures gone { OnOk result (AreGone (IsNamed (Some (string_bytes from.now))) (H.asked host.new)) }
    ensures fault { IfErr result (λ fault. Has (Renamed (string_bytes from.now) (string_bytes to.now) (Err fault)) (H.asked host.new)) }
{
    host.rename(from, to)
}

/// Takes a file away that was made. That it can't be is no failure of the run.
pub fn remove_file<H: Host, J: Judge>(host: &mut H, names: &Names, path: &String)
    requires { Has (MadeFile (string_bytes path.now) (Ok tt)) (H.asked host.old) }
    ensures goes { GoesOn J.accepts (wanted_of names.now) (H.asked host.old) (H.asked host.new) }
    ensures removed { IsFileRemoved (string_bytes path.now) (H.asked host.new) }
    ensures gone { AreGone (IsNamed (Some (string_bytes path.now))) (H.asked host.new) }
{
    let _ = host.remove_file(path);
}

/// Takes a folder away that was made, where it is empty. That it can't be is no failure of the run.
pub fn remove_folder<H: Host, J: Judge>(host: &mut H, names: &Names, path: &String)
    requires { Has (MadeFolder (string_bytes path.now) (Ok tt)) (H.asked host.old) }
    ensures goes { GoesOn J.accepts (wanted_of names.now) (H.asked host.old) (H.asked host.new) }
    ensures removed { IsFolderRemoved (string_bytes path.now) (H.asked host.new) }
    ensures gone { AreGone (IsNamed (Some (string_bytes path.now))) (H.asked host.new) }
{
    let _ = host.remove_folder(path);
}

/// A file of a folder of this run's texts whose lock is held, and what it holds.
pub fn open_lines<H: Host, J: Judge>(
    host: &mut H,
    names: &Names,
    lock: &H::Lock,
    folder: &String,
    name: &String,
) -> Result<(H::Lines, Vec<u8>), HostFault>
    requires ready { IsReady J.accepts (wanted_of names.now) (H.asked host.old) }
    requires lock { H.folder_of lock.now ≡ string_bytes folder.now }
    requires held { IsHeld (string_bytes folder.now) (H.asked host.old) }
    requires same { HasSameTexts (wanted_of names.now) (string_bytes folder.now) (H.asked host.old) }
    ensures goes { GoesOn J.accepts (wanted_of names.now) (H.asked host.old) (H.asked host.new) }
    ensures opened { IfOk result (λ opened. Has (Opened (string_bytes folder.now) (string_bytes name.now) names.now.sync (Ok opened.1.items))
        (H.asked host.new)) }
    ensures fault { IfErr result (λ fault. Has (Opened (string_bytes folder.now) (string_bytes name.now) names.now.sync (Err fault))
        (H.asked host.new)) }
    ensures name { IfOk result (λ opened. H.Lines.name_of opened.0 ≡ string_bytes name.now) }
    ensures fresh { IfOk result (λ opened. H.Lines.asked opened.0 ≡ []) }
{
    let _ = folder;
    host.open_lines(lock, name, names.sync)
}

/// Takes off what stands behind the first bytes of a file that was opened.
pub fn cut<H: Host, J: Judge>(
    host: &mut H,
    names: &Names,
    folder: &String,
    name: &String,
    lines: &mut H::Lines,
    bytes: &Vec<u8>,
    len: u64,
) -> Result<(), HostFault>
    requires ready { IsReady J.accepts (wanted_of names.now) (H.asked host.old) }
    requires held { IsHeld (string_bytes folder.now) (H.asked host.old) }
    requires opened { Has (Opened (string_bytes folder.now) (string_bytes name.now) names.now.sync (Ok bytes.now.items)) (H.asked host.old) }
    requires name { H.Lines.name_of lines.old ≡ string_bytes name.now }
    ensures goes { GoesOn J.accepts (wanted_of names.now) (H.asked host.old) (H.asked host.new) }
    ensures cut { OnOk result (Has (Cut (string_bytes name.now) len (Ok tt)) (H.asked host.new)) }
    ensures fault { IfErr result (λ fault. Has (Cut (string_bytes name.now) len (Err fault)) (H.asked host.new)) }
    ensures name { H.Lines.name_of lines.new ≡ H.Lines.name_of lines.old }
    ensures same { H.Lines.asked lines.new ≡ H.Lines.asked lines.old }
{
    let _ = folder;
    let _ = name;
    let _ = bytes;
    host.cut(lines, len)
}

/// Takes a file of lines back: what it was asked stands in the log from now on.
pub fn take_back<H: Host, J: Judge>(
    host: &mut H,
    names: &Names,
    folder: &String,
    name: &String,
    bytes: &Snapshot<Vec<u8>>,
    lines: H::Lines,
)
    requires held { IsHeld (string_bytes folder.now) (H.asked host.old) }
    requires opened { Has (Opened (string_bytes folder.now) (string_bytes name.now) names.now.sync (Ok bytes.now.value.items))
        (H.asked host.old) }
    requires name { H.Lines.name_of lines ≡ string_bytes name.now }
    ensures goes { GoesOn J.accepts (wanted_of names.now) (H.asked host.old) (H.asked host.new) }
    ensures used { Has (Used (string_bytes name.now) (H.Lines.asked lines)) (H.asked host.new) }
{
    let _ = folder;
    let _ = name;
    let _ = bytes;
    host.take_back(lines)
}

/// Writes these bytes to standard output.
pub fn say<H: Host, J: Judge>(host: &mut H, names: &Names, bytes: &Vec<u8>) -> Result<(), HostFault>
    ensures goes { GoesOn J.accepts (wanted_of names.now) (H.asked host.old) (H.asked host.new) }
    ensures said { OnOk result (Has (Said bytes.now.items (Ok tt)) (H.asked host.new)) }
    ensures fault { IfErr result (λ fault. Has (Said bytes.now.items (Err fault)) (H.asked host.new)) }
{
    host.say(bytes)
}

/// Writes these bytes to standard error.
pub fn tell<H: Host, J: Judge>(
    host: &mut H,
    names: &Names,
    bytes: &Vec<u8>,
) -> Result<(), HostFault>
    ensures goes { GoesOn J.accepts (wanted_of names.now) (H.asked host.old) (H.asked host.new) }
    ensures told { OnOk result (Has (Told bytes.now.items (Ok tt)) (H.asked host.new)) }
    ensures fault { IfErr result (λ fault. Has (Told bytes.now.items (Err fault)) (H.asked host.new)) }
{
    host.tell(bytes)
}
