//! The host as a program sees it: what it may be asked, and what it was asked.
ghost use Rattle.std.specs.Prelude.{◌≡◌, ◌≤◌, [], ◌∷◌, List, ℕ, length, IfOk, OnErr, string_bytes};
ghost use Rattle.host.specs.Answers.{answered};
ghost use Rattle.host.specs.Requests.{Request, Read, Looked, Placed, MadeFile, MadeFolder, OpenedDevice, Wrote, Synced, Renamed, RemovedFile, RemovedFolder};
ghost use Rattle.host.specs.Requests.{Locked, Unlocked, Opened, Cut, Used, Said, Told, OpenedSource, Took};
ghost use Rattle.host.specs.declared.host.TheConstants.{MAX_PIECE_BYTES};

use crate::fault::HostFault;
use crate::line_file::LineFile;
use std::alloc::{AllocError, Global};

/// How many bytes come of a source at once, at most.
pub const MAX_PIECE_BYTES: usize = 65_536;

/// What stands under a name.
#[derive(Clone, Copy, Debug, PartialEq, Eq)]
pub enum Standing {
    Nothing,
    /// A file of bytes.
    File,
    Folder,
    /// Something else, as a terminal or a pipe.
    Device,
}

/// A host. It may answer anything; each call adds to what it was asked that request and its answer, and nothing else.
///
/// There is no request that empties a file, that makes one where something stands, or that removes a folder with what is in it.
pub trait Host {
    /// A file that was made by this run, or a device that was opened for writing.
    type File: Drop;

    /// A lock that is held. It isn't `Drop`: it has to be let go of by `unlock`.
    type Lock;

    /// A file of lines of a folder, which has a share of its lock.
    type Lines: LineFile + Send;

    /// A file or a pipe that is read from its beginning on, a piece at a time, while it may still grow.
    type Source: Drop;

    /// What it was asked, the newest first.
    ghost asked: { Self → List Request };

    ghost path_of: { Self.File → List ℕ };

    ghost folder_of: { Self.Lock → List ℕ };

    /// By which number its opener knows it.
    ghost source_number: { Self.Source → ℕ };

    /// All that a file holds.
    fn read(&mut self, path: &String) -> Result<Vec<u8>, HostFault>
        ensures { asked self.new ≡ Read (string_bytes path.now) (answered (λ bytes. bytes.items) result) ∷ asked self.old };

    /// What stands under a name.
    fn look(&mut self, path: &String) -> Result<Standing, HostFault>
        ensures { asked self.new ≡ Looked (string_bytes path.now) result ∷ asked self.old };

    /// The one path at which a file of this name stands, or would stand: names of one file have one place.
    fn place(&mut self, path: &String) -> Result<String, HostFault>
        ensures { asked self.new ≡ Placed (string_bytes path.now) (answered string_bytes result) ∷ asked self.old };

    /// A file of this name, where nothing stands.
    fn make_file(&mut self, path: &String) -> Result<Self::File, HostFault>
        ensures asked { asked self.new ≡ MadeFile (string_bytes path.now) (answered (λ file. tt) result) ∷ asked self.old }
        ensures path { IfOk result (λ file. path_of file ≡ string_bytes path.now) };

    /// A folder of this name, where nothing stands.
    fn make_folder(&mut self, path: &String) -> Result<(), HostFault>
        ensures { asked self.new ≡ MadeFolder (string_bytes path.now) result ∷ asked self.old };

    /// What stands under this name and is no file of bytes, for writing. Nothing is made.
    fn open_device(&mut self, path: &String) -> Result<Self::File, HostFault>
        ensures asked { asked self.new ≡ OpenedDevice (string_bytes path.now) (answered (λ file. tt) result) ∷ asked self.old }
        ensures path { IfOk result (λ file. path_of file ≡ string_bytes path.now) };

    /// Writes all of these bytes at the end of a file.
    fn write(&mut self, file: &mut Self::File, bytes: &Vec<u8>) -> Result<(), HostFault>
        ensures asked { asked self.new ≡ Wrote (path_of file.old) bytes.now.items result ∷ asked self.old }
        ensures path { path_of file.new ≡ path_of file.old };

    /// Waits until what a file holds, or which names a folder has, stands on the disk.
    fn sync(&mut self, path: &String) -> Result<(), HostFault>
        ensures { asked self.new ≡ Synced (string_bytes path.now) result ∷ asked self.old };

    /// Gives what stands under the one name the other. Of a folder it succeeds where nothing stands there, or an empty folder.
    fn rename(&mut self, from: &String, to: &String) -> Result<(), HostFault>
        ensures { asked self.new ≡ Renamed (string_bytes from.now) (string_bytes to.now) result ∷ asked self.old };

    fn remove_file(&mut self, path: &String) -> Result<(), HostFault>
        ensures { asked self.new ≡ RemovedFile (string_bytes path.now) result ∷ asked self.old };

    /// Removes a folder that is empty.
    fn remove_folder(&mut self, path: &String) -> Result<(), HostFault>
        ensures { asked self.new ≡ RemovedFolder (string_bytes path.now) result ∷ asked self.old };

    /// Takes the lock of a folder. It waits up to a second for another process that has it.
    fn lock(&mut self, folder: &String) -> Result<Self::Lock, HostFault>
        ensures asked { asked self.new ≡ Locked (string_bytes folder.now) (answered (λ lock. tt) result) ∷ asked self.old }
        ensures folder { IfOk result (λ lock. folder_of lock ≡ string_bytes folder.now) };

    /// Gives its owner's share of a lock back. The lock goes with its last share.
    fn unlock(&mut self, lock: Self::Lock)
        ensures { asked self.new ≡ Unlocked (folder_of lock) ∷ asked self.old };

    /// The file of lines of this name, in a folder whose lock is held, and what it holds. Where it waits, each put is synced. It has a share
    /// of the lock from now on.
    fn open_lines(
        &mut self,
        lock: &Self::Lock,
        name: &String,
        waits: bool,
    ) -> Result<(Self::Lines, Vec<u8>), HostFault>
        ensures asked { asked self.new ≡ Opened (folder_of lock.now) (string_bytes name.now) waits (answered (λ opened. opened.1.items) result)
            ∷ asked self.old }
        ensures name { IfOk result (λ opened. Self.Lines.name_of opened.0 ≡ string_bytes name.now) }
        ensures fresh { IfOk result (λ opened. Self.Lines.asked opened.0 ≡ []) };

    /// Takes off what stands behind the first bytes of a file of lines.
    fn cut(&mut self, lines: &mut Self::Lines, len: u64) -> Result<(), HostFault>
        ensures asked { asked self.new ≡ Cut (Self.Lines.name_of lines.old) len result ∷ asked self.old }
        ensures name { Self.Lines.name_of lines.new ≡ Self.Lines.name_of lines.old }
        ensures same { Self.Lines.asked lines.new ≡ Self.Lines.asked lines.old };

    /// Takes a file of lines back: what it was asked stands in this log from now on, and its share of the lock is over.
    fn take_back(&mut self, lines: Self::Lines)
        ensures { asked self.new ≡ Used (Self.Lines.name_of lines) (Self.Lines.asked lines) ∷ asked self.old };

    /// Writes these bytes to standard output.
    fn say(&mut self, bytes: &Vec<u8>) -> Result<(), HostFault>
        ensures { asked self.new ≡ Said bytes.now.items result ∷ asked self.old };

    /// Writes these bytes to standard error.
    fn tell(&mut self, bytes: &Vec<u8>) -> Result<(), HostFault>
        ensures { asked self.new ≡ Told bytes.now.items result ∷ asked self.old };

    /// A source, from its beginning on: what stands under this name, or standard input where the name is `-`. Its opener tells sources apart by a
    /// number of its own.
    fn open_source(&mut self, number: u8, path: &String) -> Result<Self::Source, HostFault>
        ensures asked { asked self.new ≡ OpenedSource number (string_bytes path.now) (answered (λ source. tt) result) ∷ asked self.old }
        ensures number { IfOk result (λ source. source_number source ≡ number) };

    /// What comes next of a source, in the place of what `piece` held. It waits until there is something, and gives what is there then. Nothing is
    /// the source's end.
    fn take(&mut self, source: &mut Self::Source, piece: &mut Vec<u8>) -> Result<(), HostFault>
        ensures asked { asked self.new ≡ Took (source_number source.old) (answered (λ done. piece.new.items) result) ∷ asked self.old }
        ensures number { source_number source.new ≡ source_number source.old }
        ensures few { length piece.new.items ≤ MAX_PIECE_BYTES }
        // A call that failed leaves nothing in `piece`.
        ensures failed { OnErr result (piece.new.items ≡ []) };

    /// Why the newest request wasn't done, in the host's own words.
    fn words(&self, alloc: Global) -> Result<String, AllocError>;
}
