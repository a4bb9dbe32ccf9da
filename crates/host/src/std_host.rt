// The host that a program runs on. That each call makes the call of the system that it notes stands here alone, and is read.
ghost use Rattle.std.specs.Prelude.{◌≡◌, ◌≤◌, [], ◌∷◌, length, IfOk, OnErr, string_bytes};
ghost use Rattle.std.specs.Result.{result_ok};
ghost use Rattle.host.specs.Answers.{answered};
ghost use Rattle.host.specs.Asked.{request_of};
ghost use Rattle.host.specs.HostLines.{is_waiting, lines_name, requests_of as lines_requests};
ghost use Rattle.host.specs.StdHost.{held_folder, made_path, number_of, requests_of};
ghost use Rattle.host.specs.declared.host.TheConstants.{MAX_PIECE_BYTES};

use crate::asked::{Answer, Asked, Bytes, Noted, answer_of};
use crate::fault::HostFault;
use crate::host::{Host, Standing};
use crate::host_lines::HostLines;
use crate::pieces::take_piece;
use crate::std_file::StdFile;
use std::alloc::{AllocError, Global};
use std::fs::{File, OpenOptions, TryLockError};
use std::io::{Read, Stdin, Write};
use std::path::Path;
use std::snapshot::Snapshot;
use std::time::{Clock, Duration};
use std::{fs, io, thread};

/// How often a lock that another process has is tried again, and how many milliseconds lie between two tries.
const TRIES: u32 = 100;

const PAUSE: u64 = 10;

/// The host that a program runs on.
#[derive(Drop)]
pub struct StdHost {
    rt: HostRuntime,
    asked: Asked,
    // what the system said of the newest request that wasn't done
    failed: Option<io::Error>,
}

/// A file that was made, or a device.
#[derive(Drop)]
pub struct MadeFile {
    file: File,
    path: String,
}

/// A lock that is held.
pub struct HeldLock {
    file: File,
    folder: String,
}

// What a source is read from.
#[derive(Drop)]
enum Reading {
    File(File),
    Input(Stdin),
}

/// A file that is read from its beginning on, or standard input.
#[derive(Drop)]
pub struct StdSource {
    number: u8,
    reading: Reading,
}

// Whether a name is a link. A file that is renamed would take the link's place, as that of /dev/stdout.
fn is_link(rt: &HostRuntime, path: &str) -> bool {
    match fs::symlink_metadata(rt, path) {
        Ok(metadata) => metadata.is_symlink(),
        Err(_) => false,
    }
}

// What stands under a name. A link to a file is told as what is no file: it is opened as a device then, which refuses a file.
fn standing(rt: &HostRuntime, path: &str) -> io::Result<Standing> {
    match fs::metadata(rt, path) {
        Ok(metadata) => Ok(if metadata.is_file() {
            if is_link(rt, path) {
                Standing::Device
            } else {
                Standing::File
            }
        } else if metadata.is_dir() {
            Standing::Folder
        } else {
            Standing::Device
        }),
        Err(error) => match error.kind() {
            io::ErrorKind::NotFound => Ok(Standing::Nothing),
            _ => Err(error),
        },
    }
}

// The folder in which this name stands.
fn home_of(path: Path<'_>) -> Path<'_> {
    match path.parent() {
        Some(home) => {
            if home.as_str().is_empty() {
                Path::new(".")
            } else {
                home
            }
        }
        None => Path::new("/"),
    }
}

// The one path of a name: behind all links where it stands, and else that of its folder with the name behind it.
fn place(rt: &HostRuntime, path: &str) -> io::Result<String> {
    match fs::canonicalize(rt, path) {
        Ok(place) => return Ok(place.into_string()),
        Err(error) => match error.kind() {
            io::ErrorKind::NotFound => {}
            _ => return Err(error),
        },
    }
    let path = Path::new(path);
    let mut place = fs::canonicalize(rt, home_of(path))?;
    place.push(path.file_name().unwrap_or(""))?;
    Ok(place.into_string())
}

fn make_file(rt: &HostRuntime, path: &String) -> io::Result<MadeFile>
    ensures { IfOk result (λ made. string_bytes made.path ≡ string_bytes path.now) }
{
    let path = path.clone()?;
    let mut options = OpenOptions::new();
    let file = options
        .write(true)
        .create_new(true)
        .open(rt, path.as_str())?;
    Ok(MadeFile { file, path })
}

fn open_device(rt: &HostRuntime, path: &String) -> io::Result<MadeFile>
    ensures { IfOk result (λ made. string_bytes made.path ≡ string_bytes path.now) }
{
    let path = path.clone()?;
    let mut options = OpenOptions::new();
    let file = options.write(true).open(rt, path.as_str())?;
    is_device(&file)?;
    Ok(MadeFile { file, path })
}

// What is not the user's file is left as it is, so it has to be a device once it is open too.
fn is_device(file: &File) -> io::Result<()> {
    if file.metadata()?.is_file() {
        return Err(io::Error::from(io::ErrorKind::AlreadyExists));
    }
    Ok(())
}

// Waits for the disk: a folder is opened for reading as a file is.
fn sync(rt: &HostRuntime, path: &str) -> io::Result<()> {
    fs::open(rt, path)?.sync_all()
}

// Tries to take the lock until it is there, or for a second: for an instant a process that was killed may still have it.
fn take_lock(clock: &HostRuntime, file: &File) -> io::Result<()> {
    for _ in 0..TRIES {
        match file.try_lock() {
            Ok(()) => return Ok(()),
            Err(TryLockError::Error(error)) => return Err(error),
            Err(TryLockError::WouldBlock) => { thread::sleep(clock, Duration::from_millis(PAUSE)) }
        }
    }
    Err(io::Error::from(io::ErrorKind::WouldBlock))
}

// The file of a folder's lock, which it holds. The file is made where it isn't there.
fn locked_file(rt: &HostRuntime, folder: &String) -> io::Result<File> {
    let path = format!(in rt.alloc(); "{folder}/lock")?;
    let mut options = OpenOptions::new();
    let file = options.write(true).create(true).open(rt, path.as_str())?;
    take_lock(rt, &file)?;
    Ok(file)
}

fn lock(rt: &HostRuntime, folder: &String) -> io::Result<HeldLock>
    ensures { IfOk result (λ lock. string_bytes lock.folder ≡ string_bytes folder.now) }
{
    let name = folder.clone()?;
    let file = locked_file(rt, folder)?;
    Ok(HeldLock { file, folder: name })
}

// A file that is there, for reading and writing, and what it holds.
fn open_held(rt: &HostRuntime, path: &str) -> io::Result<(File, Vec<u8>)> {
    let mut options = OpenOptions::new();
    let mut file = options.read(true).write(true).open(rt, path)?;
    let mut bytes = Vec::new(rt.alloc());
    file.read_to_end(&mut bytes)?;
    Ok((file, bytes))
}

// A file of lines, with a share of the lock, and what it holds.
fn open_lines(
    rt: &HostRuntime,
    lock: &HeldLock,
    name: &String,
    waits: bool,
) -> io::Result<(HostLines, Vec<u8>)>
    ensures name { IfOk result (λ opened. lines_name opened.0 ≡ string_bytes name.now) }
    ensures fresh { IfOk result (λ opened. lines_requests opened.0 ≡ []) }
    ensures waits { IfOk result (λ opened. is_waiting opened.0 ≡ waits) }
{
    let HeldLock {
        file: shared,
        folder,
    } = lock;
    let path = format!(in rt.alloc(); "{folder}/{name}")?;
    let (file, bytes) = open_held(rt, path.as_str())?;
    let raw = StdFile::locked(file, shared.try_clone()?);
    Ok((HostLines::new(raw, name.clone()?, waits), bytes))
}

// What a file of lines that was opened holds.
fn held_of(opened: &Result<(HostLines, Vec<u8>), HostFault>) -> Result<Bytes, HostFault>
    ensures { answered (λ bytes. bytes.value.items) result ≡ answered (λ one. one.1.items) opened.now }
{
    match opened {
        Ok((_, bytes)) => Ok(Snapshot::of(bytes)),
        Err(fault) => Err(*fault),
    }
}

fn open_source(rt: &HostRuntime, number: u8, path: &str) -> io::Result<StdSource>
    ensures { IfOk result (λ source. source.number ≡ number) }
{
    let reading = if path == "-" {
        Reading::Input(rt.stdin())
    } else {
        Reading::File(fs::open(rt, path)?)
    };
    Ok(StdSource { number, reading })
}

// What comes next of what a source is read from.
fn take(reading: &mut Reading, piece: &mut Vec<u8>) -> io::Result<()>
    ensures few { length piece.new.items ≤ MAX_PIECE_BYTES }
    ensures failed { OnErr result (piece.new.items ≡ []) }
{
    match reading {
        Reading::File(file) => take_piece(file, piece),
        Reading::Input(input) => take_piece(input, piece),
    }
}

// What a source gave.
fn given_of(answer: &Answer, piece: &Vec<u8>) -> Result<Bytes, HostFault>
    ensures { answered (λ bytes. bytes.value.items) result ≡ answered (λ done. piece.now.items) answer.now }
{
    match answer {
        Ok(()) => Ok(Snapshot::of(piece)),
        Err(fault) => Err(*fault),
    }
}

fn say<W: Write>(out: &mut W, bytes: &Vec<u8>) -> io::Result<()> {
    out.write_all(bytes)?;
    out.flush()
}

impl StdHost {
    pub fn new(rt: HostRuntime) -> StdHost
        ensures { requests_of result ≡ [] }
    {
        StdHost {
            rt,
            asked: Asked::nothing(),
            failed: None,
        }
    }

    // What an answer of the system comes to. What it says of a failure is kept for its words.
    fn kept<T>(&mut self, answer: io::Result<T>) -> Result<T, HostFault>
        ensures same { self.new.asked ≡ self.old.asked }
        ensures value { result_ok result ≡ result_ok answer }
    {
        match answer {
            Ok(value) => Ok(value),
            Err(error) => {
                self.failed = Some(error);
                Err(HostFault::of(&error))
            }
        }
    }

    // It is handed over, and let go of here: so no call has in its own proof how a `Noted` is dropped.
    fn note(&mut self, noted: Noted)
        ensures { requests_of self.new ≡ request_of noted ∷ requests_of self.old }
    {
        self.asked.note(&noted);
        drop(noted);
    }
}

impl Host for StdHost {
    type File = MadeFile;

    type Lock = HeldLock;

    type Lines = HostLines;

    type Source = StdSource;

    ghost asked = { requests_of };

    ghost path_of = { made_path };

    ghost folder_of = { held_folder };

    ghost source_number = { number_of };

    fn read(&mut self, path: &String) -> Result<Vec<u8>, HostFault> {
        let rt = self.rt;
        let answer = self.kept(fs::read(&rt, path.as_str()));
        self.note(Noted::Read(Snapshot::of(path), Snapshot::of(&answer)));
        answer
    }

    fn look(&mut self, path: &String) -> Result<Standing, HostFault> {
        let rt = self.rt;
        let answer = self.kept(standing(&rt, path.as_str()));
        self.note(Noted::Looked(Snapshot::of(path), answer));
        answer
    }

    fn place(&mut self, path: &String) -> Result<String, HostFault> {
        let rt = self.rt;
        let answer = self.kept(place(&rt, path.as_str()));
        self.note(Noted::Placed(Snapshot::of(path), Snapshot::of(&answer)));
        answer
    }

    fn make_file(&mut self, path: &String) -> Result<MadeFile, HostFault> {
        let rt = self.rt;
        let made = self.kept(make_file(&rt, path));
        self.note(Noted::MadeFile(Snapshot::of(path), answer_of(&made)));
        made
    }

    fn open_device(&mut self, path: &String) -> Result<MadeFile, HostFault> {
        let rt = self.rt;
        let opened = self.kept(open_device(&rt, path));
        self.note(Noted::OpenedDevice(Snapshot::of(path), answer_of(&opened)));
        opened
    }

    fn make_folder(&mut self, path: &String) -> Answer {
        let rt = self.rt;
        let answer = self.kept(fs::create_dir(&rt, path.as_str()));
        self.note(Noted::MadeFolder(Snapshot::of(path), answer));
        answer
    }

    fn write(&mut self, file: &mut MadeFile, bytes: &Vec<u8>) -> Answer {
        let answer = self.kept(file.file.write_all(bytes));
        self.note(Noted::Wrote(Snapshot::of(&file.path), Snapshot::of(bytes), answer));
        answer
    }

    fn sync(&mut self, path: &String) -> Answer {
        let rt = self.rt;
        let answer = self.kept(sync(&rt, path.as_str()));
        self.note(Noted::Synced(Snapshot::of(path), answer));
        answer
    }

    fn rename(&mut self, from: &String, to: &String) -> Answer {
        let rt = self.rt;
        let answer = self.kept(fs::rename(&rt, from.as_str(), to.as_str()));
        self.note(Noted::Renamed(Snapshot::of(from), Snapshot::of(to), answer));
        answer
    }

    fn remove_file(&mut self, path: &String) -> Answer {
        let rt = self.rt;
        let answer = self.kept(fs::remove_file(&rt, path.as_str()));
        self.note(Noted::RemovedFile(Snapshot::of(path), answer));
        answer
    }

    fn remove_folder(&mut self, path: &String) -> Answer {
        let rt = self.rt;
        let answer = self.kept(fs::remove_dir(&rt, path.as_str()));
        self.note(Noted::RemovedFolder(Snapshot::of(path), answer));
        answer
    }

    fn lock(&mut self, folder: &String) -> Result<HeldLock, HostFault> {
        let rt = self.rt;
        let locked = self.kept(lock(&rt, folder));
        self.note(Noted::Locked(Snapshot::of(folder), answer_of(&locked)));
        locked
    }

    fn unlock(&mut self, lock: HeldLock) {
        // Closed, and not unlocked: that would end the shares of others too.
        let HeldLock { file, folder } = lock;
        drop(file);
        self.note(Noted::Unlocked(Snapshot::of(&folder)));
    }

    fn open_lines(
        &mut self,
        lock: &HeldLock,
        name: &String,
        waits: bool,
    ) -> Result<(HostLines, Vec<u8>), HostFault> {
        let rt = self.rt;
        let opened = self.kept(open_lines(&rt, lock, name, waits));
        self.note(Noted::Opened(
            Snapshot::of(&lock.folder),
            Snapshot::of(name),
            waits,
            held_of(&opened),
        ));
        opened
    }

    fn cut(&mut self, lines: &mut HostLines, len: u64) -> Answer {
        let answer = self.kept(lines.raw.file.set_len(len));
        self.note(Noted::Cut(Snapshot::of(&lines.name), len, answer));
        answer
    }

    fn take_back(&mut self, lines: HostLines) {
        self.note(Noted::Used(Snapshot::of(&lines.name), Snapshot::of(&lines.asked)));
    }

    fn say(&mut self, bytes: &Vec<u8>) -> Answer {
        let answer = say(&mut self.rt.stdout(), bytes);
        let answer = self.kept(answer);
        self.note(Noted::Said(Snapshot::of(bytes), answer));
        answer
    }

    fn tell(&mut self, bytes: &Vec<u8>) -> Answer {
        let answer = say(&mut self.rt.stderr(), bytes);
        let answer = self.kept(answer);
        self.note(Noted::Told(Snapshot::of(bytes), answer));
        answer
    }

    fn open_source(&mut self, number: u8, path: &String) -> Result<StdSource, HostFault> {
        let rt = self.rt;
        let opened = self.kept(open_source(&rt, number, path.as_str()));
        self.note(Noted::OpenedSource(number, Snapshot::of(path), answer_of(&opened)));
        opened
    }

    fn take(&mut self, source: &mut StdSource, piece: &mut Vec<u8>) -> Answer {
        let answer = self.kept(take(&mut source.reading, piece));
        self.note(Noted::Took(source.number, given_of(&answer, piece)));
        answer
    }

    fn words(&self, alloc: Global) -> Result<String, AllocError> {
        match self.failed {
            Some(error) => format!(in alloc; "{error}"),
            None => Ok(String::new(alloc)),
        }
    }
}
