// A file of the system. That each call is the call of the system that it notes stands here alone, and is read.
ghost use Rattle.std.specs.Prelude.{◌≡◌, []};
ghost use Rattle.std.specs.Result.{result_ok};
ghost use Rattle.host.specs.StdFile.{writes_of};

use crate::raw_file::RawFile;
use sector_disk::Past;
use std::alloc::{AllocError, Global};
use std::fs::File;
use std::io;
use std::os::unix::fs::FileExt;
use std::snapshot::Snapshot;

// A call of the system for a file, and its answer.
#[derive(Drop)]
enum WriteNoted {
    // what stands between two places of these bytes, from an offset on
    Wrote(u64, Snapshot<Vec<u8>>, usize, usize, Option<usize>),
    Synced(bool),
}

/// A file of the system that is open for writing, and what it was asked since.
///
/// It may have a share of a lock, which then stays held as long as the file is there: a lock goes with the last of its shares.
pub struct StdFile {
    pub(crate) file: File,
    lock: Option<File>,
    writes: Past<WriteNoted>,
    // what the system said of the last call that failed
    failed: Option<io::Error>,
}

// Written out, since each crate above would go through a derived one again.
impl Drop for StdFile {
    fn drop(self) {
        let Self {
            file,
            lock,
            writes,
            failed,
        } = self;
    }
}

impl RawFile for StdFile {
    ghost writes = { writes_of };

    fn write_at(&mut self, at: u64, bytes: &Vec<u8>, from: usize, to: usize) -> Option<usize> {
        let answer = self.file.write_at(&bytes[from..to], at);
        let took = self.took(answer);
        let noted = WriteNoted::Wrote(at, Snapshot::of(bytes), from, to, took);
        self.writes.note(&noted);
        took
    }

    fn sync(&mut self) -> bool {
        let done = match self.file.sync_data() {
            Ok(()) => true,
            Err(error) => {
                self.failed = Some(error);
                false
            }
        };
        let noted = WriteNoted::Synced(done);
        self.writes.note(&noted);
        done
    }
}

impl StdFile {
    /// A file that was just opened for writing.
    pub fn new(file: File) -> StdFile
        ensures { writes_of result ≡ [] }
    {
        StdFile {
            file,
            lock: None,
            writes: Past::new(),
            failed: None,
        }
    }

    /// A file that was just opened for writing, and a share of the lock of its folder.
    pub fn locked(file: File, lock: File) -> StdFile
        ensures { writes_of result ≡ [] }
    {
        StdFile {
            file,
            lock: Some(lock),
            writes: Past::new(),
            failed: None,
        }
    }

    // How many bytes the system took. What it says of a failure is kept for its words; one that takes none says nothing itself.
    fn took(&mut self, answer: io::Result<usize>) -> Option<usize>
        ensures took { result ≡ result_ok answer }
        ensures same { writes_of self.new ≡ writes_of self.old }
    {
        match answer {
            Ok(0) => {
                self.failed = Some(io::Error::new(
                    io::ErrorKind::WriteZero,
                    "the host took nothing of it",
                ));
                Some(0)
            }
            Ok(count) => Some(count),
            Err(error) => {
                self.failed = Some(error);
                None
            }
        }
    }

    /// Why the last call that failed did, in the system's own words; nothing where none did.
    pub fn words(&self, alloc: Global) -> Result<String, AllocError> {
        match &self.failed {
            Some(error) => format!(in alloc; "{error}"),
            None => Ok(String::new(alloc)),
        }
    }
}
