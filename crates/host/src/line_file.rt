// A file that lines are put to, by what it was asked.
ghost use Rattle.std.specs.Prelude.{◌≡◌, [], ◌∷◌, ℕ, List, IsTrue, string_bytes};
ghost use Rattle.host.specs.LineRequests.{Request, Put, Synced};

use sector_disk::Past;
use std::alloc::{AllocError, Global};
use std::snapshot::Snapshot;

/// A file that lines are put to. Its calls answer whether they succeeded.
///
/// What a file holds no contract can say. The trait says what the file was asked since it was opened, in which order,
/// and what it answered.
pub trait LineFile: Drop {
    /// What it was asked since it was opened, the newest first.
    ghost asked: { Self → List Request };

    /// The name that it was opened by.
    ghost name_of: { Self → List ℕ };

    /// Puts these bytes to the file from this offset on. False where the file failed: then any part of them may stand
    /// there. They are lent as a `Vec`, of which a file can keep a `Snapshot` for proofs.
    fn put(&mut self, at: u64, bytes: &Vec<u8>) -> bool
        ensures asked { asked self.new ≡ Put at bytes.now.items result ∷ asked self.old };

    /// Waits until all that was put before stands on the disk, and outlasts a loss of power. False where that is unknown.
    fn sync(&mut self) -> bool
        ensures { asked self.new ≡ Synced result ∷ asked self.old };

    /// The name that it was opened by.
    fn name(&self) -> &String
        ensures { string_bytes result.now ≡ name_of self.now };

    /// Why the last of its calls that failed did, in the host's own words; nothing where none did.
    fn words(&self, alloc: Global) -> Result<String, AllocError>;

    /// Whether it was opened by this name. A file that came back from elsewhere is known by that.
    fn is_named(&self, name: &String) -> bool
        ensures { IsTrue result → name_of self.now ≡ string_bytes name.now };
}

// A request and its answer.
#[derive(Drop)]
enum LineNoted {
    // these bytes from an offset on
    Put(u64, Snapshot<Vec<u8>>, bool),
    Synced(bool),
}

/// What a file was asked since it was opened, for whoever implements `LineFile`. It is read in proofs alone, and takes no
/// memory.
#[derive(Drop)]
pub struct LinesAsked {
    past: Past<LineNoted>,
}

impl LinesAsked {
    ghost use Rattle.host.specs.LinesAsked.{requests_in};

    /// It was asked nothing yet.
    pub fn nothing() -> LinesAsked
        ensures { requests_in result ≡ [] }
    {
        LinesAsked { past: Past::new() }
    }

    /// It was asked to put these bytes from an offset on, and answered.
    pub fn note_put(&mut self, at: u64, bytes: &Vec<u8>, done: bool)
        ensures { requests_in self.new ≡ Put at bytes.now.items done ∷ requests_in self.old }
    {
        let noted = LineNoted::Put(at, Snapshot::of(bytes), done);
        self.past.note(&noted);
    }

    /// It was asked to sync, and answered.
    pub fn note_sync(&mut self, done: bool)
        ensures { requests_in self.new ≡ Synced done ∷ requests_in self.old }
    {
        let noted = LineNoted::Synced(done);
        self.past.note(&noted);
    }
}
