// What a host was asked. It is read in proofs alone, and takes no memory.
ghost use Rattle.std.specs.Prelude.{◌≡◌, [], ◌∷◌};
ghost use Rattle.host.specs.Answers.{answered};

use crate::fault::HostFault;
use crate::host::Standing;
use crate::line_file::LinesAsked;
use sector_disk::Past;
use std::snapshot::Snapshot;

/// A path.
pub type Path = Snapshot<String>;

/// Bytes.
pub type Bytes = Snapshot<Vec<u8>>;

/// What a host answered.
pub type Answer = Result<(), HostFault>;

/// An answer without what came.
pub fn answer_of<T>(answer: &Result<T, HostFault>) -> Answer
    ensures { result ≡ answered (λ value. tt) answer.now }
{
    match answer {
        Ok(_) => Ok(()),
        Err(fault) => Err(*fault),
    }
}

/// A request and its answer, as `Request` of `specs/Requests` has them.
#[derive(Drop)]
pub enum Noted {
    Read(Path, Snapshot<Result<Vec<u8>, HostFault>>),
    Looked(Path, Result<Standing, HostFault>),
    Placed(Path, Snapshot<Result<String, HostFault>>),
    MadeFile(Path, Answer),
    MadeFolder(Path, Answer),
    OpenedDevice(Path, Answer),
    Wrote(Path, Bytes, Answer),
    Synced(Path, Answer),
    Renamed(Path, Path, Answer),
    RemovedFile(Path, Answer),
    RemovedFolder(Path, Answer),
    Locked(Path, Answer),
    Unlocked(Path),
    Opened(Path, Path, bool, Result<Bytes, HostFault>),
    Cut(Path, u64, Answer),
    Used(Path, Snapshot<LinesAsked>),
    Said(Bytes, Answer),
    Told(Bytes, Answer),
    OpenedSource(u8, Path, Answer),
    Took(u8, Result<Bytes, HostFault>),
}

/// What a host was asked, for whoever implements `Host`.
pub struct Asked {
    past: Past<Noted>,
}

// Written out, since each crate above would go through a derived one again.
impl Drop for Asked {
    fn drop(self) {
        let Self { past } = self;
    }
}

impl Asked {
    ghost use Rattle.host.specs.Asked.{request_of, requests_in};

    /// It was asked nothing yet.
    pub fn nothing() -> Asked
        ensures { requests_in result ≡ [] }
    {
        Asked { past: Past::new() }
    }

    /// It was asked this, with this answer.
    pub fn note(&mut self, noted: &Noted)
        ensures { requests_in self.new ≡ request_of noted.now ∷ requests_in self.old }
    {
        self.past.note(noted);
    }
}
