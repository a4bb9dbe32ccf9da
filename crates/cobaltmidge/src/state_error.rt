//! Why a run of which what left is kept in a folder comes to no end.

ghost use Rattle.std.specs.Prelude.{◌≡◌};

use crate::error::Error;
use crate::kept_outlets::{KeepFault, NotKept};
use host::HostFault;
use run_files::{FilesFault, Refused};
use std::alloc::AllocError;
use std::{error, fmt};

/// Why a run of which what left is kept in a folder comes to no end.
#[derive(Clone, Copy, Debug, PartialEq, Eq)]
pub enum StateFault {
    /// The file of a text can't be read.
    Unread(HostFault),
    /// A text isn't UTF-8.
    NotText,
    /// A text is refused, or the run came to no end.
    Refused(Error),
    /// The folder or a file of it is refused.
    Files(FilesFault),
    /// What left can't be kept.
    Kept(KeepFault),
}

/// The same, with what there is to say of it: the file, and why in words. It reads as `state: refusal 80`.
#[derive(Debug, Drop)]
pub struct StateError {
    pub fault: StateFault,
    /// None where there is nothing more to say, or no memory for it.
    pub words: Option<String>,
}

// What a refusal of the folder reads as.
fn files_text(fault: FilesFault) -> &'static str {
    match fault {
        FilesFault::NoMemory => "no memory",
        FilesFault::InUse => "state: in use",
        FilesFault::OtherState => "state: refusal 80",
        FilesFault::Failed => "state: refusal 82",
        FilesFault::Unwritten => "history: unwritten",
        FilesFault::Astray => "state: refusal 83",
    }
}

// What a refusal of what is kept reads as.
fn kept_text(fault: KeepFault) -> &'static str {
    match fault {
        KeepFault::NoMemory => "no memory",
        KeepFault::Astray => "state: refusal 83",
        KeepFault::ItemDiffers => "state: refusal 81",
        KeepFault::PutFailed => "state: refusal 82",
    }
}

impl fmt::Display for StateError {
    fn fmt<W: fmt::Write>(&self, f: &mut fmt::Formatter<W>) -> fmt::Result {
        match self.fault {
            StateFault::Unread(HostFault::NoMemory) => f.write_str("no memory"),
            StateFault::Unread(_) => f.write_str("a text can't be read"),
            StateFault::NotText => f.write_str("a text isn't UTF-8"),
            StateFault::Refused(error) => write!(f, "{error}"),
            StateFault::Files(fault) => f.write_str(files_text(fault)),
            StateFault::Kept(fault) => f.write_str(kept_text(fault)),
        }
    }
}

impl error::Error for StateError {}

impl From<StateFault> for StateError {
    ghost from_gives = { λ fault error. error.fault ≡ fault };

    fn from(fault: StateFault) -> Self {
        StateError { fault, words: None }
    }
}

impl From<AllocError> for StateError {
    ghost use Rattle.run_files.specs.declared.fault.FilesFault.TheVariants as files;
    ghost use Rattle.cobaltmidge.specs.declared.state_error.StateFault.TheVariants.{Files};

    ghost from_gives = { λ _ error. error.fault ≡ Files files.NoMemory };

    fn from(_: AllocError) -> Self {
        StateError::from(StateFault::Files(FilesFault::NoMemory))
    }
}

impl From<Refused> for StateError {
    ghost use Rattle.cobaltmidge.specs.declared.state_error.StateFault.TheVariants.{Files};

    ghost from_gives = { λ refused error. error.fault ≡ Files refused.fault };

    fn from(refused: Refused) -> Self {
        StateError {
            fault: StateFault::Files(refused.fault),
            words: refused.words,
        }
    }
}

impl From<NotKept> for StateError {
    ghost use Rattle.cobaltmidge.specs.declared.state_error.StateFault.TheVariants.{Kept};

    ghost from_gives = { λ refused error. error.fault ≡ Kept refused.fault };

    fn from(refused: NotKept) -> Self {
        StateError {
            fault: StateFault::Kept(refused.fault),
            words: refused.words,
        }
    }
}

impl From<Error> for StateError {
    ghost use Rattle.cobaltmidge.specs.declared.state_error.StateFault.TheVariants.{Refused as RefusedBy};

    ghost from_gives = { λ error state. state.fault ≡ RefusedBy error };

    fn from(error: Error) -> Self {
        StateError::from(StateFault::Refused(error))
    }
}
