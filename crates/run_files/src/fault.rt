// Why the files of a run were refused.
ghost use Rattle.std.specs.Prelude.{◌≡◌, ◌≢◌, IsTrue, false};
ghost use Rattle.host.specs.declared.fault.HostFault.TheVariants as host_fault;
ghost use Rattle.run_files.specs.Faults.{of_missing, or_memory};

use host::HostFault;
use std::alloc::{AllocError, AllocFailed};

/// Why the files of a run were refused.
#[derive(Clone, Copy, Debug, PartialEq, Eq)]
pub enum FilesFault {
    /// There is no memory.
    NoMemory,
    /// Another run is at work with the folder.
    InUse,
    /// The folder is of other texts, lacks a file or is damaged, or something else stands under its name (80).
    OtherState,
    /// The folder or a file of it can't be made, read, written or synced (82).
    Failed,
    /// What happens can't be written.
    Unwritten,
    /// A file came back under another name than it was opened by, or one too many did: a fault of this program (83).
    Astray,
}

/// The same, with what there is to say of it: the file, and why in words.
#[derive(Debug, Drop)]
pub struct Refused {
    pub fault: FilesFault,
    /// None where there is nothing more to say, or no memory for it.
    pub words: Option<String>,
}

impl From<AllocError> for Refused {
    ghost use Rattle.std.specs.Prelude.{◌≡◌};
    ghost use Rattle.run_files.specs.declared.fault.FilesFault.TheVariants.{NoMemory};

    ghost from_gives = { λ _ refused. refused.fault ≡ NoMemory };

    fn from(_: AllocError) -> Self {
        Refused {
            fault: FilesFault::NoMemory,
            words: None,
        }
    }
}

impl<T: Drop> From<AllocFailed<T>> for Refused {
    ghost use Rattle.std.specs.Prelude.{◌≡◌};
    ghost use Rattle.run_files.specs.declared.fault.FilesFault.TheVariants.{NoMemory};

    ghost from_gives = { λ _ refused. refused.fault ≡ NoMemory };

    fn from(_: AllocFailed<T>) -> Self {
        Refused {
            fault: FilesFault::NoMemory,
            words: None,
        }
    }
}

impl FilesFault {
    /// What a host's fault comes to, where it isn't want of memory.
    pub fn or_memory(self, fault: HostFault) -> FilesFault
        ensures { result ≡ or_memory self fault }
    {
        match fault {
            HostFault::NoMemory => FilesFault::NoMemory,
            _ => self,
        }
    }

    /// What a host's fault comes to where a file of the folder isn't read or opened: the folder is another's where the file isn't there.
    pub fn of_missing(fault: HostFault) -> FilesFault
        ensures { result ≡ of_missing fault }
    {
        match fault {
            HostFault::NotThere => FilesFault::OtherState,
            _ => FilesFault::Failed,
        }
    }
}

// Whether nothing was made since something stands there.
pub(crate) fn is_there(fault: HostFault) -> bool
    ensures there { IsTrue result → fault ≡ host_fault.IsThere }
    ensures other { result ≡ false → fault ≢ host_fault.IsThere }
{
    match fault {
        HostFault::IsThere => true,
        _ => false,
    }
}
