// Why a host didn't do what it was asked.

use std::alloc::AllocError;
use std::io;

/// Why a host didn't do what it was asked.
#[derive(Clone, Copy, Debug, PartialEq, Eq)]
pub enum HostFault {
    /// There is no memory.
    NoMemory,
    /// Nothing stands under this name, or the folder that it names isn't there.
    NotThere,
    /// Something stands under this name already.
    IsThere,
    /// Another process has the lock.
    InUse,
    /// The folder isn't empty.
    NotEmpty,
    /// Something that is no folder stands where a folder has to be.
    NoFolder,
    /// Anything else.
    Other,
}

impl From<AllocError> for HostFault {
    fn from(_: AllocError) -> Self {
        HostFault::NoMemory
    }
}

impl HostFault {
    /// What an error of the system comes to.
    pub fn of(error: &io::Error) -> HostFault {
        match error.kind() {
            io::ErrorKind::OutOfMemory => HostFault::NoMemory,
            io::ErrorKind::NotFound => HostFault::NotThere,
            io::ErrorKind::AlreadyExists => HostFault::IsThere,
            io::ErrorKind::WouldBlock => HostFault::InUse,
            io::ErrorKind::DirectoryNotEmpty => HostFault::NotEmpty,
            io::ErrorKind::NotADirectory => HostFault::NoFolder,
            _ => HostFault::Other,
        }
    }
}
