// What there is to say of a refusal.
ghost use Rattle.std.specs.Prelude.{◌≡◌};
ghost use Rattle.run_files.specs.Faults.{or_memory};

use crate::fault::{FilesFault, Refused};
use host::{Host, HostFault};
use std::alloc::{AllocError, Global};

/// A refusal for want of memory.
pub fn no_memory() -> Refused
    ensures { result.fault ≡ FilesFault.NoMemory }
{
    Refused {
        fault: FilesFault::NoMemory,
        words: None,
    }
}

// These words as a line, where there is memory for them.
fn line_of(words: Result<String, AllocError>) -> Option<String> {
    let Ok(mut line) = words else {
        return None;
    };
    match line.push_str("\n") {
        Ok(()) => Some(line),
        Err(_) => None,
    }
}

/// A refusal with these words, where there is memory for them.
pub fn refused(fault: FilesFault, words: Result<String, AllocError>) -> Refused
    ensures { result.fault ≡ fault }
{
    Refused {
        fault,
        words: line_of(words),
    }
}

/// A refusal with a name and these words behind it, where there is memory for them.
pub fn refused_at(alloc: Global, fault: FilesFault, name: &String, words: &str) -> Refused
    ensures { result.fault ≡ fault }
{
    refused(fault, format!(in alloc; "{name}{words}"))
}

/// A refusal since the host didn't do what it was asked for a file: the file's name, and the host's own words.
pub fn refused_by<H: Host>(
    host: &H,
    alloc: Global,
    refusal: FilesFault,
    fault: HostFault,
    path: &String,
) -> Refused
    ensures { result.fault ≡ or_memory refusal fault }
{
    let words = match host.words(alloc) {
        Ok(words) => line_of(format!(in alloc; "{path}: {words}")),
        Err(_) => None,
    };
    Refused {
        fault: refusal.or_memory(fault),
        words,
    }
}
