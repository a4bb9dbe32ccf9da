// Lines that are put to a file by calls of the system.
ghost use Rattle.std.specs.Prelude.{◌≡◌, ◌∷◌, ◌++◌, [], true, List, IsTrue, string_bytes};
ghost use Rattle.host.specs.LineRequests.{Put};
ghost use Rattle.host.specs.StdFile.{writes_of};
ghost use Rattle.host.specs.Writes.{Write, Synced as SyncedWrite, IsPutAndSynced, taken};

use crate::line_file::{LineFile, LinesAsked};
use crate::raw_file::{RawFile, put_all};
use crate::std_file::StdFile;
use std::alloc::{AllocError, Global};

// Puts all of these bytes, and waits for the disk where that is asked for.
fn put<F: RawFile>(raw: &mut F, at: u64, bytes: &Vec<u8>, waits: bool) -> bool
    ensures { IsPutAndSynced at bytes.now.items waits result (F.writes raw.old) (F.writes raw.new) }
{
    if !put_all(raw, at, bytes, 0, bytes.len()) {
        return false;
    }
    if waits {
        return raw.sync();
    }
    true
}

/// A file of lines over the calls of the system.
///
/// A `put` that succeeded is in the host's hands: it outlasts the process, also one that is killed. With a `sync` behind
/// it that succeeded, or of a file that waits for each put, it outlasts a loss of power.
pub struct HostLines {
    pub(crate) raw: StdFile,
    pub(crate) name: String,
    // whether a put waits until it stands on the disk
    waits: bool,
    pub(crate) asked: LinesAsked,
}

// Written out, since each crate above would go through a derived one again.
impl Drop for HostLines {
    fn drop(self) {
        let Self {
            raw,
            name,
            waits,
            asked,
        } = self;
    }
}

impl HostLines {
    ghost use Rattle.host.specs.HostLines.{requests_of, lines_name, raw_of, is_waiting};

    /// A file that was just opened by this name for writing. Where it waits, each put takes as long as one and a sync.
    pub fn new(raw: StdFile, name: String, waits: bool) -> HostLines
        ensures fresh { requests_of result ≡ [] }
        ensures name { lines_name result ≡ string_bytes name }
        ensures waits { is_waiting result ≡ waits }
        ensures raw { raw_of result ≡ raw }
    {
        HostLines {
            raw,
            name,
            waits,
            asked: LinesAsked::nothing(),
        }
    }
}

impl LineFile for HostLines {
    ghost use Rattle.host.specs.HostLines.{requests_of, lines_name, raw_of, is_waiting};

    ghost asked = { requests_of };

    ghost name_of = { lines_name };

    fn put(&mut self, at: u64, bytes: &Vec<u8>) -> bool
        ensures asked { requests_of self.new ≡ Put at bytes.now.items result ∷ requests_of self.old }
        // What the system was asked is that put, each byte at its place, and where the file waits a sync behind it.
        ensures asked_only { IsPutAndSynced at bytes.now.items (is_waiting self.old) result
            (writes_of (raw_of self.old)) (writes_of (raw_of self.new)) }
        // A put that succeeded is one of which the host took each byte, in order.
        ensures whole { IsTrue result → taken (writes_of (raw_of self.new)) ≡ taken (writes_of (raw_of self.old)) ++ bytes.now.items }
        // And of a file that waits the newest call is a sync that succeeded.
        ensures synced { IsTrue result → IsTrue (is_waiting self.old)
            → (earlier : List Write) × (writes_of (raw_of self.new) ≡ SyncedWrite true ∷ earlier) }
    {
        let done = put(&mut self.raw, at, bytes, self.waits);
        self.asked.note_put(at, bytes, done);
        done
    }

    fn sync(&mut self) -> bool {
        let done = self.raw.sync();
        self.asked.note_sync(done);
        done
    }

    fn name(&self) -> &String {
        &self.name
    }

    fn words(&self, alloc: Global) -> Result<String, AllocError> {
        self.raw.words(alloc)
    }

    fn is_named(&self, name: &String) -> bool {
        self.name.as_str() == name.as_str()
    }
}
