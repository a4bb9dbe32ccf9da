//! The whole program over its host.

ghost use Rattle.std.specs.Prelude.{◌≡◌, ◌≤◌, string_bytes};
ghost use Rattle.folder_status.specs.Causes.{IsCaused};
ghost use Rattle.status_program.specs.Told.{HasFailed, HasTold, IsAllAsked, IsStatus, MayTell, status_of_ending};

use crate::options::StatusOptions;
use folder_status::{Ending, FolderStatus, StatusRefused, status_of, status_text};
use host::Host;
use std::alloc::{AllocError, Global};

// The exit status where a folder was told of.
fn status_of_ending(ending: Ending) -> u8
    ensures { result ≡ status_of_ending ending }
{
    match ending {
        Ending::Complete => 0,
        Ending::Partial | Ending::Unsettled => 3,
    }
}

// What there is to say of a request that the host didn't do.
fn words_of<H: Host>(host: &H, alloc: Global) -> Option<String> {
    let words = host.words(alloc).ok()?;
    format!(in alloc; "standard output: {words}\n").ok()
}

// Tells these words, if they are any. That they can't be told is no failure.
fn tell_words<H: Host>(host: &mut H, words: Option<String>)
    ensures { MayTell (H.asked host.old) (H.asked host.new) }
{
    if let Some(words) = words {
        let _ = host.tell(&words.into_bytes());
    }
}

// Says what a folder holds, and gives the exit status: 1 where it can't be said.
fn say<H: Host>(alloc: Global, host: &mut H, options: &StatusOptions, status: &FolderStatus) -> u8
    requires { IsStatus (string_bytes options.now.folder) (H.asked host.old) status.now }
    ensures asked { IsAllAsked (string_bytes options.now.folder) (H.asked host.old) (H.asked host.new) }
    ensures status { result ≤ 3 }
    ensures unrefused { result ≡ 2 → ⊥ }
    ensures told { (ending : Ending) → result ≡ status_of_ending ending → HasTold (string_bytes options.now.folder) (H.asked host.new) result }
    ensures failed { result ≡ 1 → HasFailed (string_bytes options.now.folder) (H.asked host.old) (H.asked host.new) }
{
    let Ok(text) = status_text(alloc, status) else {
        return 1;
    };
    match host.say(&text.into_bytes()) {
        Ok(()) => status_of_ending(status.ending),
        Err(_) => {
            let words = if options.explain {
                words_of(host, alloc)
            } else {
                None
            };
            tell_words(host, words);
            1
        }
    }
}

// Tells why nothing is said of a folder.
fn tell<H: Host>(alloc: Global, host: &mut H, options: &StatusOptions, refused: StatusRefused)
    requires { IsCaused (string_bytes options.now.folder) (H.asked host.old) refused.fault }
    ensures asked { IsAllAsked (string_bytes options.now.folder) (H.asked host.old) (H.asked host.new) }
    ensures failed { HasFailed (string_bytes options.now.folder) (H.asked host.old) (H.asked host.new) }
{
    let StatusRefused { fault, words } = refused;
    let Ok(line) = String::from_str(alloc, fault.line()) else {
        return;
    };
    match host.tell(&line.into_bytes()) {
        Ok(()) => tell_words(host, if options.explain { words } else { None }),
        Err(_) => {}
    }
}

/// The whole program over its host, as the options say, and its exit status: 0 where the last line is `complete`, 3 where it is `partial` or
/// `unsettled`, and 1 for any failure.
pub fn main_of<H: Host>(alloc: Global, host: &mut H, options: &StatusOptions) -> u8
    ensures status { result ≤ 3 }
    ensures unrefused { result ≡ 2 → ⊥ }
    // Nothing is asked but to read the folder's own files, and to write on standard output and on standard error.
    ensures asked { IsAllAsked (string_bytes options.now.folder) (H.asked host.old) (H.asked host.new) }
    // Where the status is 0 or 3, what was said last is what there is to say of the folder, as it was read just before. It is 0 where the folder has
    // all that its network means.
    ensures told { (ending : Ending) → result ≡ status_of_ending ending → HasTold (string_bytes options.now.folder) (H.asked host.new) result }
    // Where it is 1, the line was told of a refusal that has its cause in the log, or nothing could be said.
    ensures failed { result ≡ 1 → HasFailed (string_bytes options.now.folder) (H.asked host.old) (H.asked host.new) }
{
    match status_of(alloc, host, &options.folder) {
        Ok(status) => say(alloc, host, options, &status),
        Err(refused) => {
            tell(alloc, host, options, refused);
            1
        }
    }
}
