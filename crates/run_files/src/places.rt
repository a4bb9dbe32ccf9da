// The names that a run writes are told apart from those that it reads.
ghost use Rattle.std.specs.Prelude.{◌≡◌, ◌≢◌, false, IfErr, IsTrue, Ok, OnOk, Some, string_bytes};
ghost use Rattle.std.specs.Option.{option_map};
ghost use Rattle.run_files.specs.Places.{ends_or_slash, is_within};
ghost use Rattle.host.specs.Requests.{Has, Placed};
ghost use Rattle.run_files.specs.Causes.{IsCaused, IsRead};
ghost use Rattle.run_files.specs.Rules.{GoesOn, IfAsked, IsApart, IsElsewhere, IsOutside};
ghost use Rattle.run_files.specs.Wanted.{wanted_of};

use crate::asking::place;
use crate::fault::{FilesFault, Refused};
use crate::names::{Judge, Names};
use crate::words::{refused, refused_at, refused_by};
use host::Host;
use std::alloc::Global;

// Whether nothing is left of a path, or a slash comes next.
fn ends_or_slash(place: &[u8]) -> bool
    ensures { result ≡ ends_or_slash place.now }
{
    match place.split_first() {
        Some((first, _)) => *first == b'/',
        None => true,
    }
}

// Whether this place is the folder's own, or one in it.
fn is_within(folder: &[u8], place: &[u8]) -> bool
    ensures { result ≡ is_within folder.now place.now }
{
    let Some((first, folder)) = folder.split_first() else {
        return ends_or_slash(place);
    };
    match place.split_first() {
        Some((other, place)) => *first == *other && is_within(folder, place),
        None => false,
    }
}

// Whether these are one place.
fn is_same(place: &String, at: &String) -> bool
    ensures same { IsTrue result → string_bytes place.now ≡ string_bytes at.now }
    ensures other { result ≡ false → string_bytes place.now ≢ string_bytes at.now }
{
    place.as_str() == at.as_str()
}

// Refuses unless the file of this name stands at another place.
fn differ<H: Host, J: Judge>(
    host: &mut H,
    alloc: Global,
    names: &Names,
    history: &String,
    at: &String,
    name: &String,
) -> Result<(), Refused>
    requires wanted { (wanted_of names.now).history ≡ Some (string_bytes history.now) }
    requires placed { Has (Placed (string_bytes history.now) (Ok (string_bytes at.now))) (H.asked host.old) }
    requires read { IsRead (wanted_of names.now) (string_bytes name.now) }
    ensures goes { GoesOn J.accepts (wanted_of names.now) (H.asked host.old) (H.asked host.new) }
    ensures apart { OnOk result (IsElsewhere (string_bytes at.now) (string_bytes name.now) (H.asked host.new)) }
    ensures cause { IfErr result (λ refused. IsCaused J.accepts (wanted_of names.now) (H.asked host.new) refused.fault) }
{
    match place::<H, J>(host, names, name) {
        Ok(other) => if is_same(&other, at) {
            Err(refused_at(alloc, FilesFault::Unwritten, at, " is a text of the run"))
        } else {
            Ok(())
        },
        Err(fault) => Err(refused_by(host, alloc, FilesFault::Unwritten, fault, name)),
    }
}

// The same of the script, if there is one.
fn differ_from_script<H: Host, J: Judge>(
    host: &mut H,
    alloc: Global,
    names: &Names,
    history: &String,
    at: &String,
) -> Result<(), Refused>
    requires wanted { (wanted_of names.now).history ≡ Some (string_bytes history.now) }
    requires placed { Has (Placed (string_bytes history.now) (Ok (string_bytes at.now))) (H.asked host.old) }
    ensures goes { GoesOn J.accepts (wanted_of names.now) (H.asked host.old) (H.asked host.new) }
    ensures apart { OnOk result (IfAsked (option_map string_bytes names.now.script) (IsElsewhere (string_bytes at.now)) (H.asked host.new)) }
    ensures cause { IfErr result (λ refused. IsCaused J.accepts (wanted_of names.now) (H.asked host.new) refused.fault) }
{
    match &names.script {
        Some(script) => differ::<H, J>(host, alloc, names, history, at, script),
        None => Ok(()),
    }
}

// Refuses unless this place isn't the folder's, nor one in it.
fn stay_outside<H: Host, J: Judge>(
    host: &mut H,
    alloc: Global,
    names: &Names,
    history: &String,
    at: &String,
    folder: &String,
) -> Result<(), Refused>
    requires wanted { (wanted_of names.now).history ≡ Some (string_bytes history.now) }
    requires placed { Has (Placed (string_bytes history.now) (Ok (string_bytes at.now))) (H.asked host.old) }
    requires state { (wanted_of names.now).state ≡ Some (string_bytes folder.now) }
    ensures goes { GoesOn J.accepts (wanted_of names.now) (H.asked host.old) (H.asked host.new) }
    ensures apart { OnOk result (IsOutside (string_bytes at.now) (string_bytes folder.now) (H.asked host.new)) }
    ensures cause { IfErr result (λ refused. IsCaused J.accepts (wanted_of names.now) (H.asked host.new) refused.fault) }
{
    match place::<H, J>(host, names, folder) {
        Ok(other) => if is_within(other.as_bytes(), at.as_bytes()) {
            Err(refused(
                FilesFault::Unwritten,
                format!(in alloc; "{at} is in the folder {folder}"),
            ))
        } else {
            Ok(())
        },
        Err(fault) => Err(refused_by(host, alloc, FilesFault::Failed, fault, folder)),
    }
}

// The same, where a folder is asked for.
fn stay_outside_if_asked<H: Host, J: Judge>(
    host: &mut H,
    alloc: Global,
    names: &Names,
    history: &String,
    at: &String,
) -> Result<(), Refused>
    requires wanted { (wanted_of names.now).history ≡ Some (string_bytes history.now) }
    requires placed { Has (Placed (string_bytes history.now) (Ok (string_bytes at.now))) (H.asked host.old) }
    ensures goes { GoesOn J.accepts (wanted_of names.now) (H.asked host.old) (H.asked host.new) }
    ensures apart { OnOk result (IfAsked (option_map string_bytes names.now.state) (IsOutside (string_bytes at.now)) (H.asked host.new)) }
    ensures cause { IfErr result (λ refused. IsCaused J.accepts (wanted_of names.now) (H.asked host.new) refused.fault) }
{
    match &names.state {
        Some(folder) => stay_outside::<H, J>(host, alloc, names, history, at, folder),
        None => Ok(()),
    }
}

// Refuses unless a name that is written is no text's and none in the folder.
fn is_apart<H: Host, J: Judge>(
    host: &mut H,
    alloc: Global,
    names: &Names,
    name: &String,
) -> Result<(), Refused>
    requires wanted { (wanted_of names.now).history ≡ Some (string_bytes name.now) }
    ensures goes { GoesOn J.accepts (wanted_of names.now) (H.asked host.old) (H.asked host.new) }
    ensures apart { OnOk result (IsApart (wanted_of names.now) (string_bytes name.now) (H.asked host.new)) }
    ensures cause { IfErr result (λ refused. IsCaused J.accepts (wanted_of names.now) (H.asked host.new) refused.fault) }
{
    let at = match place::<H, J>(host, names, name) {
        Ok(at) => at,
        Err(fault) => return Err(refused_by(host, alloc, FilesFault::Unwritten, fault, name)),
    };
    differ::<H, J>(host, alloc, names, name, &at, &names.net)?;
    differ::<H, J>(host, alloc, names, name, &at, &names.inputs)?;
    differ_from_script::<H, J>(host, alloc, names, name, &at)?;
    stay_outside_if_asked::<H, J>(host, alloc, names, name, &at)?;
    Ok(())
}

/// Refuses unless the file into which what happens is written, if it is, is no text of the run and none of its folder's.
pub fn tell_apart<H: Host, J: Judge>(
    host: &mut H,
    alloc: Global,
    names: &Names,
) -> Result<(), Refused>
    ensures goes { GoesOn J.accepts (wanted_of names.now) (H.asked host.old) (H.asked host.new) }
    ensures apart { OnOk result (IfAsked (wanted_of names.now).history (IsApart (wanted_of names.now)) (H.asked host.new)) }
    ensures cause { IfErr result (λ refused. IsCaused J.accepts (wanted_of names.now) (H.asked host.new) refused.fault) }
{
    match &names.history {
        Some(name) => is_apart::<H, J>(host, alloc, names, name),
        None => Ok(()),
    }
}
