//! The texts of a run, read through a host.

ghost use Rattle.std.specs.Prelude.{◌≡◌, None, Ok, IfErr, IfOk, string_bytes};
ghost use Rattle.host.specs.Requests.{Has, Read};
ghost use Rattle.protocol.specs.Node.Common.{Fits, network_of};
ghost use Rattle.run_files.specs.Causes.{IsRead};
ghost use Rattle.run_files.specs.Rules.{GoesOn, IsReady};
ghost use Rattle.run_files.specs.Wanted.{wanted_of};
ghost use Rattle.cobaltmidge.specs.Accepting.{IsAccepted};
ghost use Rattle.cobaltmidge.specs.KeptStreams.{IsInputsStop, IsNetStop, IsTextsCause};
ghost use Rattle.cobaltmidge.specs.Texts.{AreInputsOf, IsNetOf};

use crate::grown::have_grown_from;
use crate::network::Network;
use crate::state_error::{StateError, StateFault};
use host::Host;
use net_check::{Inputs, Net};
use run_files::{Judge, Names, read, tell_apart};
use std::alloc::{AllocError, Global};
use std::str;

/// What a run accepts: the text of a network, that of its inputs, and where a script is asked for that of a script for its nodes.
/// Where a run's folder has another text of inputs, this network's inputs have to have grown from it.
#[derive(Clone, Copy)]
pub struct Accepted<'a> {
    pub net: &'a Net,
    pub inputs: &'a Inputs,
}

impl<'a> Judge for Accepted<'a> {
    ghost use Rattle.cobaltmidge.specs.Accepting.{AreTextsOf, IsAccepted};

    ghost accepts = { IsAccepted };

    ghost judges = { λ judge given. AreTextsOf judge.net.now judge.inputs.now given };

    fn has_grown(&self, alloc: Global, kept: &Vec<u8>) -> Result<bool, AllocError> {
        have_grown_from(alloc, self.net, self.inputs, kept)
    }
}

/// The texts of a run, as they were read: a folder in which what left is kept has a copy of each.
#[derive(Drop)]
pub struct Texts {
    pub net: Vec<u8>,
    pub inputs: Vec<u8>,
}

/// The texts of a run, and what they say.
#[derive(Drop)]
pub struct ReadTexts {
    pub texts: Texts,
    pub network: Network,
    pub inputs: Inputs,
}

// What there is to say of a file: its name, and why in words.
fn line_of(alloc: Global, path: &String, words: &str) -> Option<String> {
    format!(in alloc; "{path}: {words}\n").ok()
}

// The host's own words of a file that isn't read.
fn words_of<H: Host>(host: &H, alloc: Global, path: &String) -> Option<String> {
    let words = host.words(alloc).ok()?;
    line_of(alloc, path, words.as_str())
}

// The bytes of a file.
fn read_bytes<H: Host>(
    host: &mut H,
    alloc: Global,
    names: &Names,
    path: &String,
) -> Result<Vec<u8>, StateError>
    requires { IsRead (wanted_of names.now) (string_bytes path.now) }
    ensures goes { GoesOn IsAccepted (wanted_of names.now) (H.asked host.old) (H.asked host.new) }
    ensures read { IfOk result (λ bytes. Has (Read (string_bytes path.now) (Ok bytes.items)) (H.asked host.new)) }
    ensures cause { IfErr result (λ error. IsTextsCause (wanted_of names.now) (H.asked host.new) error.fault) }
{
    match read::<H, Accepted>(host, names, path) {
        Ok(bytes) => Ok(bytes),
        Err(fault) => Err(StateError {
            fault: StateFault::Unread(fault),
            words: words_of(host, alloc, path),
        }),
    }
}

// The refusal of a text that isn't UTF-8.
fn not_text(alloc: Global, path: &String) -> StateError
    ensures { result.fault ≡ StateFault.NotText }
{
    StateError {
        fault: StateFault::NotText,
        words: line_of(alloc, path, "not UTF-8"),
    }
}

// The network of a text.
fn net_of_bytes(alloc: Global, path: &String, bytes: &Vec<u8>) -> Result<Network, StateError>
    ensures net { IfOk result (λ network. IsNetOf bytes.now.items network.net.value) }
    ensures cause { IfErr result (λ error. IsNetStop bytes.now.items error.fault) }
{
    let Ok(text) = str::from_utf8(bytes.as_slice()) else {
        return Err(not_text(alloc, path));
    };
    let network = Network::parse(alloc, text)?;
    Ok(network)
}

// The items of a text for a network's inputs.
fn inputs_of_bytes(
    alloc: Global,
    path: &String,
    network: &Network,
    bytes: &Vec<u8>,
) -> Result<Inputs, StateError>
    ensures inputs { IfOk result (AreInputsOf bytes.now.items network.now.net.value) }
    ensures fitting { IfOk result (Fits (network_of network.now.net.value.program)) }
    ensures cause { IfErr result (λ error. IsInputsStop network.now.net.value bytes.now.items error.fault) }
{
    let Ok(text) = str::from_utf8(bytes.as_slice()) else {
        return Err(not_text(alloc, path));
    };
    let inputs = network.inputs(alloc, text)?;
    Ok(inputs)
}

/// The texts of these names, each read and checked before the next one is opened: what a folder may be opened for (`Run::state`). Of a run
/// that is kept so no script is a file.
pub fn read_texts<H: Host>(
    host: &mut H,
    alloc: Global,
    names: &Names,
) -> Result<ReadTexts, StateError>
    requires { names.now.script ≡ None }
    ensures goes { GoesOn IsAccepted (wanted_of names.now) (H.asked host.old) (H.asked host.new) }
    ensures ready { IfOk result (λ all. IsReady IsAccepted (wanted_of names.now) (H.asked host.new)) }
    ensures net_read { IfOk result (λ all. Has (Read (wanted_of names.now).net (Ok all.texts.net.items)) (H.asked host.new)) }
    ensures inputs_read { IfOk result (λ all. Has (Read (wanted_of names.now).inputs (Ok all.texts.inputs.items)) (H.asked host.new)) }
    // The network is that of its text, and the items are those of theirs.
    ensures net { IfOk result (λ all. IsNetOf all.texts.net.items all.network.net.value) }
    ensures inputs { IfOk result (λ all. AreInputsOf all.texts.inputs.items all.network.net.value all.inputs) }
    ensures fitting { IfOk result (λ all. Fits (network_of all.network.net.value.program) all.inputs) }
    // A file can't be read, or what was read of it is refused.
    ensures cause { IfErr result (λ error. IsTextsCause (wanted_of names.now) (H.asked host.new) error.fault) }
{
    let net = read_bytes(host, alloc, names, &names.net)?;
    let network = net_of_bytes(alloc, &names.net, &net)?;
    let inputs = read_bytes(host, alloc, names, &names.inputs)?;
    let items = inputs_of_bytes(alloc, &names.inputs, &network, &inputs)?;
    tell_apart::<H, Accepted>(host, alloc, names)?;
    Ok(ReadTexts {
        texts: Texts { net, inputs },
        network,
        inputs: items,
    })
}
