//! What stands behind the line of a refused text, for who wrote it.

use crate::asked::Options;
use cobaltmidge::{
    Error, Explanation, Net, Network, NeverDue, Outlet, Reason, RunEnd, RunWorld, cut,
    explain_bytes, never_due, reason_of,
};
use diagnosis::Grouped;
use kahn_net::Port;
use std::alloc::{AllocError, Global};
use std::str;

// The lines of an explanation, of the text of this file.
fn told(
    alloc: Global,
    name: &str,
    bytes: &[u8],
    explanation: &Explanation,
) -> Result<Option<String>, AllocError> {
    Ok(Some(explanation.lines(alloc, name, bytes)?))
}

// The lines about bytes that aren't text.
fn told_of_bytes(alloc: Global, name: &str, bytes: &[u8]) -> Result<Option<String>, AllocError> {
    match explain_bytes(alloc, bytes)? {
        Some(explanation) => told(alloc, name, bytes, &explanation),
        None => Ok(None),
    }
}

// The lines about a text with this error.
fn told_of_error(
    alloc: Global,
    name: &str,
    text: &str,
    error: Error,
    network: Option<&Network>,
) -> Result<Option<String>, AllocError> {
    if error == Error::NoMemory {
        return Err(AllocError);
    }
    let explanation = error.explained_in(alloc, text, network)?;
    told(alloc, name, text.as_bytes(), &explanation)
}

// A text that goes with a network.
#[derive(Clone, Copy)]
enum Beside {
    Inputs,
    Script,
}

// Why a network refuses such a text, if it does.
fn refusal_of(alloc: Global, which: Beside, text: &str, network: &Network) -> Option<Error> {
    match which {
        Beside::Inputs => network.inputs(alloc, text).err(),
        Beside::Script => network.script(alloc, text).err(),
    }
}

// The lines about such a text, where it is refused.
fn told_beside(
    alloc: Global,
    which: Beside,
    name: &str,
    bytes: &[u8],
    network: &Network,
) -> Result<Option<String>, AllocError> {
    let Ok(text) = str::from_utf8(bytes) else {
        return told_of_bytes(alloc, name, bytes);
    };
    match refusal_of(alloc, which, text, network) {
        Some(error) => told_of_error(alloc, name, text, error, Some(network)),
        None => Ok(None),
    }
}

// The lines about the script that is asked for, where one is and it is refused.
fn told_of_asked_script(
    alloc: Global,
    options: &Options,
    script: Option<&[u8]>,
    network: &Network,
) -> Result<Option<String>, AllocError> {
    match (&options.script, script, options.approx) {
        (Some(name), Some(script), None) => {
            told_beside(alloc, Beside::Script, name.as_str(), script, network)
        }
        _ => Ok(None),
    }
}

/// The lines behind that of a refusal, each with its line feed: of the first text that is refused where, why, and the line of the text with
/// a mark under the column. None where none of the texts is refused, or one before it wasn't read. Refuses for want of memory alone.
pub fn explanation(
    alloc: Global,
    options: &Options,
    net: Option<&[u8]>,
    inputs: Option<&[u8]>,
    script: Option<&[u8]>,
) -> Result<Option<String>, AllocError> {
    let Some(net) = net else {
        return Ok(None);
    };
    let name = options.net.as_str();
    let Ok(text) = str::from_utf8(net) else {
        return told_of_bytes(alloc, name, net);
    };
    let network = match Network::parse(alloc, text) {
        Ok(network) => network,
        Err(error) => return told_of_error(alloc, name, text, error, None),
    };
    let Some(inputs) = inputs else {
        return Ok(None);
    };
    let name = options.inputs.as_str();
    match told_beside(alloc, Beside::Inputs, name, inputs, &network)? {
        Some(told) => Ok(Some(told)),
        None => told_of_asked_script(alloc, options, script, &network),
    }
}

// The first line of a script that never came due in a run that ended in this round.
fn undue(script: Option<&[u8]>, ended: u64) -> Option<NeverDue> {
    match str::from_utf8(script?) {
        Ok(script) => never_due(script, ended),
        Err(_) => None,
    }
}

/// The lines that say behind which item of each output a run goes on, each with its line feed; none where it is a first one. `world` is that
/// with which it begins. Refuses for want of memory alone.
pub(crate) fn going_on<O: Outlet>(
    alloc: Global,
    net: &Net,
    world: &RunWorld<O>,
) -> Result<String, AllocError> {
    let mut lines = String::new(alloc);
    let channels = net.program.channels.iter().enumerate();
    for ((number, channel), name) in channels.zip(net.channel_names.iter()) {
        let held = world.released(number as u8).len() as u64;
        if let Port::Outside = channel.consumer {
            if held > 0 {
                let name = name.as_str();
                let held = Grouped(held);
                write!(lines, "went on behind item {held} of {name}\n")?;
            }
        }
    }
    Ok(lines)
}

// Why a run ended. That its rounds were a default is said only where none were asked for.
fn reason_for<'a, O: Outlet>(
    options: &Options,
    net: &'a Net,
    world: &RunWorld<O>,
    end: RunEnd,
) -> Reason<'a> {
    match reason_of(net, world, end, options.settings()) {
        Reason::Rounds { rounds, .. } => Reason::Rounds {
            rounds,
            is_default: options.rounds.is_none(),
        },
        reason => reason,
    }
}

/// The lines that say why a run's report ends in `partial`, and which lines of its script never came due, each with its line feed; none
/// where it is complete and all came due. `end` is what was told with the run's world. Refuses for want of memory alone.
pub fn ending<O: Outlet>(
    alloc: Global,
    options: &Options,
    net: &Net,
    world: &RunWorld<O>,
    end: RunEnd,
    script: Option<&[u8]>,
) -> Result<String, AllocError> {
    let mut lines = String::new(alloc);
    let cut = cut(net.program.channels.as_slice(), world, options.items);
    let reason = match cut {
        Some(items) => Reason::Items { items },
        None => reason_for(options, net, world, end),
    };
    if cut.is_some() || !world.complete() {
        write!(lines, "partial: {reason}\n")?;
    }
    if let Some(line) = undue(script, world.round()) {
        write!(lines, "{line}\n")?;
    }
    Ok(lines)
}
