//! The texts that the program reads, from their bytes.

ghost use Rattle.std.specs.Prelude.{◌≡◌, IfErr, IfOk, IsOkUnless, IsUtf8, List};
ghost use Rattle.protocol.specs.Node.Common.{Fits, network_of};
ghost use Rattle.cobaltmidge.specs.Texts.{AreInputsOf, IsNetOf, IsTextOfInputs, IsTextOfNet};
ghost use Rattle.fail_script.specs.Lines.{IsScript};
ghost use Rattle.fail_script.specs.declared.act.ScriptLine.{ScriptLine as LineValue};
ghost use Rattle.kahn_program.specs.Readings.{IsInputsFailure, IsInputsTextFailure, IsNetFailure, IsNetTextFailure, IsNotText};
ghost use Rattle.kahn_program.specs.Readings.{IsScriptFailure, IsScriptTextFailure, net_failure_of, script_failure_of, text_failure_of};

use crate::failure::{Failure, Source};
use fail_script::{Script, ScriptFault, parse_script};
use net_check::{Inputs, Net, NetFault, bind, check};
use net_text::{TextFault, parse, parse_inputs};
use std::alloc::Global;

/// What a fault of a text comes to.
fn text_failure(source: Source, fault: TextFault) -> Failure
    ensures { result ≡ text_failure_of source fault }
{
    match fault.line() {
        Some(line) => Failure::Line {
            source,
            line,
            number: fault.number(),
        },
        None => Failure::NoMemory,
    }
}

/// What a fault of a network, or of the items for its inputs, comes to.
fn net_failure(source: Source, fault: NetFault) -> Failure
    ensures { result ≡ net_failure_of source fault }
{
    if let NetFault::NoMemory = fault {
        return Failure::NoMemory;
    }
    match fault.line() {
        Some(line) => Failure::Line {
            source,
            line,
            number: fault.number(),
        },
        None => Failure::Whole {
            source,
            number: fault.number(),
        },
    }
}

/// What a fault of a script comes to.
fn script_failure(fault: ScriptFault) -> Failure
    ensures { result ≡ script_failure_of fault }
{
    match fault.line() {
        Some(line) => Failure::Line {
            source: Source::Script,
            line,
            number: fault.number(),
        },
        None => Failure::NoMemory,
    }
}

/// A file's bytes as text.
fn text_of(source: Source, bytes: &[u8]) -> Result<&str, Failure>
    ensures ok { IfOk result (λ text. text.now ≡ bytes.now) }
    ensures err { IfErr result (IsNotText source bytes.now) }
{
    match str::from_utf8(bytes) {
        Ok(text) => Ok(text),
        Err(_) => Err(Failure::NotText(source)),
    }
}

/// The network of a text.
fn net_of_text(alloc: Global, text: &str) -> Result<Net, Failure>
    ensures net { IfOk result (IsNetOf text.now) }
    ensures err { IfErr result (IsNetTextFailure text.now) }
    ensures accepted { IsTextOfNet text.now → IsOkUnless result Failure.NoMemory }
{
    let tree = match parse(alloc, text) {
        Ok(tree) => tree,
        Err(fault) => return Err(text_failure(Source::Net, fault)),
    };
    match check(alloc, tree) {
        Ok(net) => Ok(net),
        Err(fault) => Err(net_failure(Source::Net, fault)),
    }
}

/// The items of a text for a network's inputs.
fn inputs_of_text(alloc: Global, text: &str, net: &Net) -> Result<Inputs, Failure>
    ensures inputs { IfOk result (AreInputsOf text.now net.now) }
    ensures fitting { IfOk result (Fits (network_of net.now.program)) }
    ensures err { IfErr result (IsInputsTextFailure net.now text.now) }
    ensures accepted { IsTextOfInputs net.now text.now → IsOkUnless result Failure.NoMemory }
{
    let lines = match parse_inputs(alloc, text) {
        Ok(lines) => lines,
        Err(fault) => return Err(text_failure(Source::Inputs, fault)),
    };
    match bind(alloc, net, lines) {
        Ok(inputs) => Ok(inputs),
        Err(fault) => Err(net_failure(Source::Inputs, fault)),
    }
}

/// The network that a text describes. Refuses by the first of these: the bytes aren't UTF-8, or are refused by `parse` or by `check`; and for
/// want of memory.
pub fn read_net(alloc: Global, bytes: &[u8]) -> Result<Net, Failure>
    // The network is that of the bytes.
    ensures net { IfOk result (IsNetOf bytes.now) }
    // What is refused has the fault, on its line.
    ensures err { IfErr result (IsNetFailure bytes.now) }
    // A text that describes a network isn't refused.
    ensures accepted { IsUtf8 bytes.now → IsTextOfNet bytes.now → IsOkUnless result Failure.NoMemory }
{
    let text = text_of(Source::Net, bytes)?;
    net_of_text(alloc, text)
}

/// The items for a network's inputs that a text gives. Refuses by the first of these: the bytes aren't UTF-8, or are refused by
/// `parse_inputs` or by `bind`; and for want of memory.
pub fn read_inputs(alloc: Global, bytes: &[u8], net: &Net) -> Result<Inputs, Failure>
    // Each input has exactly the items of its line in the bytes.
    ensures inputs { IfOk result (AreInputsOf bytes.now net.now) }
    // They are inputs for this network.
    ensures fitting { IfOk result (Fits (network_of net.now.program)) }
    // What is refused has the fault, on its line.
    ensures err { IfErr result (IsInputsFailure net.now bytes.now) }
    // A text that gives the inputs their items isn't refused.
    ensures accepted { IsUtf8 bytes.now → IsTextOfInputs net.now bytes.now → IsOkUnless result Failure.NoMemory }
{
    let text = text_of(Source::Inputs, bytes)?;
    inputs_of_text(alloc, text, net)
}

/// The script of a text, for so many nodes.
fn script_of_text(alloc: Global, text: &str, nodes: u8) -> Result<Script, Failure>
    ensures script { IfOk result (λ script. IsScript nodes text.now script.lines.items) }
    ensures err { IfErr result (IsScriptTextFailure nodes text.now) }
    ensures accepted { (lines : List LineValue) → IsScript nodes text.now lines
        → IsOkUnless result Failure.NoMemory }
{
    match parse_script(alloc, text, nodes) {
        Ok(script) => Ok(script),
        Err(fault) => Err(script_failure(fault)),
    }
}

/// The failure script for so many nodes that a text gives. Refuses by the first of these: the bytes aren't UTF-8, or are refused by
/// `parse_script`; and for want of memory.
pub fn read_script(alloc: Global, bytes: &[u8], nodes: u8) -> Result<Script, Failure>
    // Its lines are those of the bytes.
    ensures script { IfOk result (λ script. IsScript nodes bytes.now script.lines.items) }
    // What is refused has the fault, on its line.
    ensures err { IfErr result (IsScriptFailure nodes bytes.now) }
    // A text that is a script isn't refused.
    ensures accepted { (lines : List LineValue) → IsUtf8 bytes.now → IsScript nodes bytes.now lines
        → IsOkUnless result Failure.NoMemory }
{
    let text = text_of(Source::Script, bytes)?;
    script_of_text(alloc, text, nodes)
}
