//! The texts of a folder.

ghost use Rattle.std.specs.Prelude.{◌≡◌, IfErr, IfOk};
ghost use Rattle.kahn_net.specs.Fits.{Fits};
ghost use Rattle.kahn_net.specs.Syntax.{network_of};
ghost use Rattle.folder_status.specs.Causes.{AreNoInputs, IsNoNet, IsTextCause, of_net_fault, of_text_fault};
ghost use Rattle.folder_status.specs.Texts.{AreInputsOf, IsNetOf, IsTextOfInputs, IsTextOfNet};
ghost use Rattle.folder_status.specs.declared.fault.StatusFault.TheVariants.{OtherState};

use crate::fault::{StatusFault, StatusRefused, refused};
use net_check::{Inputs, Net, NetFault, bind, check};
use net_text::{TextFault, parse, parse_inputs};
use std::alloc::{AllocError, Global};
use std::str;

// The refusal of a text that isn't in its grammar.
fn refused_text(alloc: Global, path: &String, fault: TextFault) -> StatusRefused
    ensures { result.fault ≡ of_text_fault fault }
{
    match fault {
        TextFault::NoMemory => refused(StatusFault::NoMemory, Err(AllocError)),
        TextFault::BadToken { .. }
        | TextFault::Unexpected { .. }
        | TextFault::NumberRange { .. }
        | TextFault::TooLong { .. } => {
            refused(
                StatusFault::OtherState,
                format!(in alloc; "{path}: {fault}"),
            )
        }
    }
}

// The refusal of a network that isn't valid, or of items that aren't for its inputs.
fn refused_net(alloc: Global, path: &String, fault: NetFault) -> StatusRefused
    ensures { result.fault ≡ of_net_fault fault }
{
    match fault {
        NetFault::NoMemory => refused(StatusFault::NoMemory, Err(AllocError)),
        NetFault::TwiceNamed { .. }
        | NetFault::UnknownName { .. }
        | NetFault::TwoProducers { .. }
        | NetFault::TwoConsumers { .. }
        | NetFault::LoopWithoutGet { .. }
        | NetFault::Limit { .. }
        | NetFault::NoProducer { .. }
        | NetFault::NoConsumer { .. }
        | NetFault::MissingInput => {
            refused(
                StatusFault::OtherState,
                format!(in alloc; "{path}: {fault}"),
            )
        }
    }
}

// The refusal of a file that is no text.
fn not_text(alloc: Global, path: &String) -> StatusRefused
    ensures { result.fault ≡ OtherState }
{
    refused(
        StatusFault::OtherState,
        format!(in alloc; "{path}: not UTF-8"),
    )
}

// The network of a text.
fn net_of_text(alloc: Global, path: &String, text: &str) -> Result<Net, StatusRefused>
    ensures net { IfOk result (IsNetOf text.now) }
    ensures cause { IfErr result (λ refused. IsTextCause (¬ (IsTextOfNet text.now)) refused.fault) }
{
    let tree = match parse(alloc, text) {
        Ok(tree) => tree,
        Err(fault) => return Err(refused_text(alloc, path, fault)),
    };
    match check(alloc, tree) {
        Ok(net) => Ok(net),
        Err(fault) => Err(refused_net(alloc, path, fault)),
    }
}

/// The network of a text's bytes.
pub(crate) fn net_of(alloc: Global, path: &String, bytes: &Vec<u8>) -> Result<Net, StatusRefused>
    ensures net { IfOk result (IsNetOf bytes.now.items) }
    ensures cause { IfErr result (λ refused. IsTextCause (IsNoNet bytes.now.items) refused.fault) }
{
    match str::from_utf8(bytes.as_slice()) {
        Ok(text) => net_of_text(alloc, path, text),
        Err(_) => Err(not_text(alloc, path)),
    }
}

// The items of a text for a network's inputs.
fn inputs_of_text(
    alloc: Global,
    path: &String,
    net: &Net,
    text: &str,
) -> Result<Inputs, StatusRefused>
    ensures inputs { IfOk result (AreInputsOf text.now net.now) }
    ensures fitting { IfOk result (Fits (network_of net.now.program)) }
    ensures cause { IfErr result (λ refused. IsTextCause (¬ (IsTextOfInputs net.now text.now)) refused.fault) }
{
    let lines = match parse_inputs(alloc, text) {
        Ok(lines) => lines,
        Err(fault) => return Err(refused_text(alloc, path, fault)),
    };
    match bind(alloc, net, lines) {
        Ok(inputs) => Ok(inputs),
        Err(fault) => Err(refused_net(alloc, path, fault)),
    }
}

/// The items of a text's bytes for a network's inputs.
pub(crate) fn inputs_of(
    alloc: Global,
    path: &String,
    net: &Net,
    bytes: &Vec<u8>,
) -> Result<Inputs, StatusRefused>
    ensures inputs { IfOk result (AreInputsOf bytes.now.items net.now) }
    ensures fitting { IfOk result (Fits (network_of net.now.program)) }
    ensures cause { IfErr result (λ refused. IsTextCause (AreNoInputs net.now bytes.now.items) refused.fault) }
{
    match str::from_utf8(bytes.as_slice()) {
        Ok(text) => inputs_of_text(alloc, path, net, text),
        Err(_) => Err(not_text(alloc, path)),
    }
}
