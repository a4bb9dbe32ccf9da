//! An approximation of a network's histories, and its report.

ghost use Rattle.std.specs.Prelude.{◌≡◌, ◌≤◌, ◌++◌, ◌∷◌, [], if◌then◌else◌, length, map, IfErr, IfOk, OnOk};
ghost use Rattle.protocol.specs.Node.Common.{Fits, approximation, history_of, network_of, MAX_CHANNELS};
ghost use Rattle.protocol.specs.World.Common.{goes_outside, output_channels};
ghost use Rattle.kahn_program.specs.Runnable.{IsApproximationFailure};
ghost use Rattle.kahn_program.specs.Runs.{IsApproximated};

use crate::failure::Failure;
use crate::reporting::{Stream, report};
use approximations::approximate;
use kahn_net::{Channel, History, Port};
use net_check::{Inputs, Net};
use std::alloc::{AllocError, Global};
use std::sync::Arc;
use stream_eq::{Fault, Histories, is_solution};

/// A failure of the solver.
fn solver_failure(fault: Fault) -> Failure
    ensures memory { fault ≡ Fault.NoMemory → result ≡ Failure.NoMemory }
    ensures long { fault ≡ Fault.Long → result ≡ Failure.Approximation 19 }
{
    match fault {
        Fault::NoMemory => Failure::NoMemory,
        Fault::Long => Failure::Approximation {
            number: fault.number(),
        },
    }
}

/// The items of a channel.
fn items_of(histories: &[History], number: u8) -> &[i64]
    ensures { result.now ≡ history_of histories.now number }
{
    match histories.get(usize::from(number)) {
        Some(history) => history.as_slice(),
        None => &[],
    }
}

/// Adds the history of a channel, if its items go outside.
fn add_history<'a>(
    streams: &mut Vec<Stream<'a>>,
    number: u8,
    channel: &Channel,
    histories: &'a [History],
) -> Result<(), AllocError>
    ensures { OnOk result (streams.new.items ≡ streams.old.items
        ++ (if goes_outside channel.now.consumer
        then history_of histories.now number ∷ [] else [])) }
{
    if let Port::Outside = channel.consumer {
        streams.push(Stream::new(items_of(histories, number)))?;
    }
    Ok(())
}

/// The history of each output, in order of the channels.
fn output_histories<'a>(
    alloc: Global,
    channels: &[Channel],
    histories: &'a [History],
) -> Result<Vec<Stream<'a>>, AllocError>
    requires { length channels.now ≤ MAX_CHANNELS }
    ensures { IfOk result (λ streams. streams.items
        ≡ map (λ channel. history_of histories.now channel) (output_channels 0 channels.now)) }
{
    let mut streams = Vec::new(alloc);
    for (number, channel) in channels.iter().enumerate() {
        add_history(&mut streams, number as u8, channel, histories)?;
    }
    Ok(streams)
}

/// The report of these histories, which are a network's n-th approximation on its inputs, and whether that is a solution.
fn report_on(
    alloc: Global,
    net: &Net,
    inputs: &Inputs,
    n: u64,
    histories: &Histories,
) -> Result<(Vec<u8>, bool), Failure>
    requires fitting { Fits (network_of net.now.program) inputs.now }
    requires value { histories.now ≡ approximation (network_of net.now.program) inputs.now n }
    ensures ok { IfOk result
        (λ report. IsApproximated net.now inputs.now n report.0.items report.1) }
    ensures err { IfErr result
        (IsApproximationFailure (network_of net.now.program) inputs.now n) }
{
    let complete = match is_solution(alloc, net, inputs, histories) {
        Ok(complete) => complete,
        Err(fault) => return Err(solver_failure(fault)),
    };
    let Ok(streams) = output_histories(alloc, &net.program.channels, histories.as_slice()) else {
        return Err(Failure::NoMemory);
    };
    match report(alloc, net, &streams, complete) {
        Ok(bytes) => Ok((bytes, complete)),
        Err(_) => Err(Failure::NoMemory),
    }
}

/// The report of a network's n-th approximation on its inputs, and whether that is a solution: then it is the least
/// one. Nothing is run.
pub fn report_of_approximation(
    alloc: Global,
    net: Net,
    inputs: &Inputs,
    n: u64,
) -> Result<(Vec<u8>, bool), Failure>
    requires fitting { Fits (network_of net.program) inputs.now }
    ensures ok { IfOk result
        (λ report. IsApproximated net inputs.now n report.0.items report.1) }
    // A history is too long, or memory is missing.
    ensures err { IfErr result (IsApproximationFailure (network_of net.program) inputs.now n) }
{
    let Ok(shared) = Arc::new(alloc, net) else {
        return Err(Failure::NoMemory);
    };
    match approximate(alloc, &shared, inputs, n) {
        Ok(histories) => report_on(alloc, &shared, inputs, n, &histories),
        Err(fault) => Err(solver_failure(fault)),
    }
}
