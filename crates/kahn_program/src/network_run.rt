//! A network's run, and its report.

ghost use Rattle.std.specs.Prelude.{◌≡◌, ◌≤◌, ◌++◌, ◌∷◌, [], if◌then◌else◌, is_some, length, map, IfErr, IfOk, OnOk};
ghost use Rattle.protocol.specs.Node.Common.{Fits, network_of, MAX_CHANNELS};
ghost use Rattle.protocol.specs.World.Common.{released_of, goes_outside, output_channels};
ghost use Rattle.cobaltmidge.specs.Common.{happenings, history_text, net_in, world_of};
ghost use Rattle.cobaltmidge.specs.Remaining.{streams_left};
ghost use Rattle.cobaltmidge.specs.Runs.{released_streams};
ghost use Rattle.kahn_program.specs.Keeping.{IsKeeperFailure, IsKeptFailure};
ghost use Rattle.kahn_program.specs.Runnable.{IsReportless};
ghost use Rattle.kahn_program.specs.Runs.{IsReport, IsToldOf, IsWrittenIf, first_items, is_whole};

use crate::asked::Options;
use crate::explaining::{ending, going_on};
use crate::failure::{Failure, run_failure};
use crate::keeper::Keeper;
use crate::reporting::{Stream, report};
use cobaltmidge::{
    Ended, History, Left, RunEnd, RunWatch, RunWorld, TurnWatch, Unfinished, cut, run_from,
    write_history,
};
use kahn_net::{Channel, Port};
use net_check::{Inputs, Net};
use outlet::Outlet;
use replay::ScriptedEvent;
use std::alloc::{AllocError, Global};
use std::sync::{Arc, Wait};
use std::thread::Threads;

/// The first items of a stream, or all.
fn first_items(stream: &[i64], cut: Option<u64>) -> &[i64]
    ensures { result.now ≡ first_items cut stream.now }
{
    match cut {
        Some(items) => {
            if items < stream.len() as u64 {
                &stream[..items as usize]
            } else {
                stream
            }
        }
        None => stream,
    }
}

/// Whether a run is told to be complete: one whose streams are cut isn't.
fn is_whole(cut: Option<u64>, complete: bool) -> bool
    ensures { result ≡ is_whole cut complete }
{
    match cut {
        Some(_) => false,
        None => complete,
    }
}

/// Adds what has left by a channel, if its items go outside.
fn add_stream<'a, O: Outlet>(
    streams: &mut Vec<Stream<'a>>,
    number: u8,
    channel: &Channel,
    world: &'a RunWorld<O>,
    cut: Option<u64>,
) -> Result<(), AllocError>
    ensures { OnOk result (streams.new.items ≡ streams.old.items
        ++ (if goes_outside channel.now.consumer then first_items cut (released_of number
        (world_of world.now).stations) ∷ [] else [])) }
{
    if let Port::Outside = channel.consumer {
        streams.push(Stream::new(first_items(world.released(number), cut)))?;
    }
    Ok(())
}

/// What has left by each output, or the first items of it, in order of the channels.
fn streams<'a, O: Outlet>(
    alloc: Global,
    channels: &[Channel],
    world: &'a RunWorld<O>,
    cut: Option<u64>,
) -> Result<Vec<Stream<'a>>, AllocError>
    requires { length channels.now ≤ MAX_CHANNELS }
    ensures { IfOk result (λ streams. streams.items
        ≡ map (λ channel. first_items cut (released_of channel (world_of world.now).stations))
        (output_channels 0 channels.now)) }
{
    let mut streams = Vec::new(alloc);
    for (number, channel) in channels.iter().enumerate() {
        add_stream(&mut streams, number as u8, channel, world, cut)?;
    }
    Ok(streams)
}

/// The report of a world at the end of a run, and whether it tells that the run is complete.
fn report_of_world<O: Outlet>(
    alloc: Global,
    net: &Net,
    world: &RunWorld<O>,
    items: Option<u64>,
) -> Result<(Vec<u8>, bool), AllocError>
    ensures { IfOk result
        (λ report. IsToldOf net.now items (world_of world.now) report.0.items report.1) }
{
    let channels = net.program.channels.as_slice();
    let cut = cut(channels, world, items);
    let complete = is_whole(cut, world.complete());
    let streams = streams(alloc, channels, world, cut)?;
    let bytes = report(alloc, net, &streams, complete)?;
    Ok((bytes, complete))
}

/// What there is to say of a run's beginning, where that is asked for.
fn beginning_if_asked<O: Outlet>(
    alloc: Global,
    options: &Options,
    net: &Net,
    world: &RunWorld<O>,
) -> Result<String, AllocError> {
    if options.explain {
        return going_on(alloc, net, world);
    }
    Ok(String::new(alloc))
}

/// What there is to say of a run's end, where that is asked for.
fn ending_if_asked<O: Outlet>(
    alloc: Global,
    options: &Options,
    net: &Net,
    world: &RunWorld<O>,
    end: RunEnd,
    script: Option<&[u8]>,
) -> Result<String, AllocError> {
    if options.explain {
        return ending(alloc, options, net, world, end, script);
    }
    Ok(String::new(alloc))
}

/// The run is over: its outlets go back to where they come from.
fn close_outputs<O: Outlet, K: Keeper<O>>(
    alloc: Global,
    world: RunWorld<O>,
    keeper: &mut K,
) -> Result<(), Failure>
    ensures kept { OnOk result (K.has_kept keeper.new
        (released_streams (network_of (net_in world).value.program) (world_of world).stations)) }
    ensures err { IfErr result (IsKeeperFailure K.keeps) }
    ensures cause { IfErr result (IsKeptFailure (K.has_failed keeper.new)) }
{
    let Ok(closed) = world.close(alloc) else {
        return Err(Failure::NoMemory);
    };
    let (_disks, outputs) = closed;
    keeper.close(alloc, outputs)
}

/// What had left of a run that came to no end goes back to where its outlets come from.
fn put_left<O: Outlet, K: Keeper<O>>(
    alloc: Global,
    left: Left<O>,
    keeper: &mut K,
) -> Result<(), Failure>
    ensures kept { OnOk result (K.has_kept keeper.new (streams_left left)) }
    ensures err { IfErr result (IsKeeperFailure K.keeps) }
    ensures cause { IfErr result (IsKeptFailure (K.has_failed keeper.new)) }
{
    match left {
        Left::Outputs(outputs) => keeper.close(alloc, outputs),
        Left::World(world, _) => close_outputs(alloc, world, keeper),
    }
}

/// The text of what happened, where that is asked for.
fn history_if_asked(
    alloc: Global,
    options: &Options,
    net: &Net,
    happened: &History,
) -> Result<Vec<u8>, AllocError>
    ensures { IfOk result (λ text. IsWrittenIf (is_some options.now.history) (λ history. text.items ≡ history)
        (history_text net.now (happenings happened.now.lines.items))) }
{
    let mut text = Vec::new(alloc);
    // It is written into memory, so that it fails for want of memory alone.
    if options.history.is_some() && write_history(&mut text, net, happened).is_err() {
        return Err(AllocError);
    }
    Ok(text)
}

/// What comes of a run or of an approximation.
#[derive(Drop)]
pub struct Report {
    pub bytes: Vec<u8>,
    pub complete: bool,
    // what there is to say of where the run went on, and of its end
    pub words: String,
}

/// What is told of a run that is over, and the text of what happened, where that is asked for.
fn told_of<O: Outlet>(
    alloc: Global,
    options: &Options,
    net: &Net,
    world: &RunWorld<O>,
    end: RunEnd,
    happened: &History,
    script: Option<&[u8]>,
    beginning: Result<String, AllocError>,
) -> Result<(Report, Vec<u8>), AllocError>
    ensures told { IfOk result
        (λ came. IsToldOf net.now options.now.items (world_of world.now) came.0.bytes.items came.0.complete) }
    ensures written { IfOk result
        (λ came. IsWrittenIf (is_some options.now.history) (λ history. came.1.items ≡ history)
        (history_text net.now (happenings happened.now.lines.items))) }
{
    let (bytes, complete) = report_of_world(alloc, net, world, options.items)?;
    let mut words = beginning?;
    words.push_str(&ending_if_asked(alloc, options, net, world, end, script)?)?;
    let history = history_if_asked(alloc, options, net, happened)?;
    let report = Report {
        bytes,
        complete,
        words,
    };
    Ok((report, history))
}

/// Runs a network on its inputs by the events of a script, as the options say, until nothing is left to do, the rounds are over,
/// or each output has the items that are asked for. It begins as the keeper says. Gives the whole report, whether the run is complete, and
/// what there is to say of its end, where that is asked for; and the text of what happened, where that is. `script_text` is the script's text,
/// if there is one.
pub fn report_of_run<
    O: Outlet + Send,
    K: Keeper<O>,
    P: RunWatch + TurnWatch + Sync,
    R: Threads + Wait + Sync,
>(
    rt: &R,
    alloc: Global,
    options: &Options,
    net: Net,
    inputs: Inputs,
    script: Vec<ScriptedEvent>,
    script_text: Option<&[u8]>,
    keeper: &mut K,
    watch: &mut P,
) -> Result<(Report, Vec<u8>), Failure>
    requires fitting { Fits (network_of net.program) inputs }
    ensures ok { IfOk result
        (λ came. IsReport (λ counts. counts ≡ K.held keeper.old) (K.has_kept keeper.new) (λ history. came.1.items ≡ history)
        options.now net inputs script.items came.0.bytes.items came.0.complete) }
    // A device failed (20), memory is missing (1), a count would pass 2^63 - 1 (44), or what outlasts the run failed.
    ensures err { IfErr result (IsReportless K.keeps) }
    // Where what outlasts the run is refused or failed, the keeper says why.
    ensures cause { IfErr result (IsKeptFailure (K.has_failed keeper.new)) }
{
    let Ok(net) = Arc::new(alloc, net) else {
        return Err(Failure::NoMemory);
    };
    let settings = options.settings();
    let world = keeper.begin(alloc, &net, inputs, settings.room)?;
    let beginning = beginning_if_asked(alloc, options, &net, &world);
    let ended = match run_from(rt, alloc, settings, world, script, watch) {
        Ok(ended) => ended,
        Err(unfinished) => {
            let Unfinished { fault, left } = unfinished;
            put_left(alloc, left, keeper)?;
            return Err(run_failure(fault));
        }
    };
    let Ended {
        world,
        history: happened,
        end,
    } = ended;
    let told = told_of(
        alloc,
        options,
        &net,
        &world,
        end,
        &happened,
        script_text,
        beginning,
    );
    // Also where there is no memory to tell of it.
    close_outputs(alloc, world, keeper)?;
    match told {
        Ok(told) => Ok(told),
        Err(_) => Err(Failure::NoMemory),
    }
}
