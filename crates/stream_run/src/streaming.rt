//! A network at work between the streams outside of it.

ghost use Rattle.std.specs.Prelude.{◌≡◌, ◌||◌, ◌≢◌, ◌<◌, ℕ, IsTrue, slice_get, length, false, true, IfErr, IfOk, OnErr, OnOk};
ghost use Rattle.growing.specs.WhateverComes.{HasGoneOn};
ghost use Rattle.kahn_net.specs.declared.limits.TheConstants.{MAX_CHANNELS};
ghost use Rattle.protocol.specs.Node.Common.{network_of};
ghost use Rattle.protocol.specs.World.Quiet.{AreWhole};
ghost use Rattle.world.specs.Feeding.{is_input, none_closed};
ghost use Rattle.live.specs.LiveViews.{closed_on, stations_on, taken_of, world_on};
ghost use Rattle.outside.specs.Departures.{items_by};
ghost use Rattle.stream_run.specs.Linked.{AreAllPut, AreEnded, AreFedAll, AreFedInPart, AreTheSame, IsPutAsTaken, IsPutInPart, IsPutWhole, is_output};
ghost use Rattle.stream_run.specs.Stops.{IsStop, stop_by};
ghost use Rattle.stream_run.specs.declared.asked.Asked.TheVariants.{All};

use crate::asked::Asked;
use crate::stopped::Stopped;
use kahn_net::{MAX_CHANNELS, Port};
use live::{Live, Pause};
use outlet::Outlet;
use outside::{Departure, Outside};
use slot_cell::SlotCell;
use std::alloc::Global;
use world::FeedFault;

/// After so many steps of a network that goes on what has left is put out.
const STEPS: u64 = 4_096;

/// No run makes so many rounds. What would is told as if it had no memory for more.
const ROUNDS: u64 = u64::MAX;

// Whether a channel of the network is an input.
fn is_input<C: SlotCell, O: Outlet>(live: &Live<C, O>, number: usize) -> bool
    ensures { result ≡ is_input (world_on live.now).net number }
{
    match live.world().net().program.channels.get(number) {
        Some(channel) => match channel.producer {
            Port::Outside => true,
            Port::Process(_) => false,
        },
        None => false,
    }
}

// Whether it is an output.
fn is_output<C: SlotCell, O: Outlet>(live: &Live<C, O>, number: usize) -> bool
    ensures { result ≡ is_output (world_on live.now).net number }
{
    match live.world().net().program.channels.get(number) {
        Some(channel) => match channel.consumer {
            Port::Outside => true,
            Port::Process(_) => false,
        },
        None => false,
    }
}

// Puts out what has left by an output and wasn't put out yet.
fn put_items<C: SlotCell, O: Outlet, X: Outside>(
    alloc: Global,
    live: &mut Live<C, O>,
    outside: &mut X,
    output: u8,
) -> Result<(), X::Fault>
    requires { IsPutAsTaken (X.left outside.old) (taken_of live.old) (world_on live.old) }
    ensures put { OnOk result (IsPutAsTaken (X.left outside.new) (taken_of live.new) (world_on live.new)) }
    ensures whole { OnOk result (IsPutWhole (X.left outside.new) (world_on live.new) output) }
    ensures part { IsPutInPart (X.left outside.new) (world_on live.new) }
    ensures others { (other : ℕ) → other ≢ output
        → items_by other (X.left outside.new) ≡ items_by other (X.left outside.old) }
    ensures world { live.new.world ≡ live.old.world }
    ensures same { AreTheSame (X.came outside.old) (X.came outside.new) (X.has_ended outside.old) (X.has_ended outside.new) }
    ensures fixed { X.fixed outside.new ≡ X.fixed outside.old }
    ensures failed { IfErr result (X.has_failed outside.new) }
{
    'items: loop {
        match live.next(output) {
            None => return Ok(()),
            Some(item) => match outside.put(alloc, Departure { output, item }) {
                Ok(()) => {}
                Err(fault) => return Err(fault),
            },
        }
    }
}

// Puts out what has left by all outputs and wasn't put out yet.
fn put_all<C: SlotCell, O: Outlet, X: Outside>(
    alloc: Global,
    live: &mut Live<C, O>,
    outside: &mut X,
) -> Result<(), X::Fault>
    requires { IsPutAsTaken (X.left outside.old) (taken_of live.old) (world_on live.old) }
    ensures put { OnOk result (IsPutAsTaken (X.left outside.new) (taken_of live.new) (world_on live.new)) }
    ensures whole { OnOk result (AreAllPut (X.left outside.new) (world_on live.new)) }
    ensures part { IsPutInPart (X.left outside.new) (world_on live.new) }
    ensures world { live.new.world ≡ live.old.world }
    ensures same { AreTheSame (X.came outside.old) (X.came outside.new) (X.has_ended outside.old) (X.has_ended outside.new) }
    ensures fixed { X.fixed outside.new ≡ X.fixed outside.old }
    ensures failed { IfErr result (X.has_failed outside.new) }
{
    for number in 0..MAX_CHANNELS {
        if is_output(live, number) {
            match put_items(alloc, live, outside, number as u8) {
                Ok(()) => {}
                Err(fault) => return Err(fault),
            }
        }
    }
    Ok(())
}

// The network goes on until nothing is left to do on what came so far, and all that has left is put out.
fn work_off<C: SlotCell, O: Outlet, X: Outside>(
    alloc: Global,
    live: &mut Live<C, O>,
    outside: &mut X,
) -> Result<(), Stopped<X::Fault>>
    requires { IsPutAsTaken (X.left outside.old) (taken_of live.old) (world_on live.old) }
    ensures put { OnOk result (IsPutAsTaken (X.left outside.new) (taken_of live.new) (world_on live.new)) }
    ensures closed { closed_on live.new ≡ closed_on live.old }
    ensures all { OnOk result (AreAllPut (X.left outside.new) (world_on live.new)) }
    ensures whole { OnOk result (AreWhole (world_on live.new)) }
    ensures shown { OnOk result (X.is_shown outside.new) }
    ensures part { IsPutInPart (X.left outside.new) (world_on live.new) }
    ensures gone_on { HasGoneOn (world_on live.old) (world_on live.new) }
    ensures inputs { (world_on live.new).inputs ≡ (world_on live.old).inputs }
    ensures same { AreTheSame (X.came outside.old) (X.came outside.new) (X.has_ended outside.old) (X.has_ended outside.new) }
    ensures fixed { X.fixed outside.new ≡ X.fixed outside.old }
    ensures failed { IfErr result (IsStop (X.has_failed outside.new) (X.came outside.old) (X.came outside.new) (world_on live.old)) }
{
    'steps: for _ in 0..ROUNDS {
        let pause = match live.advance(alloc, STEPS) {
            Ok(pause) => pause,
            Err(_) => return Err(Stopped::NoMemory),
        };
        match put_all(alloc, live, outside) {
            Ok(()) => {}
            Err(fault) => return Err(Stopped::Outside(fault)),
        }
        match outside.flush() {
            Ok(()) => {}
            Err(fault) => return Err(Stopped::Outside(fault)),
        }
        if let Pause::Rests = pause {
            return Ok(());
        }
    }
    Err(Stopped::NoMemory)
}

// Why the streams end where an input refuses what came.
fn stop_by<F>(fault: FeedFault) -> Stopped<F>
    ensures { result ≡ stop_by fault }
{
    match fault {
        FeedFault::NoMemory => Stopped::NoMemory,
        FeedFault::NoInput | FeedFault::Full | FeedFault::Closed => Stopped::Full,
    }
}

// Whether one of the two is so.
fn either(one: bool, other: bool) -> bool
    ensures { result ≡ (one || other) }
{
    one || other
}

// Whether this channel is an input that is read next.
fn is_asked<C: SlotCell, O: Outlet>(live: &Live<C, O>, asked: Asked, number: u8) -> bool
    ensures input { IsTrue result → IsTrue (is_input (world_on live.now).net number) }
    ensures all { asked ≡ All → result ≡ is_input (world_on live.now).net number }
{
    match asked {
        Asked::Awaited => is_input(live, usize::from(number)) && live.waits_for(number),
        Asked::All => is_input(live, usize::from(number)),
    }
}

// Takes what comes next by an input, and feeds it. False is answered where it is at its end, and nothing came.
fn feed_next<C: SlotCell, O: Outlet, X: Outside>(
    alloc: Global,
    live: &mut Live<C, O>,
    outside: &mut X,
    input: u8,
    items: &mut Vec<i64>,
) -> Result<bool, Stopped<X::Fault>>
    requires here { IsTrue (is_input (world_on live.old).net input) }
    requires open { closed_on live.old ≡ none_closed }
    ensures fed { OnOk result (AreFedAll (X.came outside.old) (X.came outside.new) (world_on live.old) (world_on live.new)) }
    ensures part { AreFedInPart (X.came outside.old) (X.came outside.new) (world_on live.old) (world_on live.new) }
    ensures end { IfOk result (λ more. more ≡ false → X.has_ended outside.new input ≡ true) }
    ensures others { (other : ℕ) → other ≢ input → X.has_ended outside.new other ≡ X.has_ended outside.old other }
    ensures same { (X.left outside.new ≡ X.left outside.old) × (live.new.taken ≡ live.old.taken)
        × (closed_on live.new ≡ closed_on live.old) × (stations_on live.new ≡ stations_on live.old) }
    ensures gone_on { HasGoneOn (world_on live.old) (world_on live.new) }
    ensures fixed { X.fixed outside.new ≡ X.fixed outside.old }
    ensures failed { IfErr result (IsStop (X.has_failed outside.new) (X.came outside.old) (X.came outside.new) (world_on live.old)) }
{
    let more = match outside.take(alloc, input, items) {
        Ok(more) => more,
        Err(fault) => return Err(Stopped::Outside(fault)),
    };
    match live.feed(alloc, input, items.as_slice()) {
        Ok(()) => Ok(either(more, !items.is_empty())),
        Err(fault) => Err(stop_by(fault)),
    }
}

// Takes what comes next by a channel, where that is an input which is read next. False is answered where it isn't, or is at its end and nothing came.
fn feed_in_turn<C: SlotCell, O: Outlet, X: Outside>(
    alloc: Global,
    live: &mut Live<C, O>,
    outside: &mut X,
    items: &mut Vec<i64>,
    asked: Asked,
    number: u8,
) -> Result<bool, Stopped<X::Fault>>
    requires open { closed_on live.old ≡ none_closed }
    ensures fed { OnOk result (AreFedAll (X.came outside.old) (X.came outside.new) (world_on live.old) (world_on live.new)) }
    ensures part { AreFedInPart (X.came outside.old) (X.came outside.new) (world_on live.old) (world_on live.new) }
    ensures end { asked ≡ All → IfOk result (λ more. more ≡ false → IsTrue (is_input (world_on live.old).net number)
        → X.has_ended outside.new number ≡ true) }
    ensures others { (other : ℕ) → other ≢ number → X.has_ended outside.new other ≡ X.has_ended outside.old other }
    ensures same { (X.left outside.new ≡ X.left outside.old) × (live.new.taken ≡ live.old.taken)
        × (closed_on live.new ≡ closed_on live.old) × (stations_on live.new ≡ stations_on live.old) }
    ensures gone_on { HasGoneOn (world_on live.old) (world_on live.new) }
    ensures fixed { X.fixed outside.new ≡ X.fixed outside.old }
    ensures failed { IfErr result (IsStop (X.has_failed outside.new) (X.came outside.old) (X.came outside.new) (world_on live.old)) }
{
    if is_asked(live, asked, number) {
        feed_next(alloc, live, outside, number, items)
    } else {
        Ok(false)
    }
}

// Takes what comes next by each input that is read next, one after another. False is answered where each of these is at its end, and nothing came.
fn feed_all<C: SlotCell, O: Outlet, X: Outside>(
    alloc: Global,
    live: &mut Live<C, O>,
    outside: &mut X,
    items: &mut Vec<i64>,
    asked: Asked,
) -> Result<bool, Stopped<X::Fault>>
    requires open { closed_on live.old ≡ none_closed }
    ensures fed { OnOk result (AreFedAll (X.came outside.old) (X.came outside.new) (world_on live.old) (world_on live.new)) }
    ensures part { AreFedInPart (X.came outside.old) (X.came outside.new) (world_on live.old) (world_on live.new) }
    ensures end { asked ≡ All → IfOk result (λ more. more ≡ false
        → AreEnded (world_on live.new).net (X.has_ended outside.new)) }
    ensures same { (X.left outside.new ≡ X.left outside.old) × (live.new.taken ≡ live.old.taken)
        × (closed_on live.new ≡ closed_on live.old) × (stations_on live.new ≡ stations_on live.old) }
    ensures gone_on { HasGoneOn (world_on live.old) (world_on live.new) }
    ensures fixed { X.fixed outside.new ≡ X.fixed outside.old }
    ensures failed { IfErr result (IsStop (X.has_failed outside.new) (X.came outside.old) (X.came outside.new) (world_on live.old)) }
{
    let mut any = false;
    for number in 0..MAX_CHANNELS {
        match feed_in_turn(alloc, live, outside, items, asked, number as u8) {
            Ok(more) => any = either(any, more),
            Err(stopped) => return Err(stopped),
        }
    }
    Ok(any)
}

// Takes what comes next by each input for which a process waits. Where all of these are at their ends, it takes what comes next by each other input too:
// nobody waits for it, but each input is read to its end. False is answered where each input is at its end, and nothing came.
fn feed_inputs<C: SlotCell, O: Outlet, X: Outside>(
    alloc: Global,
    live: &mut Live<C, O>,
    outside: &mut X,
    items: &mut Vec<i64>,
) -> Result<bool, Stopped<X::Fault>>
    requires open { closed_on live.old ≡ none_closed }
    ensures fed { OnOk result (AreFedAll (X.came outside.old) (X.came outside.new) (world_on live.old) (world_on live.new)) }
    ensures part { AreFedInPart (X.came outside.old) (X.came outside.new) (world_on live.old) (world_on live.new) }
    ensures end { IfOk result (λ more. more ≡ false
        → AreEnded (world_on live.new).net (X.has_ended outside.new)) }
    ensures same { (X.left outside.new ≡ X.left outside.old) × (live.new.taken ≡ live.old.taken)
        × (closed_on live.new ≡ closed_on live.old) × (stations_on live.new ≡ stations_on live.old) }
    ensures gone_on { HasGoneOn (world_on live.old) (world_on live.new) }
    ensures fixed { X.fixed outside.new ≡ X.fixed outside.old }
    ensures failed { IfErr result (IsStop (X.has_failed outside.new) (X.came outside.old) (X.came outside.new) (world_on live.old)) }
{
    match feed_all(alloc, live, outside, items, Asked::Awaited) {
        Ok(true) => Ok(true),
        Ok(false) => feed_all(alloc, live, outside, items, Asked::All),
        Err(stopped) => Err(stopped),
    }
}

/// Runs a network between what lies outside of it, until each of its inputs has come to its end and nothing is left to do.
///
/// It goes on until nothing is left to do on what came so far, puts out what has left, and then takes what comes next by each input for which a
/// process waits. Where none of these has more, it reads the other inputs to their ends. Where it ends early, for want of memory, because an input is full, or because what lies outside failed, what was put out by then
/// stands.
pub fn stream<C: SlotCell, O: Outlet, X: Outside>(
    alloc: Global,
    live: &mut Live<C, O>,
    outside: &mut X,
) -> Result<(), Stopped<X::Fault>>
    requires put { IsPutAsTaken (X.left outside.old) (taken_of live.old) (world_on live.old) }
    requires open { closed_on live.old ≡ none_closed }
    // Each input came to its end, all that came by it was fed, and nothing else.
    ensures ended { OnOk result (AreEnded (world_on live.new).net (X.has_ended outside.new)) }
    ensures fed { OnOk result (AreFedAll (X.came outside.old) (X.came outside.new) (world_on live.old) (world_on live.new)) }
    // Each output put out all that has left, it is to be seen, and that is its channel's whole stream in the least solution on these inputs.
    ensures all { OnOk result (AreAllPut (X.left outside.new) (world_on live.new)) }
    ensures shown { OnOk result (X.is_shown outside.new) }
    ensures whole { OnOk result (AreWhole (world_on live.new)) }
    // Wherever it ends, what was put out by each output is a beginning of what has left there, and that is right on what was fed so far.
    ensures part { IsPutInPart (X.left outside.new) (world_on live.new) }
    ensures gone_on { HasGoneOn (world_on live.old) (world_on live.new) }
    ensures came { AreFedInPart (X.came outside.old) (X.came outside.new) (world_on live.old) (world_on live.new) }
    ensures fixed { X.fixed outside.new ≡ X.fixed outside.old }
    // It ends early for want of memory, because more came by an input than a count goes, or because what lies outside failed.
    ensures failed { IfErr result (IsStop (X.has_failed outside.new) (X.came outside.old) (X.came outside.new) (world_on live.old)) }
{
    let mut items = Vec::new(alloc);
    'pieces: for _ in 0..ROUNDS {
        match work_off(alloc, live, outside) {
            Ok(()) => {}
            Err(stopped) => return Err(stopped),
        }
        match feed_inputs(alloc, live, outside, &mut items) {
            Ok(true) => {}
            Ok(false) => return work_off(alloc, live, outside),
            Err(stopped) => return Err(stopped),
        }
    }
    Err(Stopped::NoMemory)
}
