//! A network's run, from its first event to its end.

ghost use Rattle.std.specs.Prelude.{◌≡◌, ◌≤◌, false, true, map, IfErr, IfOk};
ghost use Rattle.std.specs.List.{AllByRecursion};
ghost use Rattle.protocol.specs.Node.Common.{Fits, network_of};
ghost use Rattle.protocol.specs.World.Common.{are_quiet, output_channels};
ghost use Rattle.replay.specs.Replay.{LeadsTo};
ghost use Rattle.runtime.specs.Logs.{HasRun, HubFault, happenings};
ghost use Rattle.runtime.specs.Beginning.{HasBegun};
ghost use Rattle.runtime.specs.Causes.{last_round};
ghost use Rattle.runtime.specs.Ending.{IsOver, is_over, was_refused};
ghost use Rattle.runtime.specs.Turning.{EndsByTurns};
ghost use Rattle.runtime.specs.declared.ending.RunEnd.TheVariants.{Refused, Stopped};
ghost use Rattle.world.specs.WholeView.{capacities_in, net_in, nodes_in, rooms_in, world_of};
ghost use Rattle.world.specs.OpeningWorld.{IsUnused};
ghost use Rattle.cobaltmidge.specs.Failing.{hub_fault, IsRunFault};
ghost use Rattle.cobaltmidge.specs.FirstWorld.{HasNoFailures, IsRunRoom};
ghost use Rattle.cobaltmidge.specs.Runs.{IsEnd, IsEndFrom, IsRun, bounds_of, released_streams};
ghost use Rattle.cobaltmidge.specs.Remaining.{IsFarFrom, IsLeft};
ghost use Rattle.cobaltmidge.specs.declared.unfinished.Left.TheVariants as left;

use crate::ending::{RunEnded, RunWorld};
use crate::fault::hub_fault;
use crate::opening::open_world;
use crate::settings::Settings;
use crate::unfinished::{Left, Unfinished};
use net_check::{Inputs, Net};
use outlet::Outlet;
use replay::ScriptedEvent;
use runtime::{Bounds, Ended, RunEnd, RunWatch, TurnWatch, run_world, run_world_by_turns};
use std::alloc::Global;
use std::sync::{Arc, Wait};
use std::thread::Threads;
use world::{Output, node_count};

/// The end of a run, or why it was refused, and how far it came.
fn came_to<O: Outlet>(ended: RunEnded<O>) -> Result<RunEnded<O>, Unfinished<O>>
    ensures same { IfOk result (λ now. now ≡ ended) }
    ensures unrefused { IfOk result (λ now. was_refused now.end ≡ false) }
    ensures err { IfErr result (λ unfinished. (fault : HubFault) × (ended.end ≡ Refused fault)
        × (unfinished.fault ≡ hub_fault fault)) }
    ensures left { IfErr result (λ unfinished. unfinished.left ≡ left.World ended.world ended.history) }
{
    match ended.end {
        RunEnd::Refused(fault) => {
            let Ended { world, history, .. } = ended;
            Err(Unfinished {
                fault: hub_fault(fault),
                left: Left::World(world, history),
            })
        }
        RunEnd::Complete | RunEnd::Rounds | RunEnd::Items | RunEnd::Stopped => Ok(ended),
    }
}

/// Runs a world to its end, by turns or by threads as the settings say.
fn run_to_end<O: Outlet + Send, W: RunWatch + TurnWatch + Sync, R: Threads + Wait + Sync>(
    rt: &R,
    alloc: Global,
    settings: Settings,
    world: RunWorld<O>,
    script: Vec<ScriptedEvent>,
    watch: &mut W,
) -> RunEnded<O>
    ensures run { HasRun (rooms_in world) script.items (world_of world) (world_of result.world) }
    ensures leads { settings.history ≡ true → LeadsTo (rooms_in world) script.items (world_of world)
        (happenings result.history.lines.items) (world_of result.world) }
    ensures over { IsOver (network_of (net_in world).value.program).channels (bounds_of settings)
        (world_of result.world) result.end }
    ensures begun { settings.history ≡ true
        → HasBegun script.items (happenings result.history.lines.items) result.end }
    ensures turns { settings.threads ≡ false
        → EndsByTurns (is_over (network_of (net_in world).value.program).channels (bounds_of settings)) (nodes_in world)
        (rooms_in world) script.items (world_of world) (world_of result.world) result.end }
    ensures stopped { result.end ≡ Stopped → W.may_stop ≡ true }
    ensures rounds { settings.threads ≡ true → was_refused result.end ≡ false
        → (world_of result.world).round ≤ last_round (world_of world) script.items (bounds_of settings) }
{
    let bounds = Bounds {
        rounds: settings.rounds,
        items: settings.items,
    };
    if settings.threads {
        run_world(rt, alloc, world, script, &*watch, bounds, settings.history)
    } else {
        run_world_by_turns(alloc, world, script, watch, bounds, settings.history)
    }
}

/// Runs a world to its end by the events of a script, as the settings say: until nothing is left to do, the rounds are over, or each output has
/// the items that are asked for. Gives the world at its end, what happened, where that is to be kept, and why the run ended. A run that comes to
/// no end hands back what is left of it. `watch` looks at the run meanwhile (`&mut NoWatch` where nobody does).
pub fn run_from<O: Outlet + Send, W: RunWatch + TurnWatch + Sync, R: Threads + Wait + Sync>(
    rt: &R,
    alloc: Global,
    settings: Settings,
    world: RunWorld<O>,
    script: Vec<ScriptedEvent>,
    watch: &mut W,
) -> Result<RunEnded<O>, Unfinished<O>>
    requires room { AllByRecursion IsRunRoom (capacities_in world) }
    // What has left are prefixes of the outputs' histories in one approximation, and where nothing is left to do whole, in the least
    // solution.
    ensures run { IfOk result (λ now. IsRun (world_of world).net (world_of world).inputs
        (released_streams (world_of world).net (world_of now.world).stations) (are_quiet (world_of now.world))) }
    // How the world came to its end.
    ensures end { IfOk result (λ now. IsEndFrom (world_of world) settings (world_of world).net
        script.items (happenings now.history.lines.items) (world_of now.world)) }
    // Why it did: where nothing is left to do, the rounds are over, or each output has its items, the world is so.
    ensures over { IfOk result (λ now. IsOver (world_of world).net.channels
        (bounds_of settings) (world_of now.world) now.end) }
    // Where the history is kept, it begins with the events of the script's lines of round 0.
    ensures begun { settings.history ≡ true → IfOk result
        (λ now. HasBegun script.items (happenings now.history.lines.items) now.end) }
    ensures same { IfOk result (λ now. ∥ ((world_of now.world).net ≡ (world_of world).net)
        × ((world_of now.world).inputs ≡ (world_of world).inputs) ∥₁) }
    // It ends by a stop only where who watches it may stop it.
    ensures stopped { IfOk result (λ now. now.end ≡ Stopped → W.may_stop ≡ true) }
    // Memory is missing (1), or a count would pass 2^63 - 1 (44).
    ensures err { IfErr result (λ unfinished. IsRunFault true unfinished.fault) }
    // And then the world to which it came is handed back, with what happened.
    ensures left { IfErr result (λ unfinished. IsFarFrom (world_of world) settings script.items unfinished.left) }
{
    came_to(run_to_end(rt, alloc, settings, world, script, watch))
}

/// Runs a network on its inputs by the events of a script, as the settings say, until nothing is left to do, the rounds are over, or
/// each output has the items that are asked for: by these outlets, each of which took nothing yet. Gives the world at its end, what
/// happened, where that is to be kept, and why the run ended. A run that comes to no end hands back what is left of it. `watch` looks at the
/// run meanwhile (`&mut NoWatch` where nobody does).
pub fn run_network<O: Outlet + Send, W: RunWatch + TurnWatch + Sync, R: Threads + Wait + Sync>(
    rt: &R,
    alloc: Global,
    settings: Settings,
    net: &Arc<Net>,
    inputs: Inputs,
    outputs: Vec<Output<O>>,
    script: Vec<ScriptedEvent>,
    watch: &mut W,
) -> Result<RunEnded<O>, Unfinished<O>>
    requires fitting { Fits (network_of net.now.value.program) inputs }
    requires listed { map (λ output. output.channel) outputs.items
        ≡ output_channels 0 (network_of net.now.value.program).channels }
    requires unused { AllByRecursion (IsUnused O.taken) outputs.items }
    requires unfailed { AllByRecursion (HasNoFailures O.failures) outputs.items }
    // What has left are prefixes of the outputs' histories in one approximation, and where nothing is left to do whole, in the least
    // solution.
    ensures run { IfOk result (λ now. IsRun (network_of net.now.value.program) inputs
        (released_streams (network_of net.now.value.program) (world_of now.world).stations)
        (are_quiet (world_of now.world))) }
    // How the world came to its end.
    ensures end { IfOk result (λ now. IsEnd settings (network_of net.now.value.program) inputs
        script.items (happenings now.history.lines.items) (world_of now.world)) }
    // Why it did: where nothing is left to do, the rounds are over, or each output has its items, the world is so.
    ensures over { IfOk result (λ now. IsOver (network_of net.now.value.program).channels
        (bounds_of settings) (world_of now.world) now.end) }
    // Where the history is kept, it begins with the events of the script's lines of round 0.
    ensures begun { settings.history ≡ true → IfOk result
        (λ now. HasBegun script.items (happenings now.history.lines.items) now.end) }
    ensures same { IfOk result (λ now. ∥ ((world_of now.world).net ≡ network_of net.now.value.program)
        × ((world_of now.world).inputs ≡ inputs) ∥₁) }
    // It ends by a stop only where who watches it may stop it.
    ensures stopped { IfOk result (λ now. now.end ≡ Stopped → W.may_stop ≡ true) }
    // A device failed (20), memory is missing (1), or a count would pass 2^63 - 1 (44).
    ensures err { IfErr result (λ unfinished. IsRunFault true unfinished.fault) }
    // And then all is handed back: the outlets as they were, or the world to which it came, with what happened.
    ensures left { IfErr result (λ unfinished. IsLeft settings (network_of net.now.value.program) inputs script.items
        outputs.items unfinished.left) }
{
    let nodes = node_count(net);
    let world = open_world(alloc, net, inputs, outputs, nodes, settings.room)?;
    run_from(rt, alloc, settings, world, script, watch)
}
