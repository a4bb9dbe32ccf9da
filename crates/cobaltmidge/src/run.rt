//! A run of a network, to be set and then started.

ghost use Rattle.std.specs.Prelude.{◌≡◌, ◌≢◌, None, Some, true, map, IfErr, IfOk};
ghost use Rattle.std.specs.List.{AllByRecursion};
ghost use Rattle.protocol.specs.Node.Common.{Fits, network_of};
ghost use Rattle.protocol.specs.World.Common.{are_quiet, output_channels};
ghost use Rattle.runtime.specs.Logs.{happenings};
ghost use Rattle.runtime.specs.Beginning.{HasBegun};
ghost use Rattle.runtime.specs.Ending.{IsOver};
ghost use Rattle.runtime.specs.declared.ending.RunEnd.TheVariants.{Stopped};
ghost use Rattle.world.specs.OpeningWorld.{IsUnused};
ghost use Rattle.world.specs.WholeView.{world_of};
ghost use Rattle.cobaltmidge.specs.Failing.{IsRunFault};
ghost use Rattle.cobaltmidge.specs.Names.{script_of};
ghost use Rattle.cobaltmidge.specs.Runs.{IsEnd, IsEndOf, IsRun, bounds_of, released_streams};
ghost use Rattle.cobaltmidge.specs.FirstWorld.{HasNoFailures};
ghost use Rattle.cobaltmidge.specs.Remaining.{IsFar, IsLeft, IsUnresumed};

use crate::fault::RunFault;
use crate::finished::Finished;
use crate::going_on::resume_world;
use crate::network::{Network, outputs_in_memory};
use crate::running::{run_from, run_network};
use crate::settings::Settings;
use crate::unfinished::{Left, Unfinished, Unresumed};
use net_check::Inputs;
use outlet::{ListOutlet, Outlet};
use replay::ScriptedEvent;
use runtime::{NoWatch, RunWatch, TurnWatch};
use std::alloc::Global;
use std::sync::Wait;
use std::thread::Threads;
use world::{Output, node_count};

/// A run of a network on its inputs, to be set and then started: by turns on one thread, for 1,000 rounds at most, with no failure,
/// unless it is told otherwise.
#[derive(Drop)]
pub struct Run<'a> {
    pub network: &'a Network,
    pub inputs: Inputs,
    pub script: Option<Vec<ScriptedEvent>>,
    pub settings: Settings,
    pub ghost fitting: { Fits (network_of network.now.net.value.program) inputs },
}

// The events of a script, if there is one.
pub(crate) fn events_or_none(
    alloc: Global,
    script: Option<Vec<ScriptedEvent>>,
) -> Vec<ScriptedEvent>
    ensures { result.items ≡ script_of script }
{
    match script {
        Some(script) => script,
        None => Vec::new(alloc),
    }
}

impl<'a> Run<'a> {
    /// A run of this network on these inputs, which are its own (`Network::inputs`; `fits` asks of others).
    pub fn new(network: &'a Network, inputs: Inputs) -> Run<'a>
        requires fitting { Fits (network_of network.now.net.value.program) inputs }
        ensures same { (result.network ≡ network.entry) × (result.inputs ≡ inputs) }
        ensures script { result.script ≡ None }
    {
        Run {
            network,
            inputs,
            script: None,
            settings: Settings::new(),
        }
    }

    /// Lets these events happen, each once its round has come (`Network::script`).
    pub fn script(self, script: Vec<ScriptedEvent>) -> Run<'a>
        ensures same { (result.network ≡ self.entry.network) × (result.inputs ≡ self.entry.inputs) }
        ensures settings { result.settings ≡ self.entry.settings }
        ensures script { result.script ≡ Some script }
    {
        Run {
            network: self.network,
            inputs: self.inputs,
            script: Some(script),
            settings: self.settings,
        }
    }

    /// Sets all of how it goes at once.
    pub fn settings(self, settings: Settings) -> Run<'a>
        ensures same { (result.network ≡ self.entry.network) × (result.inputs ≡ self.entry.inputs) }
        ensures settings { result.settings ≡ settings }
        ensures script { result.script ≡ self.entry.script }
    {
        Run {
            network: self.network,
            inputs: self.inputs,
            script: self.script,
            settings,
        }
    }

    /// Lets each channel retain so many items at most at first.
    pub fn room(self, room: u64) -> Run<'a>
        ensures same { (result.network ≡ self.entry.network) × (result.inputs ≡ self.entry.inputs) }
        ensures settings { result.settings ≡ record (self.entry.settings) { room = room } }
        ensures script { result.script ≡ self.entry.script }
    {
        let settings = Settings {
            room,
            ..self.settings
        };
        self.settings(settings)
    }

    /// Ends it after so many rounds, complete or not.
    pub fn rounds(self, rounds: u64) -> Run<'a>
        ensures same { (result.network ≡ self.entry.network) × (result.inputs ≡ self.entry.inputs) }
        ensures settings { result.settings ≡ record (self.entry.settings) { rounds = rounds } }
        ensures script { result.script ≡ self.entry.script }
    {
        let settings = Settings {
            rounds,
            ..self.settings
        };
        self.settings(settings)
    }

    /// Ends it where so many items of each output have left.
    pub fn items(self, items: u64) -> Run<'a>
        ensures same { (result.network ≡ self.entry.network) × (result.inputs ≡ self.entry.inputs) }
        ensures settings { result.settings ≡ record (self.entry.settings) { items = Some items } }
        ensures script { result.script ≡ self.entry.script }
    {
        let settings = Settings {
            items: Some(items),
            ..self.settings
        };
        self.settings(settings)
    }

    /// Gives each node a thread of its own, or lets one thread take the turns of all.
    pub fn threads(self, threads: bool) -> Run<'a>
        ensures same { (result.network ≡ self.entry.network) × (result.inputs ≡ self.entry.inputs) }
        ensures settings { result.settings ≡ record (self.entry.settings) { threads = threads } }
        ensures script { result.script ≡ self.entry.script }
    {
        let settings = Settings {
            threads,
            ..self.settings
        };
        self.settings(settings)
    }

    /// Keeps what happens (`Finished::history`), or lets it go.
    pub fn history(self, history: bool) -> Run<'a>
        ensures same { (result.network ≡ self.entry.network) × (result.inputs ≡ self.entry.inputs) }
        ensures settings { result.settings ≡ record (self.entry.settings) { history = history } }
        ensures script { result.script ≡ self.entry.script }
    {
        let settings = Settings {
            history,
            ..self.settings
        };
        self.settings(settings)
    }

    /// Runs it until nothing is left to do, the rounds are over, or each output has the items that are asked for. Where it comes to no end,
    /// what is left of it comes back with why; `?` makes an `Error` of that.
    pub fn run<R: Threads + Wait + Sync>(
        self,
        rt: &R,
        alloc: Global,
    ) -> Result<Finished<'a, ListOutlet>, Unfinished<ListOutlet>>
        // What has left are prefixes of the outputs' histories in one approximation, and where the run is complete whole, in the
        // least solution.
        ensures run { IfOk result (λ finished. IsRun (network_of self.entry.network.now.net.value.program)
            self.entry.inputs (released_streams (network_of self.entry.network.now.net.value.program)
            (world_of finished.world).stations) (are_quiet (world_of finished.world))) }
        // How the world came to its end.
        ensures end { IfOk result (λ finished. IsEnd self.entry.settings
            (network_of self.entry.network.now.net.value.program) self.entry.inputs (script_of self.entry.script)
            (happenings finished.history.lines.items) (world_of finished.world)) }
        // Why it did: where nothing is left to do, the rounds are over, or each output has its items, the world is so.
        ensures over { IfOk result (λ finished. IsOver (network_of self.entry.network.now.net.value.program).channels
            (bounds_of self.entry.settings) (world_of finished.world) finished.end) }
        // Where the history is kept, it begins with the events of the script's lines of round 0.
        ensures begun { self.entry.settings.history ≡ true → IfOk result
            (λ finished. HasBegun (script_of self.entry.script) (happenings finished.history.lines.items) finished.end) }
        // Nobody stops it.
        ensures unstopped { IfOk result (λ finished. finished.end ≢ Stopped) }
        ensures network { IfOk result (λ finished. finished.network ≡ self.entry.network) }
        ensures settings { IfOk result (λ finished. finished.settings ≡ self.entry.settings) }
        // A device failed (20), memory is missing (1), or what is counted would pass 2^63 - 1 (44).
        ensures err { IfErr result (λ unfinished. IsRunFault true unfinished.fault) }
        // And then, where it began, the world to which it came, with what happened.
        ensures left { IfErr result (λ unfinished. IsFar self.entry.settings
            (network_of self.entry.network.now.net.value.program) self.entry.inputs (script_of self.entry.script)
            unfinished.left) }
    {
        let Ok(outputs) = outputs_in_memory(alloc, &self.network.net) else {
            return Err(Unfinished {
                fault: RunFault::NoMemory,
                left: Left::Outputs(Vec::new(alloc)),
            });
        };
        self.run_into(rt, alloc, outputs)
    }

    /// Runs it so, and lets the items leave by these outlets, each of which took nothing yet (`outputs_of` has one made for each
    /// output).
    pub fn run_into<O: Outlet + Send, R: Threads + Wait + Sync>(
        self,
        rt: &R,
        alloc: Global,
        outputs: Vec<Output<O>>,
    ) -> Result<Finished<'a, O>, Unfinished<O>>
        requires listed { map (λ output. output.channel) outputs.items
            ≡ output_channels 0 (network_of self.network.now.net.value.program).channels }
        requires unused { AllByRecursion (IsUnused O.taken) outputs.items }
        requires unfailed { AllByRecursion (HasNoFailures O.failures) outputs.items }
        ensures run { IfOk result (λ finished. IsRun (network_of self.entry.network.now.net.value.program)
            self.entry.inputs (released_streams (network_of self.entry.network.now.net.value.program)
            (world_of finished.world).stations) (are_quiet (world_of finished.world))) }
        ensures end { IfOk result (λ finished. IsEnd self.entry.settings
            (network_of self.entry.network.now.net.value.program) self.entry.inputs (script_of self.entry.script)
            (happenings finished.history.lines.items) (world_of finished.world)) }
        ensures over { IfOk result (λ finished. IsOver (network_of self.entry.network.now.net.value.program).channels
            (bounds_of self.entry.settings) (world_of finished.world) finished.end) }
        ensures same { IfOk result (λ finished.
            ∥ ((world_of finished.world).net ≡ network_of self.entry.network.now.net.value.program)
            × ((world_of finished.world).inputs ≡ self.entry.inputs) ∥₁) }
        // Where the history is kept, it begins with the events of the script's lines of round 0.
        ensures begun { self.entry.settings.history ≡ true → IfOk result
            (λ finished. HasBegun (script_of self.entry.script) (happenings finished.history.lines.items) finished.end) }
        // Nobody stops it.
        ensures unstopped { IfOk result (λ finished. finished.end ≢ Stopped) }
        ensures network { IfOk result (λ finished. finished.network ≡ self.entry.network) }
        ensures settings { IfOk result (λ finished. finished.settings ≡ self.entry.settings) }
        ensures err { IfErr result (λ unfinished. IsRunFault true unfinished.fault) }
        // And then what is left of it: its outlets as they were, or the world to which it came, with what happened.
        ensures left { IfErr result (λ unfinished. IsLeft self.entry.settings
            (network_of self.entry.network.now.net.value.program) self.entry.inputs (script_of self.entry.script)
            outputs.items unfinished.left) }
    {
        self.run_watched(rt, alloc, outputs, &mut NoWatch)
    }

    /// The same, while somebody watches it: where it runs with threads, on one more of its own, from which it may be stopped; and else before each
    /// turn of node 0, on the thread that takes the turns.
    pub fn run_watched<O: Outlet + Send, W: RunWatch + TurnWatch + Sync, R: Threads + Wait + Sync>(
        self,
        rt: &R,
        alloc: Global,
        outputs: Vec<Output<O>>,
        watch: &mut W,
    ) -> Result<Finished<'a, O>, Unfinished<O>>
        requires listed { map (λ output. output.channel) outputs.items
            ≡ output_channels 0 (network_of self.network.now.net.value.program).channels }
        requires unused { AllByRecursion (IsUnused O.taken) outputs.items }
        requires unfailed { AllByRecursion (HasNoFailures O.failures) outputs.items }
        ensures run { IfOk result (λ finished. IsRun (network_of self.entry.network.now.net.value.program)
            self.entry.inputs (released_streams (network_of self.entry.network.now.net.value.program)
            (world_of finished.world).stations) (are_quiet (world_of finished.world))) }
        ensures end { IfOk result (λ finished. IsEnd self.entry.settings
            (network_of self.entry.network.now.net.value.program) self.entry.inputs (script_of self.entry.script)
            (happenings finished.history.lines.items) (world_of finished.world)) }
        ensures over { IfOk result (λ finished. IsOver (network_of self.entry.network.now.net.value.program).channels
            (bounds_of self.entry.settings) (world_of finished.world) finished.end) }
        ensures same { IfOk result (λ finished.
            ∥ ((world_of finished.world).net ≡ network_of self.entry.network.now.net.value.program)
            × ((world_of finished.world).inputs ≡ self.entry.inputs) ∥₁) }
        // Where the history is kept, it begins with the events of the script's lines of round 0.
        ensures begun { self.entry.settings.history ≡ true → IfOk result
            (λ finished. HasBegun (script_of self.entry.script) (happenings finished.history.lines.items) finished.end) }
        // It ends by a stop only where who watches it may stop it.
        ensures stopped { IfOk result (λ finished. finished.end ≡ Stopped → W.may_stop ≡ true) }
        ensures network { IfOk result (λ finished. finished.network ≡ self.entry.network) }
        ensures settings { IfOk result (λ finished. finished.settings ≡ self.entry.settings) }
        ensures err { IfErr result (λ unfinished. IsRunFault true unfinished.fault) }
        // And then what is left of it: its outlets as they were, or the world to which it came, with what happened.
        ensures left { IfErr result (λ unfinished. IsLeft self.entry.settings
            (network_of self.entry.network.now.net.value.program) self.entry.inputs (script_of self.entry.script)
            outputs.items unfinished.left) }
    {
        let Run {
            network,
            inputs,
            script,
            settings,
        } = self;
        let script = events_or_none(alloc, script);
        match run_network(
            rt,
            alloc,
            settings,
            &network.net,
            inputs,
            outputs,
            script,
            watch,
        ) {
            Ok(ended) => Ok(Finished {
                network,
                world: ended.world,
                history: ended.history,
                end: ended.end,
                settings,
            }),
            Err(unfinished) => Err(unfinished),
        }
    }

    /// Lets it go on behind what its outlets hold: each so many items as `held` says, in order of the outputs. An outlet has taken nothing yet.
    /// It is handed the first items once more, and may compare them with those that it holds.
    ///
    /// The network's processes are run again, alone, up to these numbers. Then the run begins, with nothing in flight, and what leaves is new.
    /// Script, rounds and history are of what comes then. `watch` looks at that (`&mut NoWatch` where nobody does).
    pub fn resume<O: Outlet + Send, W: RunWatch + TurnWatch + Sync, R: Threads + Wait + Sync>(
        self,
        rt: &R,
        alloc: Global,
        outputs: Vec<Output<O>>,
        held: &[u64],
        watch: &mut W,
    ) -> Result<Finished<'a, O>, Unresumed<O>>
        requires listed { map (λ output. output.channel) outputs.items
            ≡ output_channels 0 (network_of self.network.now.net.value.program).channels }
        requires unused { AllByRecursion (IsUnused O.taken) outputs.items }
        requires unfailed { AllByRecursion (HasNoFailures O.failures) outputs.items }
        ensures run { IfOk result (λ finished. IsRun (network_of self.entry.network.now.net.value.program)
            self.entry.inputs (released_streams (network_of self.entry.network.now.net.value.program)
            (world_of finished.world).stations) (are_quiet (world_of finished.world))) }
        // It began behind what its outlets held, and came to its end from there.
        ensures end { IfOk result (λ finished. IsEndOf (Some held.now) self.entry.settings
            (network_of self.entry.network.now.net.value.program) self.entry.inputs (script_of self.entry.script)
            (happenings finished.history.lines.items) (world_of finished.world)) }
        ensures over { IfOk result (λ finished. IsOver (network_of self.entry.network.now.net.value.program).channels
            (bounds_of self.entry.settings) (world_of finished.world) finished.end) }
        ensures same { IfOk result (λ finished.
            ∥ ((world_of finished.world).net ≡ network_of self.entry.network.now.net.value.program)
            × ((world_of finished.world).inputs ≡ self.entry.inputs) ∥₁) }
        // Where the history is kept, it begins with the events of the script's lines of round 0.
        ensures begun { self.entry.settings.history ≡ true → IfOk result
            (λ finished. HasBegun (script_of self.entry.script) (happenings finished.history.lines.items) finished.end) }
        // It ends by a stop only where who watches it may stop it.
        ensures stopped { IfOk result (λ finished. finished.end ≡ Stopped → W.may_stop ≡ true) }
        ensures network { IfOk result (λ finished. finished.network ≡ self.entry.network) }
        ensures settings { IfOk result (λ finished. finished.settings ≡ self.entry.settings) }
        // Else it didn't begin, or it comes to no end. What is left of it comes back.
        ensures err { IfErr result (IsUnresumed self.entry.settings (network_of self.entry.network.now.net.value.program)
            self.entry.inputs (script_of self.entry.script) held.now outputs.items) }
    {
        let Run {
            network,
            inputs,
            script,
            settings,
        } = self;
        let nodes = node_count(&network.net);
        let begun = resume_world(
            alloc,
            &network.net,
            inputs,
            outputs,
            held,
            nodes,
            settings.room,
        );
        let world = match begun {
            Ok(world) => world,
            Err(refused) => return Err(Unresumed::NotBegun(refused)),
        };
        let script = events_or_none(alloc, script);
        match run_from(rt, alloc, settings, world, script, watch) {
            Ok(ended) => Ok(Finished {
                network,
                world: ended.world,
                history: ended.history,
                end: ended.end,
                settings,
            }),
            Err(unfinished) => Err(Unresumed::Unfinished(unfinished)),
        }
    }
}
