//! A network at work on a host.

ghost use Rattle.std.specs.Prelude.{◌≡◌, [], ℕ, IfErr, IsTrue, OnOk, option_map, slice_get, true};
ghost use Rattle.host.specs.Sources.{said_bytes};
ghost use Rattle.host_ports.specs.Ports.{IsAskedOn, PortsStand, ended_well, has_source};
ghost use Rattle.live.specs.LiveViews.{closed_on, none_taken, world_on};
ghost use Rattle.world.specs.Feeding.{is_input, none_closed};
ghost use Rattle.stream_host.specs.Streams.{HasSaid, HasSaidAll, IsFresh, IsStreamStop};

use host::Host;
use host_ports::{Form, Port, PortFault, Ports};
use live::Live;
use net_text::Name;
use outlet::Outlet;
use slot_cell::SlotCell;
use std::alloc::Global;
use stream_run::{Stopped, stream};

/// Runs a network at its beginning, until each input has come to its end and nothing is left to do. The items of an input come from its source, if
/// it has one, behind those that it has; and each item that leaves is said: as a line, with the name of its output where names are given, or as bytes.
/// The host comes back.
pub fn run_streams<C: SlotCell, O: Outlet, H: Host>(
    alloc: Global,
    live: &mut Live<C, O>,
    host: H,
    ports: Vec<Option<Port<H::Source>>>,
    form: Form,
    names: Option<&[Name]>,
) -> (Result<(), Stopped<PortFault>>, H)
    requires untouched { (live.old.taken ≡ none_taken) × (closed_on live.old ≡ none_closed) }
    requires fresh { IsFresh (H.asked host) }
    requires silent { said_bytes (H.asked host) ≡ [] }
    requires stand { PortsStand form H.source_number (H.asked host) ports.items }
    // Nothing is asked but what comes next of a source, and to write on standard output.
    ensures asked { ∥ IsAskedOn (H.asked host) (H.asked result.1) ∥₁ }
    // Wherever it ends, what was said is right on what came so far.
    ensures right { HasSaid form (option_map (λ names. names.now) names.entry) (world_on live.old) (world_on live.new) (H.asked result.1) }
    // Where it ends well, all that came was taken in, and what was said is all that can leave.
    ensures all { OnOk result.0 (HasSaidAll form (option_map (λ names. names.now) names.entry) (world_on live.old) (world_on live.new) (H.asked result.1)) }
    // Then the source of each input has come to its end, and no item of it was bad.
    ensures ended { OnOk result.0 ((input : ℕ) → IsTrue (is_input (world_on live.old).net input)
        → has_source (slice_get ports.items input) ≡ true → ended_well form input (H.asked result.1) ≡ true) }
    // It ends early for want of memory, because more came by an input than a count goes, or for what stands in the log.
    ensures failed { IfErr result.0 (IsStreamStop form (world_on live.old) (H.asked result.1)) }
{
    let mut ports = Ports::new(alloc, host, ports, form, names);
    let ended = stream(alloc, live, &mut ports);
    (ended, ports.into_host())
}
