//! The streams of a network on its host.

ghost use Rattle.std.specs.Prelude.{◌≡◌, ◌++◌, [], Option, Some, option_map, slice_get};
ghost use Rattle.host.specs.Sources.{said_bytes};
ghost use Rattle.sector_disk.specs.Past.{states_of};
ghost use Rattle.host_ports.specs.Ports.{HaveTheSame, IsAskedOn, IsPortFault, PortsStand, ended_well, is_at_end, items_from};
ghost use Rattle.host_ports.specs.declared.fault.PortFault.TheVariants.{NoMemory};
ghost use Rattle.host_ports.specs.Speaking.{departures_text};

use crate::fault::PortFault;
use crate::form::Form;
use crate::port::{Port, goes_on, read_answer};
use crate::speaking::speak;
use host::Host;
use net_text::Name;
use outside::{Departure, Outside};
use sector_disk::Past;
use std::alloc::Global;
use std::snapshot::Snapshot;

/// What stays as it is while streams go on.
#[derive(Drop)]
pub struct Fixed<'a, H, S: Drop> {
    /// How items are spelled.
    pub form: Form,
    /// The names of the channels, where a line says by which output an item left.
    pub names: Option<&'a [Name]>,
    /// The host when they began. At run time there is nothing of it.
    pub begun: Snapshot<H>,
    /// The sources when they began. At run time there is nothing of them.
    pub given: Snapshot<Vec<Option<Port<S>>>>,
}

/// The sources of a network's inputs, and the standard output of the host, on which each item is printed that leaves.
pub struct Ports<'a, H: Host> {
    host: H,
    // By the number of the input; none where it has no source.
    ports: Vec<Option<Port<H::Source>>>,
    fixed: Fixed<'a, H, H::Source>,
    // What was put out, and wasn't said yet.
    text: Vec<u8>,
    // Room for one more line.
    line: String,
    // What came of a source last.
    piece: Vec<u8>,
    put: Past<Departure>,
    pub ghost spoken: { departures_text fixed.form (option_map (λ names. names.now) fixed.names) (states_of put)
        ≡ said_bytes (H.asked host) ++ text.items },
    // What was asked since is of sources and of standard output alone.
    pub ghost asked_on: { ∥ IsAskedOn (H.asked fixed.begun.value) (H.asked host) ∥₁ },
    // No source is let go of.
    pub ghost given: { HaveTheSame fixed.given.value.items ports.items },
    pub ghost stand: { PortsStand fixed.form H.source_number (H.asked host) ports.items },
}

impl<'a, H: Host> Ports<'a, H> {
    /// These sources, of which nothing was taken yet, and a host that said nothing yet. Items come and leave in this form. Where names are given
    /// each line has that of its output.
    pub fn new(
        alloc: Global,
        host: H,
        ports: Vec<Option<Port<H::Source>>>,
        form: Form,
        names: Option<&'a [Name]>,
    ) -> Ports<'a, H>
        requires silent { said_bytes (H.asked host) ≡ [] }
        requires stand { PortsStand form H.source_number (H.asked host) ports.items }
        ensures host { result.host ≡ host }
        ensures ports { result.ports.items ≡ ports.items }
        ensures none { states_of result.put ≡ [] }
        ensures fixed { (result.fixed.form ≡ form) × (result.fixed.begun.value ≡ host)
            × (option_map (λ names. names.now) result.fixed.names ≡ option_map (λ names. names.now) names.entry)
            × (result.fixed.given.value.items ≡ ports.items) }
    {
        let begun = Snapshot::of(&host);
        let given = Snapshot::of(&ports);
        Ports {
            host,
            ports,
            fixed: Fixed {
                form,
                names,
                begun,
                given,
            },
            text: Vec::new(alloc),
            line: String::new(alloc),
            piece: Vec::new(alloc),
            put: Past::new(),
        }
    }

    /// Its host. Items that wait are never said: after a `flush` that succeeded none waits.
    pub fn into_host(self) -> H
        ensures { result ≡ self.entry.host }
    {
        let Ports {
            host,
            ports,
            fixed,
            text,
            line,
            piece,
            put,
        } = self;
        host
    }
}

impl<'a, H: Host> Outside for Ports<'a, H> {
    type Fault = PortFault;

    type Fixed = Fixed<'a, H, H::Source>;

    ghost fixed = { λ ports. ports.fixed };

    ghost came = { λ ports input. items_from ports.fixed.form input (H.asked ports.host) };

    ghost has_ended = { λ ports input. is_at_end (slice_get ports.ports.items input) (ended_well ports.fixed.form input (H.asked ports.host)) };

    ghost left = { λ ports. states_of ports.put };

    ghost is_shown = { λ ports. departures_text ports.fixed.form (option_map (λ names. names.now) ports.fixed.names) (states_of ports.put)
        ≡ said_bytes (H.asked ports.host) };

    ghost has_failed = { λ ports fault. IsPortFault ports.fixed.form (H.asked ports.host) fault };

    ghost loses = { λ fault. fault ≡ NoMemory };

    fn take(&mut self, alloc: Global, input: u8, items: &mut Vec<i64>) -> Result<bool, PortFault> {
        items.clear();
        let Ports {
            host,
            ports,
            piece,
            ..
        } = self;
        let number = usize::from(input);
        if number >= ports.len() {
            return Ok(false);
        }
        match goes_on(input, &ports[number]) {
            Ok(true) => {}
            Ok(false) => return Ok(false),
            Err(fault) => return Err(fault),
        }
        let Some(port) = ports[number].take() else {
            unreachable!();
        };
        let mut port = port;
        let answer = host.take(&mut port.source, piece);
        let taken = read_answer(input, &mut port, answer, piece, items);
        ports[number] = Some(port);
        taken
    }

    fn put(&mut self, alloc: Global, departure: Departure) -> Result<(), PortFault> {
        let Ports {
            fixed,
            text,
            line,
            put,
            ..
        } = self;
        if speak(text, line, fixed.form, fixed.names, departure).is_err() {
            return Err(PortFault::NoMemory);
        }
        put.note(&departure);
        Ok(())
    }

    fn flush(&mut self) -> Result<(), PortFault> {
        let Ports { host, text, .. } = self;
        if text.is_empty() {
            return Ok(());
        }
        match host.say(text) {
            Ok(()) => {
                text.clear();
                Ok(())
            }
            Err(_) => Err(PortFault::Unsaid),
        }
    }
}
