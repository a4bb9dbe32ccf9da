//! The whole streaming program over its host.

ghost use Rattle.std.specs.Prelude.{◌≡◌, ◌≤◌, ◌++◌, ◌==◌, ◌||◌, ◌&&◌, [], ℕ, IfErr, IfOk, None, Ok, OnErr, OnOk, length, option_map, replicate, string_bytes};
ghost use Rattle.host.specs.Requests.{Has, Read};
ghost use Rattle.host.specs.Sources.{said_bytes};
ghost use Rattle.host_ports.specs.Ports.{PortIsFor, PortsStand};
ghost use Rattle.protocol.specs.Node.Common.{Fits, network_of};
ghost use Rattle.kahn_net.specs.declared.limits.TheConstants.{MAX_CHANNELS};
ghost use Rattle.live.specs.LiveViews.{closed_on, none_taken, world_on};
ghost use Rattle.world.specs.Feeding.{is_input, none_closed};
ghost use Rattle.cobaltmidge.specs.Names.{IsInputNamed};
ghost use Rattle.stream_program.specs.Causes.{AreInputsOfSources, HasCause, HasStopped, IsInputsUnread, IsMisasked, IsSourceFault, IsTextUnread, IsPathUnopened, IsToldAs, IsUngiven, IsUnmade, IsUnopened, failure_of, is_standard, opening_failure, output_count};
ghost use Rattle.stream_program.specs.Failures.{failure_line, status_of};
ghost use Rattle.stream_program.specs.Streamed.{AreInputsRead, AreOpened, AreOpenedAt, HasEnded, IsAllAskedFor, IsAllRunFor, IsInputsText, IsNetRead, IsOpenedAt, IsOpeningAt, IsOpeningOf, IsPreparing, IsReadOf, IsRunFor, IsStreamed, IsTelling, IsUntold, form_of, line_if_input, no_items, spoken_names};
ghost use Rattle.stream_host.specs.Streams.{IsFresh, IsUntaken};
ghost use Rattle.stream_program.specs.declared.failure.StreamFailure.TheVariants.{Missing, Refused, Text};

use crate::failure::StreamFailure;
use cobaltmidge::{Error, MemDisk, Network, RunWorld, SplitCell};
use host::{Host, HostFault};
use host_ports::{Form, Port, PortFault, Reader};
use kahn_net::{Channel, MAX_CHANNELS, Port as End};
use kahn_program::{Failure, Options, Source, explanation, read_inputs, read_net};
use live::Live;
use net_check::{Inputs, Net};
use net_text::Name;
use outlet::ListOutlet;
use std::alloc::{AllocError, Global};
use std::sync::Arc;
use stream_host::run_streams;
use stream_run::Stopped;
use stream_words::{InputSource, StreamOptions};

// There is no memory.
const NO_MEMORY: StreamFailure = StreamFailure::Text(Failure::NoMemory);

/// Why the streams end early, and what there is to say of it besides.
#[derive(Drop)]
struct Stop {
    failure: StreamFailure,
    words: Option<String>,
}

impl Stop {
    // There is nothing to say besides.
    fn silent(failure: StreamFailure) -> Stop
        ensures { result.failure ≡ failure }
    {
        Stop {
            failure,
            words: None,
        }
    }
}

// What there is to say of a text that is refused.
fn words_of(
    alloc: Global,
    options: &StreamOptions,
    net: &[u8],
    inputs: Option<&[u8]>,
) -> Result<Option<String>, AllocError> {
    let inputs_name = match &options.inputs {
        Some(name) => name.clone()?,
        None => String::new(alloc),
    };
    let asked = Options::new(options.net.clone()?, inputs_name);
    explanation(alloc, &asked, Some(net), inputs, None)
}

// A text that is refused, and what there is to say of it where that is asked for.
fn refused_text(
    alloc: Global,
    options: &StreamOptions,
    failure: Failure,
    net: &[u8],
    inputs: Option<&[u8]>,
) -> Stop
    ensures { result.failure ≡ Text failure }
{
    let words = if options.explain {
        words_of(alloc, options, net, inputs).unwrap_or(None)
    } else {
        None
    };
    Stop {
        failure: StreamFailure::Text(failure),
        words,
    }
}

// The bytes of a text.
fn read_text<H: Host>(host: &mut H, source: Source, path: &String) -> Result<Vec<u8>, StreamFailure>
    ensures prepares { IsPreparing (IsReadOf (string_bytes path.now)) (H.asked host.old) (H.asked host.new) }
    ensures read { IfOk result (λ bytes. Has (Read (string_bytes path.now) (Ok bytes.items)) (H.asked host.new)) }
    ensures unread { IfErr result (IsTextUnread source (string_bytes path.now) (H.asked host.new)) }
{
    match host.read(path) {
        Ok(bytes) => Ok(bytes),
        Err(HostFault::NoMemory) => Err(NO_MEMORY),
        Err(_) => Err(StreamFailure::Text(Failure::Unreadable(source))),
    }
}

/// A network, and its text.
#[derive(Drop)]
struct NetworkRead {
    network: Network,
    text: Vec<u8>,
}

// The network of a text.
fn read_network<H: Host>(
    alloc: Global,
    host: &mut H,
    options: &StreamOptions,
) -> Result<NetworkRead, Stop>
    ensures prepares { IsPreparing (IsRunFor options.now) (H.asked host.old) (H.asked host.new) }
    ensures net { IfOk result (λ read. IsNetRead (string_bytes options.now.net) read.network.net.value (H.asked host.new)) }
    ensures cause { IfErr result (λ stop. HasCause options.now (H.asked host.new) [] stop.failure) }
{
    let text = match read_text(host, Source::Net, &options.net) {
        Ok(text) => text,
        Err(failure) => return Err(Stop::silent(failure)),
    };
    let net = match read_net(alloc, text.as_slice()) {
        Ok(net) => net,
        Err(failure) => return Err(refused_text(alloc, options, failure, text.as_slice(), None)),
    };
    match Arc::new(alloc, net) {
        Ok(net) => Ok(NetworkRead {
            network: Network { net },
            text,
        }),
        Err(_) => Err(Stop::silent(NO_MEMORY)),
    }
}

// Whether a channel is an input.
fn is_input(net: &Net, number: usize) -> bool
    ensures { result ≡ is_input (network_of net.now.program) number }
{
    match net.program.channels.get(number) {
        Some(channel) => match channel.producer {
            End::Outside => true,
            End::Process(_) => false,
        },
        None => false,
    }
}

// Whether a network has exactly one output.
fn has_one_output(channels: &[Channel]) -> bool
    ensures { result ≡ (output_count channels.now == 1) }
{
    let mut one = false;
    for (_number, channel) in channels.iter().enumerate() {
        if let End::Outside = channel.consumer {
            if one {
                return false;
            }
            one = true;
        }
    }
    one
}

// Adds a line without items, where the channel is an input.
fn add_line(text: &mut String, channel: &Channel, name: &Name) -> Result<(), AllocError>
    ensures { OnOk result (string_bytes text.new ≡ string_bytes text.old ++ line_if_input channel.now.producer name.now []) }
{
    if let End::Outside = channel.producer {
        text.push_str(name.as_str())?;
        text.push_str(":\n")?;
    }
    Ok(())
}

// A text of the inputs that has a line for each, without an item.
fn no_items(alloc: Global, channels: &[Channel], names: &[Name]) -> Result<Vec<u8>, AllocError>
    requires { length names.now ≡ length channels.now }
    ensures { IfOk result (λ text. text.items ≡ no_items channels.now names.now) }
{
    let mut text = String::new(alloc);
    for (number, channel) in channels.iter().enumerate() {
        add_line(&mut text, channel, &names[number])?;
    }
    Ok(text.into_bytes())
}

// The text of the inputs: that of its file, and else one without items.
fn inputs_text<H: Host>(
    alloc: Global,
    host: &mut H,
    options: &StreamOptions,
    net: &Net,
) -> Result<Vec<u8>, StreamFailure>
    ensures prepares { IsPreparing (IsRunFor options.now) (H.asked host.old) (H.asked host.new) }
    ensures text { IfOk result (λ text. IsInputsText (option_map string_bytes options.now.inputs) net.now text.items (H.asked host.new)) }
    ensures unread { IfErr result (IsInputsUnread options.now (H.asked host.new)) }
{
    match &options.inputs {
        Some(path) => read_text(host, Source::Inputs, path),
        None => match no_items(alloc, &net.program.channels, &net.channel_names) {
            Ok(text) => Ok(text),
            Err(_) => Err(NO_MEMORY),
        },
    }
}

// The items with which the inputs begin: those of their text.
fn first_inputs<H: Host>(
    alloc: Global,
    host: &mut H,
    options: &StreamOptions,
    read: &NetworkRead,
) -> Result<Inputs, Stop>
    requires net_read { IsNetRead (string_bytes options.now.net) read.now.network.net.value (H.asked host.old) }
    ensures prepares { IsPreparing (IsRunFor options.now) (H.asked host.old) (H.asked host.new) }
    ensures first { IfOk result (λ inputs. AreInputsRead (option_map string_bytes options.now.inputs) read.now.network.net.value inputs (H.asked host.new)) }
    ensures fitting { IfOk result (Fits (network_of read.now.network.net.value.program)) }
    ensures cause { IfErr result (λ stop. HasCause options.now (H.asked host.new) read.now.network.net.value.channel_names.items stop.failure) }
{
    let text = match inputs_text(alloc, host, options, &read.network.net) {
        Ok(text) => text,
        Err(failure) => return Err(Stop::silent(failure)),
    };
    match read_inputs(alloc, text.as_slice(), &read.network.net) {
        Ok(inputs) => Ok(inputs),
        Err(failure) => Err(refused_text(
            alloc,
            options,
            failure,
            read.text.as_slice(),
            Some(text.as_slice()),
        )),
    }
}

// The input of a source.
fn input_of_source(
    network: &Network,
    place: usize,
    source: &InputSource,
) -> Result<u8, StreamFailure>
    ensures number { IfOk result (IsInputNamed network.now.net.value (string_bytes source.now.input)) }
    ensures unknown { IfErr result (λ failure. (failure ≡ Refused place 11)
        × ((number : ℕ) → IsInputNamed network.now.net.value (string_bytes source.now.input) number → ⊥)) }
{
    match network.input(source.input.as_str()) {
        Some(number) => Ok(number),
        None => Err(StreamFailure::Refused { place, number: 11 }),
    }
}

// Whether a source is standard input.
fn is_standard(source: &InputSource) -> bool
    ensures { result ≡ is_standard (string_bytes source.now.path) }
{
    source.path.as_str() == "-"
}

// Whether one of the two is so.
fn either(one: bool, other: bool) -> bool
    ensures { result ≡ (one || other) }
{
    one || other
}

// Whether both are.
fn both(one: bool, other: bool) -> bool
    ensures { result ≡ (one && other) }
{
    one && other
}

// The inputs of the sources, in order. Two of one input, or two that are standard input, are refused.
fn inputs_of_sources(
    alloc: Global,
    network: &Network,
    sources: &[InputSource],
) -> Result<Vec<u8>, StreamFailure>
    ensures each { IfOk result (λ numbers. AreInputsOfSources network.now.net.value sources.now numbers.items) }
    ensures fault { IfErr result (IsSourceFault network.now.net.value sources.now) }
{
    let mut numbers: Vec<u8> = Vec::new(alloc);
    let mut standard = false;
    for (place, source) in sources.iter().enumerate() {
        let number = match input_of_source(network, place, source) {
            Ok(number) => number,
            Err(failure) => return Err(failure),
        };
        let here = is_standard(source);
        if either(numbers.contains(&number), both(standard, here)) {
            return Err(StreamFailure::Refused { place, number: 10 });
        }
        standard = either(standard, here);
        if numbers.push(number).is_err() {
            return Err(NO_MEMORY);
        }
    }
    Ok(numbers)
}

// Refuses an input without a source, where no text gives its items.
fn check_given(options: &StreamOptions, net: &Net, numbers: &[u8]) -> Result<(), StreamFailure>
    ensures missing { IfErr result (λ failure. (input : ℕ) × (failure ≡ Missing input) × IsUngiven options.now net.now numbers.now input) }
{
    if options.inputs.is_some() {
        return Ok(());
    }
    for number in 0..MAX_CHANNELS {
        if is_input(net, number) && !numbers.contains(&(number as u8)) {
            return Err(StreamFailure::Missing {
                input: number as u8,
            });
        }
    }
    Ok(())
}

// So many channels without a source.
fn no_ports<S: Drop>(alloc: Global) -> Result<Vec<Option<Port<S>>>, AllocError>
    ensures { IfOk result (λ ports. ports.items ≡ replicate MAX_CHANNELS None) }
{
    let mut ports = Vec::with_capacity(alloc, MAX_CHANNELS)?;
    for _ in 0..MAX_CHANNELS {
        ports.push(None)?;
    }
    Ok(ports)
}

// A source at its beginning.
fn open_port<H: Host>(
    host: &mut H,
    input: u8,
    path: &String,
    form: Form,
) -> Result<Port<H::Source>, StreamFailure>
    requires untaken { IsUntaken (H.asked host.old) input }
    ensures prepares { IsPreparing (IsOpeningAt (string_bytes path.now)) (H.asked host.old) (H.asked host.new) }
    ensures port { IfOk result (PortIsFor form H.source_number (H.asked host.new) input) }
    ensures opened { OnOk result (IsOpenedAt input (string_bytes path.now) (H.asked host.new)) }
    ensures unread { IfErr result (IsPathUnopened input (string_bytes path.now) (H.asked host.new)) }
{
    match host.open_source(input, path) {
        Ok(source) => Ok(Port {
            source,
            reader: Reader::new(form),
            has_ended: false,
            is_lost: false,
        }),
        Err(HostFault::NoMemory) => Err(NO_MEMORY),
        Err(_) => Err(StreamFailure::Port(PortFault::Unread { input })),
    }
}

// The sources of the inputs, by their numbers.
fn open_ports<H: Host>(
    alloc: Global,
    host: &mut H,
    sources: &[InputSource],
    numbers: &[u8],
    form: Form,
) -> Result<Vec<Option<Port<H::Source>>>, StreamFailure>
    requires fresh { IsFresh (H.asked host.old) }
    requires each { length numbers.now ≡ length sources.now }
    ensures prepares { IsPreparing (IsOpeningOf sources.now) (H.asked host.old) (H.asked host.new) }
    ensures stand { IfOk result (λ ports. PortsStand form H.source_number (H.asked host.new) ports.items) }
    ensures opened { IfOk result (λ ports. AreOpenedAt sources.now numbers.now ports.items (H.asked host.new)) }
    ensures unread { IfErr result (IsUnopened sources.now numbers.now (H.asked host.new)) }
{
    let Ok(mut ports) = no_ports(alloc) else {
        return Err(NO_MEMORY);
    };
    for (place, number) in numbers.iter().enumerate() {
        match open_port(host, *number, &sources[place].path, form) {
            Ok(port) => ports[usize::from(*number)] = Some(port),
            Err(failure) => return Err(failure),
        }
    }
    Ok(ports)
}

// What it comes to that a network can't be opened.
fn opening_failure(error: Error) -> Failure
    ensures { result ≡ opening_failure error }
{
    match error {
        Error::NoMemory => Failure::NoMemory,
        _ => Failure::Other {
            number: error.number(),
        },
    }
}

// The network at work before its first step, with the room that is asked for.
fn open_live(
    alloc: Global,
    network: &Network,
    inputs: Inputs,
    room: u64,
) -> Result<Live<SplitCell<MemDisk>, ListOutlet>, StreamFailure>
    requires fitting { Fits (network_of network.now.net.value.program) inputs }
    ensures world { IfOk result (λ live. ((world_on live).net ≡ network_of network.now.net.value.program)
        × ((world_on live).inputs ≡ inputs)) }
    ensures fresh { IfOk result (λ live. (live.taken ≡ none_taken) × (closed_on live ≡ none_closed)) }
    ensures fault { IfErr result IsUnmade }
{
    let mut world: RunWorld<ListOutlet> = match network.open(alloc, inputs) {
        Ok(world) => world,
        Err(error) => return Err(StreamFailure::Text(opening_failure(error))),
    };
    // The command line has no number that is out of range.
    let _ = world.set_room(room as usize);
    Ok(Live::new(world))
}

// What a stopped run comes to.
fn failure_of(stopped: Stopped<PortFault>) -> StreamFailure
    ensures { result ≡ failure_of stopped }
{
    match stopped {
        Stopped::NoMemory => NO_MEMORY,
        Stopped::Full => StreamFailure::Full,
        Stopped::Outside(fault) => StreamFailure::Port(fault),
    }
}

// The inputs of the sources, where the command line fits the network.
fn inputs_to_feed(
    alloc: Global,
    options: &StreamOptions,
    network: &Network,
) -> Result<Vec<u8>, StreamFailure>
    ensures each { IfOk result (λ numbers. AreInputsOfSources network.now.net.value options.now.sources.items numbers.items) }
    ensures misasked { IfErr result (IsMisasked options.now network.now.net.value) }
{
    if options.bare && !has_one_output(&network.net.program.channels) {
        return Err(StreamFailure::NotOne);
    }
    let numbers = match inputs_of_sources(alloc, network, &options.sources) {
        Ok(numbers) => numbers,
        Err(failure) => return Err(failure),
    };
    match check_given(options, &network.net, &numbers) {
        Ok(()) => Ok(numbers),
        Err(failure) => Err(failure),
    }
}

/// A network that is about to run, and the sources of its inputs.
struct Begun<S: Drop> {
    live: Live<SplitCell<MemDisk>, ListOutlet>,
    ports: Vec<Option<Port<S>>>,
}

// Opens a network and the sources of its inputs, once the texts are read and accepted.
fn begin<H: Host>(
    alloc: Global,
    host: &mut H,
    options: &StreamOptions,
    read: &NetworkRead,
) -> Result<Begun<H::Source>, Stop>
    requires fresh { IsFresh (H.asked host.old) }
    requires net_read { IsNetRead (string_bytes options.now.net) read.now.network.net.value (H.asked host.old) }
    ensures prepares { IsPreparing (IsRunFor options.now) (H.asked host.old) (H.asked host.new) }
    ensures net { IfOk result (λ begun. (world_on begun.live).net ≡ network_of read.now.network.net.value.program) }
    ensures first { IfOk result (λ begun. AreInputsRead (option_map string_bytes options.now.inputs) read.now.network.net.value
        (world_on begun.live).inputs (H.asked host.new)) }
    ensures untouched { IfOk result (λ begun. (begun.live.taken ≡ none_taken) × (closed_on begun.live ≡ none_closed)) }
    ensures stand { IfOk result (λ begun. PortsStand (form_of options.now.binary) H.source_number (H.asked host.new) begun.ports.items) }
    ensures opened { IfOk result (λ begun. AreOpened read.now.network.net.value options.now.sources.items begun.ports.items (H.asked host.new)) }
    ensures cause { IfErr result (λ stop. HasCause options.now (H.asked host.new) read.now.network.net.value.channel_names.items stop.failure) }
{
    let network = &read.network;
    let numbers = match inputs_to_feed(alloc, options, network) {
        Ok(numbers) => numbers,
        Err(failure) => return Err(Stop::silent(failure)),
    };
    let inputs = match first_inputs(alloc, host, options, read) {
        Ok(inputs) => inputs,
        Err(stop) => return Err(stop),
    };
    let live = match open_live(alloc, network, inputs, options.room) {
        Ok(live) => live,
        Err(failure) => return Err(Stop::silent(failure)),
    };
    match open_ports(alloc, host, &options.sources, &numbers, form_of(options)) {
        Ok(ports) => Ok(Begun { live, ports }),
        Err(failure) => Err(Stop::silent(failure)),
    }
}

// Tells these words, if there are some. That they can't be told is no failure.
fn tell_words<H: Host>(host: &mut H, words: Option<String>)
    ensures { IsPreparing IsTelling (H.asked host.old) (H.asked host.new) }
{
    if let Some(words) = words {
        let _ = host.tell(&words.into_bytes());
    }
}

// Tells why the streams ended early, and gives the exit status: 1 where it can't be told.
fn tell<H: Host>(
    alloc: Global,
    host: &mut H,
    stop: Stop,
    names: &[Name],
    sources: &[InputSource],
) -> u8
    requires untold { IsUntold (H.asked host.old) }
    ensures prepares { IsPreparing IsTelling (H.asked host.old) (H.asked host.new) }
    ensures status { (1 ≤ result) × (result ≤ 2) }
    ensures told { IsToldAs (failure_line names.now sources.now stop.failure) (status_of stop.failure) (H.asked host.new) result }
{
    let Stop { failure, words } = stop;
    let line = match failure.line(alloc, names, sources) {
        Ok(line) => line.into_bytes(),
        Err(_) => return 1,
    };
    match host.tell(&line) {
        Ok(()) => {}
        Err(_) => return 1,
    }
    tell_words(host, words);
    failure.status()
}

// Tells that all has come and left. That it can't be told is no failure of the run.
fn tell_complete<H: Host>(alloc: Global, host: &mut H) -> u8
    ensures prepares { IsPreparing IsTelling (H.asked host.old) (H.asked host.new) }
    ensures status { result ≡ 0 }
{
    if let Ok(line) = String::from_str(alloc, "complete\n") {
        let _ = host.tell(&line.into_bytes());
    }
    0
}

// Tells how a run ended, and gives the exit status.
fn tell_end<H: Host>(
    alloc: Global,
    host: &mut H,
    options: &StreamOptions,
    network: &Network,
    ended: Result<(), Stopped<PortFault>>,
) -> u8
    requires untold { IsUntold (H.asked host.old) }
    ensures prepares { IsPreparing IsTelling (H.asked host.old) (H.asked host.new) }
    ensures status { result ≤ 2 }
    ensures ended { result ≡ 0 → OnErr ended ⊥ }
    ensures complete { OnOk ended (result ≡ 0) }
    ensures stopped { IfErr ended (λ why. IsToldAs (failure_line network.now.net.value.channel_names.items options.now.sources.items (failure_of why))
        (status_of (failure_of why)) (H.asked host.new) result) }
{
    match ended {
        Ok(()) => tell_complete(alloc, host),
        Err(stopped) => tell(
            alloc,
            host,
            Stop::silent(failure_of(stopped)),
            &network.net.channel_names,
            &options.sources,
        ),
    }
}

// How items are spelled.
fn form_of(options: &StreamOptions) -> Form
    ensures { result ≡ form_of options.now.binary }
{
    if options.binary {
        Form::Binary
    } else {
        Form::Decimal
    }
}

// The names of the channels, where a line tells by which output its item left.
fn spoken_names<'a>(options: &StreamOptions, net: &'a Net) -> Option<&'a [Name]>
    ensures { option_map (λ names. names.now) result ≡ spoken_names options.now.bare net.now.channel_names.items }
{
    if options.bare {
        None
    } else {
        Some(net.channel_names.as_slice())
    }
}

// Runs a network between its sources and standard output.
fn run<H: Host>(
    alloc: Global,
    host: H,
    options: &StreamOptions,
    network: &Network,
    begun: Begun<H::Source>,
) -> (Result<(), Stopped<PortFault>>, H)
    requires fresh { IsFresh (H.asked host) }
    requires silent { said_bytes (H.asked host) ≡ [] }
    requires net_read { IsNetRead (string_bytes options.now.net) network.now.net.value (H.asked host) }
    requires net { (world_on begun.live).net ≡ network_of network.now.net.value.program }
    requires first { AreInputsRead (option_map string_bytes options.now.inputs) network.now.net.value (world_on begun.live).inputs (H.asked host) }
    requires untouched { (begun.live.taken ≡ none_taken) × (closed_on begun.live ≡ none_closed) }
    requires opened { AreOpened network.now.net.value options.now.sources.items begun.ports.items (H.asked host) }
    requires asked { IsAllRunFor options.now (H.asked host) }
    requires stand { PortsStand (form_of options.now.binary) H.source_number (H.asked host) begun.ports.items }
    ensures asked { ∥ IsAllRunFor options.now (H.asked result.1) ∥₁ }
    ensures right { ∥ IsStreamed options.now (H.asked result.1) ∥₁ }
    ensures ended { OnOk result.0 (∥ HasEnded options.now (H.asked result.1) ∥₁) }
    ensures cause { IfErr result.0 (λ why. ∥ HasCause options.now (H.asked result.1) network.now.net.value.channel_names.items (failure_of why) ∥₁) }
{
    let Begun { live, ports } = begun;
    let mut live = live;
    run_streams(
        alloc,
        &mut live,
        host,
        ports,
        form_of(options),
        spoken_names(options, &network.net),
    )
}

// The streaming program, once its network is read.
fn main_of_network<H: Host>(
    alloc: Global,
    host: H,
    options: &StreamOptions,
    read: &NetworkRead,
) -> (u8, H)
    requires fresh { IsFresh (H.asked host) }
    requires silent { said_bytes (H.asked host) ≡ [] }
    requires net_read { IsNetRead (string_bytes options.now.net) read.now.network.net.value (H.asked host) }
    requires asked { IsAllRunFor options.now (H.asked host) }
    ensures status { result.0 ≤ 2 }
    ensures asked { ∥ IsAllAskedFor options.now (H.asked result.1) ∥₁ }
    ensures right { ∥ IsStreamed options.now (H.asked result.1) ∥₁ }
    ensures ended { result.0 ≡ 0 → ∥ HasEnded options.now (H.asked result.1) ∥₁ }
    ensures stopped { 1 ≤ result.0 → ∥ HasStopped options.now (H.asked result.1) result.0 ∥₁ }
{
    let mut host = host;
    match begin(alloc, &mut host, options, read) {
        Ok(begun) => {
            let (ended, host) = run(alloc, host, options, &read.network, begun);
            let mut host = host;
            let status = tell_end(alloc, &mut host, options, &read.network, ended);
            (status, host)
        }
        Err(stop) => {
            let status = tell(
                alloc,
                &mut host,
                stop,
                &read.network.net.channel_names,
                &options.sources,
            );
            (status, host)
        }
    }
}

/// The whole streaming program over its host, as the options say, and its exit status: 0 where each input came to its end and all that can
/// leave has left, 2 where a text, an item or the command line is refused, 1 for any other failure. The host comes back.
pub fn main_of<H: Host>(alloc: Global, host: H, options: &StreamOptions) -> (u8, H)
    requires { H.asked host ≡ [] }
    ensures status { result.0 ≤ 2 }
    // Nothing is asked but the texts and the sources that the options name, and to write on standard output and on standard error.
    ensures asked { ∥ IsAllAskedFor options.now (H.asked result.1) ∥₁ }
    // What was said is right, wherever it ended: each output's items, as lines or as bytes, are a prefix of its channel's history in some
    // approximation on what came so far.
    ensures right { ∥ IsStreamed options.now (H.asked result.1) ∥₁ }
    // Where the status is 0 each source came to its end, and each output was said whole: its channel's stream in the least solution on all that came.
    ensures ended { result.0 ≡ 0 → ∥ HasEnded options.now (H.asked result.1) ∥₁ }
    // Where it is 1 or 2 the streams ended early, for a failure that has its cause in the log. Its line was told, unless the host failed to or there
    // was no memory for it; then the status is 1.
    ensures stopped { 1 ≤ result.0 → ∥ HasStopped options.now (H.asked result.1) result.0 ∥₁ }
{
    let mut host = host;
    match read_network(alloc, &mut host, options) {
        Ok(read) => main_of_network(alloc, host, options, &read),
        Err(stop) => {
            let status = tell(alloc, &mut host, stop, &[], options.sources.as_slice());
            (status, host)
        }
    }
}
