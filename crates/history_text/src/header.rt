// What the text of a history begins with.
ghost use Rattle.std.specs.Prelude.{◌≡◌, length, OnOk, Some};
ghost use Rattle.std.specs.Io.KnownBytes.{Appends};
ghost use Rattle.history_text.specs.Headers.{channel_line, channels_text, header_text, port_text, process_line, processes_text};

use kahn_net::{Channel, Port, Process};
use net_check::Net;
use net_text::Name;
use std::fmt;
use std::io::{self, Write};

// What stands at an end of a channel.
#[derive(Clone, Copy)]
struct PortWords {
    port: Port,
}

impl fmt::Display for PortWords {
    ghost output = { λ words. Some (port_text words.port) };

    fn fmt<W: fmt::Write>(&self, f: &mut fmt::Formatter<W>) -> fmt::Result {
        match self.port {
            Port::Outside => f.write_str("outside"),
            Port::Process(process) => write!(f, "{process}"),
        }
    }
}

// The line of a channel.
fn write_channel<W: Write>(
    out: &mut W,
    number: usize,
    channel: &Channel,
    name: &Name,
) -> io::Result<()>
    ensures { OnOk result (Appends (W.contents out.old) (W.contents out.new)
        (channel_line number channel.now name.now.text)) }
{
    let name = name.as_str();
    let producer = PortWords {
        port: channel.producer,
    };
    let consumer = PortWords {
        port: channel.consumer,
    };
    writeln!(out, "channel {number} {name} {producer} {consumer}")
}

// A line for each channel.
fn write_channels<W: Write>(out: &mut W, channels: &[Channel], names: &[Name]) -> io::Result<()>
    requires { length names.now ≡ length channels.now }
    ensures { OnOk result (Appends (W.contents out.old) (W.contents out.new)
        (channels_text 0 channels.now names.now)) }
{
    for (number, channel) in channels.iter().enumerate() {
        write_channel(out, number, channel, &names[number])?;
    }
    Ok(())
}

// The line of a process.
fn write_process<W: Write>(
    out: &mut W,
    number: usize,
    process: &Process,
    name: &Name,
) -> io::Result<()>
    ensures { OnOk result (Appends (W.contents out.old) (W.contents out.new)
        (process_line number process.now.node name.now.text)) }
{
    let name = name.as_str();
    let node = process.node;
    writeln!(out, "process {number} {name} {node}")
}

// A line for each process.
fn write_processes<W: Write>(out: &mut W, processes: &[Process], names: &[Name]) -> io::Result<()>
    requires { length names.now ≡ length processes.now }
    ensures { OnOk result (Appends (W.contents out.old) (W.contents out.new)
        (processes_text 0 processes.now names.now)) }
{
    for (number, process) in processes.iter().enumerate() {
        write_process(out, number, process, &names[number])?;
    }
    Ok(())
}

/// The form of the text, and the channels and processes of the network.
pub fn write_header<W: Write>(out: &mut W, net: &Net) -> io::Result<()>
    ensures { OnOk result (Appends (W.contents out.old) (W.contents out.new) (header_text net.now)) }
{
    writeln!(out, "history 2")?;
    write_channels(out, &net.program.channels, &net.channel_names)?;
    write_processes(out, &net.program.processes, &net.process_names)
}
