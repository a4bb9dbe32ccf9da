//! The report of a run: what each output released, and whether the run is complete.

ghost use Rattle.std.specs.Prelude.{◌≡◌, ◌++◌, IfOk, OnOk, length, string_bytes};
ghost use Rattle.kahn_program.specs.Report.{items_text, output_count, output_line, output_lines, report_text};

use kahn_net::{Channel, Port};
use net_check::Net;
use net_text::Name;
use std::alloc::{AllocError, Global};
use std::marker::Model;

/// The items of an output, in order.
#[derive(Debug, Drop)]
pub struct Stream<'a> {
    items: &'a [i64],
}

impl<'a> Model for Stream<'a> {
    ghost use Rattle.std.specs.Prelude.{List, ℤ};

    ghost Value = { List ℤ };

    ghost view = { λ s. s.items.now };
}

impl<'a> Stream<'a> {
    pub fn new(items: &'a [i64]) -> Self
        ensures { result ≡ items.now }
    {
        Stream { items }
    }

    /// Its items.
    pub fn as_slice(&self) -> &[i64]
        ensures { result.now ≡ self.now }
    {
        self.items
    }
}

/// Writes each item after a space.
fn write_items(text: &mut String, items: &[i64]) -> Result<(), AllocError>
    ensures { OnOk result (string_bytes text.new ≡ string_bytes text.old ++ items_text items.now) }
{
    for item in items {
        write!(text, " {item}")?;
    }
    Ok(())
}

/// Writes the line of an output.
fn write_line(text: &mut String, name: &Name, stream: &Stream<'_>) -> Result<(), AllocError>
    ensures { OnOk result (string_bytes text.new ≡ string_bytes text.old
        ++ output_line name.now stream.now) }
{
    text.push_str(name.as_str())?;
    text.push_str(":")?;
    write_items(text, stream.as_slice())?;
    text.push_str("\n")
}

/// Writes the lines of these outputs, in order of the channels.
fn write_lines(
    text: &mut String,
    channels: &[Channel],
    names: &[Name],
    streams: &[Stream<'_>],
) -> Result<(), AllocError>
    requires names { length names.now ≡ length channels.now }
    requires streams { length streams.now ≡ output_count channels.now }
    ensures { OnOk result (string_bytes text.new ≡ string_bytes text.old
        ++ output_lines channels.now names.now streams.now) }
{
    let mut next = 0;
    for (number, channel) in channels.iter().enumerate() {
        if let Port::Outside = channel.consumer {
            write_line(text, &names[number], &streams[next])?;
            next += 1;
        }
    }
    Ok(())
}

/// The bytes of standard output: for each output, in order of declaration, its name, a colon and
/// each of its items after a space; and then whether the run is complete. Refuses for want of
/// memory (1) alone.
pub fn report(
    alloc: Global,
    net: &Net,
    streams: &[Stream<'_>],
    complete: bool,
) -> Result<Vec<u8>, AllocError>
    requires { length streams.now ≡ output_count net.now.program.channels.items }
    ensures { IfOk result (λ bytes. bytes.items
        ≡ report_text net.now.program.channels.items net.now.channel_names.items streams.now
        complete) }
{
    let mut text = String::new(alloc);
    write_lines(
        &mut text,
        &net.program.channels,
        &net.channel_names,
        streams,
    )?;
    text.push_str(if complete { "complete\n" } else { "partial\n" })?;
    Ok(text.into_bytes())
}
