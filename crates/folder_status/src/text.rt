//! What is told of a folder, as lines of text.

ghost use Rattle.std.specs.Prelude.{◌≡◌, ◌++◌, IfOk, OnOk, length, slice_index, string_bytes};
ghost use Rattle.kahn_net.specs.Streams.{history_of};
ghost use Rattle.folder_status.specs.Kept.{name_of};
ghost use Rattle.folder_status.specs.Lines.{compared_words, cut_words, input_line, input_lines, net_lines, number_line, output_line, output_lines, status_text, verdict};

use crate::ending::Ending;
use crate::kept::KeptOutput;
use crate::reading::name_of;
use crate::status::FolderStatus;
use kahn_net::{Channel, History, Port};
use net_check::Net;
use net_text::Name;
use std::alloc::{AllocError, Global};
use world::node_count;

// Adds a word, a colon and a number.
fn add_number(text: &mut String, word: &str, number: u64) -> Result<(), AllocError>
    ensures { OnOk result (string_bytes text.new ≡ string_bytes text.old ++ number_line word.now number) }
{
    text.push_str(word)?;
    write!(text, ": {number}\n")
}

// Adds what the network is.
fn add_net(text: &mut String, net: &Net) -> Result<(), AllocError>
    ensures { OnOk result (string_bytes text.new ≡ string_bytes text.old ++ net_lines net.now) }
{
    add_number(text, "processes", net.program.processes.len() as u64)?;
    add_number(text, "nodes", node_count(net) as u64)?;
    add_number(text, "channels", net.program.channels.len() as u64)
}

// Adds how many items of an input were got, and how many there are.
fn add_input(text: &mut String, name: &str, got: u64, count: u64) -> Result<(), AllocError>
    ensures { OnOk result (string_bytes text.new ≡ string_bytes text.old ++ input_line name.now got count) }
{
    text.push_str("input ")?;
    text.push_str(name)?;
    write!(text, ": {got} of {count} got\n")
}

// Adds a line for each input.
fn add_inputs(
    text: &mut String,
    names: &[Name],
    channels: &[Channel],
    inputs: &[History],
    got: &[u64],
) -> Result<(), AllocError>
    ensures { OnOk result (string_bytes text.new ≡ string_bytes text.old ++ input_lines names.now inputs.now got.now 0 channels.now) }
{
    for (number, channel) in channels.iter().enumerate() {
        if let Port::Outside = channel.producer {
            add_input(
                text,
                name_of(names, number),
                got_of(got, number),
                count_of(inputs, number),
            )?;
        }
    }
    Ok(())
}

// How many items of a channel were got.
fn got_of(got: &[u64], number: usize) -> u64
    ensures { result ≡ slice_index got.now number }
{
    got.get(number).copied().unwrap_or(0)
}

// How many items an input has.
fn count_of(inputs: &[History], number: usize) -> u64
    ensures { result ≡ length (history_of inputs.now number) }
{
    match inputs.get(number) {
        Some(items) => items.len() as u64,
        None => 0,
    }
}

// Adds that not all items of a file were compared, where it is so.
fn add_compared(text: &mut String, count: u64, compared: u64) -> Result<(), AllocError>
    ensures { OnOk result (string_bytes text.new ≡ string_bytes text.old ++ compared_words count compared) }
{
    if count == compared {
        return Ok(());
    }
    write!(text, ", {compared} compared")
}

// Adds that a line was cut off, where one was.
fn add_cut(text: &mut String, cut_off: u64) -> Result<(), AllocError>
    ensures { OnOk result (string_bytes text.new ≡ string_bytes text.old ++ cut_words cut_off) }
{
    if cut_off == 0 {
        return Ok(());
    }
    text.push_str(", and a line that was cut off")
}

// Adds how many items an output's file holds.
fn add_output(
    text: &mut String,
    name: &str,
    count: u64,
    compared: u64,
    cut_off: u64,
) -> Result<(), AllocError>
    ensures { OnOk result (string_bytes text.new ≡ string_bytes text.old ++ output_line name.now count compared cut_off) }
{
    text.push_str("output ")?;
    text.push_str(name)?;
    write!(text, ": {count} kept")?;
    add_compared(text, count, compared)?;
    add_cut(text, cut_off)?;
    text.push_str("\n")
}

// Adds a line for each output.
fn add_outputs(
    text: &mut String,
    names: &[Name],
    outputs: &[KeptOutput],
    compared: &[u64],
) -> Result<(), AllocError>
    ensures { OnOk result (string_bytes text.new ≡ string_bytes text.old ++ output_lines names.now compared.now 0 outputs.now) }
{
    for (place, output) in outputs.iter().enumerate() {
        add_output(
            text,
            name_of(names, usize::from(output.channel)),
            output.items.len() as u64,
            got_of(compared, place),
            output.cut_off,
        )?;
    }
    Ok(())
}

// Whether more will come.
fn verdict(ending: Ending) -> &'static str
    ensures { result.now ≡ verdict ending }
{
    match ending {
        Ending::Complete => "complete\n",
        Ending::Partial => "partial\n",
        Ending::Unsettled => "unsettled\n",
    }
}

/// What is told of a folder: how many processes, nodes and channels its network has; by input how many items were got, of how many; by output how
/// many its file holds, and a line that was cut off; and whether more will come. A fact has a line.
pub fn status_text(alloc: Global, status: &FolderStatus) -> Result<String, AllocError>
    ensures { IfOk result (λ text. string_bytes text ≡ status_text status.now.net.value status.now.inputs.value status.now.got.items
        status.now.outputs.items status.now.compared.items status.now.ending) }
{
    let FolderStatus {
        net,
        inputs,
        got,
        outputs,
        compared,
        ending,
    } = status;
    let mut text = String::new(alloc);
    add_net(&mut text, net)?;
    add_inputs(
        &mut text,
        &net.channel_names,
        &net.program.channels,
        inputs.as_slice(),
        got,
    )?;
    add_outputs(&mut text, &net.channel_names, outputs, compared)?;
    text.push_str(verdict(*ending))?;
    Ok(text)
}
