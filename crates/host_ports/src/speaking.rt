//! What is written of items that leave.

ghost use Rattle.std.specs.Prelude.{◌≡◌, ◌++◌, OnErr, OnOk, option_map, string_bytes};
ghost use Rattle.item_text.specs.Lines.{item_line};
ghost use Rattle.host_ports.specs.Speaking.{departure_line, departure_text, name_before, named};

use crate::form::Form;
use item_bytes::write_item as write_bytes;
use net_text::Name;
use outside::Departure;
use std::alloc::AllocError;

// Writes a name and a space, where there is one.
fn write_named(line: &mut String, name: Option<&Name>) -> Result<(), AllocError>
    ensures { OnOk result (string_bytes line.new ≡ string_bytes line.old
        ++ named (option_map (λ name. name.now) name.entry)) }
{
    let Some(name) = name else {
        return Ok(());
    };
    line.push_str(name.as_str())?;
    line.push_str(" ")
}

// Writes the name of an output, where names are given.
fn write_name(line: &mut String, names: Option<&[Name]>, output: u8) -> Result<(), AllocError>
    ensures { OnOk result (string_bytes line.new ≡ string_bytes line.old
        ++ name_before (option_map (λ names. names.now) names.entry) output) }
{
    match names {
        Some(names) => write_named(line, names.get(usize::from(output))),
        None => Ok(()),
    }
}

// Writes an item and a line feed.
fn write_item(line: &mut String, item: i64) -> Result<(), AllocError>
    ensures { OnOk result (string_bytes line.new ≡ string_bytes line.old ++ item_line item) }
{
    write!(line, "{item}\n")
}

// Writes the line of an item: where names are given that of its output stands before it.
fn write_line(
    line: &mut String,
    names: Option<&[Name]>,
    departure: Departure,
) -> Result<(), AllocError>
    ensures { OnOk result (string_bytes line.new ≡ string_bytes line.old
        ++ departure_line (option_map (λ names. names.now) names.entry) departure) }
{
    write_name(line, names, departure.output)?;
    write_item(line, departure.item)
}

// Adds the line of an item. `line` is room for it. Refuses for want of memory, and has added nothing then.
fn speak_line(
    text: &mut Vec<u8>,
    line: &mut String,
    names: Option<&[Name]>,
    departure: Departure,
) -> Result<(), AllocError>
    ensures ok { OnOk result (text.new.items ≡ text.old.items
        ++ departure_line (option_map (λ names. names.now) names.entry) departure) }
    ensures err { OnErr result (text.new.items ≡ text.old.items) }
{
    line.clear();
    write_line(line, names, departure)?;
    text.extend_from_slice(line.as_bytes())
}

/// Adds the line of an item, for which `line` is room, or its bytes. Refuses for want of memory, and has added nothing then.
pub(crate) fn speak(
    text: &mut Vec<u8>,
    line: &mut String,
    form: Form,
    names: Option<&[Name]>,
    departure: Departure,
) -> Result<(), AllocError>
    ensures ok { OnOk result (text.new.items ≡ text.old.items
        ++ departure_text form (option_map (λ names. names.now) names.entry) departure) }
    ensures err { OnErr result (text.new.items ≡ text.old.items) }
{
    match form {
        Form::Decimal => speak_line(text, line, names, departure),
        Form::Binary => write_bytes(text, departure.item),
    }
}
