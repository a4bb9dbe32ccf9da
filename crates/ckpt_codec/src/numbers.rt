// Numbers and items, put behind bytes.
ghost use Rattle.std.specs.Prelude.{◌≡◌, ◌≤◌, ◌+◌, ◌*◌, ◌++◌, OnOk, FitsSigned, length, take};
ghost use Rattle.std.specs.Int.{w64};
ghost use Rattle.ckpt_codec.specs.Fields.{number_text};
ghost use Rattle.ckpt_codec.specs.Spelling.{items_text, AreItems, highest_text, participants_text, passes_text};

use byteorder::{BigEndian, ByteOrder};
use retained::Log;
use std::alloc::AllocError;

// How many items are written into a block.
const BLOCK_ITEMS: usize = 32;

#[tactic(auto, unfolding(crate::specs::Fields::number_text))]
pub(crate) fn put_u8(out: &mut Vec<u8>, number: u8) -> Result<(), AllocError>
    ensures { OnOk result (out.new.items ≡ out.old.items ++ number_text 1 number) }
{
    out.push(number)?;
    Ok(())
}

#[tactic(auto, unfolding(crate::specs::Fields::number_text))]
pub(crate) fn put_u16(out: &mut Vec<u8>, number: u16) -> Result<(), AllocError>
    ensures { OnOk result (out.new.items ≡ out.old.items ++ number_text 2 number) }
{
    let mut bytes = [0; 2];
    BigEndian::write_u16(&mut bytes, number);
    out.extend_from_slice(&bytes)?;
    Ok(())
}

#[tactic(auto, unfolding(crate::specs::Fields::number_text))]
pub(crate) fn put_u32(out: &mut Vec<u8>, number: u32) -> Result<(), AllocError>
    ensures { OnOk result (out.new.items ≡ out.old.items ++ number_text 4 number) }
{
    let mut bytes = [0; 4];
    BigEndian::write_u32(&mut bytes, number);
    out.extend_from_slice(&bytes)?;
    Ok(())
}

#[tactic(auto, unfolding(crate::specs::Fields::number_text))]
pub(crate) fn put_u64(out: &mut Vec<u8>, number: u64) -> Result<(), AllocError>
    ensures { OnOk result (out.new.items ≡ out.old.items ++ number_text 8 number) }
{
    let mut bytes = [0; 8];
    BigEndian::write_u64(&mut bytes, number);
    out.extend_from_slice(&bytes)?;
    Ok(())
}

// An item is a number of 64 bits, as its type says.
fn note_item(item: &i64)
    ensures { FitsSigned w64 item.now }
{
    let _item = *item;
}

// So is each of these. (The compiler leaves nothing of the loop.)
fn note_items(items: &[i64])
    ensures { AreItems items.now }
{
    for item in items {
        note_item(item);
    }
}

// Writes all these items behind the first bytes.
fn write_items(bytes: &mut [u8], start: usize, items: &[i64])
    requires fit { AreItems items.now }
    requires room { length bytes.old ≡ start + 8 * length items.now }
    ensures { bytes.new ≡ take start bytes.old ++ items_text items.now }
{
    BigEndian::write_i64_into(items, &mut bytes[start..]);
}

// Writes a few items into these bytes, and puts them.
fn put_block(out: &mut Vec<u8>, block: &mut [u8], items: &[i64]) -> Result<(), AllocError>
    requires few { 8 * length items.now ≤ length block.old }
    ensures put { OnOk result (out.new.items ≡ out.old.items ++ items_text items.now) }
    ensures same { length block.new ≡ length block.old }
{
    note_items(items);
    let bytes = &mut block[..8 * items.len()];
    write_items(bytes, 0, items);
    out.extend_from_slice(bytes)?;
    Ok(())
}

// Puts items by blocks. (A block stays in the processor's cache: nothing is filled that is written again.)
fn put_blocks(out: &mut Vec<u8>, items: &[i64]) -> Result<(), AllocError>
    ensures { OnOk result (out.new.items ≡ out.old.items ++ items_text items.now) }
{
    let mut block = [0; 8 * BLOCK_ITEMS];
    for number in 0..items.len().div_ceil(BLOCK_ITEMS) {
        let first = BLOCK_ITEMS * number;
        let last = items.len().min(first + BLOCK_ITEMS);
        put_block(out, &mut block, &items[first..last])?;
    }
    Ok(())
}

pub(crate) fn put_items(out: &mut Vec<u8>, items: &[i64]) -> Result<(), AllocError>
    ensures put { OnOk result (out.new.items ≡ out.old.items ++ items_text items.now) }
    ensures fit { OnOk result (AreItems items.now) }
{
    note_items(items);
    out.reserve(8 * items.len())?;
    put_blocks(out, items)
}

// The items of a log, from its base to its end.
pub(crate) fn put_log_items(out: &mut Vec<u8>, log: &Log) -> Result<(), AllocError>
    ensures put { OnOk result (out.new.items ≡ out.old.items ++ items_text log.now.items) }
    ensures fit { OnOk result (AreItems log.now.items) }
{
    let (first, last) = log.as_slices();
    put_items(out, first)?;
    put_items(out, last)
}

pub(crate) fn put_highest(out: &mut Vec<u8>, highest: &[u64]) -> Result<(), AllocError>
    ensures { OnOk result (out.new.items ≡ out.old.items ++ highest_text highest.now) }
{
    for entry in highest {
        put_u64(out, *entry)?;
    }
    Ok(())
}

// The passes that remain of the repetitions round a site.
pub(crate) fn put_passes(out: &mut Vec<u8>, left: &[u16]) -> Result<(), AllocError>
    ensures { OnOk result (out.new.items ≡ out.old.items ++ passes_text left.now) }
{
    for passes in left {
        put_u16(out, *passes)?;
    }
    Ok(())
}

pub(crate) fn put_participants(out: &mut Vec<u8>, nodes: &[u8]) -> Result<(), AllocError>
    ensures { OnOk result (out.new.items ≡ out.old.items ++ participants_text nodes.now) }
{
    for node in nodes {
        put_u8(out, *node)?;
    }
    Ok(())
}
