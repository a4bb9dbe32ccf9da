//! Writing items as bytes.

ghost use Rattle.std.specs.Prelude.{◌≡◌, ◌++◌, OnErr, OnOk};
ghost use Rattle.item_bytes.specs.Bytes.{bytes_of_item};

use byteorder::{ByteOrder, LittleEndian};
use std::alloc::AllocError;

/// Adds the bytes of an item. Refuses for want of memory, and has added nothing then.
pub fn write_item(out: &mut Vec<u8>, item: i64) -> Result<(), AllocError>
    ensures ok { OnOk result (out.new.items ≡ out.old.items ++ bytes_of_item item) }
    ensures err { OnErr result (out.new.items ≡ out.old.items) }
{
    let mut bytes = [0; 8];
    LittleEndian::write_i64(&mut bytes, item);
    out.extend_from_slice(&bytes)
}
