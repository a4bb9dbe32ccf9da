//! A reader of items from bytes that come in pieces.

ghost use Rattle.std.specs.Prelude.{◌≡◌, ◌+◌, ◌*◌, ◌/◌, ◌<◌, ◌≤◌, ◌++◌, ◌∷◌, [], OnErr, OnOk, if◌then◌else◌, is_some, length, vec_capacity, vec_len};
ghost use Rattle.std.specs.Option.{option_to_list};
ghost use Rattle.item_bytes.specs.Bytes.{items_of};
ghost use Rattle.item_bytes.specs.Reader.{beginning, cut_of, read_on};

use byteorder::{ByteOrder, LittleEndian};
use std::alloc::AllocError;
use std::marker::Model;

/// How far the items of a stream of bytes have been read: the bytes of the item that isn't whole yet, fewer than eight, and how many items are.
#[derive(Debug, Drop)]
pub struct ByteReader {
    bytes: [u8; 8],
    len: usize,
    count: u64,
}

impl Model for ByteReader {
    ghost use Rattle.std.specs.Prelude.{take, ◌<◌};
    ghost use Rattle.item_bytes.specs.Reader.{ReaderState};

    ghost Value = { ReaderState };

    ghost view = { λ reader. record { kept = take reader.len reader.bytes; count = reader.count } };

    ghost invariant = { λ reader. reader.len < 8 };
}

impl ByteReader {
    /// A reader of a stream of which nothing was read yet.
    pub fn new() -> ByteReader
        ensures { result ≡ beginning }
    {
        ByteReader {
            bytes: [0; 8],
            len: 0,
            count: 0,
        }
    }

    // Reads one byte more, and answers the item that it ends.
    fn read_byte(&mut self, byte: u8) -> Option<i64>
        ensures item { option_to_list result ≡ items_of (self.old.kept ++ byte ∷ []) }
        ensures state { self.new ≡ read_on self.old (byte ∷ []) }
        ensures room { 8 * (if is_some result then 1 else 0) + length self.new.kept ≡ length self.old.kept + 1 }
    {
        self.bytes[self.len] = byte;
        if self.len < 7 {
            self.len += 1;
            return None;
        }
        self.len = 0;
        self.count = self.count.saturating_add(1);
        Some(LittleEndian::read_i64(&self.bytes))
    }

    /// Reads these bytes behind those before, and adds each item that ends in them to `items`. Refuses for want of memory alone, and has read
    /// nothing then.
    pub fn read(&mut self, bytes: &[u8], items: &mut Vec<i64>) -> Result<(), AllocError>
        ensures items { OnOk result (items.new.items ≡ items.old.items ++ items_of (self.old.kept ++ bytes.now)) }
        ensures state { OnOk result (self.new ≡ read_on self.old bytes.now) }
        ensures err { OnErr result ((self.new ≡ self.old) × (items.new.items ≡ items.old.items)) }
        // It refuses only where the room that `items` has isn't enough for the items that end in these bytes.
        ensures room { OnErr result
            (vec_capacity items.old < vec_len items.old + (length self.old.kept + length bytes.now) / 8) }
        ensures capacity { vec_capacity items.old ≤ vec_capacity items.new }
    {
        // room for all is made at once, so that nothing is half read
        items.reserve((self.len + bytes.len()) / 8)?;
        for byte in bytes {
            if let Some(item) = self.read_byte(*byte) {
                items.push_reserved(item);
            }
        }
        Ok(())
    }

    /// The item within which all that was read ends, counted from 1, if it does.
    pub fn cut(&self) -> Option<u64>
        ensures { result ≡ cut_of self.now }
    {
        if self.len == 0 {
            None
        } else {
            Some(self.count.saturating_add(1))
        }
    }
}
