// Lines on their way into a file: they wait in a block until it is full.
ghost use Rattle.std.specs.Prelude.{◌≡◌, ◌⊎◌, ◌+◌, ◌^◌, ◌≤◌, ◌++◌, [], true, false, ℕ, List, length, IfOk, IsTrue, vec_capacity};
ghost use Rattle.output_file.specs.Lines.{item_line};
ghost use Rattle.output_file.specs.Writing.{IsWritten};
ghost use Rattle.output_file.specs.declared.TheConstants.{BLOCK_BYTES};

use crate::BLOCK_BYTES;
use host::LineFile;
use itoa::Buffer;
use std::alloc::{AllocError, Global};

// A file, and the lines that it is to be asked to put next.
#[derive(Drop)]
pub struct LineBlock<F: LineFile> {
    pub file: F,
    // the bytes of the file's lines and of those in the block
    pub end: u64,
    pub block: Vec<u8>,
    // a put failed: nothing is put any more
    pub broken: bool,
}

impl<F: LineFile> LineBlock<F> {
    // Over a file whose lines are so many bytes. It makes the room for all blocks.
    pub fn new(alloc: Global, file: F, end: u64) -> Result<LineBlock<F>, AllocError>
        ensures file { IfOk result (λ lines. lines.file ≡ file) }
        ensures end { IfOk result (λ lines. lines.end ≡ end) }
        ensures block { IfOk result (λ lines. lines.block.items ≡ []) }
        ensures room { IfOk result (λ lines. BLOCK_BYTES ≤ vec_capacity lines.block) }
        ensures whole { IfOk result (λ lines. lines.broken ≡ false) }
    {
        Ok(LineBlock {
            file,
            end,
            block: Vec::with_capacity(alloc, BLOCK_BYTES)?,
            broken: false,
        })
    }

    // Puts what the block holds. False where that put failed, or an earlier one.
    pub fn put_block(&mut self) -> bool
        requires { length self.old.block.items ≤ self.old.end }
        ensures all { IsTrue result → (self.new.block.items ≡ []) × (self.new.broken ≡ false) }
        ensures broken { result ≡ false → self.new.broken ≡ true }
        ensures written { (start : ℕ) (lines : List ℕ)
            → IsWritten start lines (F.asked self.old.file) self.old.end self.old.block.items self.old.broken
            → IsWritten start lines (F.asked self.new.file) self.new.end self.new.block.items self.new.broken }
        ensures stays { IsTrue self.old.broken → self.new ≡ self.old }
        ensures shrinks { length self.new.block.items ≤ length self.old.block.items }
        ensures room { vec_capacity self.new.block ≡ vec_capacity self.old.block }
        ensures same_end { self.new.end ≡ self.old.end }
    {
        if self.broken {
            return false;
        }
        if self.block.is_empty() {
            return true;
        }
        let at = self.end - self.block.len() as u64;
        self.broken = !self.file.put(at, &self.block);
        self.block.clear();
        !self.broken
    }

    // Puts the block where it has no room for so many bytes more. False where a put failed.
    fn make_room(&mut self, len: usize) -> bool
        requires within { length self.old.block.items ≤ self.old.end }
        requires small { length self.old.block.items ≤ BLOCK_BYTES }
        requires whole { self.old.broken ≡ false }
        requires fits { len ≤ BLOCK_BYTES }
        ensures room { IsTrue result → length self.new.block.items + len ≤ BLOCK_BYTES }
        ensures whole { IsTrue result → self.new.broken ≡ false }
        ensures broken { result ≡ false → self.new.broken ≡ true }
        ensures written { (start : ℕ) (lines : List ℕ)
            → IsWritten start lines (F.asked self.old.file) self.old.end self.old.block.items self.old.broken
            → IsWritten start lines (F.asked self.new.file) self.new.end self.new.block.items self.new.broken }
        ensures small { length self.new.block.items ≤ BLOCK_BYTES }
        ensures same_room { vec_capacity self.new.block ≡ vec_capacity self.old.block }
        ensures same_end { self.new.end ≡ self.old.end }
    {
        if len <= BLOCK_BYTES - self.block.len() {
            return true;
        }
        self.put_block()
    }

    // Adds an item's line to the block; where it is full, it is put first. False where that put failed, or where the
    // file would have 2^64 bytes.
    pub fn add(&mut self, item: i64) -> bool
        requires within { length self.old.block.items ≤ self.old.end }
        requires small { length self.old.block.items ≤ BLOCK_BYTES }
        requires room { BLOCK_BYTES ≤ vec_capacity self.old.block }
        requires whole { self.old.broken ≡ false }
        ensures added { IsTrue result → (start : ℕ) (lines : List ℕ)
            → IsWritten start lines (F.asked self.old.file) self.old.end self.old.block.items self.old.broken
            → IsWritten start (lines ++ item_line item) (F.asked self.new.file) self.new.end self.new.block.items
            self.new.broken }
        ensures refused { result ≡ false → (start : ℕ) (lines : List ℕ)
            → IsWritten start lines (F.asked self.old.file) self.old.end self.old.block.items self.old.broken
            → IsWritten start lines (F.asked self.new.file) self.new.end self.new.block.items self.new.broken }
        ensures whole { IsTrue result → self.new.broken ≡ false }
        ensures cause { result ≡ false → (self.new.broken ≡ true)
            ⊎ (2 ^ 64 ≤ self.old.end + length (item_line item)) }
        ensures small { length self.new.block.items ≤ BLOCK_BYTES }
        ensures room { BLOCK_BYTES ≤ vec_capacity self.new.block }
    {
        let mut buffer = Buffer::new();
        let digits = buffer.format(item).as_bytes();
        let len = digits.len() + 1;
        let Some(end) = self.end.checked_add(len as u64) else {
            return false;
        };
        if !self.make_room(len) {
            return false;
        }
        // There is room, so neither needs memory.
        let _ = self.block.extend_from_slice(digits);
        self.block.push_reserved(b'\n');
        self.end = end;
        true
    }
}
