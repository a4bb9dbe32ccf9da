//! A reader of the items of a stream.

ghost use Rattle.std.specs.Prelude.{◌≡◌, ◌+◌, ◌/◌, ◌<◌, ◌≤◌, List, ℤ, ◌++◌, OnOk, OnErr, length, vec_len, vec_capacity, Some, is_some, if◌then◌else◌};
ghost use Rattle.std.specs.Option.{option_to_list};
ghost use Rattle.item_text.specs.declared.fault.ItemFault.TheVariants.{BadToken};
ghost use Rattle.item_text.specs.Items.{beginning, reading, read_byte, read_bytes, separated, with_minus, with_digit, is_separator, largest, signed, pending};

use crate::fault::ItemFault;
use crate::token::Token;
use std::alloc::AllocError;
use std::marker::Model;

/// How far the items of a stream have been read: the token at the end of what was read, the line, and the fault if there was one.
///
/// Items are decimal numbers within the signed 64 bits, each with one `-` before it or none. Spaces, tabs, line feeds and carriage returns
/// stand between them, and before and behind all.
#[derive(Debug, Drop)]
pub struct ItemReader {
    token: Token,
    line: u64,
    fault: Option<ItemFault>,
}

impl Model for ItemReader {
    ghost use Rattle.item_text.specs.Items.{ReaderState, IsInRange};

    ghost Value = { ReaderState };

    ghost view = { λ reader. record { token = reader.token; line = reader.line; fault = reader.fault } };

    ghost invariant = { λ reader. IsInRange reader.token };
}

// Whether items may stand on both sides of this byte.
fn is_separator(byte: u8) -> bool
    ensures { result ≡ is_separator byte }
{
    byte == b' ' || byte == b'\t' || byte == b'\n' || byte == b'\r'
}

// The largest number that digits may write, behind a minus or none.
fn largest(negative: bool) -> u64
    ensures { result ≡ largest negative }
{
    if negative { 1 << 63 } else { (1 << 63) - 1 }
}

// The item that digits write, behind a minus or none.
fn signed(negative: bool, magnitude: u64) -> i64
    requires { magnitude ≤ largest negative }
    ensures { result ≡ signed negative magnitude }
{
    if negative {
        (-(magnitude as i128)) as i64
    } else {
        magnitude as i64
    }
}

impl ItemReader {
    /// A reader of a stream of which nothing was read yet.
    pub fn new() -> ItemReader
        ensures { result ≡ beginning }
    {
        ItemReader {
            token: Token::Between,
            line: 1,
            fault: None,
        }
    }

    // A character that can't stand there.
    fn refuse(&mut self)
        ensures { self.new ≡ record (self.old) { fault = Some (BadToken self.old.line) } }
    {
        self.fault = Some(ItemFault::BadToken { line: self.line });
    }

    // A separator, which may end an item.
    fn separate(&mut self) -> Option<i64>
        ensures value { (items : List ℤ) → reading self.new (items ++ option_to_list result)
            ≡ separated self.old.token (reading self.old items) }
        ensures room { pending self.new.token + (if is_some result then 2 else 0) ≤ pending self.old.token + 1 }
    {
        match self.token {
            Token::Between => None,
            Token::Minus => {
                self.refuse();
                None
            }
            Token::Digits {
                negative,
                magnitude,
            } => {
                self.token = Token::Between;
                Some(signed(negative, magnitude))
            }
        }
    }

    fn read_minus(&mut self)
        ensures value { (items : List ℤ) → reading self.new items ≡ with_minus self.old.token (reading self.old items) }
        ensures room { pending self.new.token ≤ pending self.old.token + 1 }
    {
        match self.token {
            Token::Between => self.token = Token::Minus,
            _ => self.refuse(),
        }
    }

    fn read_digit(&mut self, digit: u8)
        requires { digit < 10 }
        ensures value { (items : List ℤ) → reading self.new items ≡ with_digit digit self.old.token (reading self.old items) }
        ensures room { pending self.new.token ≤ pending self.old.token + 1 }
    {
        let digit = u64::from(digit);
        match self.token {
            Token::Between => {
                self.token = Token::Digits {
                    negative: false,
                    magnitude: digit,
                };
            }
            Token::Minus => {
                self.token = Token::Digits {
                    negative: true,
                    magnitude: digit,
                };
            }
            Token::Digits {
                negative,
                magnitude,
            } => {
                if magnitude <= (largest(negative) - digit) / 10 {
                    self.token = Token::Digits {
                        negative,
                        magnitude: magnitude * 10 + digit,
                    };
                } else {
                    self.fault = Some(ItemFault::NumberRange { line: self.line });
                }
            }
        }
    }

    // Reads one byte more, and answers the item that it ends.
    fn read_byte(&mut self, byte: u8) -> Option<i64>
        ensures value { (items : List ℤ) → reading self.new (items ++ option_to_list result)
            ≡ read_byte byte (reading self.old items) }
        ensures room { pending self.new.token + (if is_some result then 2 else 0) ≤ pending self.old.token + 1 }
    {
        if self.fault.is_some() {
            return None;
        }
        if is_separator(byte) {
            let item = self.separate();
            if byte == b'\n' {
                self.line = self.line.saturating_add(1);
            }
            return item;
        }
        if byte == b'-' {
            self.read_minus();
        } else if byte.is_ascii_digit() {
            self.read_digit(byte - b'0');
        } else {
            self.refuse();
        }
        None
    }

    /// Reads these bytes behind those before, and adds each item that ends in them to `items`. Refuses for want of memory alone, and has read
    /// nothing then.
    pub fn read(&mut self, bytes: &[u8], items: &mut Vec<i64>) -> Result<(), AllocError>
        ensures ok { OnOk result (reading self.new items.new.items
            ≡ read_bytes bytes.now (reading self.old items.old.items)) }
        ensures err { OnErr result ((self.new ≡ self.old) × (items.new.items ≡ items.old.items)) }
        // It refuses only where the room that `items` has isn't enough for all items that may end in these bytes.
        ensures room { OnErr result
            (vec_capacity items.old < vec_len items.old + (length bytes.now + 1) / 2) }
        ensures capacity { vec_capacity items.old ≤ vec_capacity items.new }
    {
        // room for all is made at once, so that nothing is half read: each item takes two bytes but for the first, which may have begun before
        items.reserve(bytes.len().div_ceil(2))?;
        for byte in bytes {
            if let Some(item) = self.read_byte(*byte) {
                items.push_reserved(item);
            }
        }
        Ok(())
    }

    /// The fault behind which nothing more is read, if there was one.
    pub fn fault(&self) -> Option<ItemFault>
        ensures { result ≡ self.now.fault }
    {
        self.fault
    }
}
