//! A reader of the items of a source.

ghost use Rattle.std.specs.Prelude.{◌≡◌, ◌<◌, [], ℕ, List, OnOk, false, length, option_map};
ghost use Rattle.item_bytes.specs.Reader.{cut_of};
ghost use Rattle.host_ports.specs.declared.fault.BadItem.TheVariants.{Cut, InText};
ghost use Rattle.host_ports.specs.Forms.{IsReadAs, fault_in, reader_by};
ghost use Rattle.host_ports.specs.declared.form.Form.{Form as FormValue};

use crate::fault::BadItem;
use crate::form::Form;
use item_bytes::ByteReader;
use item_text::ItemReader;
use std::alloc::AllocError;

/// How far the items of a source are read.
#[derive(Drop)]
pub enum Reader {
    /// They are decimal text.
    OfText(ItemReader),
    /// They are eight bytes each.
    OfBytes(ByteReader),
}

// What is wrong with a text.
fn text_fault(reader: &ItemReader) -> Option<BadItem>
    ensures { result ≡ option_map InText reader.now.fault }
{
    match reader.fault() {
        Some(fault) => Some(BadItem::InText(fault)),
        None => None,
    }
}

// The item within which bytes ended, if they did.
fn cut_item(reader: &ByteReader) -> Option<BadItem>
    ensures { result ≡ option_map Cut (cut_of reader.now) }
{
    match reader.cut() {
        Some(item) => Some(BadItem::Cut { item }),
        None => None,
    }
}

impl Reader {
    /// A reader of a source of which nothing came yet.
    pub fn new(form: Form) -> Reader
        ensures { result ≡ reader_by form [] false }
    {
        match form {
            Form::Decimal => Reader::OfText(ItemReader::new()),
            Form::Binary => Reader::OfBytes(ByteReader::new()),
        }
    }

    // Reads a piece more, of some bytes.
    fn read_some(&mut self, piece: &[u8], items: &mut Vec<i64>) -> Result<(), AllocError>
        requires empty { items.old.items ≡ [] }
        requires some { 0 < length piece.now }
        ensures { OnOk result ((form : FormValue) (came : List ℕ) → self.old ≡ reader_by form came false
            → IsReadAs form came piece.now self.new items.new.items) }
    {
        match self {
            Reader::OfText(reader) => reader.read(piece, items),
            Reader::OfBytes(reader) => reader.read(piece, items),
        }
    }

    // Reads the end. That of a text is a space.
    fn read_end(&mut self, items: &mut Vec<i64>) -> Result<(), AllocError>
        requires empty { items.old.items ≡ [] }
        ensures { OnOk result ((form : FormValue) (came : List ℕ) → self.old ≡ reader_by form came false
            → IsReadAs form came [] self.new items.new.items) }
    {
        match self {
            Reader::OfText(reader) => reader.read(b" ", items),
            Reader::OfBytes(_) => Ok(()),
        }
    }

    /// Reads a piece more, or the end where it is empty, and gives the items that end there. Refuses for want of memory alone.
    pub(crate) fn read(&mut self, piece: &[u8], items: &mut Vec<i64>) -> Result<(), AllocError>
        requires empty { items.old.items ≡ [] }
        // Whatever came before.
        ensures read { OnOk result ((form : FormValue) (came : List ℕ) → self.old ≡ reader_by form came false
            → IsReadAs form came piece.now self.new items.new.items) }
    {
        if piece.is_empty() {
            self.read_end(items)
        } else {
            self.read_some(piece, items)
        }
    }

    /// What is wrong with what came of a source, which has ended or hasn't.
    pub(crate) fn fault(&self, ended: bool) -> Option<BadItem>
        ensures { result ≡ fault_in self.now ended }
    {
        match self {
            Reader::OfText(reader) => text_fault(reader),
            Reader::OfBytes(reader) => { if ended { cut_item(reader) } else { None } }
        }
    }
}
