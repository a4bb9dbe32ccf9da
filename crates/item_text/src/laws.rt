// What holds of reading, however the bytes come.
ghost use Rattle.std.specs.Prelude.{◌≡◌, ◌↔◌, ◌+◌, ◌-◌, ◌^◌, ℕ, ℤ, List, [], ◌++◌, min, Some, None, is_some, true};
ghost use Rattle.item_text.specs.declared.fault.ItemFault.{ItemFault as FaultValue};
ghost use Rattle.item_text.specs.declared.token.Token.TheVariants.{Between};
ghost use Rattle.item_text.specs.Faults.{line_of};
ghost use Rattle.item_text.specs.Items.{ReaderState, Reading, beginning, reading, read_byte, read_bytes, feed_count, behind};
ghost use Rattle.item_text.specs.Lines.{AreItems, lines_of};
ghost use Rattle.item_text.specs.Texts.{IsItemsText, Stands};

/// What is read doesn't depend on the pieces in which the bytes come, nor on the items that were read before. And it is
/// what the text says: the texts that are read are those of items.
pub fn reading_law()
    // First these bytes and then those is the same as all of them at once.
    ensures pieces { (bytes more : List ℕ) (r : Reading)
        → read_bytes (bytes ++ more) r ≡ read_bytes more (read_bytes bytes r) }
    // Items read before stay, and change nothing of what follows.
    ensures added { (bytes : List ℕ) (state : ReaderState) (before : List ℤ)
        → read_bytes bytes (reading state before) ≡ behind before (read_bytes bytes (reading state [])) }
    // Behind a fault nothing is read.
    ensures stopped { (bytes : List ℕ) (r : Reading) → is_some r.fault ≡ true → read_bytes bytes r ≡ r }
    // A fault tells its line: one more than the line feeds before the byte that can't be read.
    ensures fault { (bytes : List ℕ) (byte : ℕ) (fault : FaultValue) → let r = read_bytes bytes (reading beginning [])
        in r.fault ≡ None → (read_byte byte r).fault ≡ Some fault
        → line_of fault ≡ min (1 + feed_count bytes) (2 ^ 64 - 1) }
    // A text is read to its end with no fault exactly where it is one of items, as these items.
    ensures exact { (text : List ℕ) (items : List ℤ) → IsItemsText items text
        ↔ Stands Between items (read_bytes text (reading beginning [])) }
    // The lines of items are such a text.
    ensures lines { (items : List ℤ) → AreItems items → IsItemsText items (lines_of items) }
{}
