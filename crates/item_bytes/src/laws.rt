// What holds of items as bytes.
ghost use Rattle.std.specs.Prelude.{◌≡◌, ◌<◌, ◌↔◌, ℤ, ℕ, List, [], ◌++◌, length};
ghost use Rattle.item_bytes.specs.Bytes.{AreBytes, AreItems, bytes_of, cut_in, items_of, rest_of};
ghost use Rattle.item_bytes.specs.Reader.{beginning, cut_of, read_on};

/// What is read doesn't depend on the pieces in which the bytes come. And it is what the bytes say.
pub fn item_bytes_law()
    // First these bytes and then those: the items are those of all of them.
    ensures pieces { (bytes more : List ℕ) → items_of (bytes ++ more) ≡ items_of bytes ++ items_of (rest_of bytes ++ more) }
    // And so is what a reader keeps and counts.
    ensures state { (bytes more : List ℕ) → read_on (read_on beginning bytes) more ≡ read_on beginning (bytes ++ more) }
    // A reader knows within which item the bytes end that it read, if they do.
    ensures cut { (bytes : List ℕ) → cut_of (read_on beginning bytes) ≡ cut_in bytes }
    // Bytes are those of their items, and then those that are left.
    ensures whole { (bytes : List ℕ) → AreBytes bytes → (bytes ≡ bytes_of (items_of bytes) ++ rest_of bytes) × AreItems (items_of bytes) }
    // Those that are left are fewer than eight.
    ensures few { (bytes : List ℕ) → length (rest_of bytes) < 8 }
    // Bytes are read to their end, with nothing left, exactly where they are those of items, as these items.
    ensures exact { (bytes : List ℕ) (items : List ℤ) → AreBytes bytes → AreItems items
        → (bytes ≡ bytes_of items) ↔ ((items_of bytes ≡ items) × (rest_of bytes ≡ [])) }
{}
