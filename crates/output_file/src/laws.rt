// What holds of lines, whoever wrote them.
ghost use Rattle.std.specs.Prelude.{◌≡◌, ◌++◌, ℕ, ℤ, List, length, take, true};
ghost use Rattle.host.specs.LineRequests.{Request, MayBeLeft, bytes_put, go_on_from};
ghost use Rattle.output_file.specs.Lines.{HoldsLines, HasBadLine, AreItems, lines_of};

/// Bytes are the lines of items in one way, if at all. Where a line is bad they are in none, and one line is the first
/// that is bad.
pub fn reading_law()
    ensures one_way { (bytes : List ℕ) (items others : List ℤ) (tail other : List ℕ)
        → HoldsLines bytes items tail → HoldsLines bytes others other
        → (items ≡ others) × (tail ≡ other) }
    ensures no_way { (bytes : List ℕ) (line : ℕ) (items : List ℤ) (tail : List ℕ)
        → HasBadLine bytes line → ¬ (HoldsLines bytes items tail) }
    ensures one_fault { (bytes : List ℕ) (line other : ℕ)
        → HasBadLine bytes line → HasBadLine bytes other → line ≡ other }
{}

/// Any beginning of the lines of items, as a run that is killed while it appends leaves it, reads as a beginning of these
/// items, and a line that was cut off.
pub fn beginning_law()
    ensures { (items : List ℤ) (size : ℕ) → AreItems items
        → (count : ℕ) × (tail : List ℕ)
        × HoldsLines (take size (lines_of items)) (take count items) tail }
{}

/// Whatever the file of an outlet holds when the process is killed reads as a beginning of the outlet's items, and a line
/// that was cut off. What the law asks of the file `ResumedOutlet::file` says at every moment.
pub fn kill_law()
    ensures { (items : List ℤ) (held : ℕ) (asked : List Request) (waiting left : List ℕ)
        → AreItems items
        → go_on_from (length (lines_of (take held items))) asked ≡ true
        → lines_of (take held items) ++ bytes_put asked ++ waiting ≡ lines_of items
        → MayBeLeft (lines_of (take held items)) asked left
        → (count : ℕ) × (tail : List ℕ) × HoldsLines left (take count items) tail }
{}
