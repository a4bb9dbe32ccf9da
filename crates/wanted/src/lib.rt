//! Whether an answer is the one that a line of a table wants. A crate of its own, since it has the one contract of what the tables' programs
//! share, and so the one whose wrong bodies are tried: each try begins with a proof of the crate.
#![tactic(auto)]

ghost use Rattle.std.specs.Prelude.{List, ℕ, ◌≡◌, ◌≢◌, ◌++◌, ◌↔◌, IsTrue, codes};
ghost use Rattle.wanted.specs.Wanted.{Begins};

/// Whether an answer is this beginning, alone or with a space behind it.
fn begins(first: &[u8], came: &[u8]) -> bool
    ensures { IsTrue result ↔ Begins first.now came.now }
{
    match came.strip_prefix(first) {
        Some([]) => true,
        Some([next, ..]) => *next == b' ',
        None => false,
    }
}

/// Whether an answer is the one that is wanted, behind which more may follow where it ends in `..`.
pub fn is_wanted(wanted: &str, came: &str) -> bool
    // Where what is wanted doesn't go on, nothing else passes.
    ensures whole { ((first : List ℕ) → wanted.now ≢ first ++ codes " ..")
        → (IsTrue result ↔ (came.now ≡ wanted.now)) }
    // Where it does, the answer begins with what stands before that, up to a space or its own end.
    ensures begun { (first : List ℕ) → wanted.now ≡ first ++ codes " .."
        → (IsTrue result ↔ Begins first came.now) }
{
    let came = came.as_bytes();
    let wanted = wanted.as_bytes();
    match wanted.strip_suffix(b" ..") {
        Some(first) => begins(first, came),
        None => came == wanted,
    }
}
