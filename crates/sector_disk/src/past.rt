//! What a value has been. It is read in proofs alone, so it keeps no copy of anything.
ghost use Rattle.std.specs.Prelude.{◌≡◌, [], ◌∷◌};

use std::snapshot::Snapshot;

/// The states that a value went through, each with those before it.
///
/// A state is a `Snapshot`: clauses see the value that it was, and at run time there is nothing. A past of a million
/// states takes as much room as an empty one, and adding one never refuses.
#[derive(Drop)]
pub enum Past<T> {
    /// It has had one state, the one that it is in.
    Nothing,
    /// The past before its last state, and that state.
    After(Snapshot<Past<T>>, Snapshot<T>),
}

impl<T> Past<T> {
    ghost use Rattle.sector_disk.specs.Past.{states_of};

    /// The past of what has just begun.
    pub fn new() -> Past<T>
        ensures { states_of result ≡ [] }
    {
        Past::Nothing
    }

    /// The value is about to change: it has been what it is now.
    pub fn note(&mut self, now: &T)
        ensures { states_of self.new ≡ now.now ∷ states_of self.old }
    {
        let before = Snapshot::of(self);
        *self = Past::After(before, Snapshot::of(now));
    }
}
