//! What lies outside of a network.

ghost use Rattle.std.specs.Prelude.{◌≡◌, ◌≢◌, ◌++◌, ◌∷◌, ℕ, ℤ, Bool, List, false, true, IfErr, IfOk, OnOk, OnErr};
ghost use Rattle.kahn_net.specs.Streams.{IsPrefix};
ghost use Rattle.outside.specs.declared.departure.Departure.{Departure as DepartureValue};

use crate::departure::Departure;
use std::alloc::Global;

/// From where a network's items come, and to where those go that leave it.
pub trait Outside {
    /// Why it failed.
    type Fault;

    /// What stays as it is whatever comes and leaves, as the names of the streams.
    type Fixed;

    ghost fixed: { Self → Self.Fixed };

    /// All that was taken of an input so far, by the channel's number.
    ghost came: { Self → ℕ → List ℤ };

    /// An input came to its end: all of it came, and nothing comes by it any more.
    ghost has_ended: { Self → ℕ → Bool };

    /// All that was put out so far, the newest first.
    ghost left: { Self → List DepartureValue };

    /// All that was put out is to be seen.
    ghost is_shown: { Self → Type 0 };

    /// It failed for this reason.
    ghost has_failed: { Self → Self.Fault → Type 0 };

    /// Where it failed for this reason some of what came last may be lost.
    ghost loses: { Self.Fault → Type 0 };

    /// What comes next by an input, in `items`, which is emptied first. It waits until there is something, and gives what is there then. False
    /// is answered where the input came to its end, behind these items.
    fn take(&mut self, alloc: Global, input: u8, items: &mut Vec<i64>) -> Result<bool, Self::Fault>
        ensures came { OnOk result (came self.new input ≡ came self.old input ++ items.new.items) }
        ensures end { IfOk result (λ more. more ≡ false → has_ended self.new input ≡ true) }
        ensures others { (other : ℕ) → other ≢ input → (came self.new other ≡ came self.old other)
            × (has_ended self.new other ≡ has_ended self.old other) }
        // Behind its end nothing comes.
        ensures stays { has_ended self.old input ≡ true
            → (has_ended self.new input ≡ true) × (came self.new input ≡ came self.old input) }
        ensures same { left self.new ≡ left self.old }
        ensures shown { is_shown self.old → is_shown self.new }
        // What came and was lost since it failed stands behind what came before.
        ensures lost { OnErr result (IsPrefix (came self.old input) (came self.new input)) }
        // Of most faults nothing that came is lost.
        ensures kept { IfErr result (λ fault. ¬ (loses fault) → came self.new input ≡ came self.old input) }
        ensures fixed { fixed self.new ≡ fixed self.old }
        ensures failed { IfErr result (has_failed self.new) };

    /// Puts out an item, which has left by an output.
    fn put(&mut self, alloc: Global, departure: Departure) -> Result<(), Self::Fault>
        ensures left { OnOk result (left self.new ≡ departure ∷ left self.old) }
        ensures nothing { OnErr result (left self.new ≡ left self.old) }
        ensures same { (input : ℕ) → (came self.new input ≡ came self.old input)
            × (has_ended self.new input ≡ has_ended self.old input) }
        ensures fixed { fixed self.new ≡ fixed self.old }
        ensures failed { IfErr result (has_failed self.new) };

    /// What was put out is to be seen from now on. It is called where nothing is left to do on what came so far.
    fn flush(&mut self) -> Result<(), Self::Fault>
        ensures left { left self.new ≡ left self.old }
        ensures shown { OnOk result (is_shown self.new) }
        ensures same { (input : ℕ) → (came self.new input ≡ came self.old input)
            × (has_ended self.new input ≡ has_ended self.old input) }
        ensures fixed { fixed self.new ≡ fixed self.old }
        ensures failed { IfErr result (has_failed self.new) };
}
