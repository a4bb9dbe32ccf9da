// Where the items of an output go.
ghost use Rattle.std.specs.Prelude.{◌≡◌, ◌⊎◌, ℕ, List, [], ◌∷◌, ◌++◌, ℤ, length, OnOk, IsErrOf};
ghost use Rattle.outlet.specs.Faults.{failures_after};

use crate::fault::OutletFault;

/// Where items leave the system, one after another. What an outlet took it never gives back.
pub trait Outlet: Drop {
    /// The items that it took, the first one first.
    ghost taken: { Self → List ℤ };

    /// How often it failed.
    ghost failures: { Self → ℕ };

    /// How many items it took.
    fn len(&self) -> u64
        ensures { result ≡ length (taken self.now) };

    /// The items that it took.
    fn items(&self) -> &[i64]
        ensures { result.now ≡ taken self.now };

    /// Takes an item. Refuses with `NoMemory` (1), and then it is as it was, and with `Failed` (60), and then it took the
    /// item or didn't.
    fn append(&mut self, item: i64) -> Result<(), OutletFault>
        ensures ok { OnOk result (taken self.new ≡ taken self.old ++ item ∷ []) }
        ensures failed { IsErrOf result OutletFault.Failed → (taken self.new ≡ taken self.old)
            ⊎ (taken self.new ≡ taken self.old ++ item ∷ []) }
        ensures no_memory { IsErrOf result OutletFault.NoMemory → taken self.new ≡ taken self.old }
        // The count of failures rises by one at 60, and at nothing else.
        ensures count { failures self.new ≡ failures_after result (failures self.old) };
}
