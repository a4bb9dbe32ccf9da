//! Why streams end before their end.

use std::alloc::AllocError;

/// Why a network stops before all has come and left.
#[derive(Drop, Debug)]
pub enum Stopped<F> {
    /// There is no memory (1).
    NoMemory,
    /// An input would have more items than a count goes (50).
    Full,
    /// What lies outside failed.
    Outside(F),
}

impl<F> From<AllocError> for Stopped<F> {
    ghost use Rattle.stream_run.specs.declared.stopped.Stopped.TheVariants.{NoMemory};
    ghost use Rattle.std.specs.Prelude.{◌≡◌};

    ghost from_gives = { λ _ stopped. stopped ≡ NoMemory };

    fn from(_: AllocError) -> Self {
        Stopped::NoMemory
    }
}
