//! An output of the world.
ghost use Rattle.std.specs.Prelude.{◌≡◌};

use outlet::Outlet;

/// An output's channel, and where its items go.
#[derive(Drop)]
pub struct Output<O: Outlet> {
    pub channel: u8,
    pub outlet: O,
    /// The last round in which the outlet failed.
    pub failed: Option<u64>,
}

impl<O: Outlet> Output<O> {
    ghost use Rattle.station.specs.OutputView.{fresh};

    /// No failure of its outlet is remembered.
    pub fn forget_failure(&mut self)
        ensures { self.new ≡ fresh self.old }
    {
        self.failed = None;
    }
}
