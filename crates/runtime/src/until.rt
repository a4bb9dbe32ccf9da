// What the driver waits for.

/// What the driver waits for: whichever comes first.
#[derive(Clone, Copy, Debug, PartialEq, Eq)]
pub struct Until {
    /// This round.
    pub round: u64,
    /// That so many items have left, all outputs together.
    pub left: Option<u64>,
}

impl Until {
    /// What never comes.
    pub(crate) fn never() -> Until {
        Until {
            round: u64::MAX,
            left: None,
        }
    }

    /// What has come already.
    pub(crate) fn now() -> Until {
        Until {
            round: 0,
            left: None,
        }
    }
}
