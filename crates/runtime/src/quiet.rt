// When a node had nothing to do.

use run_log::Moment;

/// How the hub stood when a node was told last that there is nothing to do for it. As long as the moment stays, only a packet can
/// change that.
#[derive(Clone, Copy)]
pub(crate) struct Quiet {
    pub moment: Moment,
    /// Whether a packet was due for it all the same. Then the node is down and hears none, so no packet is waited for: it goes up
    /// again once a round is over, or by a line of the script.
    pub deaf: bool,
}
