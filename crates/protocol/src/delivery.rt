//! What became of a packet that came to a node.

/// How a packet that came was taken.
#[derive(Clone, Copy, Debug, PartialEq, Eq)]
pub enum Delivery {
    /// The node is down: nothing came to it.
    NotDue,
    /// It was heard, and may have changed nothing.
    Delivered,
    /// Its bytes spell no packet, or one that isn't for this node, or that names a channel or a node which doesn't run so
    /// (33). It is gone, and changed nothing else.
    Dropped,
}
