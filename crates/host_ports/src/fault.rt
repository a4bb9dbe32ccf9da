//! Why the streams of a network can't go on.

ghost use Rattle.std.specs.Prelude.{◌≡◌};
ghost use Rattle.host_ports.specs.Forms.{bad_number};

use item_text::ItemFault;

/// What is wrong with what came of a source.
#[derive(Clone, Copy, Debug, PartialEq, Eq)]
pub enum BadItem {
    /// Its text, which has the refusal's number.
    InText(ItemFault),
    /// Refusal 30: it ended within this item, counted from 1.
    Cut { item: u64 },
}

impl BadItem {
    /// The refusal's number: that of the text's fault, or 30 for `Cut`.
    pub fn number(self) -> u8
        ensures { result ≡ bad_number self }
    {
        match self {
            BadItem::InText(fault) => fault.number(),
            BadItem::Cut { .. } => 30,
        }
    }
}

/// Why the streams of a network can't go on.
#[derive(Clone, Copy, Debug, PartialEq, Eq)]
pub enum PortFault {
    /// There is no memory.
    NoMemory,
    /// The source of this input can't be read.
    Unread { input: u8 },
    /// What came on this input is refused.
    Item { input: u8, fault: BadItem },
    /// What left can't be written.
    Unsaid,
}
