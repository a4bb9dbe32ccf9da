// An answer, in words.
ghost use Rattle.std.specs.Prelude.{◌≡◌, ◌+◌, Some};
ghost use Rattle.history_text.specs.Replies.{reply_text};

use protocol::Leaving;
use replay::KeptReply;
use std::fmt;

// The number of the item that left so many places behind the one of this number.
fn number_behind(number: u64, later: u64) -> u128
    ensures { result ≡ number + later }
{
    u128::from(number) + u128::from(later)
}

/// An answer: of an item that left, the one so many places behind.
#[derive(Clone, Copy)]
pub struct ReplyWords {
    pub reply: KeptReply,
    pub later: u64,
}

impl fmt::Display for ReplyWords {
    ghost output = { λ words. Some (reply_text words.later words.reply) };

    fn fmt<W: fmt::Write>(&self, f: &mut fmt::Formatter<W>) -> fmt::Result {
        match self.reply {
            KeptReply::Delivered => f.write_str("delivered"),
            KeptReply::Dropped => f.write_str("dropped"),
            KeptReply::Granted(_) => f.write_str("granted"),
            KeptReply::Installed => f.write_str("installed"),
            KeptReply::Discarded => f.write_str("discarded"),
            KeptReply::Sent => f.write_str("sent"),
            KeptReply::Started => f.write_str("started"),
            KeptReply::Decided => f.write_str("decided"),
            KeptReply::Refused(refusal) => {
                let number = refusal.number();
                write!(f, "refused {number}")
            }
            KeptReply::Released(Leaving { output, number }) => {
                let number = number_behind(number, self.later);
                write!(f, "released {output} {number}")
            }
            KeptReply::OutletFailed => f.write_str("outlet failed"),
            KeptReply::Crashed => f.write_str("crashed"),
            KeptReply::Recovered => f.write_str("recovered"),
            KeptReply::InDoubt => f.write_str("in doubt"),
            KeptReply::Down => f.write_str("down"),
            KeptReply::Acted => f.write_str("acted"),
            KeptReply::Idled => f.write_str("idled"),
            KeptReply::NotDue => f.write_str("not due"),
        }
    }
}
