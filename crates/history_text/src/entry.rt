// A line of an event: who made it, the event, and the answer.
ghost use Rattle.std.specs.Prelude.{Some};
ghost use Rattle.history_text.specs.Histories.{entry_text, maker_text};

use crate::event::EventWords;
use crate::reply::ReplyWords;
use replay::Maker;
use std::fmt;

#[derive(Clone, Copy)]
struct MakerWords {
    maker: Maker,
}

impl fmt::Display for MakerWords {
    ghost output = { λ words. Some (maker_text words.maker) };

    fn fmt<W: fmt::Write>(&self, f: &mut fmt::Formatter<W>) -> fmt::Result {
        match self.maker {
            Maker::Node(node) => write!(f, "{node}"),
            Maker::Driver => f.write_str("driver"),
        }
    }
}

/// A line without its line feed.
#[derive(Clone, Copy)]
pub struct EntryWords {
    pub maker: Maker,
    pub event: EventWords,
    pub answer: ReplyWords,
}

impl fmt::Display for EntryWords {
    ghost output = { λ words. Some (entry_text words) };

    fn fmt<W: fmt::Write>(&self, f: &mut fmt::Formatter<W>) -> fmt::Result {
        let maker = MakerWords { maker: self.maker };
        let event = self.event;
        let answer = self.answer;
        write!(f, "{maker} {event}: {answer}")
    }
}
