// What nodes do most, and how several of these stand in one line.
ghost use Rattle.std.specs.Prelude.{◌≡◌, ◌≤◌, [], true, false, drop, sum_by, IfSome};
ghost use Rattle.std.specs.List.{flat_map};
ghost use Rattle.run_log.specs.Added.{IsCountedAmong, made_of};
ghost use Rattle.run_log.specs.Counts.{times_of};
ghost use Rattle.run_log.specs.Lines.{usual_deed, usual_event, usual_made, usual_reply, usually};

use crate::history::{Entry, KeptEvent, USUALS, Usual, UsualEvent};
use protocol::{Deed, PlainEvent};
use replay::{KeptReply, Maker, RunEvent};

impl UsualEvent {
    // The one in which a node does this.
    fn of(deed: Deed) -> Option<UsualEvent>
        ensures { IfSome result (λ event. usual_deed event ≡ deed) }
    {
        match deed {
            Deed::Deliver { place } => {
                if place == 0 {
                    Some(UsualEvent::Deliver)
                } else {
                    None
                }
            }
            Deed::Grant => Some(UsualEvent::Grant),
            Deed::Send => Some(UsualEvent::Send),
            Deed::Start => Some(UsualEvent::Start),
            Deed::Decide => Some(UsualEvent::Decide),
            Deed::Idle => Some(UsualEvent::Idle),
            Deed::Crash { .. } | Deed::Recover | Deed::Arm { .. } => None,
        }
    }

    // What the node does.
    fn deed(self) -> Deed
        ensures { result ≡ usual_deed self }
    {
        match self {
            UsualEvent::Deliver => Deed::Deliver { place: 0 },
            UsualEvent::Grant => Deed::Grant,
            UsualEvent::Send => Deed::Send,
            UsualEvent::Start => Deed::Start,
            UsualEvent::Decide => Deed::Decide,
            UsualEvent::Idle => Deed::Idle,
        }
    }

    /// The event, of this node.
    pub fn at(self, node: u8) -> RunEvent
        ensures { result ≡ usual_event node self }
    {
        RunEvent::World(PlainEvent::ByNode {
            node,
            deed: self.deed(),
        })
    }

    /// Its answer.
    pub fn reply(self) -> KeptReply
        ensures { result ≡ usual_reply self }
    {
        match self {
            UsualEvent::Deliver => KeptReply::Delivered,
            UsualEvent::Grant => KeptReply::Granted(()),
            UsualEvent::Send => KeptReply::Sent,
            UsualEvent::Start => KeptReply::Started,
            UsualEvent::Decide => KeptReply::Decided,
            UsualEvent::Idle => KeptReply::Idled,
        }
    }
}

// The usual event that this one is, if it is one.
pub(crate) fn usual_of(entry: &Entry) -> Option<Usual>
    ensures { IfSome result (λ row. (row.times ≡ 1)
        × (made_of entry.now ≡ usual_made row.node row.event)) }
{
    let Maker::Node(node) = entry.maker else {
        return None;
    };
    let KeptEvent::Plain(RunEvent::World(PlainEvent::ByNode { node: own, deed })) = &entry.event
    else {
        return None;
    };
    if *own != node {
        return None;
    }
    let event = UsualEvent::of(*deed)?;
    if event.reply() != entry.reply {
        return None;
    }
    Some(Usual {
        node,
        event,
        times: 1,
    })
}

// None.
fn no_usual() -> Usual
    ensures { result.times ≡ 0 }
{
    Usual {
        node: 0,
        event: UsualEvent::Idle,
        times: 0,
    }
}

/// This one alone.
pub(crate) fn alone(row: Usual) -> [Usual; USUALS]
    ensures happened { flat_map usually result ≡ usually row }
    ensures events { sum_by times_of result ≡ row.times }
{
    let none = no_usual();
    [row, none, none, none, none]
}

// How many of these stand there: the last ones may have no times.
fn rows_taken(rows: &[Usual; USUALS]) -> usize
    ensures within { result ≤ USUALS }
    ensures none { flat_map usually (drop result rows.now) ≡ [] }
    ensures no_times { sum_by times_of (drop result rows.now) ≡ 0 }
{
    let mut taken = USUALS;
    while taken > 0 {
        let row = rows[taken - 1];
        if row.times > 0 {
            return taken;
        }
        taken -= 1;
    }
    0
}

/// Puts one more behind these: it is counted in the last, where that is the same, and else has a place of its own, if one is free.
/// Answers whether it stands there.
pub(crate) fn put_usual(rows: &mut [Usual; USUALS], row: Usual) -> bool
    requires { row.times ≡ 1 }
    ensures put { result ≡ true → IsCountedAmong row rows.old rows.new }
    ensures left { result ≡ false → rows.new ≡ rows.old }
{
    let taken = rows_taken(rows);
    if taken > 0 {
        let last = rows[taken - 1];
        if last.node == row.node && last.event == row.event && last.times < u8::MAX {
            rows[taken - 1] = Usual {
                node: row.node,
                event: row.event,
                times: last.times + 1,
            };
            return true;
        }
    }
    if taken < USUALS {
        rows[taken] = row;
        return true;
    }
    false
}
