// Events put behind the lines of a history.
ghost use Rattle.std.specs.Prelude.{◌≡◌, ◌<◌, ◌+◌, true, false, vec_len, IfSome, IsTrue};
ghost use Rattle.std.specs.Vec.{vec_capacity};
ghost use Rattle.run_log.specs.Added.{IsCountedIn, IsLeft, IsOnce, IsPut, made_of};
ghost use Rattle.run_log.specs.Lines.{kept_view};

use crate::history::{Entry, KeptEvent, Line, LongLine};
use crate::usual::{alone, put_usual, usual_of};
use kahn_net::MAX_COUNT;
use protocol::{Leaving, PlainEvent};
use replay::{KeptReply, Maker, RunEvent};
use std::alloc::{AllocError, Global};

// An item that left a node.
#[derive(Clone, Copy, Debug, PartialEq, Eq)]
struct Left {
    node: u8,
    leaving: Leaving,
}

// The item that left a node in this event, if one did.
fn left_of(entry: &Entry) -> Option<Left>
    ensures { IfSome result (λ left. IsLeft entry.now left.node left.leaving.output left.leaving.number) }
{
    let Maker::Node(node) = entry.maker else {
        return None;
    };
    let KeptEvent::Plain(RunEvent::World(PlainEvent::Release(own))) = &entry.event else {
        return None;
    };
    let KeptReply::Released(leaving) = entry.reply else {
        return None;
    };
    if *own != node {
        return None;
    }
    Some(Left { node, leaving })
}

// A line of this entry once, in this room.
fn long_once(entry: Entry, mut room: Box<LongLine>) -> Line
    ensures { IsOnce entry result }
{
    let _none = Box::replace(&mut room, LongLine { entry, times: 1 });
    Line::Long(room)
}

// A line of this entry once, and the room for a long one, if it isn't one.
fn once(entry: Entry, room: Box<LongLine>) -> (Line, Option<Box<LongLine>>)
    ensures { IsOnce entry result.0 }
{
    if let Some(row) = usual_of(&entry) {
        return (Line::Few(alone(row)), Some(room));
    }
    if let Some(Left { node, leaving }) = left_of(&entry) {
        let line = Line::Left {
            node,
            output: leaving.output,
            times: 1,
            first: leaving.number,
        };
        return (line, Some(room));
    }
    match entry {
        Entry {
            maker: Maker::Node(node),
            event: KeptEvent::Install(job),
            reply: KeptReply::Installed,
        } => (
            Line::CameBack {
                node,
                is_taken: true,
                job,
            },
            Some(room),
        ),
        Entry {
            maker: Maker::Node(node),
            event: KeptEvent::Install(job),
            reply: KeptReply::Discarded,
        } => (
            Line::CameBack {
                node,
                is_taken: false,
                job,
            },
            Some(room),
        ),
        entry => (long_once(entry, room), None),
    }
}

// Whether two events are kept alike. Turns that came back never are: each has a job of its own.
fn is_same_event(one: &KeptEvent, other: &KeptEvent) -> bool
    ensures { IsTrue result → kept_view other.now ≡ kept_view one.now }
{
    match one {
        KeptEvent::Plain(one) => match other {
            KeptEvent::Plain(other) => *one == *other,
            KeptEvent::Install(_) => false,
        },
        KeptEvent::Install(_) => false,
    }
}

// Counts an event in a long line, where it is the same once more. Answers whether it is.
fn count_in_long(long: &mut LongLine, next: &Entry) -> bool
    ensures counted { result ≡ true → (long.new.times ≡ long.old.times + 1)
        × (long.new.entry ≡ long.old.entry) × (made_of next.now ≡ made_of long.old.entry) }
    ensures left { result ≡ false → long.new ≡ long.old }
{
    if long.times >= MAX_COUNT || long.entry.maker != next.maker {
        return false;
    }
    if !is_same_event(&long.entry.event, &next.event) || long.entry.reply != next.reply {
        return false;
    }
    long.times += 1;
    true
}

// Counts an event in a line, where it goes on. Answers whether it does.
fn count_in(line: &mut Line, next: &Entry) -> bool
    ensures counted { result ≡ true → IsCountedIn next.now line.old line.new }
    ensures left { result ≡ false → line.new ≡ line.old }
{
    match line {
        Line::Few(rows) => match usual_of(next) {
            Some(row) => put_usual(rows, row),
            None => false,
        },
        Line::Left {
            node,
            output,
            times,
            first,
        } => {
            let Some(left) = left_of(next) else {
                return false;
            };
            if left.node != *node || left.leaving.output != *output || *times >= u32::MAX {
                return false;
            }
            if left.leaving.number < *first || left.leaving.number - *first != u64::from(*times) {
                return false;
            }
            *times += 1;
            true
        }
        Line::Long(long) => count_in_long(long, next),
        _ => false,
    }
}

/// Room for a long line. Refuses for want of memory alone.
pub(crate) fn room_in(
    alloc: Global,
    spare: &mut Option<Box<LongLine>>,
) -> Result<Box<LongLine>, AllocError> {
    if let Some(room) = spare.take() {
        return Ok(room);
    }
    let none = Entry {
        maker: Maker::Driver,
        event: KeptEvent::Plain(RunEvent::World(PlainEvent::Release(0))),
        reply: KeptReply::NotDue,
    };
    Ok(Box::new(
        alloc,
        LongLine {
            entry: none,
            times: 0,
        },
    )?)
}

/// Puts an event behind all others: it is counted in the last line, where that goes on so, and else has a line of its own, whose room was
/// made. Hands back the room for a long line, if it isn't used.
pub(crate) fn put_entry(
    lines: &mut Vec<Line>,
    room: Box<LongLine>,
    entry: Entry,
) -> Option<Box<LongLine>>
    requires room { vec_len lines.old < vec_capacity lines.old }
    ensures { IsPut entry lines.old.items lines.new.items }
{
    let Some(mut last) = lines.pop() else {
        let (line, unused) = once(entry, room);
        lines.push_reserved(line);
        return unused;
    };
    let is_counted = count_in(&mut last, &entry);
    lines.push_reserved(last);
    if is_counted {
        return Some(room);
    }
    let (line, unused) = once(entry, room);
    lines.push_reserved(line);
    unused
}
