// The text of a history, line by line.
ghost use Rattle.std.specs.Prelude.{◌≡◌, true, if◌then◌else◌, OnOk};
ghost use Rattle.std.specs.Io.KnownBytes.{Appends};
ghost use Rattle.std.specs.List.{flat_map};
ghost use Rattle.history_text.specs.Histories.{happening_text, happenings_text, history_text};
ghost use Rattle.node_memory.specs.JobView.{job_view};
ghost use Rattle.replay.specs.Replay.{Made, OfJob};
ghost use Rattle.replay.specs.declared.kept.Maker.TheVariants.{Node};
ghost use Rattle.run_log.specs.Lines.{back_reply, happenings, happenings_of, kept_view, left_event, left_reply, made_times, usually};

use crate::entry::EntryWords;
use crate::event::EventWords;
use crate::header::write_header;
use crate::reply::ReplyWords;
use net_check::Net;
use proc_step::Job;
use protocol::{Leaving, PlainEvent};
use replay::{KeptReply, Maker, RunEvent};
use run_log::{Entry, History, KeptEvent, Line, Usual, back_reply};
use std::io::{self, Write};

// How many places behind the first item of a line one is that left, where they rise.
fn later(rises: bool, turn: u64) -> u64
    ensures { result ≡ (if rises then turn else 0) }
{
    if rises { turn } else { 0 }
}

// An event that was made so often, one time after another.
fn write_made<W: Write>(out: &mut W, entry: &Entry, times: u64, rises: bool) -> io::Result<()>
    ensures { OnOk result (Appends (W.contents out.old) (W.contents out.new)
        (happenings_text (made_times rises times entry.now.maker (kept_view entry.now.event)
        entry.now.reply))) }
{
    let event = EventWords::of(&entry.event);
    for turn in 0..times {
        let answer = ReplyWords {
            reply: entry.reply,
            later: later(rises, turn),
        };
        let line = EntryWords {
            maker: entry.maker,
            event,
            answer,
        };
        writeln!(out, "{line}")?;
    }
    Ok(())
}

// A usual event of a node, so often.
fn write_usual<W: Write>(out: &mut W, row: &Usual) -> io::Result<()>
    ensures { OnOk result (Appends (W.contents out.old) (W.contents out.new)
        (happenings_text (usually row.now))) }
{
    let entry = Entry {
        maker: Maker::Node(row.node),
        event: KeptEvent::Plain(row.event.at(row.node)),
        reply: row.event.reply(),
    };
    write_made(out, &entry, u64::from(row.times), false)
}

// Usual events, one after the other.
fn write_usuals<W: Write>(out: &mut W, rows: &[Usual]) -> io::Result<()>
    ensures { OnOk result (Appends (W.contents out.old) (W.contents out.new)
        (happenings_text (flat_map usually rows.now))) }
{
    for row in rows {
        write_usual(out, row)?;
    }
    Ok(())
}

// So many items that left a node by this output, one after the other. The first one has this number.
fn write_left<W: Write>(out: &mut W, node: u8, output: u8, times: u32, first: u64) -> io::Result<()>
    ensures { OnOk result (Appends (W.contents out.old) (W.contents out.new)
        (happenings_text (made_times true times (Node node) (left_event node) (left_reply output first)))) }
{
    let entry = Entry {
        maker: Maker::Node(node),
        event: KeptEvent::Plain(RunEvent::World(PlainEvent::Release(node))),
        reply: KeptReply::Released(Leaving {
            output,
            number: first,
        }),
    };
    write_made(out, &entry, u64::from(times), true)
}

// That a turn of this node came back.
fn write_back<W: Write>(out: &mut W, node: u8, is_taken: bool, job: &Job) -> io::Result<()>
    ensures { OnOk result (Appends (W.contents out.old) (W.contents out.new)
        (happening_text (Made (Node node) (OfJob (job_view job.now)) (back_reply is_taken)))) }
{
    let line = EntryWords {
        maker: Maker::Node(node),
        event: EventWords::of_job(job),
        answer: ReplyWords {
            reply: back_reply(is_taken),
            later: 0,
        },
    };
    writeln!(out, "{line}")
}

// What a line of the history says.
fn write_line<W: Write>(out: &mut W, line: &Line) -> io::Result<()>
    ensures { OnOk result (Appends (W.contents out.old) (W.contents out.new)
        (happenings_text (happenings_of line.now))) }
{
    match line {
        Line::Few(rows) => write_usuals(out, rows),
        Line::Left {
            node,
            output,
            times,
            first,
        } => write_left(out, *node, *output, *times, *first),
        Line::CameBack {
            node,
            is_taken,
            job,
        } => write_back(out, *node, *is_taken, job),
        Line::Long(long) => write_made(out, &long.entry, long.times, false),
        Line::Silent { .. } => Ok(()),
        Line::Widened(channel) => writeln!(out, "widened {channel}"),
    }
}

// What these lines say, one after the other.
fn write_lines<W: Write>(out: &mut W, lines: &[Line]) -> io::Result<()>
    ensures { OnOk result (Appends (W.contents out.old) (W.contents out.new)
        (happenings_text (happenings lines.now))) }
{
    for line in lines {
        write_line(out, line)?;
    }
    Ok(())
}

/// Writes what happened in a run of a network: the form, the channels and the processes, and then a line for each event, in the order in
/// which they were made, with who made it and what was answered. A run of which no history was kept has no such line.
pub fn write_history<W: Write>(out: &mut W, net: &Net, history: &History) -> io::Result<()>
    ensures written { OnOk result (Appends (W.contents out.old) (W.contents out.new)
        (history_text net.now (happenings history.now.lines.items))) }
{
    write_header(out, net)?;
    write_lines(out, &history.lines)
}
