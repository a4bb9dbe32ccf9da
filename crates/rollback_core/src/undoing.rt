//! A node is told that the sender of a channel restored an image.
ghost use Rattle.std.specs.Prelude.{◌≡◌, ◌≤◌, map, option_copied};
ghost use Rattle.protocol.specs.Node.GoingBack.{answer_at, answer_to_undone, handled, handled_at, inbox_of, inbox_set_back, outbox_set_back};
ghost use Rattle.protocol.specs.Node.Recovering.{IsRestorable};
ghost use Rattle.rollback_core.specs.RestoredView.{answer_view, mode_with};
ghost use Rattle.kahn_net.specs.declared.limits.TheConstants.{MAX_COUNT};

use kahn_net::MAX_COUNT;
use protocol::{Inbox, Outbox};
use record::{Image, Record};
use retained::Log;
use std::alloc::Global;

/// What a node does that is told so.
#[derive(Clone, Copy, Debug, PartialEq, Eq)]
pub enum UndoneAnswer {
    /// Nothing.
    PassesOver,
    /// It notes the epoch: it is not ahead of what was restored.
    Notes,
    /// It restores its own permanent image, in its next epoch.
    GoesBack,
}

// The inbox of this channel.
fn inbox_of(inboxes: &[Inbox], channel: u16) -> Option<&Inbox>
    ensures { option_copied result ≡ inbox_of inboxes.now channel }
{
    inboxes
        .iter()
        .find(|inbox| u16::from(inbox.channel) == channel)
}

// What a node in this epoch of its own does about the end of a channel.
fn answer_at(inbox: Option<&Inbox>, epoch: u64, sent: u64, own: u64) -> UndoneAnswer
    ensures { answer_view result ≡ answer_at epoch sent own (option_copied inbox.entry) }
{
    let Some(inbox) = inbox else {
        return UndoneAnswer::PassesOver;
    };
    if inbox.undone >= epoch {
        UndoneAnswer::PassesOver
    } else if inbox.window.ack().next <= sent {
        UndoneAnswer::Notes
    } else if own < MAX_COUNT {
        UndoneAnswer::GoesBack
    } else {
        UndoneAnswer::PassesOver
    }
}

/// What a node with this record does, and with these inboxes unless it doesn't run, that is told that the sender of a
/// channel had put so many items when it restored an image, in this epoch.
pub fn answer_to_undone(
    kept: &Record,
    inboxes: Option<&[Inbox]>,
    channel: u16,
    epoch: u64,
    sent: u64,
) -> UndoneAnswer
    ensures { answer_view result
        ≡ answer_to_undone channel epoch sent kept.now (mode_with (option_copied inboxes.entry)) }
{
    if kept.tentative.is_some() {
        return UndoneAnswer::PassesOver;
    }
    match inboxes {
        Some(inboxes) => answer_at(inbox_of(inboxes, channel), epoch, sent, kept.epoch),
        None => UndoneAnswer::PassesOver,
    }
}

// Notes the epoch, where the inbox is of the channel.
fn note_at(inbox: &mut Inbox, channel: u16, epoch: u64)
    ensures { inbox.new ≡ handled channel epoch inbox.old }
{
    if u16::from(inbox.channel) == channel {
        inbox.undone = epoch;
    }
}

/// Notes that this epoch of a channel's sender was handled.
pub fn note_epoch(inboxes: &mut Vec<Inbox>, channel: u16, epoch: u64)
    ensures { inboxes.new.items ≡ handled_at channel epoch inboxes.old.items }
{
    for inbox in inboxes.iter_mut() {
        note_at(inbox, channel, epoch);
    }
}

fn set_inbox_back(alloc: Global, inbox: &mut Inbox, image: &Image, epoch: u64)
    requires counts { IsRestorable image.now }
    requires epoch { epoch ≤ MAX_COUNT }
    ensures { inbox.new ≡ inbox_set_back image.now epoch inbox.old }
{
    let next = image.received(inbox.channel);
    inbox.window.set_back(next, epoch);
    inbox.log = Log::starting_at(alloc, next);
}

fn set_outbox_back(outbox: &mut Outbox, image: &Image)
    ensures { outbox.new ≡ outbox_set_back image.now outbox.old }
{
    outbox.window.reset();
    outbox.restored = image.sent(outbox.channel);
}

fn set_back_inboxes(alloc: Global, inboxes: &mut Vec<Inbox>, image: &Image, epoch: u64)
    requires counts { IsRestorable image.now }
    requires epoch { epoch ≤ MAX_COUNT }
    ensures { inboxes.new.items ≡ map (inbox_set_back image.now epoch) inboxes.old.items }
{
    for inbox in inboxes.iter_mut() {
        set_inbox_back(alloc, inbox, image, epoch);
    }
}

fn set_back_outboxes(outboxes: &mut Vec<Outbox>, image: &Image)
    ensures { outboxes.new.items ≡ map (outbox_set_back image.now) outboxes.old.items }
{
    for outbox in outboxes.iter_mut() {
        set_outbox_back(outbox, image);
    }
}

/// The ends of channels go on behind what an image received and put, in this epoch: nothing has come since, and nothing is
/// under way. Takes no memory.
pub fn set_back(
    alloc: Global,
    inboxes: &mut Vec<Inbox>,
    outboxes: &mut Vec<Outbox>,
    image: &Image,
    epoch: u64,
)
    requires counts { IsRestorable image.now }
    requires epoch { epoch ≤ MAX_COUNT }
    ensures inboxes { inboxes.new.items ≡ map (inbox_set_back image.now epoch) inboxes.old.items }
    ensures outboxes { outboxes.new.items ≡ map (outbox_set_back image.now) outboxes.old.items }
{
    set_back_inboxes(alloc, inboxes, image, epoch);
    set_back_outboxes(outboxes, image);
}
