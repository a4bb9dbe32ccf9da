// Events and answers as they are kept.
ghost use Rattle.std.specs.Prelude.{◌≡◌, IfOk};
ghost use Rattle.replay.specs.Armed.{OfWorld};
ghost use Rattle.replay.specs.Replay.{IsKeptOf};
ghost use Rattle.replay.specs.Replies.{kept_reply};
ghost use Rattle.run_log.specs.Lines.{back_reply, kept_view};
ghost use Rattle.world.specs.Events.{event_view, reply_view};

use crate::history::KeptEvent;
use replay::{KeptReply, RunEvent};
use std::alloc::AllocError;
use std::sync::Arc;
use world::{Event, Reply};

/// An event as it is kept. Refuses for want of memory alone.
pub(crate) fn keep(event: &Event) -> Result<KeptEvent, AllocError>
    ensures { IfOk result (λ kept. IsKeptOf (kept_view kept) (OfWorld (event_view event.now))) }
{
    match event {
        Event::Plain(event) => Ok(KeptEvent::Plain(RunEvent::World(*event))),
        Event::Install(done) => Ok(KeptEvent::Install(Arc::try_clone(&done.job)?)),
    }
}

/// An answer as it is kept.
pub fn keep_reply(reply: &Reply) -> KeptReply
    ensures { result ≡ kept_reply (reply_view reply.now) }
{
    match reply {
        Reply::Delivered => KeptReply::Delivered,
        Reply::Dropped => KeptReply::Dropped,
        Reply::Granted(_) => KeptReply::Granted(()),
        Reply::Installed => KeptReply::Installed,
        Reply::Discarded => KeptReply::Discarded,
        Reply::Sent => KeptReply::Sent,
        Reply::Started => KeptReply::Started,
        Reply::Decided => KeptReply::Decided,
        Reply::Refused(refusal) => KeptReply::Refused(*refusal),
        Reply::Released(item) => KeptReply::Released(*item),
        Reply::OutletFailed => KeptReply::OutletFailed,
        Reply::Crashed => KeptReply::Crashed,
        Reply::Recovered => KeptReply::Recovered,
        Reply::InDoubt => KeptReply::InDoubt,
        Reply::Down => KeptReply::Down,
        Reply::Acted => KeptReply::Acted,
        Reply::Idled => KeptReply::Idled,
        Reply::NotDue => KeptReply::NotDue,
    }
}

/// The answer to a turn that came back, as it is kept: it was taken in, or was of a job that isn't out.
pub fn back_reply(is_taken: bool) -> KeptReply
    ensures { result ≡ back_reply is_taken }
{
    if is_taken {
        KeptReply::Installed
    } else {
        KeptReply::Discarded
    }
}
