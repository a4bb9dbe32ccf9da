// Which nodes rest: each let its turn pass in this round, and has nothing else to do until a packet is due for it.
ghost use Rattle.std.specs.Prelude.{◌≡◌, ◌==◌, true, if◌then◌else◌};
ghost use Rattle.replay.specs.Rests.{is_idle, none_rest, rest_after};
ghost use Rattle.protocol.specs.declared.reply.Reply.TheVariants.{Idled};
ghost use Rattle.world.specs.Events.{event_view, reply_view};

use kahn_net::MAX_NODES;
use world::{Deed, Event, PlainEvent, Reply};

/// Of which nodes it is noted that they rest.
pub(crate) type Resting = [bool; MAX_NODES as usize];

/// Of none.
pub(crate) fn none_rest() -> Resting
    ensures { result ≡ none_rest }
{
    [false; MAX_NODES as usize]
}

/// Whether a turn passes in this event.
pub(crate) fn is_idle(event: &Event) -> bool
    ensures { result ≡ is_idle (event_view event.now) }
{
    match event {
        Event::Plain(
            PlainEvent::ByNode {
                deed: Deed::Idle,
                ..
            },
        ) => true,
        _ => false,
    }
}

/// Whether a turn passed by an event: it was to pass by it, and so it was answered.
pub(crate) fn has_passed(is_idle: bool, reply: &Reply) -> bool
    ensures { result ≡ true → (is_idle ≡ true) × (reply_view reply.now ≡ Idled) }
{
    match reply {
        Reply::Idled => is_idle,
        _ => false,
    }
}

/// Notes whether a node's turn passed by its event. Of the others the same is noted as before, if they stay as they were, and else of none
/// that it rests.
pub(crate) fn note_event(resting: &mut Resting, others_stay: bool, node: u8, passed: bool)
    ensures { resting.new ≡ rest_after others_stay node passed resting.old }
{
    if !others_stay {
        *resting = none_rest();
        return;
    }
    if node < MAX_NODES {
        resting[usize::from(node)] = passed;
    }
}
