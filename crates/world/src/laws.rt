//! Laws of the recovery line, of what is in flight, and of an event that is made again.

ghost use Rattle.protocol.specs.World.Agreeing.{StepsAgree};
ghost use Rattle.protocol.specs.World.Coordination.{AsksWereReceived};
ghost use Rattle.protocol.specs.World.InFlight.{EachWasSent, NothingAtFirst, NothingIsMadeUp, OnlyNodesThatAreUpSend};
ghost use Rattle.protocol.specs.World.RecoveryLine.{LinesFollow};
ghost use Rattle.protocol.specs.World.RoomByNeed.{NeedGetsMore, NeedIsHeld, NeedIsShown, NodeNeedIsFound, StillShowsNeed};

/// A line that isn't behind a second one isn't behind any that the second isn't behind. Since no event leaves the line
/// behind the one before it, none of a list of events does, at whatever moment of it all nodes crash.
pub fn line_law()
    ensures { LinesFollow }
{}

/// Every packet in flight was sent. Take any test of a packet's receiver and its bytes. All packets in flight pass it at
/// first, since there are none. If all in flight before an event pass it, and all that the event sends, then all in flight
/// afterwards pass it, whatever the event is, however it comes out, and whatever is answered. An event sends what its plan
/// says where it comes out so; and only a node that is up sends anything.
pub fn traffic_law()
    ensures first { NothingAtFirst }
    ensures made { NothingIsMadeUp }
    ensures step { EachWasSent }
    ensures up { OnlyNodesThatAreUpSend }
{}

/// Whoever is asked to take part was needed. However many events lead from a world in which nothing is in flight to
/// another, whatever a packet in flight there asks for was received, in one of the worlds on the way, by an image of the
/// checkpoint that was held then. `World::apply` says of each event what joins two such worlds (`coordinated`).
pub fn need_law()
    ensures { AsksWereReceived }
{}

/// An event comes out in one way, where no device and no outlet fails: two steps by it from one world are answered the
/// same and lead to the same world. A refusal for want of memory leaves the whole view of the world as it was, so the event
/// that it hands back comes to what it would have come to at first.
pub fn step_law()
    ensures { StepsAgree }
{}

/// Room is given where it is needed, and nowhere else. Where a world stands still for want of room, `World::needed_for` names a
/// channel for some node. The channel that it names is one for which a process needs more room: its put there is held, and nothing is on its
/// way out of the channel's log; nobody goes on to whom the way leads from it, from each process to the one for which it
/// waits; and the way comes back to it, or nobody else on the way is held for want of room. Where a process needs more, a channel
/// is named for its node. A channel for which a process needs more is that on which it puts, and hasn't all the room that it may have; so
/// `World::widen_at` gives more to the channel that is named.
pub fn room_law()
    ensures still { StillShowsNeed }
    ensures found { NodeNeedIsFound }
    ensures shown { NeedIsShown }
    ensures held { NeedIsHeld }
    ensures more { NeedGetsMore }
{}
