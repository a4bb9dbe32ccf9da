// Laws of histories.
ghost use Rattle.replay.specs.Endings.{InstallsEndNothing, OnlyReleasesLeave, RoundsAreNext};
ghost use Rattle.replay.specs.Laws.{InstallsAreTold, ReplaysKeep, ReplaysStay, SilencesStay};
ghost use Rattle.replay.specs.Out.{InstallsFollowGrants, JobsAreTold};
ghost use Rattle.replay.specs.Rests.{PassingRests, RestIsSilence, RestsStay, SilenceIsRest};

/// A history leads on from a sound world to a sound one. Network and inputs stay, and the room of each channel is twice what it was
/// for each time that channels got more, up to `MAX_RETAINED_ITEMS`.
pub fn replay_law()
    ensures keeps { ReplaysKeep }
    ensures stays { ReplaysStay }
{}

/// What comes back of a job is taken in exactly where the job is the one that is out at its node, and else gone.
pub fn installs_law()
    ensures { InstallsAreTold }
{}

/// The jobs that are out are those that the history granted, and that none has installed since and no crash or going back has undone; and
/// just these are taken in when they come back.
pub fn jobs_law()
    ensures told { JobsAreTold }
    ensures installs { InstallsFollowGrants }
{}

/// What was said where no event was made holds until the next event: it may be said again without another look at the world.
pub fn silence_law()
    ensures { SilencesStay }
{}

/// A node that has let its turn pass in this round, and could do nothing else, stays so until a packet is due for it, the round is over, or an
/// event is its own: so no wake-up is missed where nobody asks it before. Just such a node has no event to make.
pub fn rest_law()
    ensures stays { RestsStay }
    ensures passing { PassingRests }
    ensures silent { RestIsSilence }
    ensures rests { SilenceIsRest }
{}

/// Where a run is over it stays so when a job comes back: the round is the same, what has left is, and where nothing was left to do nothing
/// is. And an event ends one round at most, and lets nothing leave unless its answer says that something may have left.
pub fn ending_law()
    ensures installs { InstallsEndNothing }
    ensures rounds { RoundsAreNext }
    ensures leaves { OnlyReleasesLeave }
{}
