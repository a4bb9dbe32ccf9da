// Laws of worlds that start again.
ghost use Rattle.starting_again.specs.Laws.{GivesBackItsOwn, GoesOnAgain, HasTheSame, KeepsAgain, OneStartsAgain};
ghost use Rattle.starting_again.specs.Laws.{LeavesAtEachMoment, LeavesItsOwn, LeftAreSound, OneOpens, OpensSoundly};

/// All that is true of a world, whatever events came before, is true of one that starts again from its records and its outlets, in
/// which all nodes are down and nothing is in flight. The records and what has left are the same, and checkpoints are coordinated
/// over the stop as over an event. There is such a world, from whichever one it starts.
pub fn starting_again_law()
    // `WorldInvariant` holds of the new world, of which nothing else is asked.
    ensures keeps { KeepsAgain }
    // By each channel the same has left, and the records are the same, so the recovery line is.
    ensures same { HasTheSame }
    // Steps of the abstract machine lead over the stop, of which none writes a record, and checkpoints stay coordinated.
    ensures goes_on { GoesOnAgain }
    ensures one { OneStartsAgain }
{}

/// What a world leaves: its records and its outputs, which its stations give back. They are sound by themselves, and all that is true
/// of a world is true of a fresh one over what some world left.
pub fn leaving_law()
    ensures leaves { LeavesItsOwn }
    // What its stations give back are those outputs, once they stand by channel.
    ensures gives_back { GivesBackItsOwn }
    // Each node has a record from which it can start again, and each output a prefix of its channel's history.
    ensures sound { LeftAreSound }
    // A fresh world over what some world left has its invariant, and has let leave what these outputs took.
    ensures opens { OpensSoundly }
    ensures one { OneOpens }
{}

/// What lies on the disks and in the outlets at a moment inside an event, some world leaves: so a run may be ended at any moment,
/// and started again.
pub fn moment_law()
    ensures { LeavesAtEachMoment }
{}
