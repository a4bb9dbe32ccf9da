// The law of a whole run.
ghost use Rattle.whole_run.specs.Example.{ShortRunIsThere};
ghost use Rattle.whole_run.specs.Histories.{HistoriesAreRuns, LiveStepsAreRuns};
ghost use Rattle.whole_run.specs.Machine.{RunsMakeOne};
ghost use Rattle.whole_run.specs.WholeRun.{WholeRun};

/// Whatever happens to a network from the beginning of its run on, at whatever moment one looks: what is true of a world is true then, and
/// what has left, the recovery line, and the steps of the abstract machine go on from any earlier world of the run.
pub fn whole_run_law()
    ensures { WholeRun }
{}

/// Two events of a run meet: steps of the abstract machine from one world to another, and from that one on to a third, are steps from the
/// first to the third.
pub fn one_run_law()
    ensures { RunsMakeOne }
{}

/// The law speaks of something: of each network, on whatever inputs fit it, there is a run in which a node crashes, the world is stopped and
/// opened again over what lies there, and the run then begins again from its outlets alone.
pub fn short_run_law()
    ensures { ShortRunIsThere }
{}

/// What programs do is such a run: wherever what happened leads from one world to another, as the contracts of runs say, worlds do that
/// come to one another while the disks are there. So it is where steps of a network at work lead from one world to another.
pub fn history_law()
    ensures histories { HistoriesAreRuns }
    ensures live { LiveStepsAreRuns }
{}
