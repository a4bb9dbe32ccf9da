// Laws of stages.
ghost use Rattle.rerun.specs.Lines.{StagesAreLines};
ghost use Rattle.rerun.specs.Moving.{MovesWhereItCan};
ghost use Rattle.rerun.specs.Places.{TablesArePlaces};
ghost use Rattle.rerun.specs.Resting.{RestsWithAll};
ghost use Rattle.rerun.specs.Soundness.{BeginsSoundly, GivesImages, GivesRecords, GoesSoundly, KeepsCounts};
ghost use Rattle.rerun.specs.Steps.{TurnsAreSteps};

/// Before any process has begun, all stands on the approximation that has the inputs alone.
pub fn begin_law()
    ensures { BeginsSoundly }
{}

/// Whatever turns are made, one after the other and by whom they may be, all processes stand on one approximation again. What stood on
/// an earlier one stands there too.
pub fn rerun_law()
    ensures { GoesSoundly }
{}

/// An image that has what a stage has, and whose logs are of what was put by then, stands where the stage does.
pub fn image_law()
    ensures { GivesImages }
{}

/// An image of one stage and an image of a later one stand together on one approximation, the second one at least as far as the first.
pub fn record_law()
    ensures { GivesRecords }
{}

/// Of no channel more items are got than were put there.
pub fn count_law()
    ensures { KeepsCounts }
{}

/// Every stage is a place from which a run of the network may begin: its images fit together, however much of what was put on the outputs
/// has left.
pub fn line_law()
    ensures { StagesAreLines }
{}

/// A turn that a table makes is one of the stage at which the table is, on items that come next there.
pub fn turn_law()
    ensures { TurnsAreSteps }
{}

/// Every table to which turns lead is a place of the network: what is in its logs begins the histories of one approximation, and a run may
/// begin there.
pub fn place_law()
    ensures { TablesArePlaces }
{}

/// A process that can move does something in its turn: it begins, takes an item, or puts one.
pub fn move_law()
    ensures { MovesWhereItCan }
{}

/// Where no process can move, and none is about to put, all was put that the network means: no approximation has more of any channel.
pub fn rest_law()
    ensures { RestsWithAll }
{}
