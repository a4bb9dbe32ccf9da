// Laws of inputs that grow, and of a world on them.
ghost use Rattle.growing.specs.Laws.{ApproximationsAreMonotone, BelongsStays, ChangesInputsAlone, FedHasItems};
ghost use Rattle.growing.specs.Laws.{FedInAnyOrder, FedInParts, FedIsLater, FedIsLonger, FedNothing, FedWhereMade};
ghost use Rattle.growing.specs.Laws.{GoesOnWhateverComes, JobStays, LaterAgain, LeftStays, OthersStay};
ghost use Rattle.growing.specs.Laws.{OutputsStayWithin, QuietWhereNoneWaits, ReachesStays, SolutionsGrow};
ghost use Rattle.growing.specs.Laws.{StaysCoordinated, StaysSound, StreamsStay};

/// What a network means grows with its inputs: on longer ones each history begins with what it was. So all that was said of
/// histories on the inputs so far is true on all later ones.
pub fn growing_law()
    // Channel by channel, each approximation is a prefix of the one of the same number on longer inputs.
    ensures approximations { ApproximationsAreMonotone }
    // Each approximation on the inputs of before is below whatever solves the equations on later ones.
    ensures solutions { SolutionsGrow }
    // A stream that is a prefix of its channel's history in some approximation is one on longer inputs.
    ensures streams { StreamsStay }
    // An item that belongs to a history at a place belongs to it there on longer inputs.
    ensures belongs { BelongsStays }
    // A history that comes to so many items comes to them on longer inputs.
    ensures reaches { ReachesStays }
{}

/// One input gets items at its end, and the others stay. Such inputs are longer, and where they fit the network they are later
/// inputs of it.
pub fn adding_law()
    // The input that is fed has these items behind its own.
    ensures items { FedHasItems }
    // Every other input is as it was.
    ensures others { OthersStay }
    // Inputs of which one is fed are longer.
    ensures longer { FedIsLonger }
    // Where items come from outside, they are later inputs exactly where the greatest count isn't passed.
    ensures later { FedIsLater }
    // Where a process puts, they are later inputs exactly where no items are given.
    ensures made { FedWhereMade }
    // No items change nothing.
    ensures nothing { FedNothing }
    // Items may come in one go or in several.
    ensures parts { FedInParts }
    // Of two inputs either may be fed first.
    ensures order { FedInAnyOrder }
    // What is later than later inputs is later.
    ensures again { LaterAgain }
{}

/// All that is true of a world, whatever events came before, is true of it on later inputs. It is the very same world but for
/// these, and nothing that has left is another.
pub fn feeding_law()
    // `WorldInvariant` holds of it, for which nothing is asked but that the inputs are later ones.
    ensures sound { StaysSound }
    // Network, stations, what is in flight, round and rooms are the same.
    ensures same { ChangesInputsAlone }
    // A job that is out stays one, so that what comes of it may be installed.
    ensures job { JobStays }
    // What has left is, for all outputs at once, within the approximation of the same number.
    ensures within { OutputsStayWithin }
    // Checkpoints are coordinated over an event, whatever came on the inputs before it and behind it.
    ensures coordinated { StaysCoordinated }
    // A world may start again on later inputs than those on which its records were left.
    ensures left { LeftStays }
{}

/// More on the inputs may make a world go on in which nothing was left to do, and never brings one to its end: it goes on exactly
/// where a process waits for an input that has got more.
pub fn quiet_law()
    ensures { QuietWhereNoneWaits }
{}

/// Whatever events are made, and whatever comes on the inputs between them, while channels get other rooms and worlds start again
/// from what others left: each world is sound, and what has left only grows and is right on the inputs that there are by then.
pub fn going_on_law()
    ensures { GoesOnWhateverComes }
{}
