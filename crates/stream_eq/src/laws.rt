//! Laws of networks. The calls do nothing: that their contracts are proved is what they are for.

ghost use Rattle.stream_eq.specs.Laws.{WellFounded, Monotone, StandsStill, Growing, OneItem};
ghost use Rattle.stream_eq.specs.Laws.{StaysAtRest, RestIsSolution, BelowSolutions};

/// A process's acts on given histories are well founded: each whole pass of a valid loop gets an
/// item, so that more passes than there are items unread, and one, make no more acts.
pub fn well_founded_law()
    ensures { WellFounded }
{}

/// A process's function is monotone: from longer input histories it puts the same on each channel,
/// and then more.
pub fn monotone_law()
    ensures { Monotone }
{}

/// Where a process stands after so many acts doesn't depend on what comes later on its inputs.
pub fn standing_law()
    ensures { StandsStill }
{}

/// Approximations only grow: each history is a prefix of that in every later approximation.
pub fn growth_law()
    ensures { Growing }
{}

/// Two items that belong at one position of one channel, in whichever approximations, are equal.
pub fn one_item_law()
    ensures { OneItem }
{}

/// Once two approximations in a row agree, they agree for ever.
pub fn agreement_law()
    ensures { StaysAtRest }
{}

/// Where two approximations in a row agree, they are the least solution: a solution, and below
/// every other one.
pub fn least_solution_law()
    ensures solution { RestIsSolution }
    ensures least { BelowSolutions }
{}
