//! Laws of each step.

ghost use Rattle.recovery_line.specs.Laws.{IsConsistent, Opens, RunsOn, StartsConsistently, StaysConsistent};
ghost use Rattle.recovery_line.specs.Laws.{IsTrueWhenSent, StaysTrue, MovesAtMostOnce};

/// A run may begin with the opening world, and with any world of images that fit together, in which
/// no node does anything yet. Such a world is consistent, and each step keeps it so. Each run leads
/// from a reachable world to a reachable one, and those are consistent.
pub fn consistency_law()
    ensures opening { Opens }
    ensures starts { StartsConsistently }
    ensures step { StaysConsistent }
    ensures run { RunsOn }
    ensures reachable { IsConsistent }
{}

/// What a packet says is true when it is sent, and stays true whatever comes later, so that it may
/// be lost, repeated, delayed or overtaken.
pub fn packet_law()
    ensures sent { IsTrueWhenSent }
    ensures later { StaysTrue }
{}

/// A step writes at most one node's record, by one move, and not where it appends to an outlet.
pub fn move_law()
    ensures { MovesAtMostOnce }
{}
