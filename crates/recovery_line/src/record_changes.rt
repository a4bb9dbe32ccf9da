//! How the records that nodes write are seen here.

ghost use Rattle.recovery_line.specs.Observers.{TakingMoves, DecidingMoves, SettlingMoves, DroppingMoves, ConfirmingMoves, EpochDropsOwn, EpochIsNotSeen};

/// Each change of a record (`record/specs/Moves`) is a move, as it is seen here, or isn't seen at all.
pub fn record_law()
    ensures takes { TakingMoves }
    ensures decides { DecidingMoves }
    ensures settles { SettlingMoves }
    ensures drops { DroppingMoves }
    ensures confirms { ConfirmingMoves }
    ensures epoch { EpochDropsOwn }
    ensures epoch_alone { EpochIsNotSeen }
{}
