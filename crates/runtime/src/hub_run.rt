// Which run a hub is of.

use run_log::Run;
use std::marker::Brand;

/// Which run by threads it is. Beside what a run is, its name says where it ends, whether somebody may stop it before, whether it had begun
/// when its hub was made, and which journal it has. A caller of the whole picks it.
pub trait HubRun: Run {
    ghost use Rattle.std.specs.Prelude.{Bool, List};
    ghost use Rattle.protocol.specs.Node.Common.{Channel};
    ghost use Rattle.atomic_table.specs.Seated.{TableId};
    ghost use Rattle.runtime.specs.declared.bounds.Bounds.{Bounds};

    /// The channels of its network.
    ghost channels: { List Channel };

    ghost bounds: { Bounds };

    /// Whether somebody may stop it before it is over.
    ghost may_stop: { Bool };

    /// Whether the script's lines of round 0 were passed before its hub was made.
    ghost begun: { Bool };

    /// Which journal its history has.
    ghost journal: { TableId };
}

impl HubRun for Brand {
    ghost use Rattle.std.specs.Prelude.{[], None, false, true};
    ghost use Rattle.marks.specs.Names.{no_table};

    ghost channels = { [] };

    ghost bounds = { record { rounds = 0; items = None } };

    ghost may_stop = { true };

    ghost begun = { false };

    ghost journal = { no_table };
}
