//! Processes that are run again.

ghost use Rattle.kahn_net.specs.Fits.{Fits};
ghost use Rattle.kahn_net.specs.Syntax.{network_of};
ghost use Rattle.rerun.specs.TableOf.{table_view};
ghost use Rattle.rerun.specs.Tables.{HasRerun, IsInOrder};

use crate::table::Table;
use net_check::{Inputs, Net};
use std::sync::Arc;

/// Processes of a network that are run again: where each stands, how many items of each channel were got, and of each channel on which
/// a process puts a log of what was put there.
///
/// Its type keeps that turns of the processes lead there from where none had begun. So it is a place of the network
/// (`Rerun::place_law`), however its methods were called.
pub struct Rerun {
    pub(crate) net: Arc<Net>,
    pub(crate) inputs: Arc<Inputs>,
    pub(crate) table: Table,
    pub ghost fits: { Fits (network_of net.value.program) inputs.value },
    pub ghost ordered: { IsInOrder (network_of net.value.program) inputs.value (table_view table) },
    pub ghost reached: { ∥ HasRerun (network_of net.value.program) inputs.value (table_view table) ∥₁ },
}

// Written out, since each crate above would go through a derived one again.
impl Drop for Rerun {
    fn drop(self) {
        let Self { net, inputs, table } = self;
    }
}
