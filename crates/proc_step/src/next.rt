//! What a process does next.

ghost use Rattle.std.specs.Prelude.{◌≡◌, ◌<◌, Some, length, slice_get};
ghost use Rattle.kahn_net.specs.Common.{network_of, next_of, standing_of};
ghost use Rattle.kahn_net.specs.Syntax.{Code as Syntax};
ghost use Rattle.kahn_net.specs.NextActs.{next_at};
ghost use Rattle.proc_code.specs.CodeView.{code_view};
ghost use Rattle.proc_code.specs.Translation.{flat_code};
ghost use Rattle.proc_step.specs.NextView.{next_view};

use kahn_net::{Mode, ProcState};
use net_check::Net;
use proc_code::{Code, SiteAct};

/// What a process does next from where it stands.
#[derive(Clone, Copy, Debug, PartialEq, Eq)]
pub enum NextAct {
    /// It begins.
    Begin,
    /// It gets from this channel.
    Get { channel: usize },
    /// It puts on this channel.
    Put { channel: usize },
    /// Nothing: it has finished.
    Nothing,
}

/// The get or put of a site: one look into the table.
fn act_of(code: &Code, site: usize) -> NextAct
    ensures { (process : Syntax) → code_view code.now ≡ flat_code process
        → next_view result ≡ next_at process site }
{
    match code.sites.get(site) {
        Some(row) => match row.act {
            SiteAct::Get { channel } => NextAct::Get { channel },
            SiteAct::Put { channel } => NextAct::Put { channel },
        },
        None => NextAct::Nothing,
    }
}

/// What the process of this number does next from this state. Takes no memory, and the same time whatever the
/// process's text is.
pub fn next_act(net: &Net, process: usize, state: &ProcState) -> NextAct
    requires { process < length net.now.program.processes.items }
    ensures { (code : Syntax) → slice_get (network_of net.now.program).codes process ≡ Some code
        → next_view result ≡ next_of code (standing_of state.now) }
{
    match &state.mode {
        Mode::NotBegun => NextAct::Begin,
        Mode::At(place) => act_of(&net.codes[process], place.site),
        Mode::Finished => NextAct::Nothing,
    }
}
