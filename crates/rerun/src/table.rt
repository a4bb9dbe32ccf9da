// What is in memory of a stage.
ghost use Rattle.std.specs.Prelude.{◌≡◌, IfOk, map, replicate};
ghost use Rattle.kahn_net.specs.States.{standing_of};
ghost use Rattle.kahn_net.specs.Syntax.{code_of, network_of};
ghost use Rattle.rerun.specs.TableOf.{table_view};
ghost use Rattle.rerun.specs.Tables.{first_table, no_log, not_begun};

use kahn_net::{Mode, ProcState, Process, Program};
use retained::Log;
use std::alloc::{AllocError, Global};

/// How far the processes are: by process its state, and by channel how many items were got, and a log of those that were put.
pub(crate) struct Table {
    pub states: Vec<ProcState>,
    pub got: Vec<u64>,
    pub logs: Vec<Log>,
}

// Written out, since each crate above would go through a derived one again.
impl Drop for Table {
    fn drop(self) {
        let Self { states, got, logs } = self;
    }
}

// The states of these processes before they begin.
fn first_states(alloc: Global, processes: &[Process]) -> Result<Vec<ProcState>, AllocError>
    ensures { IfOk result (λ states. map standing_of states.items
        ≡ map not_begun (map code_of processes.now)) }
{
    let mut states = Vec::with_capacity(alloc, processes.len())?;
    for process in processes {
        states.push(ProcState {
            mode: Mode::NotBegun,
            variables: Vec::from_slice(alloc, process.variables.as_slice())?,
        })?;
    }
    Ok(states)
}

// So many logs without items.
fn empty_logs(alloc: Global, count: usize) -> Result<Vec<Log>, AllocError>
    ensures { IfOk result (λ logs. logs.items ≡ replicate count no_log) }
{
    let mut logs = Vec::with_capacity(alloc, count)?;
    for number in 0..count {
        logs.push(Log::new(alloc))?;
    }
    Ok(logs)
}

impl Table {
    /// The table before any process has begun.
    pub(crate) fn new(alloc: Global, program: &Program) -> Result<Table, AllocError>
        ensures { IfOk result (λ table. table_view table ≡ first_table (network_of program.now)) }
    {
        let channels = program.channels.len();
        Ok(Table {
            states: first_states(alloc, &program.processes)?,
            got: vec![in alloc; 0; channels]?,
            logs: empty_logs(alloc, channels)?,
        })
    }
}
