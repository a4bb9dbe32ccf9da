// What a node's turn comes to for its worker.
ghost use Rattle.std.specs.Prelude.{◌≡◌};
ghost use Rattle.runtime.specs.Marked.{turned_by, turned_of};

use proc_step::Job;
use run_log::TurnAnswer;
use std::sync::Arc;
use world::Reply;

/// A job that was granted. It can't be dropped: it becomes a task (`Task::new`).
pub(crate) struct Grant {
    job: Arc<Job>,
}

/// What a node's turn comes to for its worker. It can't be dropped, since it may be a job.
pub(crate) enum Turned {
    /// A job was granted.
    Granted(Grant),
    /// An event was made, or a channel got more room.
    Acts {
        /// Whether an item may have left by it.
        left: bool,
    },
    /// There is nothing to do for the node.
    Rests,
    /// The script's next line comes first, or the run is stopped.
    Waits,
}

impl Grant {
    /// The job.
    pub fn into_job(self) -> Arc<Job>
        ensures { result ≡ self.job }
    {
        let Grant { job } = self;
        job
    }
}

// What the reply of a node's event comes to.
fn turned_by(reply: Reply) -> Turned
    ensures { result ≡ turned_by reply }
{
    match reply {
        Reply::Granted(job) => Turned::Granted(Grant { job }),
        Reply::Released(_) | Reply::OutletFailed => Turned::Acts { left: true },
        _ => Turned::Acts { left: false },
    }
}

impl Turned {
    /// What an answer comes to.
    pub fn of(answer: TurnAnswer) -> Turned
        ensures { result ≡ turned_of answer }
    {
        match answer {
            TurnAnswer::Reply(reply) => turned_by(reply),
            TurnAnswer::Widened(_) => Turned::Acts { left: false },
            TurnAnswer::Nothing => Turned::Rests,
            TurnAnswer::Late | TurnAnswer::Stopped => Turned::Waits,
        }
    }
}
