// Who watches a run.

use crate::job_watch::NoWatch;
use crate::run_handle::RunHandle;
use std::sync::Wait;

/// Who watches a run while it goes on: it reads how many items have left by each output, and may stop the run.
pub trait RunWatch {
    ghost use Rattle.std.specs.Prelude.{◌≡◌, Bool};

    /// Whether it may stop the run.
    ghost may_stop: { Bool };

    /// Whether it watches at all. Where it says no, no thread is made for it, and `watch` isn't called.
    fn watches(&self) -> bool {
        true
    }

    /// Called once, on a thread of its own beside those of the run. (Where none can be made, it is called once the run is over.)
    /// `run_world` returns only when this has returned, so it should return once the run is over. Whoever waits for news is woken
    /// by then.
    fn watch<H: RunHandle, R: Wait>(&self, rt: &R, run: &mut H)
        requires { H.may_stop ≡ may_stop };
}

impl RunWatch for NoWatch {
    ghost use Rattle.std.specs.Prelude.{false};

    ghost may_stop = { false };

    fn watches(&self) -> bool {
        false
    }

    fn watch<H: RunHandle, R: Wait>(&self, _rt: &R, _run: &mut H) {}
}
