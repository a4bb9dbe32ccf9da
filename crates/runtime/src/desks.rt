// Where the seats of nodes are while nobody has them.

use crate::hub_run::HubRun;
use crate::over::Over;
use crate::seat::NodeSeat;
use crate::task::Task;
use crate::threads::NodeSeats;
use marks::MarksName;
use std::alloc::{AllocError, Global};
use std::sync::{Mutex, MutexGuard, Wait};

/// The desk of a node: its seats, or a job that waits for its thread, or neither while they are out.
pub(crate) struct Desk<ThisRun: HubRun, ItsMarks: MarksName> {
    pub seats: Option<NodeSeats<ThisRun, ItsMarks>>,
    pub task: Option<Task<ThisRun, ItsMarks>>,
}

impl<ThisRun: HubRun, ItsMarks: MarksName> Desk<ThisRun, ItsMarks> {
    // The seat that is here, by itself or with a job that nobody has run, behind others.
    fn clear(self, over: &Over<ThisRun>, seats: &mut Vec<NodeSeat<ThisRun>>) {
        let Desk {
            seats: at_desk,
            task,
        } = self;
        if let Some(node_seats) = at_desk {
            let _ = seats.push(node_seats.into_seat());
        }
        if let Some(task) = task {
            let _ = seats.push(task.leave(over));
        }
    }
}

/// The desks of nodes, by number. Whoever opens them has the hub's lock, so nobody ever waits for them. They can't be dropped, since jobs may
/// lie there: they are cleared, once the run is stopped.
pub struct Desks<ThisRun: HubRun, ItsMarks: MarksName> {
    desks: Mutex<Vec<Desk<ThisRun, ItsMarks>>>,
}

impl<ThisRun: HubRun, ItsMarks: MarksName> Desks<ThisRun, ItsMarks> {
    /// A desk for each node, with its seats. Refuses for want of memory alone.
    pub fn new(
        alloc: Global,
        seats: Vec<NodeSeats<ThisRun, ItsMarks>>,
    ) -> Result<Desks<ThisRun, ItsMarks>, AllocError> {
        let count = seats.len();
        let mut desks = Vec::with_capacity(alloc, count)?;
        let mut seats = seats.into_iter();
        for _number in 0..count {
            desks.push_reserved(Desk {
                seats: seats.next(),
                task: None,
            });
        }
        Ok(Desks {
            desks: Mutex::new(desks),
        })
    }

    /// The desks, for who has the hub's lock.
    pub(crate) fn open<R: Wait>(&self, rt: &R) -> MutexGuard<'_, Vec<Desk<ThisRun, ItsMarks>>> {
        self.desks.lock(rt)
    }

    /// The seats that are at their desks, behind others, where there is room for them.
    pub fn clear(self, over: &Over<ThisRun>, seats: &mut Vec<NodeSeat<ThisRun>>) {
        let Desks { desks } = self;
        let mut desks = desks.into_inner();
        while let Some(desk) = desks.pop() {
            desk.clear(over, seats);
        }
        desks.destroy_empty();
    }
}
