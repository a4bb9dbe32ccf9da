// How the nodes' threads stand to one another.

use crate::quiet::Quiet;
use wire::NODES;

/// What is known of one node and of its thread.
#[derive(Clone, Copy)]
struct Worker {
    // Whether the node's seats are at its desk. Else they are out with a job, or there are none.
    present: bool,
    // Whether a job waits at the desk for the node's own thread.
    job_waits: bool,
    // Whether whoever leaves the lock next wakes the thread. A call that wakes one goes to the system, so none is made for a thread
    // that needn't wake.
    wakes: bool,
    // When the node was told last that there is nothing to do, if nothing was done for it since.
    quiet: Option<Quiet>,
    // How many jobs were granted. It begins at 0 again behind 2^64 - 1.
    jobs: u64,
}

/// What the nodes' threads know of one another, under the hub's lock. At most one of them is on duty: it takes the turns of all nodes
/// whose seats are at their desks. The others sleep, or run a job that may take long.
#[derive(Clone, Copy)]
pub(crate) struct Workers {
    workers: [Worker; NODES],
    // The node whose thread is on duty.
    on_duty: Option<u8>,
}

impl Workers {
    /// No seats are at a desk, and nobody is on duty.
    pub fn new() -> Workers {
        let worker = Worker {
            present: false,
            job_waits: false,
            wakes: false,
            quiet: None,
            jobs: 0,
        };
        Workers {
            workers: [worker; NODES],
            on_duty: None,
        }
    }

    /// A node's seats are at its desk from now on, and there may be something to do for it.
    pub fn comes_back(&mut self, node: u8) {
        if let Some(worker) = self.workers.get_mut(usize::from(node)) {
            worker.present = true;
            worker.quiet = None;
        }
    }

    /// A node's seats leave its desk with a job that was granted. How many jobs were before.
    pub fn goes_out(&mut self, node: u8) -> u64 {
        match self.workers.get_mut(usize::from(node)) {
            Some(worker) => {
                worker.present = false;
                let nth = worker.jobs;
                worker.jobs = nth.wrapping_add(1);
                nth
            }
            None => 0,
        }
    }

    /// There is nothing to do for a node, or there may be something by now.
    pub fn rests(&mut self, node: u8, quiet: Option<Quiet>) {
        if let Some(worker) = self.workers.get_mut(usize::from(node)) {
            worker.quiet = quiet;
        }
    }

    /// Whether a node's seats are at its desk.
    pub fn is_present(&self, node: u8) -> bool {
        match self.workers.get(usize::from(node)) {
            Some(worker) => worker.present,
            None => false,
        }
    }

    /// When a node was told last that there is nothing to do, if nothing was done for it since.
    pub fn quiet(&self, node: u8) -> Option<Quiet> {
        let worker = self.workers.get(usize::from(node))?;
        worker.quiet
    }

    /// A job waits at a node's desk from now on, and the node's thread is to be woken for it.
    pub fn gives_job(&mut self, node: u8) {
        if let Some(worker) = self.workers.get_mut(usize::from(node)) {
            worker.job_waits = true;
            worker.wakes = true;
        }
    }

    /// A node's thread has the job that waited for it.
    pub fn takes_job(&mut self, node: u8) {
        if let Some(worker) = self.workers.get_mut(usize::from(node)) {
            worker.job_waits = false;
        }
    }

    /// Whether a job waits for a node's thread.
    pub fn has_job(&self, node: u8) -> bool {
        match self.workers.get(usize::from(node)) {
            Some(worker) => worker.job_waits,
            None => false,
        }
    }

    /// Whether nobody is on duty.
    pub fn is_vacant(&self) -> bool {
        self.on_duty.is_none()
    }

    /// Whether a node's thread is on duty.
    pub fn is_on_duty(&self, node: u8) -> bool {
        self.on_duty == Some(node)
    }

    /// A node's thread is on duty from now on, if nobody is.
    pub fn takes_duty(&mut self, node: u8) {
        if self.on_duty.is_none() {
            self.on_duty = Some(node);
        }
    }

    /// A node's thread is on duty from now on, if nobody is, and it is to be woken.
    pub fn appoints(&mut self, node: u8) {
        self.takes_duty(node);
        if let Some(worker) = self.workers.get_mut(usize::from(node)) {
            worker.wakes = true;
        }
    }

    /// A node's thread isn't on duty any more.
    pub fn leaves_duty(&mut self, node: u8) {
        if self.on_duty == Some(node) {
            self.on_duty = None;
        }
    }

    /// The nodes whose threads are to be woken. From now on none is.
    pub fn take_woken(&mut self) -> [bool; NODES] {
        let mut woken = [false; NODES];
        for node in 0..NODES {
            woken[node] = self.workers[node].wakes;
            self.workers[node].wakes = false;
        }
        woken
    }
}
