// Where threads sleep, and who is woken.

use std::alloc::{AllocError, Global};
use std::sync::Condvar;
use wire::NODES;

/// Whom a change wakes.
#[derive(Clone, Copy)]
pub(crate) struct Woken {
    pub nodes: [bool; NODES],
    pub driver: bool,
    pub watch: bool,
}

/// Where threads sleep: one place for each node, the driver's, and that of who watches the run.
#[derive(Drop)]
pub(crate) struct Sleepers {
    nodes: Vec<Condvar>,
    driver: Condvar,
    watch: Condvar,
}

impl Woken {
    /// Everybody.
    pub fn all() -> Woken {
        Woken {
            nodes: [true; NODES],
            driver: true,
            watch: true,
        }
    }
}

impl Sleepers {
    /// Places for so many nodes, the driver, and who watches. Refuses for want of memory alone.
    pub fn new(alloc: Global, nodes: u8) -> Result<Sleepers, AllocError> {
        let mut places = Vec::with_capacity(alloc, usize::from(nodes))?;
        for _ in 0..nodes {
            places.push(Condvar::new())?;
        }
        Ok(Sleepers {
            nodes: places,
            driver: Condvar::new(),
            watch: Condvar::new(),
        })
    }

    /// A node's place, if it is one of these.
    pub fn node(&self, node: u8) -> Option<&Condvar> {
        self.nodes.get(usize::from(node))
    }

    /// The driver's.
    pub fn driver(&self) -> &Condvar {
        &self.driver
    }

    /// That of who watches the run.
    pub fn watch(&self) -> &Condvar {
        &self.watch
    }

    /// Wakes who is to be woken. Nobody is to hold the lock meanwhile, or they wait for it at once.
    pub fn wake(&self, woken: Woken) {
        self.wake_nodes(woken.nodes);
        if woken.driver {
            self.driver.notify_all();
        }
        if woken.watch {
            self.watch.notify_all();
        }
    }

    /// Wakes the threads of these nodes.
    pub fn wake_nodes(&self, woken: [bool; NODES]) {
        for (node, place) in self.nodes.iter().enumerate() {
            if node < NODES && woken[node] {
                place.notify_all();
            }
        }
    }
}
