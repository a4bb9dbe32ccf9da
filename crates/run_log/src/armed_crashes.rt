// The crashes that are armed for the ends of deliveries, and the first one for each.
//
// Each delivery asks for its crash, so that is looked up: it takes the same time for one that is armed as for many thousands.
// Arming one looks up one delivery too. In memory a crash is 32 bytes, and the first one for a delivery takes
// about 60 more.
ghost use Rattle.std.specs.Prelude.{◌≡◌, ◌++◌, [], ◌∷◌, List, OnOk, OnErr};
ghost use Rattle.replay.specs.Armed.{first_crash};
ghost use Rattle.replay.specs.declared.kept.ArmedCrash.{ArmedCrash as Crash};
ghost use Rattle.run_log.specs.Firsts.{HasFirsts};

use replay::ArmedCrash;
use std::alloc::{AllocError, Global};
use std::collections::HashMap;
use std::marker::Model;

/// Which delivery of a node.
#[derive(Clone, Copy, Debug, PartialEq, Eq, Hash)]
pub(crate) struct Delivery {
    node: u8,
    number: u64,
}

/// The crashes that are armed, in their order.
pub(crate) struct ArmedCrashes {
    list: Vec<ArmedCrash>,
    firsts: HashMap<Delivery, ArmedCrash>,
}

// Written out, since each crate above would go through a derived one again.
impl Drop for ArmedCrashes {
    fn drop(self) {
        let Self { list, firsts } = self;
    }
}

impl Model for ArmedCrashes {
    ghost use Rattle.std.specs.Prelude.{List};
    ghost use Rattle.replay.specs.declared.kept.ArmedCrash.{ArmedCrash as Crash};
    ghost use Rattle.run_log.specs.Firsts.{HasFirsts};

    ghost Value = { List Crash };

    ghost view = { λ crashes. crashes.list.items };

    ghost invariant = { λ crashes. HasFirsts crashes.list.items crashes.firsts };
}

// Notes a crash, where it is the first one for its delivery. Refuses for want of memory alone.
fn note(firsts: &mut HashMap<Delivery, ArmedCrash>, crash: ArmedCrash) -> Result<(), AllocError>
    ensures noted { OnOk result ((crashes : List Crash) → HasFirsts crashes firsts.old
        → HasFirsts (crashes ++ crash ∷ []) firsts.new) }
    ensures refused { OnErr result (firsts.new.entries ≡ firsts.old.entries) }
{
    let delivery = Delivery {
        node: crash.node,
        number: crash.delivery,
    };
    if firsts.contains_key(&delivery) {
        return Ok(());
    }
    firsts.insert(delivery, crash)?;
    Ok(())
}

impl ArmedCrashes {
    /// None is armed.
    pub(crate) fn new(alloc: Global) -> ArmedCrashes
        ensures { result ≡ [] }
    {
        ArmedCrashes {
            list: Vec::new(alloc),
            firsts: HashMap::new(alloc),
        }
    }

    /// The first one that is armed for this delivery of a node.
    pub(crate) fn first(&self, node: u8, delivery: u64) -> Option<ArmedCrash>
        ensures { result ≡ first_crash node delivery self.now }
    {
        let found = self.firsts.get(&Delivery {
            node,
            number: delivery,
        });
        found.copied()
    }

    /// Arms one more. All memory is taken first, and a refusal leaves them as they were.
    pub(crate) fn arm(&mut self, crash: ArmedCrash) -> Result<(), AllocError>
        ensures ok { OnOk result (self.new ≡ self.old ++ crash ∷ []) }
        ensures err { OnErr result (self.new ≡ self.old) }
    {
        self.list.reserve(1)?;
        note(&mut self.firsts, crash)?;
        self.list.push_reserved(crash);
        Ok(())
    }
}
