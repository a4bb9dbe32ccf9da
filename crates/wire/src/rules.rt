// All rules that are armed, and what becomes of each packet for which there is one.
//
// Each packet that is sent asks for its fate, so that is looked up and not reckoned anew: it takes the same time for one rule as
// for many thousands. Arming a rule looks up one packet too. In memory a rule is 32 bytes, and in the index a packet
// for which there is one takes about 50 more.
//
// Rules that are all for packets long past or far ahead cost less still: it is known between which numbers they lie.
ghost use Rattle.std.specs.Prelude.{◌≡◌, ◌≤◌, ℕ, ◌++◌, [], ◌∷◌, false, IsTrue, ◌↔◌, OnOk, OnErr};
ghost use Rattle.wire.specs.Index.{plain_fate};
ghost use Rattle.wire.specs.Rules.{fate_of};

use crate::rule::{Fate, Rule, changed_by};
use std::alloc::{AllocError, Global};
use std::collections::HashMap;
use std::marker::Model;

/// Which packet from one node to another.
#[derive(Clone, Copy, Debug, PartialEq, Eq, Hash)]
pub(crate) struct Passage {
    from: u8,
    to: u8,
    nth: u64,
}

/// The rules that are armed, in their order.
pub(crate) struct Rules {
    list: Vec<Rule>,
    fates: HashMap<Passage, Fate>,
    // The least number of a packet for which there is one, and the greatest.
    least: u64,
    most: u64,
}

// Written out, since each crate above would go through a derived one again.
impl Drop for Rules {
    fn drop(self) {
        let Self {
            list,
            fates,
            least,
            most,
        } = self;
    }
}

impl Model for Rules {
    ghost use Rattle.std.specs.Prelude.{List};
    ghost use Rattle.wire.specs.Index.{AreFrom, AreUpTo, IsIndex};
    ghost use Rattle.wire.specs.declared.rule.Rule.{Rule as Armed};

    ghost Value = { List Armed };

    ghost view = { λ rules. rules.list.items };

    ghost invariant = { λ rules. IsIndex rules.list.items rules.fates
        × AreFrom rules.list.items rules.least × AreUpTo rules.list.items rules.most };
}

impl Rules {
    pub(crate) fn new(alloc: Global) -> Rules
        ensures { result ≡ [] }
    {
        Rules {
            list: Vec::new(alloc),
            fates: HashMap::new(alloc),
            least: u64::MAX,
            most: 0,
        }
    }

    pub(crate) fn is_empty(&self) -> bool
        ensures { IsTrue result ↔ (self.now ≡ []) }
    {
        self.list.is_empty()
    }

    // What becomes of the `nth` packet from one node to another.
    pub(crate) fn fate(&self, from: u8, to: u8, nth: u64) -> Fate
        ensures { result ≡ fate_of self.now from to nth }
    {
        match self.fates.get(&Passage { from, to, nth }) {
            Some(fate) => *fate,
            None => Fate {
                copies: 1,
                delay: 0,
            },
        }
    }

    // Whether there is one for the `nth` packet from one node to another.
    pub(crate) fn is_for(&self, from: u8, to: u8, nth: u64) -> bool
        ensures { result ≡ false → fate_of self.now from to nth ≡ plain_fate }
    {
        self.fates.contains_key(&Passage { from, to, nth })
    }

    // Whether there is none for any packet with one of these numbers, whichever node sends it.
    pub(crate) fn is_none_between(&self, first: u64, last: u64) -> bool
        ensures { IsTrue result → (from to nth : ℕ) → first ≤ nth → nth ≤ last
            → fate_of self.now from to nth ≡ plain_fate }
    {
        last < self.least || self.most < first
    }

    // Arms one more. All memory is taken first, and a refusal leaves them as they were.
    pub(crate) fn arm(&mut self, rule: Rule) -> Result<(), AllocError>
        ensures ok { OnOk result (self.new ≡ self.old ++ rule ∷ []) }
        ensures err { OnErr result (self.new ≡ self.old) }
    {
        let Rule {
            from,
            to,
            nth,
            change,
        } = rule;
        let fate = changed_by(self.fate(from, to, nth), change);
        self.list.reserve(1)?;
        self.fates.insert(Passage { from, to, nth }, fate)?;
        self.list.push_reserved(rule);
        self.least = self.least.min(nth);
        self.most = self.most.max(nth);
        Ok(())
    }
}
