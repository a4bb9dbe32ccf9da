// How often each seat was answered, in tokens that can't be made up.
ghost use Rattle.std.specs.Prelude.{◌≡◌, ◌+◌, ◌<◌, ◌≤◌, ℕ, Bool, true, List, []};
ghost use Rattle.protocol.specs.Node.Common.{MAX_COUNT};
ghost use Rattle.run_log.specs.declared.seat_count.Counted.TheVariants as kind;
ghost use Rattle.run_log.specs.Numbers.{Names, added, counted, no_names, no_numbers};

use std::marker::{Brand, PhantomData};
use std::sync::ledger::{Blank, Book as Ledgers, Ledger, Share};

/// Whose answers are counted: the names of five ledgers, and how many seats there are. A caller of the whole picks it.
pub trait RunLedgers {
    ghost names: { Names };

    ghost seats: { ℕ };
}

impl RunLedgers for Brand {
    ghost names = { no_names };

    ghost seats = { 0 };
}

/// Which run it is: the world that it begins with, which records its nodes' cells have room for, its script, and whether a history of
/// it is kept.
pub trait Run: RunLedgers {
    ghost use Rattle.protocol.specs.World.Common.{WorldView};
    ghost use Rattle.protocol.specs.Node.Common.{RecordView};
    ghost use Rattle.replay.specs.declared.kept.ScriptedEvent.{ScriptedEvent};

    ghost opening: { WorldView };

    ghost rooms: { List (RecordView → Bool) };

    ghost script: { List ScriptedEvent };

    ghost keeps: { Bool };
}

impl Run for Brand {
    ghost use Rattle.run_log.specs.NoWorld.{no_world};

    ghost opening = { no_world };

    ghost rooms = { [] };

    ghost script = { [] };

    ghost keeps = { true };
}

/// Counts the events.
pub struct Entries<ThisRun: RunLedgers> {
    of: PhantomData<ThisRun>,
}

/// Counts the answers `Nothing`.
pub struct Nothings<ThisRun: RunLedgers> {
    of: PhantomData<ThisRun>,
}

/// Counts the answers `NotYet`.
pub struct NotYets<ThisRun: RunLedgers> {
    of: PhantomData<ThisRun>,
}

/// Counts the answers `NoMore`.
pub struct NoMores<ThisRun: RunLedgers> {
    of: PhantomData<ThisRun>,
}

/// Counts the answers `Stopped`.
pub struct Stops<ThisRun: RunLedgers> {
    of: PhantomData<ThisRun>,
}

impl<ThisRun: RunLedgers> Ledger for Entries<ThisRun> {
    ghost name = { ThisRun.names.entries };

    ghost parts = { ThisRun.seats };
}

impl<ThisRun: RunLedgers> Ledger for Nothings<ThisRun> {
    ghost name = { ThisRun.names.nothings };

    ghost parts = { ThisRun.seats };
}

impl<ThisRun: RunLedgers> Ledger for NotYets<ThisRun> {
    ghost name = { ThisRun.names.not_yets };

    ghost parts = { ThisRun.seats };
}

impl<ThisRun: RunLedgers> Ledger for NoMores<ThisRun> {
    ghost name = { ThisRun.names.no_mores };

    ghost parts = { ThisRun.seats };
}

impl<ThisRun: RunLedgers> Ledger for Stops<ThisRun> {
    ghost name = { ThisRun.names.stops };

    ghost parts = { ThisRun.seats };
}

/// What is counted.
#[derive(Clone, Copy, Debug, PartialEq, Eq)]
pub enum Counted {
    Entry,
    Nothing,
    NotYet,
    NoMore,
    Stop,
}

/// How often all seats together were answered.
#[derive(Drop)]
pub struct RunCount<ThisRun: RunLedgers> {
    made: u64,
    entries: Ledgers<Entries<ThisRun>>,
    nothings: Ledgers<Nothings<ThisRun>>,
    not_yets: Ledgers<NotYets<ThisRun>>,
    no_mores: Ledgers<NoMores<ThisRun>>,
    stops: Ledgers<Stops<ThisRun>>,
    pub ghost counts: { made ≡ entries.total },
}

/// How often one seat, or some together, were answered.
#[derive(Drop)]
pub struct SeatCount<ThisRun: RunLedgers> {
    entries: Share<Entries<ThisRun>>,
    nothings: Share<Nothings<ThisRun>>,
    not_yets: Share<NotYets<ThisRun>>,
    no_mores: Share<NoMores<ThisRun>>,
    stops: Share<Stops<ThisRun>>,
    pub ghost alike: { (nothings.parts ≡ entries.parts) × (not_yets.parts ≡ entries.parts)
        × (no_mores.parts ≡ entries.parts) × (stops.parts ≡ entries.parts) },
}

impl<ThisRun: RunLedgers> RunCount<ThisRun> {
    ghost use Rattle.run_log.specs.SeatCounts.{run_numbers, seat_numbers, seat_parts};

    /// How many events were made.
    pub fn made(&self) -> u64
        ensures { result ≡ (run_numbers self.now).entries }
    {
        self.made
    }

    /// Counts an answer of a seat.
    pub fn add(&mut self, count: &mut SeatCount<ThisRun>, which: Counted)
        requires part { 0 < seat_parts count.old }
        requires number { which ≡ kind.Entry → (run_numbers self.old).entries < MAX_COUNT }
        ensures total { run_numbers self.new ≡ counted which (run_numbers self.old) }
        ensures own { seat_numbers count.new ≡ counted which (seat_numbers count.old) }
        ensures parts { seat_parts count.new ≡ seat_parts count.old }
    {
        match which {
            Counted::Entry => {
                self.entries.add(&mut count.entries, 1);
                self.made += 1;
            }
            Counted::Nothing => self.nothings.add(&mut count.nothings, 1),
            Counted::NotYet => self.not_yets.add(&mut count.not_yets, 1),
            Counted::NoMore => self.no_mores.add(&mut count.no_mores, 1),
            Counted::Stop => self.stops.add(&mut count.stops, 1),
        }
    }

    /// Whoever has the parts of all seats learns that what they were answered is all there is.
    pub fn audit(&mut self, all: &mut SeatCount<ThisRun>)
        ensures same { run_numbers self.new ≡ run_numbers self.old }
        ensures whole { seat_parts all.old ≡ ThisRun.seats
            → run_numbers self.old ≡ seat_numbers all.old }
        // And whoever has some of them, that no answer `Stopped` of theirs is missing.
        ensures stops { (seat_numbers all.old).stops ≤ (run_numbers self.old).stops }
    {
        self.entries.audit(&mut all.entries);
        self.nothings.audit(&mut all.nothings);
        self.not_yets.audit(&mut all.not_yets);
        self.no_mores.audit(&mut all.no_mores);
        self.stops.audit(&mut all.stops);
    }
}

/// Five ledgers that no run has yet.
#[derive(Drop)]
pub struct UnusedLedgers {
    entries: Blank,
    nothings: Blank,
    not_yets: Blank,
    no_mores: Blank,
    stops: Blank,
}

impl UnusedLedgers {
    ghost use Rattle.run_log.specs.LedgerNames.{HaveParts, names_of};
    ghost use Rattle.run_log.specs.SeatCounts.{run_numbers, seat_numbers, seat_parts};

    /// Ledgers for so many seats.
    pub fn new(seats: u64) -> UnusedLedgers
        ensures { HaveParts result seats }
    {
        UnusedLedgers {
            entries: Blank::new(seats),
            nothings: Blank::new(seats),
            not_yets: Blank::new(seats),
            no_mores: Blank::new(seats),
            stops: Blank::new(seats),
        }
    }

    /// The ledgers of a run: nothing is counted yet, and one count has the parts of all seats.
    pub fn open<ThisRun: RunLedgers>(self) -> (RunCount<ThisRun>, SeatCount<ThisRun>)
        requires names { names_of self ≡ ThisRun.names }
        requires seats { HaveParts self ThisRun.seats }
        ensures totals { run_numbers result.0 ≡ no_numbers }
        ensures count { seat_numbers result.1 ≡ no_numbers }
        ensures parts { seat_parts result.1 ≡ ThisRun.seats }
    {
        let UnusedLedgers {
            entries,
            nothings,
            not_yets,
            no_mores,
            stops,
        } = self;
        let (entries, entry_share) = entries.open::<Entries<ThisRun>>();
        let (nothings, nothing_share) = nothings.open::<Nothings<ThisRun>>();
        let (not_yets, not_yet_share) = not_yets.open::<NotYets<ThisRun>>();
        let (no_mores, no_more_share) = no_mores.open::<NoMores<ThisRun>>();
        let (stops, stop_share) = stops.open::<Stops<ThisRun>>();
        let totals = RunCount {
            made: 0,
            entries,
            nothings,
            not_yets,
            no_mores,
            stops,
        };
        let all = SeatCount {
            entries: entry_share,
            nothings: nothing_share,
            not_yets: not_yet_share,
            no_mores: no_more_share,
            stops: stop_share,
        };
        (totals, all)
    }
}

impl<ThisRun: RunLedgers> SeatCount<ThisRun> {
    ghost use Rattle.run_log.specs.SeatCounts.{seat_numbers, seat_parts};

    /// The part of one seat, which was answered nothing yet.
    pub fn split_off(&mut self) -> SeatCount<ThisRun>
        requires parts { 0 < seat_parts self.old }
        requires none { seat_numbers self.old ≡ no_numbers }
        ensures part { seat_parts result ≡ 1 }
        ensures numbers { seat_numbers result ≡ no_numbers }
        ensures left { seat_parts self.new + 1 ≡ seat_parts self.old }
        ensures same { seat_numbers self.new ≡ no_numbers }
    {
        let SeatCount {
            entries,
            nothings,
            not_yets,
            no_mores,
            stops,
        } = self;
        SeatCount {
            entries: entries.split_off(1, 0),
            nothings: nothings.split_off(1, 0),
            not_yets: not_yets.split_off(1, 0),
            no_mores: no_mores.split_off(1, 0),
            stops: stops.split_off(1, 0),
        }
    }

    /// Takes the parts of another count in.
    pub fn merge(&mut self, other: SeatCount<ThisRun>)
        ensures parts { seat_parts self.new ≡ seat_parts self.old + seat_parts other }
        ensures numbers { seat_numbers self.new
            ≡ added (seat_numbers self.old) (seat_numbers other) }
    {
        let SeatCount {
            entries,
            nothings,
            not_yets,
            no_mores,
            stops,
        } = self;
        let SeatCount {
            entries: more_entries,
            nothings: more_nothings,
            not_yets: more_not_yets,
            no_mores: more_no_mores,
            stops: more_stops,
        } = other;
        entries.merge(more_entries);
        nothings.merge(more_nothings);
        not_yets.merge(more_not_yets);
        no_mores.merge(more_no_mores);
        stops.merge(more_stops);
    }
}
