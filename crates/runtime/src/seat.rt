// Seats: the right to act for a node, or for the script.
ghost use Rattle.std.specs.Prelude.{◌≡◌, ◌≢◌, ◌+◌, ◌<◌, false, true, IfOk, OnErr, vec_len};
ghost use Rattle.journal.specs.Histories.{journal_id, journal_of, seen, written};
ghost use Rattle.run_log.specs.Calls.{IsFaultAnswer};
ghost use Rattle.run_log.specs.RunLogs.{IsSameLog};
ghost use Rattle.run_log.specs.declared.answer.FaultAnswer.TheVariants as faults;
ghost use Rattle.run_log.specs.Numbers.{added, no_numbers};
ghost use Rattle.run_log.specs.SeatCounts.{seat_numbers, seat_parts};

use crate::hub_run::HubRun;
use journal::{Journal, Reader};
use kahn_net::MAX_COUNT;
use outlet::Outlet;
use run_log::{FaultAnswer, HubFault, Run, RunLog, SeatCount};
use slot_cell::SlotCell;
use std::alloc::Global;

/// The seat of a node: who has it takes the node's turns.
#[derive(Drop)]
pub struct NodeSeat<ThisRun: HubRun> {
    pub(crate) node: u8,
    pub(crate) made: u64,
    pub(crate) count: SeatCount<ThisRun>,
    // What it was shown of the run's history.
    pub(crate) reader: Reader,
    pub ghost one_part: { seat_parts count ≡ 1 },
    pub ghost counts: { made ≡ (seat_numbers count).entries },
    pub ghost here: { journal_of reader ≡ ThisRun.journal },
}

/// The driver's seat: who has it goes through the script.
#[derive(Drop)]
pub struct DriverSeat<ThisRun: HubRun> {
    pub(crate) made: u64,
    pub(crate) count: SeatCount<ThisRun>,
    // What it was shown of the run's history.
    pub(crate) reader: Reader,
    pub ghost one_part: { seat_parts count ≡ 1 },
    pub ghost counts: { made ≡ (seat_numbers count).entries },
    pub ghost here: { journal_of reader ≡ ThisRun.journal },
}

/// A seat of this node, which was answered nothing yet.
pub(crate) fn node_seat<ThisRun: HubRun>(
    node: u8,
    count: SeatCount<ThisRun>,
    reader: Reader,
) -> NodeSeat<ThisRun>
    requires part { seat_parts count ≡ 1 }
    requires none { seat_numbers count ≡ no_numbers }
    requires here { journal_of reader ≡ ThisRun.journal }
    ensures { (result.node ≡ node) × (result.count ≡ count) }
{
    NodeSeat {
        node,
        made: 0,
        count,
        reader,
    }
}

/// The driver's seat, which was answered nothing yet.
pub(crate) fn driver_seat<ThisRun: HubRun>(
    count: SeatCount<ThisRun>,
    reader: Reader,
) -> DriverSeat<ThisRun>
    requires part { seat_parts count ≡ 1 }
    requires none { seat_numbers count ≡ no_numbers }
    requires here { journal_of reader ≡ ThisRun.journal }
    ensures { result.count ≡ count }
{
    DriverSeat {
        made: 0,
        count,
        reader,
    }
}

impl<ThisRun: HubRun> NodeSeat<ThisRun> {
    /// The node.
    pub fn node(&self) -> u8
        ensures { result ≡ self.now.node }
    {
        self.node
    }

    /// How many events this seat made. It waits for nobody.
    pub fn entries(&self) -> u64
        ensures { result ≡ (seat_numbers self.now.count).entries }
    {
        self.made
    }
}

impl<ThisRun: HubRun> DriverSeat<ThisRun> {
    ghost use Rattle.runtime.specs.Seats.{AreShown, numbers_of_seats};

    /// How many events this seat made. It waits for nobody.
    pub fn entries(&self) -> u64
        ensures { result ≡ (seat_numbers self.now.count).entries }
    {
        self.made
    }

    /// What this seat and these were answered, together. What each was shown begins the history of the journal.
    pub(crate) fn with_all(
        self,
        seats: Vec<NodeSeat<ThisRun>>,
        journal: &mut Journal,
    ) -> SeatCount<ThisRun>
        requires here { journal_id journal.old ≡ ThisRun.journal }
        ensures parts { seat_parts result ≡ vec_len seats + 1 }
        ensures numbers { seat_numbers result
            ≡ added (numbers_of_seats seats.items) (seat_numbers self.count) }
        ensures shown { AreShown (written journal.old) seats.items self }
    {
        let DriverSeat {
            count: mut all,
            reader,
            ..
        } = self;
        journal.recall(reader);
        for seat in seats {
            let NodeSeat { count, reader, .. } = seat;
            journal.recall(reader);
            all.merge(count);
        }
        all
    }
}

/// The event of the script's next line, `NotYet`, `NoMore` or `Stopped`, for a seat that made so many events.
pub(crate) fn fault<C: SlotCell, O: Outlet, ThisRun: Run>(
    alloc: Global,
    log: &mut RunLog<C, O, ThisRun>,
    made: &mut u64,
    count: &mut SeatCount<ThisRun>,
) -> Result<FaultAnswer, HubFault>
    requires part { 0 < seat_parts count.old }
    requires counts { made.old ≡ (seat_numbers count.old).entries }
    ensures parts { seat_parts count.new ≡ seat_parts count.old }
    ensures counts { made.new ≡ (seat_numbers count.new).entries }
    ensures answered { IfOk result (λ answer. IsFaultAnswer answer log.old log.new (seat_numbers count.old)
        (seat_numbers count.new)) }
    ensures refused { OnErr result (seat_numbers count.new ≡ seat_numbers count.old) }
    ensures unchanged { OnErr result (IsSameLog log.old log.new) }
    ensures stopped { log.old.stopped ≡ true → IfOk result (λ answer. answer ≡ faults.Stopped) }
    ensures goes_on { log.old.stopped ≡ false → IfOk result (λ answer. answer ≢ faults.Stopped) }
{
    if *made >= MAX_COUNT {
        return Err(HubFault::PastNumber);
    }
    let answer = log.fault(alloc, count)?;
    match &answer {
        FaultAnswer::Reply(_) => *made += 1,
        FaultAnswer::NotYet | FaultAnswer::NoMore | FaultAnswer::Stopped => {}
    }
    Ok(answer)
}
