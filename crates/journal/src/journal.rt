//! The history of a run as those see it who take part.

ghost use Rattle.std.specs.Prelude.{◌≡◌, [], length, IfOk};

use crate::view::{Dealing, Growing, Recalling, TakingIn, View, Writing};
use atomic_table::{Badge, Seat, Table};
use run_log::Line;
use std::alloc::{AllocError, Global};
use std::mem;

/// A history that only grows, with the right to say how it goes on. It lies under the lock under which the history does.
#[derive(Drop)]
pub struct Journal {
    table: Table<Vec<Line>, View, (), Growing, Global>,
    seat: Seat<Vec<Line>, View>,
    ghost one_word: { table.shared.table_id.words ≡ 1 },
    ghost here: { seat.table_id ≡ table.shared.table_id },
    ghost own: { seat.id ≡ 0 },
}

/// What somebody has seen of the history of one journal.
#[derive(Drop)]
pub struct Reader {
    badge: Badge<View>,
    ghost one_view: { length badge.views ≡ 1 },
}

impl Journal {
    ghost use Rattle.journal.specs.Histories.{Begins, journal_of, journal_id, seen, written};

    /// The journal of a history in which nothing is written yet. Refuses for want of memory alone.
    pub fn new(alloc: Global) -> Result<Journal, AllocError>
        ensures { IfOk result (λ journal. written journal ≡ []) }
    {
        let words = [0u64];
        let (table, seat) = Table::of_words(alloc, words.as_slice(), &())?;
        Ok(Journal { table, seat })
    }

    /// A reader that was shown all that is written.
    pub fn reader(&mut self) -> Reader
        ensures same { journal_id self.new ≡ journal_id self.old }
        ensures written { written self.new ≡ written self.old }
        ensures here { journal_of result ≡ journal_id self.old }
        ensures seen { seen result ≡ written self.old }
    {
        let Journal { table, seat } = self;
        let fresh = table.shared.split_seat::<Dealing>(seat);
        Reader {
            badge: fresh.into_badge(),
        }
    }

    /// The history goes on so.
    pub fn write(&mut self, lines: &Vec<Line>)
        requires grows { Begins (written self.old) lines.now.items }
        ensures same { journal_id self.new ≡ journal_id self.old }
        ensures written { written self.new ≡ lines.now.items }
    {
        let Journal { table, seat } = self;
        table
            .shared
            .compare_exchange_with::<Writing>(seat, 0, 0, 0, lines);
    }

    /// What a reader of this journal was shown begins the history.
    pub fn recall(&mut self, reader: Reader)
        requires here { journal_of reader ≡ journal_id self.old }
        ensures same { journal_id self.new ≡ journal_id self.old }
        ensures written { written self.new ≡ written self.old }
        ensures begins { Begins (seen reader) (written self.old) }
    {
        let Journal { table, seat } = self;
        let Reader { badge } = reader;
        let other = badge.into_seat();
        table.shared.join_seat::<TakingIn>(seat, other);
        table.shared.load::<Recalling>(seat, 0);
    }

    /// The history goes on so, and a reader of this journal is shown it.
    pub fn show(&mut self, lines: &Vec<Line>, reader: &mut Reader)
        requires here { journal_of reader.old ≡ journal_id self.old }
        requires grows { Begins (written self.old) lines.now.items }
        ensures same { journal_id self.new ≡ journal_id self.old }
        ensures written { written self.new ≡ lines.now.items }
        ensures here { journal_of reader.new ≡ journal_id self.old }
        ensures seen { seen reader.new ≡ lines.now.items }
        // What the reader was shown before begins what was written before.
        ensures began { Begins (seen reader.old) (written self.old) }
        // And so it begins what it is shown now.
        ensures begins { Begins (seen reader.old) (seen reader.new) }
    {
        let fresh = self.reader();
        let former = mem::replace(reader, fresh);
        self.recall(former);
        self.write(lines);
        *reader = self.reader();
    }
}
