ghost use Rattle.std.specs.Prelude.{◌≡◌, map, OnErr};
ghost use Rattle.keyed_table.specs.Rows.{added, without, replaced};
ghost use Rattle.ledger.specs.Ledger.{culm_key};
ghost use Rattle.ledger.specs.Table.{first_of, afterwards};
ghost use Rattle.stock.specs.Checks.{add_checks, culm_fault};
ghost use Rattle.stock.specs.Rows.{Small};
ghost use Rattle.stock.specs.Stocks.{held, room, Beyond, met_by};

use crate::event::Event;
use crate::row::CulmRow;
use crate::stock::Stock;
use keyed_table::Refusal;
use ledger::culm::Culm;
use ledger::fault::BookFault;

// A refusal of the table, as the book's. No `From`: these faults speak of culms, and members are rows of such a table too.
fn culm_fault(refusal: Refusal) -> BookFault
    ensures { result ≡ culm_fault refusal }
{
    match refusal {
        Refusal::NumberTaken => BookFault::CulmKnown,
        Refusal::Full => BookFault::NoCulmRow,
        Refusal::NoSuchRow => BookFault::CulmUnknown,
    }
}

impl Stock<'_> {
    // A new culm, where its number is free and there is room.
    pub(super) fn insert(&mut self, culm: Culm) -> Result<(), BookFault>
        requires small { Small (added culm_key culm (held self.old)) }
        ensures said { result ≡ first_of (add_checks (room self.old) culm.number (held self.old)) }
        ensures after { held self.new ≡ afterwards (add_checks (room self.old) culm.number (held self.old)) (held self.old) (added culm_key culm (held self.old)) }
        ensures beyond { Beyond self.old self.new }
        ensures refused { OnErr result (self.new ≡ self.old) }
    {
        self.rows
            .insert(CulmRow { culm, aside: false })
            .map_err(culm_fault)
    }

    // The culm in place of the one with its number; nothing changes where there is none, so the answer is not looked at.
    pub(super) fn put(&mut self, culm: Culm)
        requires small { Small (replaced culm_key culm (held self.old)) }
        ensures after { held self.new ≡ replaced culm_key culm (held self.old) }
        ensures beyond { Beyond self.old self.new }
    {
        let _ = self.rows.replace(CulmRow { culm, aside: false });
    }

    // The culms less the one with this number; nothing changes where there is none, so the answer is not looked at.
    pub(super) fn take_out(&mut self, number: u32)
        ensures after { held self.new ≡ without culm_key number (held self.old) }
        ensures beyond { Beyond self.old self.new }
    {
        let _ = self.rows.remove(number);
    }

    // An event comes to every culm.
    pub(super) fn meet_all(&mut self, event: Event)
        requires small { Small (map (met_by event) (held self.old)) }
        ensures after { held self.new ≡ map (met_by event) (held self.old) }
        ensures beyond { Beyond self.old self.new }
    {
        self.rows.change_all(|row| row.travelled(event));
    }
}
