ghost use Rattle.std.specs.Prelude.{◌≡◌, map, OnErr};
ghost use Rattle.keyed_table.specs.Rows.{lookup, added, without};
ghost use Rattle.ledger.specs.Ledger.{culm_key, at, moved_by, raised, dropped, struck};
ghost use Rattle.ledger.specs.Table.{first_of, afterwards, changed_culm};
ghost use Rattle.ledger.specs.declared.culm.Place.TheVariants.{Rack, Held};
ghost use Rattle.stock.specs.Checks.{rack_culm, add_checks, scrap_checks, hold_checks, free_checks};
ghost use Rattle.stock.specs.Stocks.{held, room, Beyond};

use crate::event::{Event, meet};
use crate::stock::Stock;
use ledger::culm::{Culm, Place};
use ledger::fault::BookFault;
use quantities::bundle::MOST_CULMS;
use quantities::grade::Grade;
use quantities::readings::Readings;

impl Stock<'_> {
    // A new culm on the rack.
    pub fn add(
        &mut self,
        number: u32,
        grade: u32,
        strengths: Grade,
        readings: Readings,
    ) -> Result<(), BookFault>
        ensures said { result ≡ first_of (add_checks (room self.old) number (held self.old)) }
        ensures after { held self.new ≡ afterwards (add_checks (room self.old) number (held self.old)) (held self.old) (added culm_key (rack_culm number grade strengths readings) (held self.old)) }
        ensures beyond { Beyond self.old self.new }
        ensures refused { OnErr result (self.new ≡ self.old) }
    {
        self.insert(Culm {
            number,
            grade,
            strengths,
            readings,
            place: Place::Rack,
        })
    }

    // Takes a culm on the rack out.
    pub fn scrap(&mut self, number: u32) -> Result<(), BookFault>
        ensures said { result ≡ first_of (scrap_checks number (held self.old)) }
        ensures after { held self.new ≡ afterwards (scrap_checks number (held self.old)) (held self.old) (without culm_key number (held self.old)) }
        ensures beyond { Beyond self.old self.new }
        ensures refused { OnErr result (self.new ≡ self.old) }
    {
        let mut culm = self.get(number).ok_or(BookFault::CulmUnknown)?;
        meet(&mut culm.place, Event::Scrap).ok_or(BookFault::CulmNotOnRack)?;
        self.take_out(number);
        Ok(())
    }

    // The ticket of `member` holds a culm of the rack.
    pub fn hold(&mut self, member: u32, number: u32) -> Result<(), BookFault>
        ensures said { result ≡ first_of (hold_checks member number (held self.old)) }
        ensures after { held self.new ≡ afterwards (hold_checks member number (held self.old)) (held self.old) (changed_culm (at (Held member)) (lookup culm_key number (held self.old)) (held self.old)) }
        ensures beyond { Beyond self.old self.new }
        ensures refused { OnErr result (self.new ≡ self.old) }
    {
        let mut culm = self.get(number).ok_or(BookFault::CulmUnknown)?;
        meet(&mut culm.place, Event::Hold { member }).ok_or(BookFault::CulmNotOnRack)?;
        let extent = self.extent(member);
        if extent.count >= MOST_CULMS {
            return Err(BookFault::BundleFull);
        }
        if extent.grade.is_some_and(|grade| grade != culm.grade) {
            return Err(BookFault::OtherGrade);
        }
        self.put(culm);
        Ok(())
    }

    // A culm that the ticket of `member` holds goes to the rack.
    pub fn free(&mut self, member: u32, number: u32) -> Result<(), BookFault>
        ensures said { result ≡ first_of (free_checks member number (held self.old)) }
        ensures after { held self.new ≡ afterwards (free_checks member number (held self.old)) (held self.old) (changed_culm (at Rack) (lookup culm_key number (held self.old)) (held self.old)) }
        ensures beyond { Beyond self.old self.new }
        ensures refused { OnErr result (self.new ≡ self.old) }
    {
        let mut culm = self.get(number).ok_or(BookFault::CulmUnknown)?;
        meet(&mut culm.place, Event::Free { member }).ok_or(BookFault::NotOfBundle)?;
        self.put(culm);
        Ok(())
    }

    // Three calls, and no public `meet_all`: each says in the ledger's words what becomes of the culms.

    // The culms that the ticket of `member` holds stand in it.
    pub fn set(&mut self, member: u32)
        ensures after { held self.new ≡ map (moved_by (raised member)) (held self.old) }
        ensures beyond { Beyond self.old self.new }
    {
        self.meet_all(Event::Set { member });
    }

    // The culms that the ticket of `member` holds go to the rack.
    pub fn release(&mut self, member: u32)
        ensures after { held self.new ≡ map (moved_by (dropped member)) (held self.old) }
        ensures beyond { Beyond self.old self.new }
    {
        self.meet_all(Event::Drop { member });
    }

    // The culms that stand in `member` go to the rack.
    pub fn strike(&mut self, member: u32)
        ensures after { held self.new ≡ map (moved_by (struck member)) (held self.old) }
        ensures beyond { Beyond self.old self.new }
    {
        self.meet_all(Event::Strike { member });
    }
}
