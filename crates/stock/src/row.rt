ghost use Rattle.std.specs.Prelude.{◌≡◌, [], ◌∷◌, if◌then◌else◌};
ghost use Rattle.ledger.specs.Ledger.{piece_of};
ghost use Rattle.stock.specs.Rows.{is_part, part_in, travelled};

use crate::event::{Event, meet};
use keyed_table::Numbered;
use ledger::culm::{Culm, Place};

// A row of the culm table: a culm, and whether it is set aside while a question is asked.
// A flag, since a guard over lent rows sets it and its drop clears it; a place for a culm set aside would change the ledger's places.
#[derive(Clone, Copy)]
pub struct CulmRow {
    pub culm: Culm,
    pub aside: bool,
}

impl Numbered for CulmRow {
    ghost key = { λ r. r.culm.number };

    fn number(&self) -> u32 {
        self.culm.number
    }
}

impl CulmRow {
    // Whether the culm is of the bundle of `member`; one that is set aside is of no bundle.
    pub fn is_part(&self, member: u32) -> bool
        ensures said { result ≡ is_part member self.now }
        ensures part { part_in member self.now ≡ (if result then piece_of self.now.culm ∷ [] else []) }
    {
        !self.aside
            && matches!(self.culm.place, Place::Held { member: of } | Place::Standing { member: of } if of == member)
    }

    // The row when its culm has met the event; one that the event does not fit stays where it is.
    pub fn travelled(mut self, event: Event) -> CulmRow
        ensures { result ≡ travelled event self }
    {
        let _ = meet(&mut self.culm.place, event);
        self
    }
}
