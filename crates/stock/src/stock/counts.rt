ghost use Rattle.std.specs.Prelude.{◌≡◌, count_by};
ghost use Rattle.ledger.specs.Ledger.{on_rack, is_held, is_standing};
ghost use Rattle.stock.specs.Stocks.{held};

use crate::stock::Stock;

// How many culms are on the rack, held and standing.
#[derive(Clone, Copy, PartialEq, Eq, Debug)]
pub struct PlaceCounts {
    pub rack: usize,
    pub held: usize,
    pub standing: usize,
}

impl Stock<'_> {
    // The culms by place.
    pub fn places(&self) -> PlaceCounts
        ensures rack { result.rack ≡ count_by on_rack (held self.now) }
        ensures held { result.held ≡ count_by is_held (held self.now) }
        ensures standing { result.standing ≡ count_by is_standing (held self.now) }
    {
        let rows = self.rows.rows();
        PlaceCounts {
            rack: rows.iter().filter(|row| row.culm.is_on_rack()).count(),
            held: rows.iter().filter(|row| row.culm.is_held()).count(),
            standing: rows.iter().filter(|row| row.culm.is_standing()).count(),
        }
    }
}
