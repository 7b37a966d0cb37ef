ghost use Rattle.std.specs.Prelude.{◌≡◌};
ghost use Rattle.keyed_table.specs.Tables.{content};
ghost use Rattle.stock.specs.Rows.{culms_in, aside_count, Small};

use crate::row::CulmRow;
use keyed_table::Table;

mod asking;
mod changing;
pub mod counts;
mod primitives;
mod reading;

// The most rows that a stock uses.
pub const MOST_CULM_ROWS: usize = 4096;

// The culms of a book, over rows that its caller lends. Between calls no row is set aside, and no bundle is too large.
#[derive(Drop)]
pub struct Stock<'a> {
    rows: Table<'a, CulmRow>,
    pub ghost none_aside: { aside_count (content rows) ≡ 0 },
    pub ghost bundles_small: { Small (culms_in (content rows)) },
}
