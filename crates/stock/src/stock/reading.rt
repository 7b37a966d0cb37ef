ghost use Rattle.std.specs.Prelude.{◌≡◌, min, [], length};
ghost use Rattle.keyed_table.specs.Rows.{lookup};
ghost use Rattle.ledger.specs.Ledger.{culm_key};
ghost use Rattle.stock.specs.Stocks.{held, room};

use crate::row::CulmRow;
use crate::stock::{MOST_CULM_ROWS, Stock};
use keyed_table::Table;
use ledger::culm::Culm;

impl<'a> Stock<'a> {
    // An empty stock over the rows, of which it uses at most 4096.
    pub fn new(rows: &'a mut [CulmRow]) -> Stock<'a>
        ensures empty { held result ≡ [] }
        ensures room { room result ≡ min 4096 (length rows.old) }
    {
        Stock {
            rows: Table::new(rows, MOST_CULM_ROWS),
        }
    }

    // The culm with this number.
    pub fn get(&self, number: u32) -> Option<Culm>
        ensures { result ≡ lookup culm_key number (held self.now) }
    {
        self.rows.get(number).map(|row| row.culm)
    }
}
