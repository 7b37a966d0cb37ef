ghost use Rattle.std.specs.Prelude.{◌≡◌, min, length};
ghost use Rattle.ledger.specs.Runs.{empty_ledger};
ghost use Rattle.frame_book.specs.Books.{ledger_of};

use crate::book::{Book, MOST_MEMBER_ROWS};
use keyed_table::Table;
use ledger::member::Member;
use stock::row::CulmRow;
use stock::stock::Stock;

impl<'a> Book<'a> {
    // An empty book over the rows, of which it uses at most 4096 and 512.
    pub fn new(culms: &'a mut [CulmRow], members: &'a mut [Member]) -> Book<'a>
        ensures { ledger_of result ≡ empty_ledger (min 4096 (length culms.old)) (min 512 (length members.old)) }
    {
        Book {
            stock: Stock::new(culms),
            members: Table::new(members, MOST_MEMBER_ROWS),
            grades: [None; 8],
            classes: [None; 3],
        }
    }
}
