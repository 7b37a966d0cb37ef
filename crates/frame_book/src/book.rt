ghost use Rattle.std.specs.Prelude.{◌≡◌, length};

use keyed_table::Table;
use ledger::member::Member;
use quantities::class::ServiceClass;
use quantities::grade::Grade;
use stock::stock::Stock;

mod by_number;
mod culms;
mod define;
mod judging;
mod looks;
mod members;
mod new;
mod obey;
mod opening;
mod rows;
mod tickets;

// The most member rows that a book uses, and the most tickets that are open at a time.
pub const MOST_MEMBER_ROWS: usize = 512;

pub const MOST_TICKETS: usize = 8;

// The book: eight grades and three classes, culms and members over the rows that its caller lends.
#[derive(Drop)]
pub struct Book<'a> {
    stock: Stock<'a>,
    members: Table<'a, Member>,
    grades: [Option<Grade>; 8],
    classes: [Option<ServiceClass>; 3],
    ghost eight: { length grades ≡ 8 },
    ghost three: { length classes ≡ 3 },
}
