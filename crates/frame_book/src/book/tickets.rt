ghost use Rattle.std.specs.Prelude.{◌≡◌, OnErr};
ghost use Rattle.design_code.specs.Meaning.{Rule};
ghost use Rattle.ledger.specs.Ledger.{member_at};
ghost use Rattle.ledger.specs.Orders.Order.{check_in, hold, free, drop_ticket};
ghost use Rattle.ledger.specs.Table.{handed, next, next_of, refusal, refusal_of, order_refusal, after_order};
ghost use Rattle.ledger.specs.declared.call.Call.TheVariants.{CheckOut};
ghost use Rattle.frame_book.specs.Books.{ledger_of, Past};
ghost use Rattle.frame_book.specs.Tickets.{number_on, ticket_of, gives, trades, with_culm};

use crate::book::Book;
use crate::ticket::{AnyTicket, Ticket, Unjudged};
use ledger::fault::BookFault;
use ledger::member::{Member, Stage};
use quantities::numbers::{CulmNumber, MemberNumber};

// The ticket in hand or not, judged as it is.
fn handed(row: Member, in_hand: bool) -> Member
    ensures { result ≡ handed in_hand row }
{
    let stage = Stage::Ticket {
        judged: row.is_judged(),
        in_hand,
    };
    Member { stage, ..row }
}

impl<'a> Book<'a> {
    // Puts an open ticket in hand, judged or not as it is.
    pub fn check_out(&mut self, member: u32) -> Result<AnyTicket, BookFault>
        ensures said { (rule : Rule) → result ≡ gives (ticket_of member (member_at (ledger_of self.old) member)) (refusal rule (ledger_of self.old) (CheckOut member)) }
        ensures after { (rule : Rule) → ledger_of self.new ≡ next rule (ledger_of self.old) (CheckOut member) }
        ensures past { Past self.old self.new }
        ensures refused { OnErr result (self.new ≡ self.old) }
    {
        MemberNumber::in_field(2, member)?;
        let row = self
            .members
            .get(member)
            .filter(|row| row.is_out_of_hand())
            .ok_or(BookFault::NoTicket)?;
        self.members.replace(handed(row, true)).unwrap();
        if row.is_judged() {
            Ok(AnyTicket::Judged(Ticket::of(member)))
        } else {
            Ok(AnyTicket::Unjudged(Ticket::of(member)))
        }
    }

    // Puts a ticket out of hand.
    pub fn check_in(&mut self, ticket: AnyTicket) -> Result<(), (BookFault, AnyTicket)>
        ensures said { (rule : Rule) → result ≡ trades tt ticket (order_refusal rule (ledger_of self.old) (check_in (number_on ticket))) }
        ensures after { (rule : Rule) → ledger_of self.new ≡ after_order rule (ledger_of self.old) (check_in (number_on ticket)) }
        ensures past { Past self.old self.new }
        ensures refused { OnErr result (self.new ≡ self.old) }
    {
        let Some(row) = self.ticket_in_hand(ticket.number()) else {
            return Err((BookFault::NoTicket, ticket));
        };
        self.members.replace(handed(row, false)).unwrap();
        ticket.spend();
        Ok(())
    }

    // The ticket holds a culm of the rack.
    pub fn hold(&mut self, ticket: &Ticket<Unjudged>, culm: u32) -> Result<(), BookFault>
        ensures said { (rule : Rule) → result ≡ refusal_of rule (ledger_of self.old) (with_culm culm (hold ticket.now.number culm)) }
        ensures after { (rule : Rule) → ledger_of self.new ≡ next_of rule (ledger_of self.old) (with_culm culm (hold ticket.now.number culm)) }
        ensures past { Past self.old self.new }
        ensures refused { OnErr result (self.new ≡ self.old) }
    {
        CulmNumber::in_field(3, culm)?;
        self.unjudged_in_hand(ticket.number)?;
        self.stock.hold(ticket.number, culm)
    }

    // A culm that the ticket holds goes to the rack.
    pub fn free(&mut self, ticket: &Ticket<Unjudged>, culm: u32) -> Result<(), BookFault>
        ensures said { (rule : Rule) → result ≡ refusal_of rule (ledger_of self.old) (with_culm culm (free ticket.now.number culm)) }
        ensures after { (rule : Rule) → ledger_of self.new ≡ next_of rule (ledger_of self.old) (with_culm culm (free ticket.now.number culm)) }
        ensures past { Past self.old self.new }
        ensures refused { OnErr result (self.new ≡ self.old) }
    {
        CulmNumber::in_field(3, culm)?;
        self.unjudged_in_hand(ticket.number)?;
        self.stock.free(ticket.number, culm)
    }

    // Removes the ticket; its culms go to the rack.
    pub fn drop_ticket(&mut self, ticket: AnyTicket) -> Result<(), (BookFault, AnyTicket)>
        ensures said { (rule : Rule) → result ≡ trades tt ticket (order_refusal rule (ledger_of self.old) (drop_ticket (number_on ticket))) }
        ensures after { (rule : Rule) → ledger_of self.new ≡ after_order rule (ledger_of self.old) (drop_ticket (number_on ticket)) }
        ensures past { Past self.old self.new }
        ensures refused { OnErr result (self.new ≡ self.old) }
    {
        let number = ticket.number();
        if self.ticket_in_hand(number).is_none() {
            return Err((BookFault::NoTicket, ticket));
        }
        self.members.remove(number).unwrap();
        self.stock.release(number);
        ticket.spend();
        Ok(())
    }
}
