ghost use Rattle.std.specs.Prelude.{◌≡◌, OnErr};
ghost use Rattle.design_code.specs.Meaning.{Rule};
ghost use Rattle.ledger.specs.Orders.Order.{set_member};
ghost use Rattle.ledger.specs.Table.{next, refusal, order_refusal, after_order};
ghost use Rattle.ledger.specs.declared.call.Call.TheVariants.{Strike};
ghost use Rattle.frame_book.specs.Books.{ledger_of, Past};
ghost use Rattle.frame_book.specs.Tickets.{trades};

use crate::book::Book;
use crate::ticket::{Judged, Ticket};
use ledger::fault::BookFault;
use ledger::member::{Member, Stage};
use quantities::numbers::MemberNumber;

impl<'a> Book<'a> {
    // The ticket becomes a standing member, and its culms stand in it.
    pub fn set(&mut self, ticket: Ticket<Judged>) -> Result<(), (BookFault, Ticket<Judged>)>
        ensures said { (rule : Rule) → result ≡ trades tt ticket (order_refusal rule (ledger_of self.old) (set_member ticket.number)) }
        ensures after { (rule : Rule) → ledger_of self.new ≡ after_order rule (ledger_of self.old) (set_member ticket.number) }
        ensures past { Past self.old self.new }
        ensures refused { OnErr result (self.new ≡ self.old) }
    {
        let number = ticket.number;
        let Some(row) = self.ticket_in_hand(number) else {
            return Err((BookFault::NoTicket, ticket));
        };
        if !row.is_judged() {
            return Err((BookFault::OtherState, ticket));
        }
        let stage = Stage::Standing;
        self.members.replace(Member { stage, ..row }).unwrap();
        self.stock.set(number);
        ticket.spend();
        Ok(())
    }

    // Removes a standing member; its culms go to the rack.
    pub fn strike(&mut self, member: u32) -> Result<(), BookFault>
        ensures said { (rule : Rule) → result ≡ refusal rule (ledger_of self.old) (Strike member) }
        ensures after { (rule : Rule) → ledger_of self.new ≡ next rule (ledger_of self.old) (Strike member) }
        ensures past { Past self.old self.new }
        ensures refused { OnErr result (self.new ≡ self.old) }
    {
        MemberNumber::in_field(2, member)?;
        self.standing_member(member).ok_or(BookFault::NotStanding)?;
        self.members.remove(member).unwrap();
        self.stock.strike(member);
        Ok(())
    }
}
