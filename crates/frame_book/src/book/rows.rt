ghost use Rattle.std.specs.Prelude.{◌≡◌, count_by, IfOk};
ghost use Rattle.ledger.specs.Ledger.{member_at, is_ticket, stands, is_in_hand};
ghost use Rattle.frame_book.specs.Books.{ledger_of, FoundWhere, FoundUnjudged, HasNumber};

use crate::book::Book;
use ledger::fault::BookFault;
use ledger::member::Member;

impl<'a> Book<'a> {
    // The ticket in hand with this number.
    pub(super) fn ticket_in_hand(&self, number: u32) -> Option<Member>
        ensures row { FoundWhere is_in_hand (member_at (ledger_of self.now) number) result }
        ensures number { HasNumber number result }
    {
        self.members.get(number).filter(|row| row.is_in_hand())
    }

    // The unjudged ticket in hand with this number, or the fault that a call of unjudged tickets is refused by.
    pub(super) fn unjudged_in_hand(&self, number: u32) -> Result<Member, BookFault>
        ensures row { FoundUnjudged (member_at (ledger_of self.now) number) result }
        ensures number { IfOk result (λ row. row.number ≡ number) }
    {
        let row = self.ticket_in_hand(number).ok_or(BookFault::NoTicket)?;
        if row.is_judged() {
            return Err(BookFault::OtherState);
        }
        Ok(row)
    }

    // The standing member with this number.
    pub(super) fn standing_member(&self, number: u32) -> Option<Member>
        ensures row { FoundWhere stands (member_at (ledger_of self.now) number) result }
        ensures number { HasNumber number result }
    {
        self.members.get(number).filter(|row| row.is_standing())
    }

    // How many tickets are open.
    pub(super) fn open_tickets(&self) -> usize
        ensures { result ≡ count_by is_ticket (ledger_of self.now).members }
    {
        self.members
            .rows()
            .iter()
            .filter(|row| row.is_ticket())
            .count()
    }
}
