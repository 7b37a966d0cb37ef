ghost use Rattle.ledger.specs.Table.{refusal};
ghost use Rattle.std.specs.Prelude.{◌≡◌};
ghost use Rattle.design_code.specs.Meaning.{Rule};
ghost use Rattle.ledger.specs.Ledger.{culm_at, member_at, counts};
ghost use Rattle.ledger.specs.declared.call.Call.TheVariants.{LookCulm, LookMember};
ghost use Rattle.frame_book.specs.Books.{ledger_of};
ghost use Rattle.frame_book.specs.Looks.{shows};

use crate::book::Book;
use ledger::answer::Counts;
use ledger::culm::Culm;
use ledger::fault::BookFault;
use ledger::member::Member;
use quantities::numbers::{CulmNumber, MemberNumber};

impl<'a> Book<'a> {
    // Tells one culm.
    pub fn culm(&self, culm: u32) -> Result<Culm, BookFault>
        ensures { (rule : Rule) → shows (culm_at (ledger_of self.now) culm) (refusal rule (ledger_of self.now) (LookCulm culm)) result }
    {
        CulmNumber::in_field(2, culm)?;
        self.stock.get(culm).ok_or(BookFault::CulmUnknown)
    }

    // Tells one standing member.
    pub fn member(&self, member: u32) -> Result<Member, BookFault>
        ensures { (rule : Rule) → shows (member_at (ledger_of self.now) member) (refusal rule (ledger_of self.now) (LookMember member)) result }
    {
        MemberNumber::in_field(2, member)?;
        self.standing_member(member).ok_or(BookFault::NotStanding)
    }

    // Tells how many culms are on the rack, held and standing, how many members stand, and how many tickets are open.
    pub fn counts(&self) -> Counts
        ensures { result ≡ counts (ledger_of self.now) }
    {
        let places = self.stock.places();
        Counts {
            rack: places.rack,
            held: places.held,
            standing: places.standing,
            members: self
                .members
                .rows()
                .iter()
                .filter(|row| row.is_standing())
                .count(),
            tickets: self.open_tickets(),
        }
    }
}
