ghost use Rattle.std.specs.Prelude.{◌≡◌, OnErr};
ghost use Rattle.design_code.specs.Meaning.{Rule};
ghost use Rattle.ledger.specs.Orders.Order.{open_ticket};
ghost use Rattle.ledger.specs.Table.{next, refusal, order_refusal, after_order};
ghost use Rattle.ledger.specs.declared.call.Call.TheVariants.{Open};
ghost use Rattle.frame_book.specs.Books.{ledger_of, Past};
ghost use Rattle.frame_book.specs.Tickets.{in_hand, gives};

use crate::book::define::stated;
use crate::book::{Book, MOST_TICKETS};
use crate::ticket::{Ticket, Unjudged};
use ledger::call::Opening;
use ledger::fault::BookFault;
use ledger::member::{Member, Stage};
use quantities::duration::Duration;
use quantities::forces::Forces;
use quantities::numbers::{ClassNumber, EffectiveLength, MemberNumber};

impl<'a> Book<'a> {
    // Makes an unjudged ticket, in hand.
    pub fn open(&mut self, opening: Opening) -> Result<Ticket<Unjudged>, BookFault>
        ensures said { (rule : Rule) → result ≡ gives (in_hand opening.member) (refusal rule (ledger_of self.old) (Open opening)) }
        ensures after { (rule : Rule) → ledger_of self.new ≡ next rule (ledger_of self.old) (Open opening) }
        ensures past { Past self.old self.new }
        ensures refused { OnErr result (self.new ≡ self.old) }
    {
        self.enter_ticket(opening)?;
        Ok(Ticket::of(opening.member))
    }

    // Enters a new ticket, from plain numbers.
    pub(super) fn enter_ticket(&mut self, opening: Opening) -> Result<(), BookFault>
        ensures said { (rule : Rule) → result ≡ refusal rule (ledger_of self.old) (Open opening) }
        ensures after { (rule : Rule) → ledger_of self.new ≡ next rule (ledger_of self.old) (Open opening) }
        ensures past { Past self.old self.new }
        ensures refused { OnErr result (self.new ≡ self.old) }
    {
        MemberNumber::in_field(2, opening.member)?;
        let length = EffectiveLength::in_field(3, opening.length)?;
        let class = ClassNumber::in_field(4, opening.class)?;
        let forces = Forces::measured(6, opening.forces)?;
        self.open_measured(opening.member, length, class, opening.duration, forces)
    }

    // Takes a member's row for a new ticket.
    fn open_measured(
        &mut self,
        member: u32,
        length: EffectiveLength,
        class: ClassNumber,
        duration: Duration,
        forces: Forces,
    ) -> Result<(), BookFault>
        ensures said { (rule : Rule) → result ≡ order_refusal rule (ledger_of self.old) (open_ticket member length class.value duration forces) }
        ensures after { (rule : Rule) → ledger_of self.new ≡ after_order rule (ledger_of self.old) (open_ticket member length class.value duration forces) }
        ensures past { Past self.old self.new }
        ensures refused { OnErr result (self.new ≡ self.old) }
    {
        let factors = stated(&self.classes, class.value)?;
        if self.members.get(member).is_some() {
            return Err(BookFault::MemberKnown);
        }
        if self.open_tickets() >= MOST_TICKETS {
            return Err(BookFault::NoMemberRow);
        }
        let row = Member {
            number: member,
            length,
            class: class.value,
            factors,
            duration,
            forces,
            stage: Stage::Ticket {
                judged: false,
                in_hand: true,
            },
        };
        self.members.insert(row).map_err(|_| BookFault::NoMemberRow)
    }
}
