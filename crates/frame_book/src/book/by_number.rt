ghost use Rattle.std.specs.Prelude.{◌≡◌, OnErr};
ghost use Rattle.design_code.specs.Meaning.{Rule};
ghost use Rattle.ledger.specs.Table.{next, refusal};
ghost use Rattle.ledger.specs.declared.call.Call.TheVariants.{CheckOut, CheckIn, Hold, Free, Judge, Set, DropTicket};
ghost use Rattle.frame_book.specs.Books.{ledger_of, Past};

use crate::book::Book;
use crate::ticket::{AnyTicket, Ticket};
use design_code::code::DesignCode;
use ledger::fault::BookFault;
use quantities::numbers::MemberNumber;

// Calls that name a ticket by the number of its member, whether there is such a ticket or not. One for each call: a function over
// the call to make would have to take its contract too.
impl<'a> Book<'a> {
    pub(super) fn check_out_by(&mut self, member: u32) -> Result<(), BookFault>
        ensures said { (rule : Rule) → result ≡ refusal rule (ledger_of self.old) (CheckOut member) }
        ensures after { (rule : Rule) → ledger_of self.new ≡ next rule (ledger_of self.old) (CheckOut member) }
        ensures past { Past self.old self.new }
        ensures refused { OnErr result (self.new ≡ self.old) }
    {
        self.check_out(member).map(AnyTicket::spend)
    }

    pub(super) fn check_in_by(&mut self, member: u32) -> Result<(), BookFault>
        ensures said { (rule : Rule) → result ≡ refusal rule (ledger_of self.old) (CheckIn member) }
        ensures after { (rule : Rule) → ledger_of self.new ≡ next rule (ledger_of self.old) (CheckIn member) }
        ensures past { Past self.old self.new }
        ensures refused { OnErr result (self.new ≡ self.old) }
    {
        MemberNumber::in_field(2, member)?;
        self.check_in(AnyTicket::Unjudged(Ticket::of(member)))
            .map_err(AnyTicket::let_go)
    }

    pub(super) fn hold_by(&mut self, member: u32, culm: u32) -> Result<(), BookFault>
        ensures said { (rule : Rule) → result ≡ refusal rule (ledger_of self.old) (Hold member culm) }
        ensures after { (rule : Rule) → ledger_of self.new ≡ next rule (ledger_of self.old) (Hold member culm) }
        ensures past { Past self.old self.new }
        ensures refused { OnErr result (self.new ≡ self.old) }
    {
        MemberNumber::in_field(2, member)?;
        let ticket = Ticket::of(member);
        let held = self.hold(&ticket, culm);
        ticket.spend();
        held
    }

    pub(super) fn free_by(&mut self, member: u32, culm: u32) -> Result<(), BookFault>
        ensures said { (rule : Rule) → result ≡ refusal rule (ledger_of self.old) (Free member culm) }
        ensures after { (rule : Rule) → ledger_of self.new ≡ next rule (ledger_of self.old) (Free member culm) }
        ensures past { Past self.old self.new }
        ensures refused { OnErr result (self.new ≡ self.old) }
    {
        MemberNumber::in_field(2, member)?;
        let ticket = Ticket::of(member);
        let freed = self.free(&ticket, culm);
        ticket.spend();
        freed
    }

    pub(super) fn judge_by<C: DesignCode>(&mut self, code: &C, member: u32) -> Result<(), BookFault>
        ensures said { result ≡ refusal (C.DesignCode.meaning code.now).rule (ledger_of self.old) (Judge member) }
        ensures after { ledger_of self.new ≡ next (C.DesignCode.meaning code.now).rule (ledger_of self.old) (Judge member) }
        ensures past { Past self.old self.new }
        ensures refused { OnErr result (self.new ≡ self.old) }
    {
        MemberNumber::in_field(2, member)?;
        self.judge(code, Ticket::of(member))
            .map(Ticket::spend)
            .map_err(Ticket::let_go)
    }

    pub(super) fn set_by(&mut self, member: u32) -> Result<(), BookFault>
        ensures said { (rule : Rule) → result ≡ refusal rule (ledger_of self.old) (Set member) }
        ensures after { (rule : Rule) → ledger_of self.new ≡ next rule (ledger_of self.old) (Set member) }
        ensures past { Past self.old self.new }
        ensures refused { OnErr result (self.new ≡ self.old) }
    {
        MemberNumber::in_field(2, member)?;
        self.set(Ticket::of(member)).map_err(Ticket::let_go)
    }

    pub(super) fn drop_by(&mut self, member: u32) -> Result<(), BookFault>
        ensures said { (rule : Rule) → result ≡ refusal rule (ledger_of self.old) (DropTicket member) }
        ensures after { (rule : Rule) → ledger_of self.new ≡ next rule (ledger_of self.old) (DropTicket member) }
        ensures past { Past self.old self.new }
        ensures refused { OnErr result (self.new ≡ self.old) }
    {
        MemberNumber::in_field(2, member)?;
        self.drop_ticket(AnyTicket::Unjudged(Ticket::of(member)))
            .map_err(AnyTicket::let_go)
    }
}
