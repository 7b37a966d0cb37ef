ghost use Rattle.std.specs.Prelude.{◌≡◌, OnErr};
ghost use Rattle.ledger.specs.Orders.Order.{judge, load, judge_without};
ghost use Rattle.ledger.specs.Table.{next, refusal, order_refusal, after_order};
ghost use Rattle.ledger.specs.declared.call.Call.TheVariants.{Load, JudgeWithout};
ghost use Rattle.frame_book.specs.Books.{ledger_of, Past};
ghost use Rattle.frame_book.specs.Tickets.{in_hand, trades};

use crate::appraising::{ask_any, ask_some};
use crate::book::Book;
use crate::ticket::{Judged, Ticket, Unjudged};
use design_code::code::DesignCode;
use ledger::fault::BookFault;
use ledger::member::{Member, Stage};
use quantities::duration::Duration;
use quantities::forces::{Forces, RawForces};
use quantities::numbers::{CulmNumber, MemberNumber};

impl<'a> Book<'a> {
    // Makes the ticket judged, if the code answers that its bundle is met.
    pub fn judge<C: DesignCode>(
        &mut self,
        code: &C,
        ticket: Ticket<Unjudged>,
    ) -> Result<Ticket<Judged>, (BookFault, Ticket<Unjudged>)>
        ensures said { result ≡ trades (in_hand ticket.number) ticket (order_refusal (C.DesignCode.meaning code.now).rule (ledger_of self.old) (judge ticket.number)) }
        ensures after { ledger_of self.new ≡ after_order (C.DesignCode.meaning code.now).rule (ledger_of self.old) (judge ticket.number) }
        ensures past { Past self.old self.new }
        ensures refused { OnErr result (self.new ≡ self.old) }
    {
        let number = ticket.number;
        // By match, since a refusal gives the ticket back.
        let row = match self.unjudged_in_hand(number) {
            Ok(row) => row,
            Err(fault) => return Err((fault, ticket)),
        };
        if let Err(fault) = ask_some(code, self.stock.bundle_of(&row), &row) {
            return Err((fault, ticket));
        }
        let stage = Stage::Ticket {
            judged: true,
            in_hand: true,
        };
        self.members.replace(Member { stage, ..row }).unwrap();
        ticket.spend();
        Ok(Ticket::of(number))
    }

    // Gives a standing member another duration and other forces, if the code answers that it is met with them.
    pub fn load<C: DesignCode>(
        &mut self,
        code: &C,
        member: u32,
        duration: Duration,
        forces: RawForces,
    ) -> Result<(), BookFault>
        ensures said { result ≡ refusal (C.DesignCode.meaning code.now).rule (ledger_of self.old) (Load member duration forces) }
        ensures after { ledger_of self.new ≡ next (C.DesignCode.meaning code.now).rule (ledger_of self.old) (Load member duration forces) }
        ensures past { Past self.old self.new }
        ensures refused { OnErr result (self.new ≡ self.old) }
    {
        MemberNumber::in_field(2, member)?;
        let forces = Forces::measured(4, forces)?;
        self.load_measured(code, member, duration, forces)
    }

    fn load_measured<C: DesignCode>(
        &mut self,
        code: &C,
        member: u32,
        duration: Duration,
        forces: Forces,
    ) -> Result<(), BookFault>
        ensures said { result ≡ order_refusal (C.DesignCode.meaning code.now).rule (ledger_of self.old) (load member duration forces) }
        ensures after { ledger_of self.new ≡ after_order (C.DesignCode.meaning code.now).rule (ledger_of self.old) (load member duration forces) }
        ensures past { Past self.old self.new }
        ensures refused { OnErr result (self.new ≡ self.old) }
    {
        let row = self.standing_member(member).ok_or(BookFault::NotStanding)?;
        let changed = Member {
            duration,
            forces,
            ..row
        };
        ask_any(code, self.stock.bundle_of(&changed), &changed)?;
        self.members.replace(changed).unwrap();
        Ok(())
    }

    // Asks whether a standing member is met with one of its culms out; the culm is back however this ends.
    pub fn judge_without<C: DesignCode>(
        &mut self,
        code: &C,
        member: u32,
        culm: u32,
    ) -> Result<(), BookFault>
        ensures said { result ≡ refusal (C.DesignCode.meaning code.now).rule (ledger_of self.old) (JudgeWithout member culm) }
        ensures after { ledger_of self.new ≡ ledger_of self.old }
        ensures past { Past self.old self.new }
        ensures refused { OnErr result (self.new ≡ self.old) }
    {
        MemberNumber::in_field(2, member)?;
        CulmNumber::in_field(3, culm)?;
        self.without_measured(code, member, culm)
    }

    fn without_measured<C: DesignCode>(
        &mut self,
        code: &C,
        member: u32,
        culm: u32,
    ) -> Result<(), BookFault>
        ensures said { result ≡ order_refusal (C.DesignCode.meaning code.now).rule (ledger_of self.old) (judge_without member culm) }
        ensures after { ledger_of self.new ≡ ledger_of self.old }
        ensures past { Past self.old self.new }
        ensures refused { OnErr result (self.new ≡ self.old) }
    {
        let row = self.standing_member(member).ok_or(BookFault::NotStanding)?;
        let found = self.stock.get(culm).ok_or(BookFault::CulmUnknown)?;
        if !found.stands_in(member) {
            return Err(BookFault::NotOfBundle);
        }
        let bundle = self.stock.bundle_without(row, culm);
        ask_some(code, bundle, &row)
    }
}
