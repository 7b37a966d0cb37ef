ghost use Rattle.std.specs.Prelude.{◌≡◌, length};
ghost use Rattle.keyed_table.specs.Rows.{lookup, without};
ghost use Rattle.ledger.specs.Ledger.{culm_key, bundle};
ghost use Rattle.ledger.specs.Table.{question_of, grade_held};
ghost use Rattle.stock.specs.Rows.{as_question};
ghost use Rattle.stock.specs.Stocks.{held};

use crate::aside::gather_without;
use crate::gather::{Extent, extent_of, gather};
use crate::stock::Stock;
use ledger::member::Member;
use quantities::bundle::Bundle;

impl Stock<'_> {
    // How many culms the bundle of `member` has, and of which grade.
    pub fn extent(&self, member: u32) -> Extent
        ensures count { result.count ≡ length (bundle member (held self.now)) }
        ensures grade { result.grade ≡ grade_held (bundle member (held self.now)) }
    {
        extent_of(self.rows.rows(), member)
    }

    // The bundle of a member; none where it has no culm.
    pub fn bundle_of(&self, member: &Member) -> Option<Bundle>
        ensures { as_question result member.now ≡ question_of (bundle member.now.number (held self.now)) member.now }
    {
        gather(self.rows.rows(), member)
    }

    // The bundle of a member less one culm, which is back in its bundle however this ends.
    pub fn bundle_without(&mut self, member: Member, number: u32) -> Option<Bundle>
        ensures said { as_question result member ≡ question_of (bundle member.number (without culm_key number (held self.old))) member }
        ensures same { self.new ≡ self.old }
    {
        let Some(at) = self.rows.find(number) else {
            return self.bundle_of(&member);
        };
        self.rows.ask(|rows| gather_without(rows, at, &member))
    }
}
