ghost use Rattle.std.specs.Prelude.{◌≡◌, ◌<◌, ◌≤◌, true, false, length};
ghost use Rattle.ledger.specs.Table.{question_of};
ghost use Rattle.stock.specs.Marks.{with_mark, ClearAt};
ghost use Rattle.stock.specs.Rows.{bundle_in, as_question};

use crate::gather::gather;
use crate::row::CulmRow;
use ledger::member::Member;
use quantities::bundle::Bundle;

// While it lives, one row of the culm table is set aside.
pub struct Aside<'a> {
    rows: &'a mut [CulmRow],
    at: usize,
}

impl<'a> Aside<'a> {
    fn mark(rows: &'a mut [CulmRow], at: usize) -> Self
        requires { at < length rows.old }
        ensures rows { result.rows.now ≡ with_mark true at rows.old }
        ensures at { result.at ≡ at }
        ensures lent { result.rows.ghost_name ≡ rows.entry.ghost_name }
    {
        rows[at].aside = true;
        Aside { rows, at }
    }

    // The bundle of `member` less the culm that is set aside.
    fn bundle(&self, member: &Member) -> Option<Bundle>
        requires { length (bundle_in member.now.number self.now.rows.now) ≤ 16 }
        ensures { as_question result member.now ≡ question_of (bundle_in member.now.number self.now.rows.now) member.now }
    {
        gather(self.rows, member)
    }
}

impl Drop for Aside<'_> {
    fn drop(self)
        requires { self.at < length self.rows.now }
        ensures { self.exit.0.now ≡ with_mark false self.entry.at self.entry.rows.now }
    {
        self.rows[self.at].aside = false;
        let Aside { rows: _, at: _ } = self;
    }
}

// The bundle of `member` without the culm of the row `at`, which is back in its bundle however this ends.
pub fn gather_without(rows: &mut [CulmRow], at: usize, member: &Member) -> Option<Bundle>
    requires place { at < length rows.old }
    requires clear { ClearAt at rows.old }
    requires few { length (bundle_in member.now.number (with_mark true at rows.old)) ≤ 16 }
    ensures answer { as_question result member.now ≡ question_of (bundle_in member.now.number (with_mark true at rows.old)) member.now }
    ensures same { rows.new ≡ rows.old }
{
    let guard = Aside::mark(rows, at);
    guard.bundle(member)
}
